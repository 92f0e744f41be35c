// The plain engine: the least edge found and contracted, until no edge qualifies.
#![tactic(auto)]

ghost use Rattle.std.specs.Prelude.{◌≤◌, length};
ghost use Rattle.surface.specs.Limits.{most_corners};
ghost use Rattle.surface.specs.Rows.{rows};
ghost use Rattle.surface.specs.InnerStageTable.{StageTable};
ghost use Rattle.least.specs.Limited.{Allowed};
ghost use Rattle.least.specs.Inner.{Measurable};
ghost use Rattle.least.specs.InnerSearch.{FoundLeast};
ghost use Rattle.going.specs.Going.{CanGoOn, WentOn};

use neighbours::Scratch;
use record::Corner;

// The least edge of a stage that qualifies. The chains round its corners are built anew for each step.
fn next_edge(
    t: &[u32],
    n: usize,
    xs: &[i32],
    bound: Option<u64>,
    scratch: &mut Scratch,
) -> Option<(Corner, Corner)>
    requires stage_table { StageTable n t.now }
    requires measurable { Measurable bound n xs.now }
    ensures { FoundLeast (Allowed bound xs.now) (rows t.now) result }
{
    let mut last = [0usize; surface::MOST_CORNERS];
    let mut prev = [0usize; slots::MOST_SLOTS];
    slots::chains(t, &mut last, &mut prev);
    least::least_edge(
        t,
        n,
        &last,
        &prev,
        xs,
        bound,
        &mut scratch.first,
        &mut scratch.near,
        &mut scratch.second,
        &mut scratch.far,
    )
}

// Inner: goes on thinning the first rows of a lent table, with done records in the log already; answers how many records there are in all.
// The search's scratch is made once for all steps.
pub fn go_on(
    table: &mut [u32],
    rows: usize,
    n: usize,
    xs: &[i32],
    bound: Option<u64>,
    log: &mut [u32],
    done: usize,
) -> usize
    requires can_go_on { CanGoOn n table.old rows log.old done }
    requires measurable { Measurable bound n xs.now }
    ensures { WentOn (Allowed bound xs.now) table.old rows log.old done result table.new log.new }
{
    let mut scratch = Scratch::new();
    let mut r = rows;
    let mut k = done;
    while let Some((kept, removed)) = next_edge(&table[..3 * r], n, xs, bound, &mut scratch) {
        let e = step::contract_front(table, r, kept, removed);
        record::write_record(log, record::WIDTH * k, e);
        r -= 2;
        k += 1;
    }
    k
}
