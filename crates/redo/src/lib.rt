// A record done again in place, where it is accepted.
#![tactic(auto)]

ghost use Rattle.std.specs.Prelude.{◌≡◌, ◌*◌, ◌≤◌, ◌<◌, length};
ghost use Rattle.surface.specs.Limits.{most_corners};
ghost use Rattle.surface.specs.Rows.{rows};
ghost use Rattle.surface.specs.InnerStageTable.{StageTable};
ghost use Rattle.refusal.specs.InnerTells.{Tells};
ghost use Rattle.record.specs.Meant.{meant};
ghost use Rattle.record.specs.Front.{front_rows};
ghost use Rattle.neighbours.specs.Around.{Unmarked};
ghost use Rattle.redo.specs.Redo.{placed_as, Accepts, Redid};

pub use neighbours::Scratch;
use record::{Corner, Leaving, Record};

// Whether two rows with their places are the same.
fn same_leaving(a: Leaving, b: Leaving) -> bool
    ensures { Tells result (placed_as a ≡ placed_as b) (¬ (placed_as a ≡ placed_as b)) }
{
    if a.place.0 != b.place.0 {
        return false;
    }
    if a.a.0 != b.a.0 {
        return false;
    }
    if a.b.0 != b.b.0 {
        return false;
    }
    a.c.0 == b.c.0
}

// Whether a record is accepted on a stage: its step may be done, and writes this record.
fn accepts(
    t: &[u32],
    n: usize,
    r: Record,
    first: &mut [u32],
    near: &mut [u8],
    second: &mut [u32],
    far: &mut [u8],
) -> bool
    requires stage_table { StageTable n t.now }
    requires most_corners_in_bounds { (most_corners ≤ length first.old) × (most_corners ≤ length second.old) }
    requires unmarked { Unmarked near.old × Unmarked far.old }
    ensures tells { Tells result (Accepts (rows t.now) (meant r)) (¬ Accepts (rows t.now) (meant r)) }
    ensures unmarked_2 { Unmarked near.new × Unmarked far.new }
{
    if r.removed.0 <= r.kept.0 {
        return false;
    }
    if n <= r.removed.0 as usize {
        return false;
    }
    if !contractible::may_contract(t, n, r.kept, r.removed, first, near, second, far) {
        return false;
    }
    let e = leaving::record_of(t, r.kept, r.removed);
    if !same_leaving(e.earlier, r.earlier) {
        return false;
    }
    same_leaving(e.later, r.later)
}

// Inner: does a record again on the first rows of a lent table where it is accepted, and tells whether it is. The rest is the link test's
// scratch: room for two rings, and marks for each, blank again when it is told.
pub fn redo(
    table: &mut [u32],
    rows: usize,
    corners: usize,
    r: Record,
    first: &mut [u32],
    near: &mut [u8],
    second: &mut [u32],
    far: &mut [u8],
) -> bool
    requires stage_table { StageTable corners (front_rows rows table.old) }
    requires rows_in_bounds { 3 * rows ≤ length table.old }
    requires most_corners_in_bounds { (most_corners ≤ length first.old) × (most_corners ≤ length second.old) }
    requires unmarked { Unmarked near.old × Unmarked far.old }
    ensures redid { Redid rows (meant r) table.old result table.new }
    ensures unmarked_2 { Unmarked near.new × Unmarked far.new }
{
    let end = 3 * rows;
    if !accepts(&table[..end], corners, r, first, near, second, far) {
        return false;
    }
    step::contract_front(table, rows, r.kept, r.removed);
    true
}
