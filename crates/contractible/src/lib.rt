// Whether an edge of a stage may be contracted.
#![tactic(auto)]

ghost use Rattle.std.specs.Prelude.{◌≤◌, ◌<◌, length};
ghost use Rattle.surface.specs.Limits.{most_corners};
ghost use Rattle.surface.specs.Lists.{Distinct};
ghost use Rattle.surface.specs.Rows.{rows};
ghost use Rattle.surface.specs.InnerStageTable.{StageTable};
ghost use Rattle.surface.specs.Link.{Meets};
ghost use Rattle.refusal.specs.InnerTells.{Tells};
ghost use Rattle.neighbours.specs.Around.{Charted, Marked, Unmarked};
ghost use Rattle.link.specs.InnerBoth.{TellsEdge};

use record::Corner;

// Whether the edge from b to a corner whose neighbours first lists may be contracted: near, which marks them, has b, and the link condition is met.
// second and far are the link test's scratch.
fn linked_round(
    t: &[u32],
    last: &[usize],
    prev: &[usize],
    first: &[u32],
    near: &[u8],
    b: Corner,
    second: &mut [u32],
    far: &mut [u8],
) -> bool
    requires charted { Charted t.now last.now prev.now × (most_corners ≤ length last.now) }
    requires distinct { Distinct first.now × Marked first.now near.now }
    requires b_lt_most_corners { b.0 < most_corners }
    requires most_corners_in_bounds { most_corners ≤ length second.old }
    requires unmarked { Unmarked far.old }
    ensures tells_edge { TellsEdge (rows t.now) first.now b.0 result }
    ensures unmarked_2 { Unmarked far.new }
{
    let i = b.0 as usize;
    if near[i] == 0 {
        return false;
    }
    link::meets_round(t, last, prev, first, near, b, second, far)
}

// Whether the edge ab may be contracted. The rest is scratch: room for the rings of a and b, and marks for each, blank again when it is told.
fn linked(
    t: &[u32],
    last: &[usize],
    prev: &[usize],
    a: Corner,
    b: Corner,
    first: &mut [u32],
    near: &mut [u8],
    second: &mut [u32],
    far: &mut [u8],
) -> bool
    requires charted { Charted t.now last.now prev.now × (most_corners ≤ length last.now) }
    requires a_lt_most_corners { (a.0 < most_corners) × (b.0 < most_corners) }
    requires most_corners_in_bounds { (most_corners ≤ length first.old) × (most_corners ≤ length second.old) }
    requires unmarked { Unmarked near.old × Unmarked far.old }
    ensures tells { Tells result (Meets (rows t.now) a.0 b.0) (¬ Meets (rows t.now) a.0 b.0) }
    ensures unmarked_2 { Unmarked near.new × Unmarked far.new }
{
    let k = neighbours::gather(t, last, prev, a, first);
    neighbours::mark(&first[..k], near);
    let r = linked_round(t, last, prev, &first[..k], near, b, second, far);
    neighbours::unmark(&first[..k], near);
    r
}

// Inner: whether the edge ab of a stage may be contracted. The chains round its corners are built anew for each edge asked; the rest is scratch:
// room for the rings of a and b, and marks for each, blank again when it is told.
pub fn may_contract(
    t: &[u32],
    n: usize,
    a: Corner,
    b: Corner,
    first: &mut [u32],
    near: &mut [u8],
    second: &mut [u32],
    far: &mut [u8],
) -> bool
    requires stage_table { StageTable n t.now }
    requires a_lt_n { (a.0 < n) × (b.0 < n) }
    requires most_corners_in_bounds { (most_corners ≤ length first.old) × (most_corners ≤ length second.old) }
    requires unmarked { Unmarked near.old × Unmarked far.old }
    ensures tells { Tells result (Meets (rows t.now) a.0 b.0) (¬ Meets (rows t.now) a.0 b.0) }
    ensures unmarked_2 { Unmarked near.new × Unmarked far.new }
{
    let mut last = [0usize; surface::MOST_CORNERS];
    let mut prev = [0usize; slots::MOST_SLOTS];
    slots::chains(t, &mut last, &mut prev);
    linked(t, &last, &prev, a, b, first, near, second, far)
}
