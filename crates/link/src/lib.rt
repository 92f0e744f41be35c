// The ring chooser, and the published link condition as a test, at a corner whose neighbours are gathered.
#![tactic(auto)]

ghost use Rattle.std.specs.Prelude.{◌≤◌, ◌<◌, length};
ghost use Rattle.surface.specs.Limits.{most_corners};
ghost use Rattle.surface.specs.Lists.{◌∈◌, Distinct, Exactly};
ghost use Rattle.surface.specs.Rows.{rows};
ghost use Rattle.link.specs.Chosen.{Chosen};
ghost use Rattle.neighbours.specs.Around.{Charted, CornerNumbers, Marked, Unmarked};
ghost use Rattle.link.specs.InnerBoth.{Both, MarkedOf, TellsEdge};

use record::Corner;

// The numbers of four rows: the tetrahedron.
const FOUR_ROWS: usize = 12;

// The shorter of two lent rings, the first when they are equally long.
pub fn shorter_ring<'a>(first: &'a [u32], second: &'a [u32]) -> &'a [u32]
    ensures { Chosen first.entry second.entry result }
{
    if second.len() < first.len() {
        second
    } else {
        first
    }
}

// How many numbers of a ring are marked.
fn marked_of(ring: &[u32], marks: &[u8]) -> usize
    requires distinct { Distinct ring.now × CornerNumbers ring.now }
    requires most_corners_in_bounds { most_corners ≤ length marks.now }
    ensures { Exactly (MarkedOf ring.now marks.now) result }
{
    let mut k: usize = 0;
    for w in ring {
        if marks[*w as usize] != 0 {
            k += 1;
        }
    }
    k
}

// How many numbers stand in both rings, of which near marks the first. The shorter one has them all: it is walked, and each of its numbers is looked
// up in the marks of the other. The second is marked only where the first is walked; far is blank again when the count is told.
fn common<'a>(first: &'a [u32], second: &'a [u32], near: &[u8], far: &mut [u8]) -> usize
    requires distinct { Distinct first.now × Distinct second.now }
    requires marked { Marked first.now near.now × CornerNumbers second.now }
    requires unmarked { Unmarked far.old }
    ensures exactly { Exactly (Both first.now second.now) result }
    ensures unmarked_2 { Unmarked far.new }
{
    let ring = shorter_ring(first, second);
    if ring.len() < first.len() {
        return marked_of(ring, near);
    }
    neighbours::mark(second, far);
    let k = marked_of(ring, far);
    neighbours::unmark(second, far);
    k
}

// Inner: whether the edge from b to a corner whose neighbours first lists may be contracted; b is one of them, and near marks them.
// On four rows none may, and past them the two corners opposite an edge are the only common neighbours exactly when there are two.
// second and far are scratch: room for the ring of b, and marks that are blank again when it is told.
pub fn meets_round(
    t: &[u32],
    last: &[usize],
    prev: &[usize],
    first: &[u32],
    near: &[u8],
    b: Corner,
    second: &mut [u32],
    far: &mut [u8],
) -> bool
    requires charted { Charted t.now last.now prev.now }
    requires distinct { Distinct first.now × (b.0 ∈ first.now) }
    requires marked { Marked first.now near.now }
    requires b_in_bounds { b.0 < length last.now }
    requires most_corners_in_bounds { most_corners ≤ length second.old }
    requires unmarked { Unmarked far.old }
    ensures tells_edge { TellsEdge (rows t.now) first.now b.0 result }
    ensures unmarked_2 { Unmarked far.new }
{
    if t.len() <= FOUR_ROWS {
        return false;
    }
    let k = neighbours::gather(t, last, prev, b, second);
    common(first, &second[..k], near, far) == 2
}
