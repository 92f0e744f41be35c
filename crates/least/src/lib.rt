// The least edge that qualifies: smallest lower number, then smallest higher number.
#![tactic(auto)]

ghost use Rattle.std.specs.Prelude.{◌≤◌, length};
ghost use Rattle.surface.specs.Limits.{most_corners};
ghost use Rattle.surface.specs.Rows.{rows};
ghost use Rattle.refusal.specs.InnerTells.{Tells};
ghost use Rattle.neighbours.specs.Around.{Neighbours, Marked, Unmarked};
ghost use Rattle.least.specs.Limited.{Allowed};
ghost use Rattle.least.specs.Inner.{MeasurableAt};
ghost use Rattle.least.specs.InnerSearch.{Searchable, SearchableAt, FoundAt, FoundLeast};

use record::Corner;

// Whether the edge ab is short enough. The bound is an order's limit in whole centimetres, where it has one: its squared length is at most the squared limit.
fn allowed(xs: &[i32], bound: Option<u64>, a: Corner, b: Corner) -> bool
    requires { MeasurableAt bound xs.now a.0 × MeasurableAt bound xs.now b.0 }
    ensures { Tells result (Allowed bound xs.now a.0 b.0) (¬ Allowed bound xs.now a.0 b.0) }
{
    match bound {
        None => true,
        Some(l) => distance::within(xs, a.0, b.0, l),
    }
}

// The least edge from a upward that qualifies. The neighbours of a, which ring lists and near marks, are tried in rising order: the limit first,
// since the link condition costs more. second and far are the link test's scratch.
fn least_marked(
    t: &[u32],
    last: &[usize],
    prev: &[usize],
    xs: &[i32],
    bound: Option<u64>,
    a: Corner,
    ring: &[u32],
    near: &[u8],
    second: &mut [u32],
    far: &mut [u8],
) -> Option<(Corner, Corner)>
    requires searchable_at { SearchableAt t.now last.now prev.now bound xs.now a.0 }
    requires neighbours { Neighbours (rows t.now) a.0 ring.now × Marked ring.now near.now }
    requires most_corners_in_bounds { most_corners ≤ length second.old }
    requires unmarked { Unmarked far.old }
    ensures found_at { FoundAt (Allowed bound xs.now) (rows t.now) a.0 result }
    ensures unmarked_2 { Unmarked far.new }
{
    let mut past = a.0;
    while let Some(b) = rising::next_above(ring, near, past) {
        if allowed(xs, bound, a, Corner(b)) {
            if link::meets_round(t, last, prev, ring, near, Corner(b), second, far) {
                return Some((a, Corner(b)));
            }
        }
        past = b;
    }
    None
}

// The same of a corner whose neighbours ring lists: near marks them for the search, and is blank again after it.
fn least_at(
    t: &[u32],
    last: &[usize],
    prev: &[usize],
    xs: &[i32],
    bound: Option<u64>,
    a: Corner,
    ring: &[u32],
    near: &mut [u8],
    second: &mut [u32],
    far: &mut [u8],
) -> Option<(Corner, Corner)>
    requires searchable_at { SearchableAt t.now last.now prev.now bound xs.now a.0 }
    requires neighbours { Neighbours (rows t.now) a.0 ring.now }
    requires most_corners_in_bounds { most_corners ≤ length second.old }
    requires unmarked { Unmarked near.old × Unmarked far.old }
    ensures found_at { FoundAt (Allowed bound xs.now) (rows t.now) a.0 result }
    ensures unmarked_2 { Unmarked near.new × Unmarked far.new }
{
    neighbours::mark(ring, near);
    let found = least_marked(t, last, prev, xs, bound, a, ring, near, second, far);
    neighbours::unmark(ring, near);
    found
}

// Inner: the least edge that qualifies, its lower number first, if any does. Corners are tried in rising order. The rest is scratch: room for the ring
// of a corner and marks for it, and the same for the link test; the marks are blank again when the search ends.
pub fn least_edge(
    t: &[u32],
    n: usize,
    last: &[usize],
    prev: &[usize],
    xs: &[i32],
    bound: Option<u64>,
    ring: &mut [u32],
    near: &mut [u8],
    second: &mut [u32],
    far: &mut [u8],
) -> Option<(Corner, Corner)>
    requires searchable { Searchable n t.now last.now prev.now bound xs.now }
    requires most_corners_in_bounds { (most_corners ≤ length ring.old) × (most_corners ≤ length second.old) }
    requires unmarked { Unmarked near.old × Unmarked far.old }
    ensures found_least { FoundLeast (Allowed bound xs.now) (rows t.now) result }
    ensures unmarked_2 { Unmarked near.new × Unmarked far.new }
{
    for a in 0..n {
        let corner = Corner(a as u32);
        let k = neighbours::gather(t, last, prev, corner, ring);
        let found = least_at(
            t,
            last,
            prev,
            xs,
            bound,
            corner,
            &ring[..k],
            near,
            second,
            far,
        );
        if found.is_some() {
            return found;
        }
    }
    None
}
