// The numbers of a ring in rising order: the least above one that is passed.
#![tactic(auto)]

ghost use Rattle.std.specs.Prelude.{◌≡◌, ◌≤◌, length, min, nat_lt};
ghost use Rattle.std.specs.List.{filter, reduce};
ghost use Rattle.surface.specs.Limits.{most_corners};
ghost use Rattle.neighbours.specs.Around.{CornerNumbers, Marked};
ghost use Rattle.rising.specs.Next.{NextAbove, NextMarked};

// Above every number that a ring may have.
const NONE: u32 = surface::MOST_CORNERS as u32;

// The least number of a ring above past. What is not above counts as NONE, so that no turn jumps: a filter jumps for each number, in rings without order
// by chance, and thinning under a limit took half as long again.
fn least_above(ring: &[u32], past: u32) -> Option<u32>
    requires { CornerNumbers ring.now }
    ensures { result ≡ reduce min (filter (λ w. nat_lt past w) ring.now) }
{
    let mut least = NONE;
    for w in ring {
        least = least.min(if past < *w { *w } else { NONE });
    }
    (least < NONE).then_some(least)
}

// The first number above past that is marked, if it is among the next few.
fn next_marked(near: &[u8], past: u32, few: usize) -> Option<u32>
    requires { most_corners ≤ length near.now }
    ensures { NextMarked near.now past result }
{
    let first = past as usize + 1;
    for w in first..first.saturating_add(few).min(surface::MOST_CORNERS) {
        if near[w] != 0 {
            return Some(w as u32);
        }
    }
    None
}

// Inner: the least number above past of a ring that near marks. In a long ring it mostly stands among as many next numbers as the ring has; a short
// ring is soon looked through.
pub fn next_above(ring: &[u32], near: &[u8], past: u32) -> Option<u32>
    requires { Marked ring.now near.now }
    ensures { NextAbove ring.now past result }
{
    match next_marked(near, past, ring.len()) {
        Some(w) => Some(w),
        None => least_above(ring, past),
    }
}
