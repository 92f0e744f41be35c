// The neighbours of a corner: gathered by walking its slots, and marked.
#![tactic(auto)]

ghost use Rattle.std.specs.Prelude.{◌≤◌, ◌<◌, length};
ghost use Rattle.surface.specs.Limits.{most_corners};
ghost use Rattle.surface.specs.Rows.{rows};
ghost use Rattle.neighbours.specs.Around.{Charted, Gathered, CornerNumbers, Marked, Unmarked};

use record::Corner;

// Inner: writes the neighbours of v to the front of ring, each once; answers how many. Each slot of v has one of them next to it.
pub fn gather(t: &[u32], last: &[usize], prev: &[usize], v: Corner, ring: &mut [u32]) -> usize
    requires charted { Charted t.now last.now prev.now }
    requires v_in_bounds { v.0 < length last.now }
    requires most_corners_in_bounds { most_corners ≤ length ring.old }
    ensures { Gathered (rows t.now) v.0 ring.new result }
{
    let corner = v.0 as usize;
    let mut x = last[corner];
    let mut k: usize = 0;
    while x != 0 {
        ring[k] = t[slots::next(x - 1)];
        k += 1;
        x = prev[x - 1];
    }
    k
}

// Inner: marks the numbers of a ring.
pub fn mark(ring: &[u32], m: &mut [u8])
    requires corner_numbers { CornerNumbers ring.now }
    requires unmarked { Unmarked m.old }
    ensures { Marked ring.now m.new }
{
    for w in ring {
        m[*w as usize] = 1;
    }
}

// Inner: takes the marks of a ring away again.
pub fn unmark(ring: &[u32], m: &mut [u8])
    requires { Marked ring.now m.old }
    ensures { Unmarked m.new }
{
    for w in ring {
        m[*w as usize] = 0;
    }
}

// What the link test works in: room for the neighbours of each corner of an edge, and marks for them, blank while no test runs.
#[derive(Drop)]
pub struct Scratch {
    pub first: [u32; surface::MOST_CORNERS],
    pub near: [u8; surface::MOST_CORNERS],
    pub second: [u32; surface::MOST_CORNERS],
    pub far: [u8; surface::MOST_CORNERS],
    pub ghost near_unmarked: { Unmarked near },
    pub ghost far_unmarked: { Unmarked far },
}

impl Scratch {
    // Inner: scratch with no mark.
    pub fn new() -> Self
        ensures { Unmarked result.near × Unmarked result.far }
    {
        Scratch {
            first: [0; surface::MOST_CORNERS],
            near: [0; surface::MOST_CORNERS],
            second: [0; surface::MOST_CORNERS],
            far: [0; surface::MOST_CORNERS],
        }
    }
}
