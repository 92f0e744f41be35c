// The record of a step: the two rows that leave, with their places.
#![tactic(auto)]

ghost use Rattle.std.specs.Prelude.{◌*◌, ◌≤◌, length};
ghost use Rattle.surface.specs.Limits.{most_rows};
ghost use Rattle.leaving.specs.Leaving.{MayStep, NextLeaving, SomeLeaves, Recorded};

use record::{Corner, Leaving, Place, Record};

// The first row from a place on that leaves.
fn next_leaving(t: &[u32], from: Place, a: u32, b: u32) -> Leaving
    requires t_len_bound { length t.now ≤ 3 * most_rows }
    requires some_leaves { SomeLeaves a b t.now from.0 }
    ensures { NextLeaving a b t.now from.0 result }
{
    let mut p = from.0 as usize;
    // Not a `for`, whose end would need an answer though it is never reached: some row leaves.
    while !shrink::row_leaves(a, b, t[3 * p], t[3 * p + 1], t[3 * p + 2]) {
        p += 1;
    }
    Leaving {
        place: Place(p as u32),
        a: Corner(t[3 * p]),
        b: Corner(t[3 * p + 1]),
        c: Corner(t[3 * p + 2]),
    }
}

// Inner: the record of contracting the edge; nothing is written.
pub fn record_of(t: &[u32], kept: Corner, removed: Corner) -> Record
    requires { MayStep t.now kept.0 removed.0 }
    ensures { Recorded t.now kept.0 removed.0 result }
{
    let earlier = next_leaving(t, Place(0), kept.0, removed.0);
    let later = next_leaving(t, Place(earlier.place.0 + 1), kept.0, removed.0);
    Record {
        kept,
        removed,
        earlier,
        later,
    }
}
