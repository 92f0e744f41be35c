// The record of a flip, and its eight numbers in a log.
#![tactic(auto)]

ghost use Rattle.std.specs.Prelude.{◌≡◌, ◌+◌, ◌≤◌, length, drop};
ghost use Rattle.std.proofs.lemmas.List.Edits.{sets};
ghost use Rattle.fliplog.specs.Layout.{width, numbers, flip_in};
ghost use Rattle.fliplog.specs.InnerMeant.{meant};
ghost use Rattle.fliplog.specs.Inner.{ReadRow};

use record::{Corner, Leaving, Place};

// Two rows with their places: the old ones that a flip logs, (a, b, c) and then (b, a, d), or the new ones that it writes there.
#[derive(Clone, Copy)]
pub struct FlipRecord {
    pub first: Leaving,
    pub second: Leaving,
}

// Numbers a record of a flip.
pub const WIDTH: usize = 8;

// Reads a row with its place.
fn read_row(log: &[u32], i: usize) -> Leaving
    requires { i + 4 ≤ length log.now }
    ensures { ReadRow log.now i result }
{
    Leaving {
        place: Place(log[i]),
        a: Corner(log[i + 1]),
        b: Corner(log[i + 2]),
        c: Corner(log[i + 3]),
    }
}

// Inner: reads the record whose numbers stand in the log from place i on.
pub fn read_flip(log: &[u32], i: usize) -> FlipRecord
    requires { i + width ≤ length log.now }
    ensures { meant result ≡ flip_in (drop i log.now) }
{
    let first = read_row(log, i);
    let second = read_row(log, i + 4);
    FlipRecord {
        first: first,
        second: second,
    }
}

// Inner: writes a record's numbers into the log from place i on.
pub fn write_flip(log: &mut [u32], i: usize, r: FlipRecord)
    requires { i + width ≤ length log.old }
    ensures { log.new ≡ sets log.old i (numbers (meant r)) }
{
    let first = r.first;
    let second = r.second;
    record::write_leaving(log, i, first);
    record::write_leaving(log, i + 4, second);
}
