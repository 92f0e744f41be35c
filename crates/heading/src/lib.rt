// The first line of a sheet: its word, the corner count and the row count.
#![tactic(auto)]

ghost use Rattle.heading.specs.Inner.{ReadFirst};

use text::Cursor;

// Numbers of a sheet have one to six digits.
pub const MOST_DIGITS: usize = 6;

// The first line's corner count, row count and the place after it.
#[derive(Clone, Copy)]
pub struct Heading {
    pub corners: usize,
    pub rows: usize,
    pub after: Cursor,
}

// Inner: the first line of the word w, where it is in its form.
pub fn first_line(bytes: &[u8], w: &[u8]) -> Option<Heading>
    ensures { ReadFirst w.now bytes.now result }
{
    let mut counts = [0u32; 2];
    let start = Cursor { at: 0 };
    let after = lines::read_line(bytes, start, w, MOST_DIGITS, &mut counts, 0, 2)?;
    Some(Heading {
        corners: counts[0] as usize,
        rows: counts[1] as usize,
        after,
    })
}
