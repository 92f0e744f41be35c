// A log sheet's form: its size, its first line, and lines of records to its end. Nothing is written: lines are passed over and counted.
#![tactic(auto)]

ghost use Rattle.refusal.specs.InnerTells.{Tells};
ghost use Rattle.logform.specs.LogSheet.{CountsIn};
ghost use Rattle.logform.specs.Inner.{PassedOver, WhatIsLeft, ReadLogForm};
ghost use Rattle.std.specs.Prelude.{drop};

use text::Cursor;

// A log sheet's size limit.
pub const MOST_LOG_BYTES: usize = 65536;

// A log sheet in its form: its corner count, row count and records, and the place after its first line.
#[derive(Clone, Copy)]
pub struct LogForm {
    pub corners: usize,
    pub rows: usize,
    pub records: usize,
    pub after: Cursor,
}

// Inner: whether the counts are inside their limits, and the records no more than the corners allow.
pub fn counts_in(n: usize, m: usize, records: usize) -> bool
    ensures { Tells result (CountsIn n m records) (¬ CountsIn n m records) }
{
    if n < surface::LEAST_CORNERS {
        return false;
    }
    if surface::MOST_CORNERS < n {
        return false;
    }
    if m < surface::LEAST_ROWS {
        return false;
    }
    if surface::MOST_ROWS < m {
        return false;
    }
    if n - surface::LEAST_CORNERS < records {
        return false;
    }
    true
}

// Passes over a record's line.
fn pass_line(s: &[u8], from: Cursor) -> Option<Cursor>
    ensures { PassedOver s.now from.at result }
{
    let mut numbers = [0u32; record::WIDTH];
    lines::read_line(
        s,
        from,
        b"K",
        heading::MOST_DIGITS,
        &mut numbers,
        0,
        record::WIDTH,
    )
}

// Passes over lines of records to the end, and counts them; none where something else stands there.
fn lines_left(s: &[u8], from: Cursor) -> Option<usize>
    ensures { WhatIsLeft (drop from.at s.now) result }
{
    let mut here = from;
    let mut count: usize = 0;
    // no range: the next place is the one that a line's reader answers
    while here.at < s.len() {
        here = pass_line(s, here)?;
        count += 1;
    }
    Some(count)
}

// Inner: size, first line, lines of records to the end; none where it is not in its form.
pub fn read_log_form(bytes: &[u8]) -> Option<LogForm>
    ensures { ReadLogForm bytes.now result }
{
    if MOST_LOG_BYTES < bytes.len() {
        return None;
    }
    let first = heading::first_line(bytes, b"LOG")?;
    let records = lines_left(bytes, first.after)?;
    Some(LogForm {
        corners: first.corners,
        rows: first.rows,
        records,
        after: first.after,
    })
}
