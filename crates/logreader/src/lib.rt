// A reader that keeps the caller's log sheet and its own place, and is asked for one record at a time; and a log read record by record, each asked of
// a reader, from the place that the one before keeps.
#![tactic(auto)]

ghost use Rattle.std.specs.Prelude.{◌≡◌, ◌*◌, ◌≤◌, pos, length, drop};
ghost use Rattle.record.specs.Layout.{width};
ghost use Rattle.lines.specs.Inner.{ReadInto};
ghost use Rattle.lines.specs.Kinds.{K};
ghost use Rattle.reading.specs.Inner.{LinesOf};
ghost use Rattle.heading.specs.Heading.{most_digits};
ghost use Rattle.logform.specs.Inner.{WhatIsLeft};
ghost use Rattle.logreader.specs.Outcome.{place_after, Asked, AnsweredAt, EachRecord};

use logrecords::Next;
use logsheet::LogCounts;
use refusal::Refusal;
use text::Cursor;

// The caller's sheet, and the place of the record that is asked for next.
#[derive(Clone, Copy)]
pub struct Reader<'a> {
    pub bytes: &'a [u8],
    pub at: usize,
}

// A reader of a sheet at a place.
pub fn reader_at<'a>(bytes: &'a [u8], from: Cursor) -> Reader<'a>
    ensures { (result.bytes ≡ bytes.entry) × (result.at ≡ from.at) }
{
    Reader {
        bytes: bytes,
        at: from.at,
    }
}

// Where a reader stands once it was answered so.
fn place_after(found: Next, at: usize) -> usize
    ensures { result ≡ place_after found at }
{
    match found {
        Next::Found(_, after) => after.at,
        Next::End(_) => at,
        Next::Bad => at,
    }
}

// The record at the reader's place; the reader moves past it.
pub fn next<'s, 'a>(r: &'s mut Reader<'a>) -> Next
    ensures { Asked r.old r.new result }
{
    let at = r.at;
    let found = logrecords::next_record(r.bytes, Cursor { at: at });
    r.at = place_after(found, at);
    found
}

// What a reader answered, and where it stands then.
#[derive(Clone, Copy)]
pub struct Answered {
    pub next: Next,
    pub at: usize,
}

// The record at a place of a sheet, asked of a reader that is made there; and the place that the reader then keeps.
pub fn ask(bytes: &[u8], from: Cursor) -> Answered
    ensures { AnsweredAt bytes.now from.at result }
{
    let mut r = reader_at(bytes, from);
    let found = next(&mut r);
    Answered {
        next: found,
        at: r.at,
    }
}

// Counts the records from a place on, to the end; none where something else stands there.
fn records_on(bytes: &[u8], from: Cursor) -> Option<usize>
    ensures { WhatIsLeft (drop from.at bytes.now) result }
{
    let mut k = from.at;
    let mut count: usize = 0;
    // no range: the next place is the one that a line's reader answers
    while k < bytes.len() {
        let answered = ask(bytes, Cursor { at: k });
        let Next::Found(_, _) = answered.next else {
            return None;
        };
        k = answered.at;
        count += 1;
    }
    Some(count)
}

// Puts so many records from a place on in front of the log.
fn put_records(bytes: &[u8], from: Cursor, count: usize, log: &mut [u32]) -> Option<Cursor>
    requires { count * width ≤ length log.old }
    ensures { ReadInto (LinesOf pos most_digits K width count (drop from.at bytes.now)) (count * width) bytes.now log.old 0 log.new result }
{
    let mut k = from.at;
    for i in 0..count {
        let answered = ask(bytes, Cursor { at: k });
        let Next::Found(r, _) = answered.next else {
            return None;
        };
        record::write_record(log, i * record::WIDTH, r);
        k = answered.at;
    }
    Some(Cursor { at: k })
}

// Reads a log sheet record by record: its numbers go in front of the lent room, and the rest of it stays. The records are counted first, so that
// nothing is written where it is refused. They are not held against the corners.
pub fn each_record(bytes: &[u8], log: &mut [u32]) -> Result<LogCounts, Refusal>
    ensures { EachRecord bytes.now log.old log.new result }
{
    let opened = logrecords::open_log_sheet(bytes)?;
    let Some(k) = records_on(bytes, opened.after) else {
        return Err(Refusal::SheetForm);
    };
    if log.len() < k * record::WIDTH {
        return Err(Refusal::RoomShort);
    }
    put_records(bytes, opened.after, k, log);
    Ok(LogCounts {
        corners: opened.corners,
        rows: opened.rows,
        records: k,
    })
}
