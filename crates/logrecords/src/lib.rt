// The records of a log sheet, one at a time: opened, then the record at a place. The caller keeps the sheet and the place.
#![tactic(auto)]

ghost use Rattle.logrecords.specs.Outcome.{OpenedLog, NextRecord};

use heading::Heading;
use record::Record;
use refusal::Refusal;
use text::Cursor;

// A record and the place after its line, the end, or that something else stands there. Three cases: what is told of the end names its place.
#[derive(Clone, Copy)]
pub enum Next {
    Found(Record, Cursor),
    End(Cursor),
    Bad,
}

// Opens a log sheet: size, first line, counts.
pub fn open_log_sheet(bytes: &[u8]) -> Result<Heading, Refusal>
    ensures { OpenedLog bytes.now result }
{
    if logform::MOST_LOG_BYTES < bytes.len() {
        return Err(Refusal::SheetForm);
    }
    let Some(first) = heading::first_line(bytes, b"LOG") else {
        return Err(Refusal::SheetForm);
    };
    if !logform::counts_in(first.corners, first.rows, 0) {
        return Err(Refusal::CountsOutside);
    }
    // where nothing is left, its reader's contract allows any place past the end; the end is meant
    let after = first.after.at.min(bytes.len());
    Ok(Heading {
        corners: first.corners,
        rows: first.rows,
        after: Cursor { at: after },
    })
}

// The record at a place of a log sheet, or of any bytes.
pub fn next_record(bytes: &[u8], from: Cursor) -> Next
    ensures { NextRecord bytes.now from.at result }
{
    if bytes.len() <= from.at {
        return Next::End(from);
    }
    let mut numbers = [0u32; record::WIDTH];
    let line = lines::read_line(
        bytes,
        from,
        b"K",
        heading::MOST_DIGITS,
        &mut numbers,
        0,
        record::WIDTH,
    );
    let Some(next) = line else {
        return Next::Bad;
    };
    // the end where nothing is left, as in opening
    let after = next.at.min(bytes.len());
    Next::Found(record::read_record(&numbers, 0), Cursor { at: after })
}
