// The log sheet: a log as text, written and read whole or refused.
#![tactic(auto)]

ghost use Rattle.std.specs.Prelude.{◌<◌, ◌↔◌, IsTrue, slice_index, EachIndex};
ghost use Rattle.refusal.specs.InnerTells.{Tells};
ghost use Rattle.logsheet.specs.Outcome.{ReadLogSheet, Writable, WroteLogSheet};

use refusal::Refusal;

// A number over six digits cannot be written.
const TOO_LARGE: u32 = 1000000;

// The corner count, row count and records of a log sheet that was read.
#[derive(Clone, Copy)]
pub struct LogCounts {
    pub corners: usize,
    pub rows: usize,
    pub records: usize,
}

// Reads a log sheet: its numbers go in front of the lent room, and the rest of it stays. The lines are passed over first, so that nothing is
// written where it is refused.
pub fn read_log_sheet(bytes: &[u8], log: &mut [u32]) -> Result<LogCounts, Refusal>
    ensures { ReadLogSheet bytes.now log.old log.new result }
{
    let Some(form) = logform::read_log_form(bytes) else {
        return Err(Refusal::SheetForm);
    };
    let k = form.records;
    if !logform::counts_in(form.corners, form.rows, k) {
        return Err(Refusal::CountsOutside);
    }
    if log.len() < k * record::WIDTH {
        return Err(Refusal::RoomShort);
    }
    reading::number_lines(
        bytes,
        form.after,
        b"K",
        heading::MOST_DIGITS,
        record::WIDTH,
        k,
        log,
    );
    Ok(LogCounts {
        corners: form.corners,
        rows: form.rows,
        records: k,
    })
}

// Whether each number has at most six digits.
fn short(log: &[u32]) -> bool
    ensures { IsTrue result ↔ EachIndex log.now (λ k. slice_index log.now k < TOO_LARGE) }
{
    log.iter().all(|n| *n < TOO_LARGE)
}

// Whether a log can be written as a sheet.
fn writable(n: usize, m: usize, log: &[u32]) -> bool
    ensures { Tells result (Writable n m log.now) (¬ Writable n m log.now) }
{
    if log.len() % record::WIDTH != 0 {
        return false;
    }
    if !logform::counts_in(n, m, log.len() / record::WIDTH) {
        return false;
    }
    short(log)
}

// Writes a log as a sheet in front of the lent text; the rest of it stays. Refused, it leaves the text as it was.
pub fn write_log_sheet(n: usize, m: usize, log: &[u32], text: &mut [u8]) -> Result<usize, Refusal>
    ensures { WroteLogSheet n m log.now text.old text.new result }
{
    if !writable(n, m, log) {
        return Err(Refusal::CountsOutside);
    }
    let counts = [n as i64, m as i64];
    let records = log.len() / record::WIDTH;
    // the word and the newline of each line, and all fields
    let words = 4 + 2 * records;
    let fields = writing::fields_length(&counts) + writing::fields_length(log);
    if text.len() < words + fields {
        return Err(Refusal::RoomShort);
    }
    let first = writing::write_line(text, 0, b"LOG", &counts);
    Ok(writing::number_lines(text, first, b"K", log, record::WIDTH, records))
}
