// The calls of log sheets over a pipe. As every call there: what is read is lent to the call, and what was lent to be written is written back after
// its answer. There is None, and the next request may not be read, once a word was missing or not of its kind.
#![tactic(auto)]

use words::{MOST_BYTES, MOST_NUMBERS};

// The numbers of the most records that the bytes of a log sheet can have: its first line has 8 bytes or more, the line of a record 22.
const MOST_LOGGED: usize = 2978 * record::WIDTH;

// The words of an answer before a record's numbers, and before those of all records.
const BEFORE_RECORD: usize = 3;

const BEFORE_RECORDS: usize = 4;

// Inner: a log sheet written: corner count and rows; log; text.
pub fn call_write() -> Option<()> {
    let corners = words::take()?;
    let rows = words::take()?;
    let mut log = [0u32; MOST_NUMBERS];
    let log = words::take_list(&mut log)?;
    let mut text = [0u8; MOST_BYTES];
    let text = words::take_list(&mut text)?;
    let a = bridge::flaxglimmer_write_log_sheet(corners, rows, log, text);
    words::write_list(&[a.status, a.bytes])?;
    words::write_list(text)
}

// Inner: a log sheet read: bytes; log.
pub fn call_read() -> Option<()> {
    let mut bytes = [0u8; MOST_BYTES];
    let bytes = words::take_list(&mut bytes)?;
    let mut log = [0u32; MOST_NUMBERS];
    let log = words::take_list(&mut log)?;
    let mut corners: u64 = 0;
    let mut rows: u64 = 0;
    let mut records: u64 = 0;
    let status = bridge::flaxglimmer_read_log_sheet(
        bytes,
        log,
        &mut corners,
        &mut rows,
        &mut records,
    );
    words::write_list(&[status, corners, rows, records])?;
    words::write_list(log)
}

// Inner: the records of a log sheet one at a time, by the reader: bytes.
pub fn call_each() -> Option<()> {
    let mut bytes = [0u8; MOST_BYTES];
    let bytes = words::take_list(&mut bytes)?;
    let mut log = [0u32; MOST_LOGGED];
    let mut corners: u64 = 0;
    let mut rows: u64 = 0;
    let mut records: u64 = 0;
    let status = bridge::flaxglimmer_each_record(
        bytes,
        &mut log,
        &mut corners,
        &mut rows,
        &mut records,
    );
    let numbers = usize::try_from(records).ok()?.checked_mul(record::WIDTH)?;
    let told = log.get(..numbers)?;
    words::write(BEFORE_RECORDS + told.len())?;
    words::write_each(&[status, corners, rows, records])?;
    words::write_each(told)
}

// Inner: a log sheet opened: bytes.
pub fn call_open() -> Option<()> {
    let mut bytes = [0u8; MOST_BYTES];
    let bytes = words::take_list(&mut bytes)?;
    let mut corners: u64 = 0;
    let mut rows: u64 = 0;
    let mut place: u64 = 0;
    let status = bridge::flaxglimmer_open_log_sheet(bytes, &mut corners, &mut rows, &mut place);
    words::write_list(&[status, corners, rows, place])
}

// Inner: the record at a place: bytes; place.
pub fn call_next() -> Option<()> {
    let mut bytes = [0u8; MOST_BYTES];
    let bytes = words::take_list(&mut bytes)?;
    let place = words::take()?;
    let mut found: u64 = 0;
    let mut after: u64 = 0;
    let mut numbers = [0u32; record::WIDTH];
    let status = bridge::flaxglimmer_next_record(
        bytes,
        place,
        &mut found,
        &mut after,
        &mut numbers,
    );
    words::write(BEFORE_RECORD + record::WIDTH)?;
    words::write_each(&[status, found, after])?;
    words::write_each(&numbers)
}
