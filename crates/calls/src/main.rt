// Every public call over a pipe: a request is read, its call made, the response written, until the requests end. Those that answer in numbers
// go through the C boundary.
#![tactic(auto)]

use across::{Counted, Measure};
use std::num::f64_from_bits_with_nan;
use words::{MOST_BYTES, MOST_NUMBERS};

// The numbers of the trial ring.
const RING: usize = 384;

// The greatest unit of a limit; 0 stands for no limit.
const LAST_UNIT: u32 = 4;

// ---- requests: what is read is lent to the call, and what was lent to be written is written back after its answer. There is None, and the next
// request may not be read, once a word was missing or not of its kind.

// An order or a limit: a unit from the first one on, and bits; every NaN is one figure here.
fn take_order(first_unit: u32) -> Option<(u32, f64)> {
    let unit = words::take()?;
    if unit < first_unit || LAST_UNIT < unit {
        return None;
    }
    Some((unit, f64_from_bits_with_nan(words::take()?)))
}

// The answer, and then table and log.
fn write_counted(a: Counted, table: &[u32], log: &[u32]) -> Option<()> {
    words::write_list(&[a.status, a.records])?;
    words::write_list(table)?;
    words::write_list(log)
}

// A thinning by the quick or the plain engine: unit and bits of the limit; table; corners; log.
fn call_thin(is_plain: bool) -> Option<()> {
    let (unit, figure) = take_order(0)?;
    let mut table = [0u32; MOST_NUMBERS];
    let table = words::take_list(&mut table)?;
    let mut corners = [0i32; MOST_NUMBERS];
    let corners = words::take_list(&mut corners)?;
    let mut log = [0u32; MOST_NUMBERS];
    let log = words::take_list(&mut log)?;
    let a = if is_plain {
        bridge::flaxglimmer_thin_plain(unit, figure, table, corners, log)
    } else {
        bridge::flaxglimmer_thin(unit, figure, table, corners, log)
    };
    write_counted(a, table, log)
}

// A recovery: unit and bits of the limit; table; corners; log; bytes.
fn call_recover() -> Option<()> {
    let (unit, figure) = take_order(0)?;
    let mut table = [0u32; MOST_NUMBERS];
    let table = words::take_list(&mut table)?;
    let mut corners = [0i32; MOST_NUMBERS];
    let corners = words::take_list(&mut corners)?;
    let mut log = [0u32; MOST_NUMBERS];
    let log = words::take_list(&mut log)?;
    let mut bytes = [0u8; MOST_BYTES];
    let bytes = words::take_list(&mut bytes)?;
    let mut kept: u64 = 0;
    let mut records: u64 = 0;
    let status = bridge::flaxglimmer_recover(
        unit,
        figure,
        table,
        corners,
        log,
        bytes,
        &mut kept,
        &mut records,
    );
    words::write_list(&[status, kept, records])?;
    words::write_list(table)?;
    words::write_list(log)
}

// Growing back: rows told and corner count; room; log.
fn call_grow() -> Option<()> {
    let rows = words::take()?;
    let corners = words::take()?;
    let mut room = [0u32; MOST_NUMBERS];
    let room = words::take_list(&mut room)?;
    let mut log = [0u32; MOST_NUMBERS];
    let log = words::take_list(&mut log)?;
    let a = bridge::flaxglimmer_grow_back(rows, corners, room, log);
    words::write_list(&[a.status, a.records])?;
    words::write_list(room)
}

// A replay, or the undoing of a flip log: corner count; table; log.
fn call_log(is_undo: bool) -> Option<()> {
    let corners = words::take()?;
    let mut table = [0u32; MOST_NUMBERS];
    let table = words::take_list(&mut table)?;
    let mut log = [0u32; MOST_NUMBERS];
    let log = words::take_list(&mut log)?;
    let a = if is_undo {
        bridge::flaxglimmer_undo_flips(corners, table, log)
    } else {
        bridge::flaxglimmer_replay(corners, table, log)
    };
    words::write_list(&[a.status, a.records])?;
    words::write_list(table)
}

// Flipping a list: corner count; table; edges; log.
fn call_flips() -> Option<()> {
    let corners = words::take()?;
    let mut table = [0u32; MOST_NUMBERS];
    let table = words::take_list(&mut table)?;
    let mut edges = [0u32; MOST_NUMBERS];
    let edges = words::take_list(&mut edges)?;
    let mut log = [0u32; MOST_NUMBERS];
    let log = words::take_list(&mut log)?;
    write_counted(
        bridge::flaxglimmer_flip_list(corners, table, edges, log),
        table,
        log,
    )
}

// What is told of a figure: its status and its word.
fn write_measure(a: Measure) -> Option<()> {
    words::write_list(&[a.status, word::word_of(a.figure)])
}

// A volume, or an exact sum: table; corners.
fn call_stage(is_exact: bool) -> Option<()> {
    let mut table = [0u32; MOST_NUMBERS];
    let table = words::take_list(&mut table)?;
    let mut corners = [0i32; MOST_NUMBERS];
    let corners = words::take_list(&mut corners)?;
    if !is_exact {
        return write_measure(bridge::flaxglimmer_volume(table, corners));
    }
    let mut whole: i64 = 0;
    let mut rest: u64 = 0;
    let status = bridge::flaxglimmer_exact_sum(table, corners, &mut whole, &mut rest);
    words::write_list(&[status, word::word_of(whole), rest])
}

// A change: earlier table; later table; corners.
fn call_change() -> Option<()> {
    let mut earlier = [0u32; MOST_NUMBERS];
    let earlier = words::take_list(&mut earlier)?;
    let mut later = [0u32; MOST_NUMBERS];
    let later = words::take_list(&mut later)?;
    let mut corners = [0i32; MOST_NUMBERS];
    let corners = words::take_list(&mut corners)?;
    write_measure(bridge::flaxglimmer_change(earlier, later, corners))
}

// A shift: corner; corners; log.
fn call_shift() -> Option<()> {
    let corner = words::take()?;
    let mut corners = [0i32; MOST_NUMBERS];
    let corners = words::take_list(&mut corners)?;
    let mut log = [0u32; MOST_NUMBERS];
    let log = words::take_list(&mut log)?;
    let mut standin: u64 = 0;
    let mut count: u64 = 0;
    let mut squared: u64 = 0;
    let status = bridge::flaxglimmer_shift(
        corner,
        corners,
        log,
        &mut standin,
        &mut count,
        &mut squared,
    );
    words::write_list(&[status, standin, count, squared])
}

// A limit: unit and bits; there is always one.
fn call_limit() -> Option<()> {
    let (unit, figure) = take_order(1)?;
    let a = bridge::flaxglimmer_limit(unit, figure);
    words::write_list(&[a.status, a.whole])
}

// Two lists of which one, or a part of one, is handed back: the ring chooser, and the catch-up part.
fn call_pair(is_catch_up: bool) -> Option<()> {
    let mut first = [0u32; MOST_NUMBERS];
    let first = words::take_list(&mut first)?;
    let mut second = [0u32; MOST_NUMBERS];
    let second = words::take_list(&mut second)?;
    words::write_list(if is_catch_up {
        catchup::catch_up(first, second)
    } else {
        link::shorter_ring(first, second)
    })
}

// A sheet: bytes; table; corners.
fn call_sheet() -> Option<()> {
    let mut bytes = [0u8; MOST_BYTES];
    let bytes = words::take_list(&mut bytes)?;
    let mut table = [0u32; MOST_NUMBERS];
    let table = words::take_list(&mut table)?;
    let mut corners = [0i32; MOST_NUMBERS];
    let corners = words::take_list(&mut corners)?;
    let mut count: u64 = 0;
    let mut rows: u64 = 0;
    let status = bridge::flaxglimmer_read_sheet(bytes, table, corners, &mut count, &mut rows);
    words::write_list(&[status, count, rows])?;
    words::write_list(table)?;
    words::write_list(corners)
}

// A job: bytes.
fn call_job() -> Option<()> {
    let mut bytes = [0u8; MOST_BYTES];
    let bytes = words::take_list(&mut bytes)?;
    write_measure(bridge::flaxglimmer_job(bytes))
}

// The desk's answer: bytes; text.
fn call_reply() -> Option<()> {
    let mut bytes = [0u8; MOST_BYTES];
    let bytes = words::take_list(&mut bytes)?;
    let mut text = [0u8; MOST_BYTES];
    let text = words::take_list(&mut text)?;
    let a = bridge::flaxglimmer_reply(bytes, text);
    words::write_list(&[a.status, a.bytes])?;
    words::write_list(text)
}

// The trial ring, number by number.
fn call_ring() -> Option<()> {
    let mut ring = [0u32; RING];
    for (i, x) in ring.iter_mut().enumerate() {
        *x = ring::trial_number(i).unwrap_or(0);
    }
    words::write_list(&ring)
}

// The call of a number; none may be read after a number that no call has.
fn call(number: u64) -> Option<()> {
    match number {
        1 => call_thin(false),
        2 => call_grow(),
        3 => call_log(false),
        4 => call_stage(false),
        5 => call_change(),
        6 => call_shift(),
        7 => call_limit(),
        8 => call_pair(false),
        9 => call_pair(true),
        10 => call_sheet(),
        11 => call_ring(),
        12 => call_reply(),
        13 => logcalls::call_write(),
        14 => logcalls::call_read(),
        15 => logcalls::call_each(),
        16 => call_recover(),
        17 => call_job(),
        18 => call_flips(),
        19 => call_log(true),
        20 => call_thin(true),
        24 => logcalls::call_open(),
        25 => logcalls::call_next(),
        26 => call_stage(true),
        _ => None,
    }
}

// One request.
fn serve() -> Option<()> {
    call(words::take()?)
}

// More requests than anyone sends: that it ends is proved, and so they are counted.
fn main() {
    for _ in 0..u64::MAX {
        if serve().is_none() {
            return;
        }
    }
}
