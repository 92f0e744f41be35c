// The functions of `bridge` as other languages call them: each calls the one of its name, with the same clauses. tools/exports writes this file.
#![tactic(auto)]

ghost use Rattle.bridge.specs.Calls.{ThinShown, GrowShown, ReplayShown, VolumeShown, ChangeShown, ExactShown, ShiftShown, LimitShown, SheetShown, JobShown, FlipShown, UndoShown, ReplyShown, WriteLogShown, ReadLogShown, EachShown, RecoverShown, OpenShown, NextShown};
ghost use Rattle.bridge.specs.Lent.{TrialShown, RingShown, PartShown};

use across::{Centimetres, Counted, Measure, Stored, Written};

// Thins a first table under an order, by the quick engine where there is no limit.
#[unsafe(no_mangle)]
pub extern "C" fn flaxglimmer_thin(
    unit: u32,
    figure: f64,
    table: &mut [u32],
    corners: &[i32],
    log: &mut [u32],
) -> Counted
    ensures { ThinShown unit figure corners.now table.old log.old result table.new log.new }
{
    bridge::flaxglimmer_thin(unit, figure, table, corners, log)
}

// The same by the plain engine, whatever the order.
#[unsafe(no_mangle)]
pub extern "C" fn flaxglimmer_thin_plain(
    unit: u32,
    figure: f64,
    table: &mut [u32],
    corners: &[i32],
    log: &mut [u32],
) -> Counted
    ensures { ThinShown unit figure corners.now table.old log.old result table.new log.new }
{
    bridge::flaxglimmer_thin_plain(unit, figure, table, corners, log)
}

// Grows a log back on the rows that stand in a room.
#[unsafe(no_mangle)]
pub extern "C" fn flaxglimmer_grow_back(
    rows: usize,
    corners: usize,
    room: &mut [u32],
    log: &[u32],
) -> Counted
    ensures { GrowShown corners rows room.old log.now result room.new }
{
    bridge::flaxglimmer_grow_back(rows, corners, room, log)
}

// Replays a log forward on a table.
#[unsafe(no_mangle)]
pub extern "C" fn flaxglimmer_replay(corners: usize, table: &mut [u32], log: &[u32]) -> Counted
    ensures { ReplayShown corners table.old log.now result table.new }
{
    bridge::flaxglimmer_replay(corners, table, log)
}

// The volume of a stage with its coordinates.
#[unsafe(no_mangle)]
pub extern "C" fn flaxglimmer_volume(table: &[u32], corners: &[i32]) -> Measure
    ensures { VolumeShown corners.now table.now result }
{
    bridge::flaxglimmer_volume(table, corners)
}

// The change from an earlier stage to a later one over the same coordinates.
#[unsafe(no_mangle)]
pub extern "C" fn flaxglimmer_change(earlier: &[u32], later: &[u32], corners: &[i32]) -> Measure
    ensures { ChangeShown corners.now earlier.now later.now result }
{
    bridge::flaxglimmer_change(earlier, later, corners)
}

// The exact sum of a stage with its coordinates: the status, and the whole part and the rest in lent numbers.
#[unsafe(no_mangle)]
pub extern "C" fn flaxglimmer_exact_sum(
    table: &[u32],
    corners: &[i32],
    whole: &mut i64,
    rest: &mut u64,
) -> u64
    ensures { ExactShown corners.now table.now (record { status = result; whole = whole.new; rest = rest.new }) }
{
    bridge::flaxglimmer_exact_sum(table, corners, whole, rest)
}

// The shift of a corner by a log that was written over these coordinates: the status, and stand-in, count and squared distance in lent numbers.
#[unsafe(no_mangle)]
pub extern "C" fn flaxglimmer_shift(
    corner: u32,
    corners: &[i32],
    log: &[u32],
    standin: &mut u64,
    count: &mut u64,
    squared: &mut u64,
) -> u64
    ensures { ShiftShown corners.now log.now corner (record { status = result; corner = standin.new; count = count.new; squared = squared.new }) }
{
    bridge::flaxglimmer_shift(corner, corners, log, standin, count, squared)
}

// A typed limit in whole centimetres. Unit 0 is none of its units.
#[unsafe(no_mangle)]
pub extern "C" fn flaxglimmer_limit(unit: u32, figure: f64) -> Centimetres
    ensures { LimitShown unit figure result }
{
    bridge::flaxglimmer_limit(unit, figure)
}

// Which of two lent rings is the shorter: 0 the first, also when they are equally long, or 1 the second.
#[unsafe(no_mangle)]
pub extern "C" fn flaxglimmer_shorter_ring<'a>(first: &'a [u32], second: &'a [u32]) -> u32
    ensures { RingShown first.entry second.entry result }
{
    bridge::flaxglimmer_shorter_ring(first, second)
}

// The part that the longer of two lent logs has more: which of the two it is of, 0 the first or 1 the second, and its places, from `from` up to, not with, `to`.
#[unsafe(no_mangle)]
pub extern "C" fn flaxglimmer_catch_up<'a>(
    first: &'a [u32],
    second: &'a [u32],
    from: &mut u64,
    to: &mut u64,
) -> u64
    ensures { PartShown first.entry second.entry (record { log = result; from = from.new; to = to.new }) }
{
    bridge::flaxglimmer_catch_up(first, second, from, to)
}

// Reads a sheet into a lent table and lent corners: the status, and corner count and row count in lent numbers.
#[unsafe(no_mangle)]
pub extern "C" fn flaxglimmer_read_sheet(
    bytes: &[u8],
    table: &mut [u32],
    corners: &mut [i32],
    count: &mut u64,
    rows: &mut u64,
) -> u64
    ensures { SheetShown bytes.now table.old table.new corners.old corners.new (record { status = result; corners = count.new; rows = rows.new }) }
{
    bridge::flaxglimmer_read_sheet(bytes, table, corners, count, rows)
}

// The net of the whole job on a sheet.
#[unsafe(no_mangle)]
pub extern "C" fn flaxglimmer_job(bytes: &[u8]) -> Measure
    ensures { JobShown bytes.now result }
{
    bridge::flaxglimmer_job(bytes)
}

// Flips a list of edges on a table, and logs the flips done.
#[unsafe(no_mangle)]
pub extern "C" fn flaxglimmer_flip_list(
    corners: usize,
    table: &mut [u32],
    edges: &[u32],
    log: &mut [u32],
) -> Counted
    ensures { FlipShown corners table.old edges.now log.old result table.new log.new }
{
    bridge::flaxglimmer_flip_list(corners, table, edges, log)
}

// Undoes a flip log on a table.
#[unsafe(no_mangle)]
pub extern "C" fn flaxglimmer_undo_flips(corners: usize, table: &mut [u32], log: &[u32]) -> Counted
    ensures { UndoShown corners table.old log.now result table.new }
{
    bridge::flaxglimmer_undo_flips(corners, table, log)
}

// The trial ring's number at a place of its table.
#[unsafe(no_mangle)]
pub extern "C" fn flaxglimmer_trial_number(at: usize) -> Stored
    ensures { TrialShown at result }
{
    bridge::flaxglimmer_trial_number(at)
}

// The desk's whole answer to a sheet, in front of the lent text.
#[unsafe(no_mangle)]
pub extern "C" fn flaxglimmer_reply(sheet: &[u8], text: &mut [u8]) -> Written
    ensures { ReplyShown sheet.now text.old result text.new }
{
    bridge::flaxglimmer_reply(sheet, text)
}

// Writes a log as a log sheet in front of the lent text.
#[unsafe(no_mangle)]
pub extern "C" fn flaxglimmer_write_log_sheet(
    corners: usize,
    rows: usize,
    log: &[u32],
    text: &mut [u8],
) -> Written
    ensures { WriteLogShown corners rows log.now text.old result text.new }
{
    bridge::flaxglimmer_write_log_sheet(corners, rows, log, text)
}

// Reads a log sheet into a lent log: the status, and corner count, row count and records in lent numbers.
#[unsafe(no_mangle)]
pub extern "C" fn flaxglimmer_read_log_sheet(
    bytes: &[u8],
    log: &mut [u32],
    corners: &mut u64,
    rows: &mut u64,
    records: &mut u64,
) -> u64
    ensures { ReadLogShown bytes.now log.old log.new (record { status = result; corners = corners.new; rows = rows.new; records = records.new }) }
{
    bridge::flaxglimmer_read_log_sheet(bytes, log, corners, rows, records)
}

// The same, record by record: each is asked of a reader, from the place that the one before keeps.
#[unsafe(no_mangle)]
pub extern "C" fn flaxglimmer_each_record(
    bytes: &[u8],
    log: &mut [u32],
    corners: &mut u64,
    rows: &mut u64,
    records: &mut u64,
) -> u64
    ensures { EachShown bytes.now log.old log.new (record { status = result; corners = corners.new; rows = rows.new; records = records.new }) }
{
    bridge::flaxglimmer_each_record(bytes, log, corners, rows, records)
}

// Recovers a skin from a log sheet cut after any byte, and goes on under an order: the status, and the records kept and those in all in lent numbers.
#[unsafe(no_mangle)]
pub extern "C" fn flaxglimmer_recover(
    unit: u32,
    figure: f64,
    table: &mut [u32],
    corners: &[i32],
    log: &mut [u32],
    bytes: &[u8],
    kept: &mut u64,
    records: &mut u64,
) -> u64
    ensures { RecoverShown unit figure corners.now table.old log.old bytes.now (record { status = result; kept = kept.new; records = records.new }) table.new log.new }
{
    bridge::flaxglimmer_recover(unit, figure, table, corners, log, bytes, kept, records)
}

// Opens a log sheet: the status, and corner count, row count and the place after the first line in lent numbers.
#[unsafe(no_mangle)]
pub extern "C" fn flaxglimmer_open_log_sheet(
    bytes: &[u8],
    corners: &mut u64,
    rows: &mut u64,
    place: &mut u64,
) -> u64
    ensures { OpenShown bytes.now (record { status = result; corners = corners.new; rows = rows.new; place = place.new }) }
{
    bridge::flaxglimmer_open_log_sheet(bytes, corners, rows, place)
}

// The record at a place of a log sheet, or of any bytes: the status, and 1 for a record and 0 for the end, the place after it and its numbers in lent ones.
#[unsafe(no_mangle)]
pub extern "C" fn flaxglimmer_next_record(
    bytes: &[u8],
    place: usize,
    found: &mut u64,
    after: &mut u64,
    numbers: &mut [u32; record::WIDTH],
) -> u64
    ensures { NextShown bytes.now place (record { status = result; found = found.new; after = after.new; numbers = numbers.new }) }
{
    bridge::flaxglimmer_next_record(bytes, place, found, after, numbers)
}
