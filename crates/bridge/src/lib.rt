// The C boundary: every public call with numbers and lent slices alone. No call asks anything of the numbers it is given.
#![tactic(auto)]

ghost use Rattle.bridge.specs.Calls.{ThinShown, GrowShown, ReplayShown, VolumeShown, ChangeShown, ExactShown, ShiftShown, LimitShown, SheetShown, JobShown, FlipShown, UndoShown, ReplyShown, WriteLogShown, ReadLogShown, EachShown, RecoverShown, OpenShown, NextShown};
ghost use Rattle.bridge.specs.Lent.{TrialShown, RingShown, PartShown};

use across::{Centimetres, Counted, Measure, Stored, Written};
use text::Cursor;

// A part of one of two lent logs, the first (0) or the second (1): its numbers at the places from `from` up to, not with, `to`.
// Does not cross as a struct.
#[derive(Clone, Copy)]
pub struct Part {
    pub log: u64,
    pub from: u64,
    pub to: u64,
}

// Where the catch-up part lies. Its length tells: an empty part is the one from 0 to 0, any other the rest of the longer log.
fn part_of<'a>(first: &'a [u32], second: &'a [u32]) -> Part
    ensures { PartShown first.entry second.entry result }
{
    let part = catchup::catch_up(first, second);
    if part.len() == 0 {
        return Part {
            log: 0,
            from: 0,
            to: 0,
        };
    }
    if first.len() < second.len() {
        return Part {
            log: 1,
            from: first.len() as u64,
            to: second.len() as u64,
        };
    }
    Part {
        log: 0,
        from: second.len() as u64,
        to: first.len() as u64,
    }
}

// ---- the calls

// Thins a first table under an order, by the quick engine where there is no limit.
#[unsafe(no_mangle)]
pub extern "C" fn flaxglimmer_thin(
    unit: u32,
    figure: f64,
    table: &mut [u32],
    corners: &[i32],
    log: &mut [u32],
) -> Counted
    ensures { ThinShown unit figure corners.now table.old log.old result table.new log.new }
{
    across::counted_thinning(thin::thin(table, corners, across::order_of(unit, figure), log))
}

// The same by the plain engine, whatever the order.
#[unsafe(no_mangle)]
pub extern "C" fn flaxglimmer_thin_plain(
    unit: u32,
    figure: f64,
    table: &mut [u32],
    corners: &[i32],
    log: &mut [u32],
) -> Counted
    ensures { ThinShown unit figure corners.now table.old log.old result table.new log.new }
{
    across::counted_thinning(thin::thin_plain(table, corners, across::order_of(unit, figure), log))
}

// Grows a log back on the rows that stand in a room.
#[unsafe(no_mangle)]
pub extern "C" fn flaxglimmer_grow_back(
    rows: usize,
    corners: usize,
    room: &mut [u32],
    log: &[u32],
) -> Counted
    ensures { GrowShown corners rows room.old log.now result room.new }
{
    across::counted_regrown(regrow::grow_back(room, rows, corners, log))
}

// Replays a log forward on a table.
#[unsafe(no_mangle)]
pub extern "C" fn flaxglimmer_replay(corners: usize, table: &mut [u32], log: &[u32]) -> Counted
    ensures { ReplayShown corners table.old log.now result table.new }
{
    across::counted_regrown(replay::replay(table, corners, log))
}

// The volume of a stage with its coordinates.
#[unsafe(no_mangle)]
pub extern "C" fn flaxglimmer_volume(table: &[u32], corners: &[i32]) -> Measure
    ensures { VolumeShown corners.now table.now result }
{
    across::measure_of(volume::volume(table, corners))
}

// The change from an earlier stage to a later one over the same coordinates.
#[unsafe(no_mangle)]
pub extern "C" fn flaxglimmer_change(earlier: &[u32], later: &[u32], corners: &[i32]) -> Measure
    ensures { ChangeShown corners.now earlier.now later.now result }
{
    across::measure_of(volume::change(earlier, later, corners))
}

// The exact sum of a stage with its coordinates: the status, and the whole part and the rest in lent numbers.
#[unsafe(no_mangle)]
pub extern "C" fn flaxglimmer_exact_sum(
    table: &[u32],
    corners: &[i32],
    whole: &mut i64,
    rest: &mut u64,
) -> u64
    ensures { ExactShown corners.now table.now (record { status = result; whole = whole.new; rest = rest.new }) }
{
    let exact = across::exact_of(volume::exact_sum(table, corners));
    let part = exact.whole;
    *whole = part;
    *rest = exact.rest;
    exact.status
}

// The shift of a corner by a log that was written over these coordinates: the status, and stand-in, count and squared distance in lent numbers.
#[unsafe(no_mangle)]
pub extern "C" fn flaxglimmer_shift(
    corner: u32,
    corners: &[i32],
    log: &[u32],
    standin: &mut u64,
    count: &mut u64,
    squared: &mut u64,
) -> u64
    ensures { ShiftShown corners.now log.now corner (record { status = result; corner = standin.new; count = count.new; squared = squared.new }) }
{
    let shifted = across::stand_in_of(shift::shift(corners, log, corner));
    *standin = shifted.corner;
    *count = shifted.count;
    *squared = shifted.squared;
    shifted.status
}

// A typed limit in whole centimetres. Unit 0 is none of its units.
#[unsafe(no_mangle)]
pub extern "C" fn flaxglimmer_limit(unit: u32, figure: f64) -> Centimetres
    ensures { LimitShown unit figure result }
{
    across::centimetres_of(length::read_limit(across::length_of(unit, figure)))
}

// Which of two lent rings is the shorter: 0 the first, also when they are equally long, or 1 the second.
#[unsafe(no_mangle)]
pub extern "C" fn flaxglimmer_shorter_ring<'a>(first: &'a [u32], second: &'a [u32]) -> u32
    ensures { RingShown first.entry second.entry result }
{
    let ring = link::shorter_ring(first, second);
    if ring.len() == first.len() {
        return 0;
    }
    1
}

// The part that the longer of two lent logs has more: which of the two it is of, 0 the first or 1 the second, and its places, from `from` up to, not with, `to`.
#[unsafe(no_mangle)]
pub extern "C" fn flaxglimmer_catch_up<'a>(
    first: &'a [u32],
    second: &'a [u32],
    from: &mut u64,
    to: &mut u64,
) -> u64
    ensures { PartShown first.entry second.entry (record { log = result; from = from.new; to = to.new }) }
{
    let part = part_of(first, second);
    *from = part.from;
    *to = part.to;
    part.log
}

// Reads a sheet into a lent table and lent corners: the status, and corner count and row count in lent numbers.
#[unsafe(no_mangle)]
pub extern "C" fn flaxglimmer_read_sheet(
    bytes: &[u8],
    table: &mut [u32],
    corners: &mut [i32],
    count: &mut u64,
    rows: &mut u64,
) -> u64
    ensures { SheetShown bytes.now table.old table.new corners.old corners.new (record { status = result; corners = count.new; rows = rows.new }) }
{
    let counts = across::counts_of(sheet::read_sheet(bytes, table, corners));
    *count = counts.corners;
    *rows = counts.rows;
    counts.status
}

// The net of the whole job on a sheet.
#[unsafe(no_mangle)]
pub extern "C" fn flaxglimmer_job(bytes: &[u8]) -> Measure
    ensures { JobShown bytes.now result }
{
    across::measure_of_job(job::job_net(bytes))
}

// Flips a list of edges on a table, and logs the flips done.
#[unsafe(no_mangle)]
pub extern "C" fn flaxglimmer_flip_list(
    corners: usize,
    table: &mut [u32],
    edges: &[u32],
    log: &mut [u32],
) -> Counted
    ensures { FlipShown corners table.old edges.now log.old result table.new log.new }
{
    across::counted_flipped(fliplist::flip_list(table, corners, edges, log))
}

// Undoes a flip log on a table.
#[unsafe(no_mangle)]
pub extern "C" fn flaxglimmer_undo_flips(corners: usize, table: &mut [u32], log: &[u32]) -> Counted
    ensures { UndoShown corners table.old log.now result table.new }
{
    across::counted_flipped(undoflips::undo_flips(table, corners, log))
}

// The trial ring's number at a place of its table.
#[unsafe(no_mangle)]
pub extern "C" fn flaxglimmer_trial_number(at: usize) -> Stored
    ensures { TrialShown at result }
{
    across::stored_of(ring::trial_number(at))
}

// The desk's whole answer to a sheet, in front of the lent text.
#[unsafe(no_mangle)]
pub extern "C" fn flaxglimmer_reply(sheet: &[u8], text: &mut [u8]) -> Written
    ensures { ReplyShown sheet.now text.old result text.new }
{
    across::written_of(reply::reply(sheet, text))
}

// ---- log sheets

// Writes a log as a log sheet in front of the lent text.
#[unsafe(no_mangle)]
pub extern "C" fn flaxglimmer_write_log_sheet(
    corners: usize,
    rows: usize,
    log: &[u32],
    text: &mut [u8],
) -> Written
    ensures { WriteLogShown corners rows log.now text.old result text.new }
{
    across::written_of(logsheet::write_log_sheet(corners, rows, log, text))
}

// Reads a log sheet into a lent log: the status, and corner count, row count and records in lent numbers.
#[unsafe(no_mangle)]
pub extern "C" fn flaxglimmer_read_log_sheet(
    bytes: &[u8],
    log: &mut [u32],
    corners: &mut u64,
    rows: &mut u64,
    records: &mut u64,
) -> u64
    ensures { ReadLogShown bytes.now log.old log.new (record { status = result; corners = corners.new; rows = rows.new; records = records.new }) }
{
    let read = across::log_read_of(logsheet::read_log_sheet(bytes, log));
    *corners = read.corners;
    *rows = read.rows;
    *records = read.records;
    read.status
}

// The same, record by record: each is asked of a reader, from the place that the one before keeps.
#[unsafe(no_mangle)]
pub extern "C" fn flaxglimmer_each_record(
    bytes: &[u8],
    log: &mut [u32],
    corners: &mut u64,
    rows: &mut u64,
    records: &mut u64,
) -> u64
    ensures { EachShown bytes.now log.old log.new (record { status = result; corners = corners.new; rows = rows.new; records = records.new }) }
{
    let read = across::log_read_of(logreader::each_record(bytes, log));
    *corners = read.corners;
    *rows = read.rows;
    *records = read.records;
    read.status
}

// Recovers a skin from a log sheet cut after any byte, and goes on under an order: the status, and the records kept and those in all in lent numbers.
#[unsafe(no_mangle)]
pub extern "C" fn flaxglimmer_recover(
    unit: u32,
    figure: f64,
    table: &mut [u32],
    corners: &[i32],
    log: &mut [u32],
    bytes: &[u8],
    kept: &mut u64,
    records: &mut u64,
) -> u64
    ensures { RecoverShown unit figure corners.now table.old log.old bytes.now (record { status = result; kept = kept.new; records = records.new }) table.new log.new }
{
    let recovery = across::recovery_of(recover::recover(
        table,
        corners,
        across::order_of(unit, figure),
        log,
        bytes,
    ));
    *kept = recovery.kept;
    *records = recovery.records;
    recovery.status
}

// Opens a log sheet: the status, and corner count, row count and the place after the first line in lent numbers.
#[unsafe(no_mangle)]
pub extern "C" fn flaxglimmer_open_log_sheet(
    bytes: &[u8],
    corners: &mut u64,
    rows: &mut u64,
    place: &mut u64,
) -> u64
    ensures { OpenShown bytes.now (record { status = result; corners = corners.new; rows = rows.new; place = place.new }) }
{
    let opened = across::log_opened_of(logrecords::open_log_sheet(bytes));
    *corners = opened.corners;
    *rows = opened.rows;
    *place = opened.place;
    opened.status
}

// The record at a place of a log sheet, or of any bytes: the status, and 1 for a record and 0 for the end, the place after it and its numbers in lent ones.
#[unsafe(no_mangle)]
pub extern "C" fn flaxglimmer_next_record(
    bytes: &[u8],
    place: usize,
    found: &mut u64,
    after: &mut u64,
    numbers: &mut [u32; record::WIDTH],
) -> u64
    ensures { NextShown bytes.now place (record { status = result; found = found.new; after = after.new; numbers = numbers.new }) }
{
    let asked = across::asked_of(logrecords::next_record(bytes, Cursor { at: place }));
    *found = asked.found;
    *after = asked.after;
    let told = asked.numbers;
    *numbers = told;
    asked.status
}
