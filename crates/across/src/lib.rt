// Orders and answers in plain numbers, as they go across the C boundary.
// The status is 0 for done, else the refusal's number; a refused call has 0 for every value, but 13 carries the records done, and 30, 31 and 32 the flips.
// Two numbers cross as a struct. Of more, the first is the result and the rest go into lent numbers: a larger struct is handed back through a
// pointer that each processor keeps in another register.
#![tactic(auto)]

ghost use Rattle.std.specs.Prelude.{◌≡◌, length, IfOk, IfErr};
ghost use Rattle.refusal.specs.declared.Refusal.TheVariants.{RecordFails};
ghost use Rattle.refusal.specs.Number.{number};
ghost use Rattle.record.specs.Layout.{width, numbers};
ghost use Rattle.record.specs.Meant.{meant};
ghost use Rattle.length.specs.Answer as LengthAnswer;
ghost use Rattle.thin.specs.Answer as ThinAnswer;
ghost use Rattle.regrow.specs.Answer as RegrowAnswer;
ghost use Rattle.volume.specs.Answer as VolumeAnswer;
ghost use Rattle.shift.specs.Answer as ShiftAnswer;
ghost use Rattle.sheet.specs.Answer as SheetAnswer;
ghost use Rattle.flipped.specs.Answer as FlipAnswer;
ghost use Rattle.job.specs.Answer as JobAnswer;
ghost use Rattle.tell.specs.Answer as ReplyAnswer;
ghost use Rattle.logsheet.specs.Answer as LogAnswer;
ghost use Rattle.recover.specs.Answer as RecoverAnswer;
ghost use Rattle.logrecords.specs.Answer.{told_opened, told_next};
ghost use Rattle.across.specs.Units.{length_of_lem, order_of_lem};
ghost use Rattle.across.specs.Says.{Says};
ghost use Rattle.across.specs.Fields.{of_counted, of_measure, of_exact, of_stand_in, of_centimetres, of_counts, of_written, of_log_read, of_recovery, of_log_opened, of_asked, Stores};

use flipped::FlipHalt;
use heading::Heading;
use job::JobRefusal;
use length::{Length, Order};
use logrecords::Next;
use logsheet::LogCounts;
use record::{Corner, Record};
use refusal::Refusal;
use regrow::Halt;
use shift::Shifted;
use text::Cursor;
use wide::Wide;

// What thinning, growing back, replay, flipping and undoing answer: the status, and how many records or flips were done.
#[repr(C)]
#[derive(Clone, Copy)]
pub struct Counted {
    pub status: u64,
    pub records: u64,
}

// What a volume, a change or a job answers: the status, and the figure in cubic metres.
#[repr(C)]
#[derive(Clone, Copy)]
pub struct Measure {
    pub status: u64,
    pub figure: i64,
}

// What an exact sum answers: the status, the whole part and the rest. Does not cross as a struct.
#[derive(Clone, Copy)]
pub struct Exact {
    pub status: u64,
    pub whole: i64,
    pub rest: u64,
}

// What a shift report answers: the status, stand-in, count and squared distance. Does not cross as a struct.
#[derive(Clone, Copy)]
pub struct StandIn {
    pub status: u64,
    pub corner: u64,
    pub count: u64,
    pub squared: u64,
}

// What the limit reader answers: the status, and whole centimetres.
#[repr(C)]
#[derive(Clone, Copy)]
pub struct Centimetres {
    pub status: u64,
    pub whole: u64,
}

// What the sheet reader answers: the status, corner count and row count. Does not cross as a struct.
#[derive(Clone, Copy)]
pub struct Counts {
    pub status: u64,
    pub corners: u64,
    pub rows: u64,
}

// What the desk answers: the status, and how many bytes were written.
#[repr(C)]
#[derive(Clone, Copy)]
pub struct Written {
    pub status: u64,
    pub bytes: u64,
}

// What the log sheet's reader answers: the status, corner count, row count and records. Does not cross as a struct.
#[derive(Clone, Copy)]
pub struct LogRead {
    pub status: u64,
    pub corners: u64,
    pub rows: u64,
    pub records: u64,
}

// What recovery answers: the status, how many records were kept, and how many there are in all. Does not cross as a struct.
#[derive(Clone, Copy)]
pub struct Recovery {
    pub status: u64,
    pub kept: u64,
    pub records: u64,
}

// What opening a log sheet answers: the status, corner count, row count and the place after the first line. Does not cross as a struct.
#[derive(Clone, Copy)]
pub struct LogOpened {
    pub status: u64,
    pub corners: u64,
    pub rows: u64,
    pub place: u64,
}

// What asking for a record answers: the status, 1 for a record and 0 for the end, the place after it, and its numbers. Does not cross as a struct.
#[derive(Clone, Copy)]
pub struct Asked {
    pub status: u64,
    pub found: u64,
    pub after: u64,
    pub numbers: [u32; record::WIDTH],
}

// A number of the trial ring: 1 and the number, or 0 and 0 past its end.
#[repr(C)]
#[derive(Clone, Copy)]
pub struct Stored {
    pub there: u64,
    pub number: u64,
}

// ---- orders

// Inner: a unit's limit: 1 metres, 2 feet, 3 centimetres, 4 international feet. Any other unit gives no limit that can be used: it stands for a
// figure that is no number.
pub fn length_of(unit: u32, figure: f64) -> Length
    ensures { result ≡ length_of_lem unit figure }
{
    match unit {
        1 => Length::Metres(figure),
        2 => Length::Feet(figure),
        3 => Length::Centimetres(figure),
        4 => Length::InternationalFeet(figure),
        _ => Length::Centimetres(f64::NAN),
    }
}

// Inner: unit 0 is no limit; the figure is not looked at then.
pub fn order_of(unit: u32, figure: f64) -> Order
    ensures { result ≡ order_of_lem unit figure }
{
    if unit == 0 {
        return Order::NoLimit;
    }
    Order::Limit(length_of(unit, figure))
}

// ---- answers

// The status of an answer and its value; where it is refused, the refusal's number and the value that stands for none.
fn crossed<T: Copy, E: Copy + Into<u32>>(a: Result<T, E>, none: T) -> (u64, T)
    ensures done { IfOk a (λ v. (result.0 ≡ 0) × (result.1 ≡ v)) }
    ensures refused { IfErr a (λ e. E.converts e result.0 × (result.1 ≡ none)) }
{
    match a {
        Ok(v) => (0, v),
        Err(e) => (u64::from(e.into()), none),
    }
}

// The status where a record fails.
fn record_fails() -> u64
    ensures { result ≡ number RecordFails }
{
    u32::from(Refusal::RecordFails) as u64
}

// Inner: what a thinning answers.
pub fn counted_thinning(a: Result<usize, Refusal>) -> Counted
    ensures { Says (ThinAnswer.told a) (of_counted result) }
{
    let (status, k) = crossed(a, 0);
    Counted {
        status,
        records: k as u64,
    }
}

// Inner: what growing back or a replay answers.
pub fn counted_regrown(a: Result<usize, Halt>) -> Counted
    ensures { Says (RegrowAnswer.told a) (of_counted result) }
{
    match a {
        Ok(k) => Counted {
            status: 0,
            records: k as u64,
        },
        Err(Halt::Stopped(k)) => Counted {
            status: record_fails(),
            records: k as u64,
        },
        Err(Halt::Refused(e)) => Counted {
            status: u32::from(e) as u64,
            records: 0,
        },
    }
}

// Inner: what flipping a list or undoing a log answers.
pub fn counted_flipped(a: Result<usize, FlipHalt>) -> Counted
    ensures { Says (FlipAnswer.told a) (of_counted result) }
{
    match a {
        Ok(k) => Counted {
            status: 0,
            records: k as u64,
        },
        Err(FlipHalt::Stopped(r, k)) => Counted {
            status: u32::from(r) as u64,
            records: k as u64,
        },
        Err(FlipHalt::Refused(e)) => Counted {
            status: u32::from(e) as u64,
            records: 0,
        },
    }
}

// Inner: what a volume or a change answers.
pub fn measure_of(a: Result<i64, Refusal>) -> Measure
    ensures { Says (VolumeAnswer.told a) (of_measure result) }
{
    let (status, figure) = crossed(a, 0);
    Measure { status, figure }
}

// Inner: what a job answers.
pub fn measure_of_job(a: Result<i64, JobRefusal>) -> Measure
    ensures { Says (JobAnswer.told a) (of_measure result) }
{
    let (status, figure) = crossed(a, 0);
    Measure { status, figure }
}

// Inner: what an exact sum answers.
pub fn exact_of(a: Result<Wide, Refusal>) -> Exact
    ensures { Says (VolumeAnswer.told_exact a) (of_exact result) }
{
    let (status, w) = crossed(a, Wide { whole: 0, rest: 0 });
    Exact {
        status,
        whole: w.whole,
        rest: w.rest,
    }
}

// Inner: what a shift report answers.
pub fn stand_in_of(a: Result<Shifted, Refusal>) -> StandIn
    ensures { Says (ShiftAnswer.told a) (of_stand_in result) }
{
    let none = Shifted {
        stand_in: Corner(0),
        count: 0,
        squared: 0,
    };
    let (status, s) = crossed(a, none);
    StandIn {
        status,
        corner: s.stand_in.0 as u64,
        count: s.count as u64,
        squared: s.squared,
    }
}

// Inner: what the limit reader answers.
pub fn centimetres_of(a: Option<u64>) -> Centimetres
    ensures { Says (LengthAnswer.told a) (of_centimetres result) }
{
    match a {
        Some(c) => Centimetres {
            status: 0,
            whole: c,
        },
        None => Centimetres {
            status: u32::from(Refusal::LimitUnusable) as u64,
            whole: 0,
        },
    }
}

// Inner: what the sheet reader answers.
pub fn counts_of(a: Result<(usize, usize), Refusal>) -> Counts
    ensures { Says (SheetAnswer.told a) (of_counts result) }
{
    let (status, (n, m)) = crossed(a, (0, 0));
    Counts {
        status,
        corners: n as u64,
        rows: m as u64,
    }
}

// Inner: what the desk answers.
pub fn written_of(a: Result<usize, Refusal>) -> Written
    ensures { Says (ReplyAnswer.told a) (of_written result) }
{
    let (status, n) = crossed(a, 0);
    Written {
        status,
        bytes: n as u64,
    }
}

// Inner: what the log sheet's reader answers.
pub fn log_read_of(a: Result<LogCounts, Refusal>) -> LogRead
    ensures { Says (LogAnswer.told a) (of_log_read result) }
{
    let none = LogCounts {
        corners: 0,
        rows: 0,
        records: 0,
    };
    let (status, c) = crossed(a, none);
    LogRead {
        status,
        corners: c.corners as u64,
        rows: c.rows as u64,
        records: c.records as u64,
    }
}

// Inner: what recovery answers.
pub fn recovery_of(a: Result<(usize, usize), Halt>) -> Recovery
    ensures { Says (RecoverAnswer.told a) (of_recovery result) }
{
    match a {
        Ok((k, all)) => Recovery {
            status: 0,
            kept: k as u64,
            records: all as u64,
        },
        Err(Halt::Stopped(k)) => Recovery {
            status: record_fails(),
            kept: k as u64,
            records: k as u64,
        },
        Err(Halt::Refused(e)) => Recovery {
            status: u32::from(e) as u64,
            kept: 0,
            records: 0,
        },
    }
}

// Inner: what opening a log sheet answers.
pub fn log_opened_of(a: Result<Heading, Refusal>) -> LogOpened
    ensures { Says (told_opened a) (of_log_opened result) }
{
    let none = Heading {
        corners: 0,
        rows: 0,
        after: Cursor { at: 0 },
    };
    let (status, h) = crossed(a, none);
    LogOpened {
        status,
        corners: h.corners as u64,
        rows: h.rows as u64,
        place: h.after.at as u64,
    }
}

// The numbers of a record.
fn numbers_of(r: Record) -> [u32; record::WIDTH]
    ensures { result ≡ numbers (meant r) }
{
    let mut numbers = [0u32; record::WIDTH];
    record::write_record(&mut numbers, 0, r);
    numbers
}

// Inner: what asking for a record answers.
pub fn asked_of(a: Next) -> Asked
    ensures { Says (told_next a) (of_asked result) × (length result.numbers ≡ width) }
{
    match a {
        Next::Found(r, c) => Asked {
            status: 0,
            found: 1,
            after: c.at as u64,
            numbers: numbers_of(r),
        },
        Next::End(c) => Asked {
            status: 0,
            found: 0,
            after: c.at as u64,
            numbers: [0; record::WIDTH],
        },
        Next::Bad => Asked {
            status: u32::from(Refusal::SheetForm) as u64,
            found: 0,
            after: 0,
            numbers: [0; record::WIDTH],
        },
    }
}

// Inner: what the trial ring answers.
pub fn stored_of(a: Option<u32>) -> Stored
    ensures { Stores a result }
{
    match a {
        Some(v) => Stored {
            there: 1,
            number: v as u64,
        },
        None => Stored {
            there: 0,
            number: 0,
        },
    }
}
