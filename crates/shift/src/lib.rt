// The shift report: where a log has led a corner, in how many steps, and how far. Nothing is written.
#![tactic(auto)]

ghost use Rattle.record.specs.Layout.{records};
ghost use Rattle.refusal.specs.InnerTells.{Tells};
ghost use Rattle.shift.specs.Order.{ShiftFits, PastIn};
ghost use Rattle.shift.specs.Inner.{BelowIn, CheckedShift};
ghost use Rattle.shift.specs.Answer.{told};
ghost use Rattle.shift.specs.Report.{ShiftReport};

use record::Corner;
use refusal::Refusal;

// A shift: the stand-in, in how many steps it was reached, and the squared distance to it.
#[derive(Clone, Copy)]
pub struct Shifted {
    pub stand_in: Corner,
    pub count: usize,
    pub squared: u64,
}

// 2: whether the log is made of whole records, and the coordinates of whole corners, as many as there may be.
fn shift_fits(corners: &[i32], log: &[u32]) -> bool
    ensures { Tells result (ShiftFits corners.now log.now) (¬ ShiftFits corners.now log.now) }
{
    log.len() % record::WIDTH == 0 && counts::coordinates_fit(corners)
}

// 5, of a log: whether a number kept or removed is not below n.
fn past_in(log: &[u32], n: usize) -> bool
    ensures { Tells result (PastIn n (records log.now)) (BelowIn n (records log.now)) }
{
    for j in 0..log.len() / record::WIDTH {
        let e = record::read_contracted(log, record::WIDTH * j);
        if n <= e.kept.0 as usize || n <= e.removed.0 as usize {
            return true;
        }
    }
    false
}

// 2, 4 and 5, in this order.
fn check(corners: &[i32], log: &[u32], corner: u32) -> Result<(), Refusal>
    ensures { CheckedShift corners.now log.now corner result }
{
    if !shift_fits(corners, log) {
        return Err(Refusal::CountsOutside);
    }
    if coordinates::out_of_range(corners) {
        return Err(Refusal::CoordinateOutOfRange);
    }
    let n = corners.len() / 3;
    if n <= corner as usize || past_in(log, n) {
        return Err(Refusal::NumberNotBelow);
    }
    Ok(())
}

// The shift of a corner by a log that was written over these coordinates, or the first refusal that holds.
pub fn shift(corners: &[i32], log: &[u32], corner: u32) -> Result<Shifted, Refusal>
    ensures { ShiftReport corners.now log.now corner (told result) }
{
    check(corners, log, corner)?;
    let f = standin::follow(log, corner);
    let squared = distance::squared_distance(corners, corner, f.corner.0);
    Ok(Shifted {
        stand_in: f.corner,
        count: f.count,
        squared,
    })
}
