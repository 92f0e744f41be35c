// Whether a log may be grown back in a room: the refusals 2 to 11, in their order.
#![tactic(auto)]

ghost use Rattle.refusal.specs.InnerTells.{Tells};
ghost use Rattle.growable.specs.Refusals.{GrowFits};
ghost use Rattle.growable.specs.Inner.{JudgedGrowing};

use refusal::Refusal;

// Whether rows told, corner count and log are within their limits, and rows would not pass the most.
fn grow_fits(rows: usize, corners: usize, log: &[u32]) -> bool
    ensures { Tells result (GrowFits corners rows log.now) (¬ GrowFits corners rows log.now) }
{
    counts::rows_fit(rows)
        && counts::corners_fit(corners)
        && log.len() % record::WIDTH == 0
        && rows + 2 * (log.len() / record::WIDTH) <= surface::MOST_ROWS
}

// Inner: the first of the refusals 2 to 11 that holds.
pub fn judge(room: &[u32], rows: usize, corners: usize, log: &[u32]) -> Result<(), Refusal>
    ensures { JudgedGrowing corners rows room.now log.now result }
{
    if !grow_fits(rows, corners, log) {
        return Err(Refusal::CountsOutside);
    }
    if room.len() < 3 * (rows + 2 * (log.len() / record::WIDTH)) {
        return Err(Refusal::RoomShort);
    }
    let end = 3 * rows;
    skin::check_stage(&room[..end], corners)
}
