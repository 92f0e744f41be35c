// Replay: a log's records done again on the table they began with, the first first.
#![tactic(auto)]

ghost use Rattle.surface.specs.InnerStageTable.{StageTable};
ghost use Rattle.refusal.specs.InnerTells.{Tells};
ghost use Rattle.follow.specs.Inner.{FollowedIn};
ghost use Rattle.replay.specs.Outcome.{ReplayFits, replaying, ReplayedAs};
ghost use Rattle.replay.specs.Inner.{JudgedReplay};

use redo::Scratch;
use refusal::Refusal;
use regrow::Halt;

// Inner: does a log's records on a stage's table, from the first on. The link test's scratch is made once for all records.
pub fn replay_log(table: &mut [u32], n: usize, log: &[u32]) -> Result<usize, Halt>
    requires { StageTable n table.old }
    ensures { FollowedIn (replaying n table.old log.now) result table.new }
{
    let scratch = &mut Scratch::new();
    let all = log.len() / record::WIDTH;
    let rows = table.len() / 3;
    for done in 0..all {
        let r = record::read_record(log, record::WIDTH * done);
        if !redo::redo(
            table,
            rows - 2 * done,
            n,
            r,
            &mut scratch.first,
            &mut scratch.near,
            &mut scratch.second,
            &mut scratch.far,
        ) {
            return Err(Halt::Stopped(done));
        }
    }
    Ok(all)
}

// Whether table, corner count and log are within their limits, and enough rows would stand.
#[tactic(auto, using(slots::proofs::Slots::whole_rows))]
fn replay_fits(table: &[u32], corners: usize, log: &[u32]) -> bool
    ensures { Tells result (ReplayFits corners table.now log.now) (¬ ReplayFits corners table.now log.now) }
{
    counts::counts_fit(table, corners)
        && log.len() % record::WIDTH == 0
        && surface::LEAST_ROWS + 2 * (log.len() / record::WIDTH) <= table.len() / 3
}

// The first of the refusals 2 to 11 that holds.
fn judge(table: &[u32], corners: usize, log: &[u32]) -> Result<(), Refusal>
    ensures { JudgedReplay corners table.now log.now result }
{
    if !replay_fits(table, corners, log) {
        return Err(Refusal::CountsOutside);
    }
    skin::check_stage(table, corners)
}

// Replays a log forward on a table.
pub fn replay(table: &mut [u32], corners: usize, log: &[u32]) -> Result<usize, Halt>
    ensures { ReplayedAs corners table.old log.now result table.new }
{
    judge(table, corners, log)?;
    replay_log(table, corners, log)
}
