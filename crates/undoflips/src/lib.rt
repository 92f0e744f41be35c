// Undoing a flip log on a table: its records put back, the last first, up to the first that is not undone.
#![tactic(auto)]

ghost use Rattle.refusal.specs.InnerTells.{Tells};
ghost use Rattle.undoflips.specs.Outcome.{UndoFits, UndoneAs};
ghost use Rattle.undoflips.specs.Inner.{AnyStage, UndoneOn, JudgedUndoing};

use flipped::{FlipHalt, FlipRefusal};
use refusal::Refusal;

// Undoes the records of a log on a stage's table, from the last on. The chains of its slots are made once for all records.
fn undo_log(table: &mut [u32], log: &[u32]) -> Result<usize, FlipHalt>
    requires { AnyStage table.old }
    ensures { UndoneOn table.old log.now result table.new }
{
    let mut last = [0usize; surface::MOST_CORNERS];
    let mut prev = [0usize; slots::MOST_SLOTS];
    slots::chains(table, &mut last, &mut prev);
    let all = log.len() / fliplog::WIDTH;
    for done in 0..all {
        let r = fliplog::read_flip(log, fliplog::WIDTH * (all - 1 - done));
        if !unflip::undo(table, &mut last, &mut prev, r) {
            return Err(FlipHalt::Stopped(FlipRefusal::UndoFails, done));
        }
    }
    Ok(all)
}

// Whether table, corner count and log are within their limits.
fn undo_fits(table: &[u32], corners: usize, log: &[u32]) -> bool
    ensures { Tells result (UndoFits corners table.now log.now) (¬ UndoFits corners table.now log.now) }
{
    counts::counts_fit(table, corners) && log.len() % fliplog::WIDTH == 0
}

// The first of the refusals 2, 5 to 8, 10 and 11 that holds.
fn judge(table: &[u32], corners: usize, log: &[u32]) -> Result<(), Refusal>
    ensures { JudgedUndoing corners table.now log.now result }
{
    if !undo_fits(table, corners, log) {
        return Err(Refusal::CountsOutside);
    }
    skin::check_stage(table, corners)
}

// Undoes a flip log.
pub fn undo_flips(table: &mut [u32], corners: usize, log: &[u32]) -> Result<usize, FlipHalt>
    ensures { UndoneAs corners table.old log.now result table.new }
{
    judge(table, corners, log)?;
    undo_log(table, log)
}
