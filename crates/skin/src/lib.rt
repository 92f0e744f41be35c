// The check of a table: the first refusal that holds, in 01's order, and what passing gives.
#![tactic(auto)]

ghost use Rattle.faults.specs.Order.{CheckedStageAt};
ghost use Rattle.faults.specs.Inner.{CheckedAt, CheckedFirst, CheckedStage};

use refusal::Refusal;

// 2, 4 and the rest, of a table with its coordinates.
fn check_at(t: &[u32], xs: &[i32], first: bool) -> Result<(), Refusal>
    ensures { CheckedAt first xs.now t.now result }
{
    if !counts::counts_fit_at(t, xs) {
        return Err(Refusal::CountsOutside);
    }
    if coordinates::out_of_range(xs) {
        return Err(Refusal::CoordinateOutOfRange);
    }
    stage::check_rows(t, xs.len() / 3, first)
}

// Inner: a first table with its coordinates, as thinning and sheets have it; passing, it is a skin.
pub fn check_first(t: &[u32], xs: &[i32]) -> Result<(), Refusal>
    ensures { CheckedFirst xs.now t.now result }
{
    check_at(t, xs, true)
}

// Inner: a stage's table with its coordinates; passing, it is a stage.
pub fn check_stage_at(t: &[u32], xs: &[i32]) -> Result<(), Refusal>
    ensures { CheckedStageAt xs.now t.now result }
{
    check_at(t, xs, false)
}

// Inner: a stage's table with a told corner count; passing, it is a stage.
pub fn check_stage(t: &[u32], n: usize) -> Result<(), Refusal>
    ensures { CheckedStage n t.now result }
{
    if !counts::counts_fit(t, n) {
        return Err(Refusal::CountsOutside);
    }
    stage::check_rows(t, n, false)
}
