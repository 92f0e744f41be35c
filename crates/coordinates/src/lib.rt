// Refusal 4: coordinates against their range.
#![tactic(auto)]

ghost use Rattle.std.specs.Prelude.{◌≤◌, ◌<◌, nat_abs};
ghost use Rattle.corners.specs.Limits.{most_coordinate};
ghost use Rattle.corners.specs.Skin.{InRange};
ghost use Rattle.faults.specs.Words.{OutOfRange};
ghost use Rattle.refusal.specs.InnerTells.{Tells};

// Whether a coordinate lies outside the range, on either side.
fn far(x: i32) -> bool
    ensures { Tells result (most_coordinate < nat_abs x) (nat_abs x ≤ most_coordinate) }
{
    x < -corners::MOST_COORDINATE || corners::MOST_COORDINATE < x
}

// Inner: 4, a coordinate out of range.
pub fn out_of_range(xs: &[i32]) -> bool
    ensures { Tells result (OutOfRange xs.now) (InRange xs.now) }
{
    xs.iter().any(|x| far(*x))
}
