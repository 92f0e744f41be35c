// The exact sum of a stage; its volume and the change between two stages, each an exact sum rounded once.
// All here is inner: the calls that report sums and figures check the stages and their coordinates first.
#![tactic(auto)]

ghost use Rattle.std.specs.Prelude.{◌≡◌, ◌<◌, ◌≤◌, nat_abs};
ghost use Rattle.surface.specs.Rows.{rows};
ghost use Rattle.corners.specs.Skin.{InRange};
ghost use Rattle.distance.specs.Inner.{Has};
ghost use Rattle.wide.specs.Rounding.{figure, change};
ghost use Rattle.wide.specs.Wide.{Exact};
ghost use Rattle.figure.specs.Inner.{WithCoordinates, minor_bound, row_bound, sum_bound};
ghost use Rattle.figure.specs.Sum.{minor, determinant, sixfold};

use wide::Wide;

// The determinant of two by two of the corners b and c in the coordinates j and k.
fn minor_of(xs: &[i32], b: u32, c: u32, j: usize, k: usize) -> i64
    requires { Has xs.now b × Has xs.now c × (j < 3) × (k < 3) × InRange xs.now }
    ensures { (result ≡ minor xs.now b c j k) × (nat_abs result ≤ minor_bound) }
{
    distance::coordinate_of(xs, b, j) * distance::coordinate_of(xs, c, k)
        - distance::coordinate_of(xs, b, k) * distance::coordinate_of(xs, c, j)
}

// The determinant of three corners.
fn determinant_of(xs: &[i32], a: u32, b: u32, c: u32) -> i64
    requires { Has xs.now a × Has xs.now b × Has xs.now c × InRange xs.now }
    ensures { (result ≡ determinant xs.now a b c) × (nat_abs result ≤ row_bound) }
{
    distance::coordinate_of(xs, a, 0) * minor_of(xs, b, c, 1, 2)
        + distance::coordinate_of(xs, a, 1) * minor_of(xs, b, c, 2, 0)
        + distance::coordinate_of(xs, a, 2) * minor_of(xs, b, c, 0, 1)
}

// The exact sixfold volume. Only whole rows count.
fn sixfold_sum(t: &[u32], xs: &[i32]) -> i64
    requires { WithCoordinates (rows t.now) xs.now }
    ensures { (result ≡ sixfold xs.now (rows t.now)) × (nat_abs result ≤ sum_bound) }
{
    let mut s: i64 = 0;
    for [a, b, c] in t.as_chunks::<3>().0 {
        s += determinant_of(xs, *a, *b, *c);
    }
    s
}

// Inner: the exact sixfold volume of a stage, as whole part and rest.
pub fn exact_sum_of(t: &[u32], xs: &[i32]) -> Wide
    requires { WithCoordinates (rows t.now) xs.now }
    ensures { Exact (sixfold xs.now (rows t.now)) result }
{
    wide::enter(sixfold_sum(t, xs))
}

// Inner: the volume of a stage, in cubic metres.
pub fn volume_of(t: &[u32], xs: &[i32]) -> i64
    requires { WithCoordinates (rows t.now) xs.now }
    ensures { result ≡ figure (sixfold xs.now (rows t.now)) }
{
    wide::cubic_metres(exact_sum_of(t, xs))
}

// Inner: the change from an earlier stage to a later one over the same coordinates, in cubic metres.
pub fn change_between(earlier: &[u32], later: &[u32], xs: &[i32]) -> i64
    requires { WithCoordinates (rows earlier.now) xs.now × WithCoordinates (rows later.now) xs.now }
    ensures { result ≡ change (sixfold xs.now (rows earlier.now)) (sixfold xs.now (rows later.now)) }
{
    wide::cubic_metres(wide::less(exact_sum_of(later, xs), exact_sum_of(earlier, xs)))
}
