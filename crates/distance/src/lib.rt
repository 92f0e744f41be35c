// Corners by their coordinates: the squared distance of two, and whether it is within a limit.
#![tactic(auto)]

ghost use Rattle.std.specs.Prelude.{◌≡◌, ◌*◌, ◌<◌, ◌≤◌, nat_abs};
ghost use Rattle.corners.specs.Limits.{most_coordinate};
ghost use Rattle.corners.specs.Skin.{InRange};
ghost use Rattle.refusal.specs.InnerTells.{Tells};
ghost use Rattle.length.specs.Limit.{most_limit};
ghost use Rattle.distance.specs.Corners.{coordinate, gap, squared_distance_lem, Short};
ghost use Rattle.distance.specs.Inner.{Has, gap_bound};

// Inner: coordinate j of the corner v.
pub fn coordinate_of(xs: &[i32], v: u32, j: usize) -> i64
    requires { Has xs.now v × (j < 3) × InRange xs.now }
    ensures { (result ≡ coordinate xs.now v j) × (nat_abs result ≤ most_coordinate) }
{
    let i = 3 * (v as usize) + j;
    xs[i] as i64
}

// The square of how far a and b lie apart in coordinate j.
fn squared_gap(xs: &[i32], a: u32, b: u32, j: usize) -> u64
    requires { Has xs.now a × Has xs.now b × (j < 3) × InRange xs.now }
    ensures { (result ≡ gap xs.now a b j * gap xs.now a b j) × (result ≤ gap_bound * gap_bound) }
{
    let d = coordinate_of(xs, a, j) - coordinate_of(xs, b, j);
    (d * d) as u64
}

// Inner: the squared distance of two corners.
pub fn squared_distance(xs: &[i32], a: u32, b: u32) -> u64
    requires { Has xs.now a × Has xs.now b × InRange xs.now }
    ensures { result ≡ squared_distance_lem xs.now a b }
{
    squared_gap(xs, a, b, 0) + squared_gap(xs, a, b, 1) + squared_gap(xs, a, b, 2)
}

// Inner: whether two corners lie within a limit: their squared distance is at most the squared limit.
pub fn within(xs: &[i32], a: u32, b: u32, l: u64) -> bool
    requires { (l ≤ most_limit) × Has xs.now a × Has xs.now b × InRange xs.now }
    ensures { Tells result (Short xs.now l a b) (¬ Short xs.now l a b) }
{
    squared_distance(xs, a, b) <= l * l
}
