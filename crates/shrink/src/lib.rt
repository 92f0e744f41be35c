// A table after a contraction: the rows that hold both numbers leave, the others move up in their order with the removed number replaced, and
// zeros stand behind them.
#![tactic(auto)]

ghost use Rattle.std.specs.Prelude.{◌≡◌, ◌∷◌, [], ◌++◌, ◌+◌, ◌-◌, ◌≤◌, length, take, replicate};
ghost use Rattle.std.proofs.lemmas.List.Edits.{sets};
ghost use Rattle.shrink.specs.Flat.{has, swap, leaves, after, Moved};

// Whether a row holds a number.
#[tactic(auto, unfolding(crate::specs::Flat::has))]
fn holds(a: u32, x: u32, y: u32, z: u32) -> bool
    ensures { result ≡ has a x y z }
{
    x == a || y == a || z == a
}

// Inner: whether a row leaves: it holds both.
pub fn row_leaves(a: u32, b: u32, x: u32, y: u32, z: u32) -> bool
    ensures { result ≡ leaves a b x y z }
{
    holds(a, x, y, z) && holds(b, x, y, z)
}

// The removed number replaced.
#[tactic(auto, unfolding(crate::specs::Flat::swap))]
fn swapped(a: u32, b: u32, x: u32) -> u32
    ensures { result ≡ swap a b x }
{
    if x == b { a } else { x }
}

// Inner: writes a row's numbers from place j on.
pub fn write_row(t: &mut [u32], j: usize, x: u32, y: u32, z: u32)
    requires { j + 3 ≤ length t.old }
    ensures { t.new ≡ sets t.old j (x ∷ y ∷ z ∷ []) }
{
    t[j] = x;
    t[j + 1] = y;
    t[j + 2] = z;
}

// The row at i goes to place j, unless it leaves; answers the next place.
fn move_row(t: &mut [u32], i: usize, j: usize, a: u32, b: u32) -> usize
    requires { (j ≤ i) × (i + 3 ≤ length t.old) }
    ensures { Moved t.old i j a b result t.new }
{
    let x = t[i];
    let y = t[i + 1];
    let z = t[i + 2];
    if row_leaves(a, b, x, y, z) {
        return j;
    }
    write_row(t, j, swapped(a, b, x), swapped(a, b, y), swapped(a, b, z));
    j + 3
}

// The rows that stay move up in their order; answers how many numbers stand.
fn move_up(t: &mut [u32], a: u32, b: u32) -> usize
    ensures { (result ≤ length t.old) × (length t.new ≡ length t.old) × (take result t.new ≡ after a b t.old) }
{
    let mut j = 0;
    for row in 0..t.len() / 3 {
        j = move_row(t, 3 * row, j, a, b);
    }
    j
}

// Inner: zeros from place i to the end.
pub fn clear(t: &mut [u32], i: usize)
    requires { i ≤ length t.old }
    ensures { t.new ≡ take i t.old ++ replicate (length t.old - i) 0 }
{
    t[i..].fill(0);
}

// Inner: the rows that stay move up, and the rest is cleared.
pub fn shrink(t: &mut [u32], a: u32, b: u32)
    ensures { t.new ≡ after a b t.old ++ replicate (length t.old - length (after a b t.old)) 0 }
{
    let j = move_up(t, a, b);
    clear(t, j);
}
