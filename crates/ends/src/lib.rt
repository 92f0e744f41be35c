// x and y of a record: the third corners of its two leaving rows.
#![tactic(auto)]

ghost use Rattle.std.specs.Prelude.{◌≡◌};
ghost use Rattle.refusal.specs.InnerTells.{Tells};
ghost use Rattle.ends.specs.Rows.{row_of, ThirdIs, PairIs, EndsAre};

use record::{Corner, Leaving, Record};

// Whether the two numbers are those two.
fn goes(a: u32, b: u32, p: u32, q: u32) -> bool
    ensures { Tells result ((a ≡ p) × (b ≡ q)) (¬ ((a ≡ p) × (b ≡ q))) }
{
    a == p && b == q
}

// The third corner of a row that has the directed edge p to q.
fn third_corner(r: Leaving, p: Corner, q: Corner) -> Option<Corner>
    ensures { ThirdIs (row_of r) p.0 q.0 result }
{
    let a = r.a;
    let b = r.b;
    let c = r.c;
    if goes(a.0, b.0, p.0, q.0) {
        return Some(c);
    }
    if goes(b.0, c.0, p.0, q.0) {
        return Some(a);
    }
    if goes(c.0, a.0, p.0, q.0) {
        return Some(b);
    }
    None
}

// Inner: x of one row, y of the other.
pub fn pair_of(r: Leaving, z: Leaving, kept: Corner, removed: Corner) -> Option<(Corner, Corner)>
    ensures { PairIs kept.0 removed.0 (row_of r) (row_of z) result }
{
    let x = third_corner(r, kept, removed)?;
    let y = third_corner(z, removed, kept)?;
    Some((x, y))
}

// Inner: x and y of a record; either leaving row may be the earlier.
pub fn ends_of(r: Record) -> Option<(Corner, Corner)>
    ensures { EndsAre r.kept.0 r.removed.0 (row_of r.earlier) (row_of r.later) result }
{
    let e = pair_of(r.earlier, r.later, r.kept, r.removed);
    match e {
        Some(_) => e,
        None => pair_of(r.later, r.earlier, r.kept, r.removed),
    }
}
