// A table with the chains of its slots: an edge is looked for round its first corner, and a number is written with the chains kept, so that no look
// through the table is needed for either.
#![tactic(auto)]

ghost use Rattle.std.specs.Prelude.{◌≡◌, ◌+◌, ◌*◌, ◌≤◌, ◌<◌, length, set};
ghost use Rattle.chart.specs.Chart.{InChains, SlotIs, Above, Numbered};
ghost use Rattle.chart.specs.Links.{after, hung_last, hung_prev};

use record::{Corner, Leaving};

// Inner: the slot of the directed edge a to b.
pub fn slot_of(t: &[u32], last: &[usize], prev: &[usize], a: Corner, b: Corner) -> Option<usize>
    requires { InChains t.now last.now prev.now }
    ensures { SlotIs t.now a.0 b.0 result }
{
    let mut x = *last.get(a.0 as usize)?;
    while x != 0 {
        let e = x - 1;
        if t[slots::next(e)] == b.0 {
            return Some(e);
        }
        x = prev[e];
    }
    None
}

// Which of a corner's slots is the next above e in its chain.
fn above(t: &[u32], last: &[usize], prev: &[usize], u: usize, e: usize) -> usize
    requires in_chains { InChains t.now last.now prev.now }
    requires u_in_bounds { u < length last.now }
    requires e_in_bounds { e < length t.now }
    ensures { Above t.now u e result }
{
    let mut x: usize = 0;
    let mut y = last[u];
    while e + 1 < y {
        x = y;
        y = prev[y - 1];
    }
    x
}

// What hangs on x in the chain of a corner, whose head is x = 0.
fn hanging(last: &[usize], prev: &[usize], u: usize, x: usize) -> usize
    requires u_in_bounds { u < length last.now }
    requires x_in_bounds { x ≤ length prev.now }
    ensures { result ≡ after last.now prev.now u x }
{
    if x == 0 {
        return last[u];
    }
    prev[x - 1]
}

// Hangs another there.
fn hang(last: &mut [usize], prev: &mut [usize], u: usize, x: usize, z: usize)
    requires u_in_bounds { u < length last.old }
    requires x_in_bounds { x ≤ length prev.old }
    ensures last_after { last.new ≡ hung_last last.old u x z }
    ensures prev_after { prev.new ≡ hung_prev prev.old x z }
{
    if x == 0 {
        last[u] = z;
    } else {
        prev[x - 1] = z;
    }
}

// Writes a number in a slot: it is taken out of the one chain and put into the other.
fn set_slot(t: &mut [u32], last: &mut [usize], prev: &mut [usize], e: usize, w: Corner)
    requires in_chains { InChains t.old last.old prev.old }
    requires e_in_bounds { e < length t.old }
    requires w_in_bounds { w.0 < length last.old }
    ensures t_after { t.new ≡ set t.old e w.0 }
    ensures in_chains_2 { InChains t.new last.new prev.new }
{
    let from = t[e] as usize;
    let to = w.0 as usize;
    if from == to {
        return;
    }
    let x = above(t, last, prev, from, e);
    let y = above(t, last, prev, to, e);
    let down = hanging(last, prev, to, y);
    let next = prev[e];
    hang(last, prev, from, x, next);
    hang(last, prev, to, y, e + 1);
    prev[e] = down;
    t[e] = w.0;
}

// Inner: writes a row at its place.
pub fn put_row(t: &mut [u32], last: &mut [usize], prev: &mut [usize], r: Leaving)
    requires in_chains { InChains t.old last.old prev.old }
    requires place_in_bounds { 3 * r.place.0 + 2 < length t.old }
    requires numbered { Numbered r (length last.old) }
    ensures t_after { t.new ≡ set (set (set t.old (3 * r.place.0) r.a.0) (3 * r.place.0 + 1) r.b.0) (3 * r.place.0 + 2) r.c.0 }
    ensures in_chains_2 { InChains t.new last.new prev.new }
{
    let e = 3 * (r.place.0 as usize);
    let a = r.a;
    let b = r.b;
    let c = r.c;
    set_slot(t, last, prev, e, a);
    set_slot(t, last, prev, e + 1, b);
    set_slot(t, last, prev, e + 2, c);
}
