// Refusal 7: each directed edge once. One sweep over the corners finds the edges from each, and their reverses with them.
#![tactic(auto)]

ghost use Rattle.std.specs.Prelude.{◌≤◌, ◌<◌, length};
ghost use Rattle.surface.specs.Limits.{most_corners};
ghost use Rattle.surface.specs.Rows.{rows};
ghost use Rattle.refusal.specs.InnerTells.{Tells};
ghost use Rattle.faults.specs.Words.{EdgeRepeats, EdgesOnce};
ghost use Rattle.slots.specs.Slot.{Whole, Under};
ghost use Rattle.slots.specs.Chain.{Chained};
ghost use Rattle.edges.specs.Sweep.{Picked, Entries, Entered, FoundTo};

// y where it stands for a slot of u, else 0: not an Option, since `reverse` has 0 for none as the chains have.
fn pick(t: &[u32], y: usize, u: usize) -> usize
    requires { y ≤ length t.now }
    ensures { Picked t.now y u result }
{
    if y != 0 && t[y - 1] as usize == u {
        y
    } else {
        0
    }
}

// Puts down the slots of u by where their directed edges end, unless two end at one corner.
#[tactic(auto, using(slots::proofs::Slots::next_inside))]
fn enter(t: &[u32], last: &[usize], prev: &[usize], ends: &mut [usize], u: usize) -> bool
    requires whole { Whole t.now }
    requires chained { Chained t.now last.now prev.now }
    requires under { Under t.now (length ends.old) }
    requires entries { Entries t.now ends.old u (length t.now) }
    requires u_in_bounds { u < length last.now }
    ensures { Tells result (EdgeRepeats (rows t.now)) (Entries t.now ends.new u 0 × Entered t.now ends.new u 0) }
{
    let mut x = last[u];
    while x != 0 {
        let e = x - 1;
        let k = slots::next(e);
        let w = t[k] as usize;
        let y = pick(t, ends[w], u);
        if y != 0 {
            return true;
        }
        ends[w] = x;
        x = prev[e];
    }
    false
}

// Finds the reverse of each directed edge to u: in the row (u, p, q) it is that of q to u.
fn find(t: &[u32], last: &[usize], prev: &[usize], ends: &[usize], reverse: &mut [usize], u: usize)
    requires whole { Whole t.now }
    requires chained { Chained t.now last.now prev.now }
    requires under { Under t.now (length ends.now) }
    requires entries { Entries t.now ends.now u 0 }
    requires entered { Entered t.now ends.now u 0 }
    requires found_to { FoundTo t.now reverse.old u (length t.now) }
    requires u_in_bounds { u < length last.now }
    ensures { FoundTo t.now reverse.new u 0 }
{
    let mut x = last[u];
    while x != 0 {
        let e = x - 1;
        let j = slots::next(e);
        let k = slots::next(j);
        let q = t[k] as usize;
        reverse[k] = pick(t, ends[q], u);
        x = prev[e];
    }
}

// Inner: 7, a directed edge twice; else reverse has one more than the slot of each edge's reverse, or 0.
pub fn edge_twice(
    t: &[u32],
    n: usize,
    last: &[usize],
    prev: &[usize],
    reverse: &mut [usize],
) -> bool
    requires whole { Whole t.now }
    requires chained { Chained t.now last.now prev.now }
    requires under { Under t.now n }
    requires n_le_most_corners { n ≤ most_corners }
    requires n_in_bounds { n ≤ length last.now }
    requires t_in_bounds { length t.now ≤ length reverse.old }
    ensures { Tells result (EdgeRepeats (rows t.now)) (EdgesOnce (rows t.now) × FoundTo t.now reverse.new n (length t.now)) }
{
    let mut ends = [0usize; surface::MOST_CORNERS];
    for u in 0..n {
        if enter(t, last, prev, &mut ends, u) {
            return true;
        }
        find(t, last, prev, &ends, reverse, u);
    }
    false
}
