// Refusal 10: the rows round each corner form one ring. The ring of a corner is walked once, and a slot that no walk marks lies in another.
#![tactic(auto)]

ghost use Rattle.std.specs.Prelude.{◌≤◌, ◌<◌, length};
ghost use Rattle.surface.specs.Rows.{rows};
ghost use Rattle.refusal.specs.InnerTells.{Tells};
ghost use Rattle.faults.specs.Words.{Closed, ManyRings, OneRing};
ghost use Rattle.slots.specs.Marks.{Blank};
ghost use Rattle.rings.specs.Walk.{CanWalk, Sound, HandedOn, Walked, AllWalked};

// The walk round v: marks its slots from the last one onward, up to one that is marked.
fn walk(t: &[u32], last: &[usize], reverse: &[usize], m: &mut [u8], v: usize)
    requires can_walk { CanWalk t.now last.now reverse.now }
    requires sound { Sound t.now last.now m.old }
    requires handed_on { HandedOn t.now reverse.now m.old }
    requires v_in_bounds { v < length last.now }
    ensures { Walked t.now last.now reverse.now m.old m.new v }
{
    let x = last[v];
    if x == 0 {
        return;
    }
    let mut e = x - 1;
    while m[e] == 0 {
        m[e] = 1;
        e = reverses::onward(reverse, e);
    }
}

// The walks round all corners.
fn walk_all(t: &[u32], n: usize, last: &[usize], reverse: &[usize], m: &mut [u8])
    requires can_walk { CanWalk t.now last.now reverse.now }
    requires blank { Blank m.old }
    requires t_in_bounds { length t.now ≤ length m.old }
    requires n_in_bounds { n ≤ length last.now }
    ensures { AllWalked t.now last.now reverse.now m.new n }
{
    for v in 0..n {
        walk(t, last, reverse, m, v);
    }
}

// Inner: 10, more than one ring round a corner.
pub fn many_rings(t: &[u32], n: usize, last: &[usize], reverse: &[usize]) -> bool
    requires can_walk { CanWalk t.now last.now reverse.now }
    requires n_in_bounds { n ≤ length last.now }
    requires closed { Closed n (rows t.now) }
    ensures { Tells result (ManyRings (rows t.now)) (OneRing (rows t.now)) }
{
    let mut m = [0u8; slots::MOST_SLOTS];
    walk_all(t, n, last, reverse, &mut m);
    m[..t.len()].contains(&0)
}
