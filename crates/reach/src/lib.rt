// Refusal 11: any used corner is reached from any other by edges. What is reached from one is marked, over a queue of corners.
#![tactic(auto)]

ghost use Rattle.std.specs.Prelude.{◌≡◌, ◌≢◌, ◌+◌, ◌≤◌, ◌<◌, length, get_or};
ghost use Rattle.surface.specs.Limits.{most_corners};
ghost use Rattle.surface.specs.Rows.{rows};
ghost use Rattle.refusal.specs.InnerTells.{Tells};
ghost use Rattle.faults.specs.Words.{BothWays, Parted, Connected};
ghost use Rattle.slots.specs.Slot.{Whole, Under};
ghost use Rattle.slots.specs.Chain.{Chained};
ghost use Rattle.slots.specs.Marks.{Blank, zeros};
ghost use Rattle.reach.specs.Reaching.{Noted, Reached, Grew, AllReached};

// Marks w and puts it last in the queue, unless it is marked.
fn note(m: &mut [u8], q: &mut [usize], w: usize, l: usize) -> usize
    requires w_in_bounds { w < length m.old }
    requires m_value { l + zeros m.old ≡ length m.old }
    requires m_in_bounds { length m.old ≤ length q.old }
    ensures { Noted m.old q.old w l m.new q.new result }
{
    if m[w] != 0 {
        return l;
    }
    m[w] = 1;
    q[l] = w;
    l + 1
}

// Marks and queues the neighbours of v.
fn reach_next(
    t: &[u32],
    last: &[usize],
    prev: &[usize],
    m: &mut [u8],
    q: &mut [usize],
    v: usize,
    l0: usize,
) -> usize
    requires whole { Whole t.now }
    requires chained { Chained t.now last.now prev.now }
    requires under { Under t.now (length m.old) }
    requires reached { Reached t.now m.old q.old l0 }
    requires v_in_bounds { v < length last.now }
    requires v_nonzero { get_or m.old v 0 ≢ 0 }
    ensures { Grew t.now v m.old q.old l0 m.new q.new result 0 }
{
    let mut l = l0;
    let mut x = last[v];
    while x != 0 {
        let e = x - 1;
        let k = slots::next(e);
        let w = t[k] as usize;
        l = note(m, q, w, l);
        x = prev[e];
    }
    l
}

// Marks what is reached from the first corner of the first row.
fn reach_all(t: &[u32], last: &[usize], prev: &[usize], m: &mut [u8], q: &mut [usize])
    requires whole { Whole t.now }
    requires chained { Chained t.now last.now prev.now }
    requires under { Under t.now (length m.old) }
    requires t_nonzero { 0 < length t.now }
    requires m_in_bounds { length m.old ≤ length last.now }
    requires m_in_bounds_2 { length m.old ≤ length q.old }
    requires blank { Blank m.old }
    ensures { AllReached t.now m.new }
{
    let s = t[0] as usize;
    m[s] = 1;
    q[0] = s;
    let mut h: usize = 0;
    let mut l: usize = 1;
    while h < l {
        let v = q[h];
        l = reach_next(t, last, prev, m, q, v, l);
        h += 1;
    }
}

// Inner: 11, not connected.
pub fn not_connected(t: &[u32], last: &[usize], prev: &[usize]) -> bool
    requires whole { Whole t.now }
    requires chained { Chained t.now last.now prev.now }
    requires under { Under t.now most_corners }
    requires t_nonzero { 0 < length t.now }
    requires most_corners_in_bounds { most_corners ≤ length last.now }
    requires both_ways { BothWays (rows t.now) }
    ensures { Tells result (Parted (rows t.now)) (Connected (rows t.now)) }
{
    let mut m = [0u8; surface::MOST_CORNERS];
    let mut q = [0usize; surface::MOST_CORNERS];
    reach_all(t, last, prev, &mut m, &mut q);
    for v in t {
        if m[*v as usize] == 0 {
            return true;
        }
    }
    false
}
