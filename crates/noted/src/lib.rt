// The rows round a corner, noted by the corner next in each.
#![tactic(auto)]

ghost use Rattle.std.specs.Prelude.{◌+◌, ◌<◌, length};
ghost use Rattle.slots.specs.Slot.{Whole, Under};
ghost use Rattle.slots.specs.Marks.{Blank};
ghost use Rattle.refusal.specs.InnerTells.{Tells};
ghost use Rattle.noted.specs.Noted.{NotedTo, Round, IsNoted, BothNoted};

use record::Corner;

// Notes a slot by the corner next in its row, if it holds the kept one.
fn note(t: &[u32], e: usize, kept: Corner, at: &mut [usize])
    requires whole { Whole t.now }
    requires under { Under t.now (length at.old) }
    requires e_in_bounds { e < length t.now }
    requires noted_to { NotedTo t.now kept.0 e at.old }
    ensures { NotedTo t.now kept.0 (e + 1) at.new }
{
    if t[e] != kept.0 {
        return;
    }
    let p = t[slots::next(e)] as usize;
    at[p] = e + 1;
}

// Inner: notes the rows round the kept corner.
pub fn note_round(t: &[u32], kept: Corner, at: &mut [usize])
    requires whole { Whole t.now }
    requires under { Under t.now (length at.old) }
    requires blank { Blank at.old }
    ensures { Round t.now kept.0 at.new }
{
    for e in 0..t.len() {
        note(t, e, kept, at);
    }
}

// Whether a corner is noted.
fn near(at: &[usize], p: Corner) -> bool
    ensures { Tells result (IsNoted at.now p.0) (¬ IsNoted at.now p.0) }
{
    let i = p.0 as usize;
    i < at.len() && at[i] != 0
}

// Inner: whether x and y are two corners, both noted.
pub fn two_near(at: &[usize], x: Corner, y: Corner) -> bool
    ensures { Tells result (BothNoted at.now x.0 y.0) (¬ BothNoted at.now x.0 y.0) }
{
    x.0 != y.0 && near(at, x) && near(at, y)
}
