// Refusals 5, 6 and 9: the corner numbers of a table one by one.
#![tactic(auto)]

ghost use Rattle.std.specs.Prelude.{◌≤◌, length};
ghost use Rattle.surface.specs.Rows.{rows};
ghost use Rattle.refusal.specs.InnerTells.{Tells};
ghost use Rattle.faults.specs.Words.{NotBelow, Below, TwiceInRow, Apart, Unused, AllUsed};
ghost use Rattle.slots.specs.Slot.{Whole};
ghost use Rattle.slots.specs.Chain.{Lasts};

// Inner: 5, a corner number not below the count.
pub fn not_below(t: &[u32], n: usize) -> bool
    requires { Whole t.now }
    ensures { Tells result (NotBelow n (rows t.now)) (Below n (rows t.now)) }
{
    t.iter().any(|v| n <= *v as usize)
}

// Inner: 6, a number twice in a row.
#[tactic(auto, using(slots::proofs::Slots::next_inside))]
pub fn twice_in_row(t: &[u32]) -> bool
    requires { Whole t.now }
    ensures { Tells result (TwiceInRow (rows t.now)) (Apart (rows t.now)) }
{
    for e in 0..t.len() {
        if t[e] == t[slots::next(e)] {
            return true;
        }
    }
    false
}

// Inner: 9, a corner unused.
pub fn corner_unused(t: &[u32], n: usize, last: &[usize]) -> bool
    requires whole { Whole t.now }
    requires lasts { Lasts t.now last.now }
    requires n_in_bounds { n ≤ length last.now }
    ensures { Tells result (Unused n (rows t.now)) (AllUsed n (rows t.now)) }
{
    last[..n].contains(&0)
}
