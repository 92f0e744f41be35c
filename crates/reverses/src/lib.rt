// Refusal 8: the reverse of each directed edge; and the way round a corner that the reverses give.
#![tactic(auto)]

ghost use Rattle.std.specs.Prelude.{◌≡◌, ◌<◌, length};
ghost use Rattle.surface.specs.Rows.{rows};
ghost use Rattle.refusal.specs.InnerTells.{Tells};
ghost use Rattle.faults.specs.Words.{NoReverse, BothWays};
ghost use Rattle.slots.specs.Slot.{next_slot, most_slots, Whole, Under};
ghost use Rattle.edges.specs.Sweep.{FoundTo};
ghost use Rattle.reverses.specs.Reverse.{Reverses, onward_slot};

// Inner: 8, a reverse missing; else reverse has the slot of each edge's reverse.
pub fn reverse_missing(t: &[u32], n: usize, reverse: &mut [usize]) -> bool
    requires whole { Whole t.now }
    requires under { Under t.now n }
    requires found_to { FoundTo t.now reverse.old n (length t.now) }
    ensures { Tells result (NoReverse (rows t.now)) (BothWays (rows t.now) × Reverses t.now reverse.new) }
{
    for e in 0..t.len() {
        let x = reverse[e];
        if x == 0 {
            return true;
        }
        reverse[e] = x - 1;
    }
    false
}

// Inner: the slot whose row follows that of e round the corner at e.
#[tactic(auto, using(slots::proofs::Slots::next_inside), unfolding(crate::specs::Reverse::onward_slot))]
pub fn onward(reverse: &[usize], e: usize) -> usize
    requires e_lt_most_slots { e < most_slots }
    requires e_in_bounds { next_slot (next_slot e) < length reverse.now }
    ensures { result ≡ onward_slot reverse.now e }
{
    let k = slots::next(e);
    let j = slots::next(k);
    reverse[j]
}
