// Refusals 5 to 11 of a table whose counts fit, in 01's order.
#![tactic(auto)]

ghost use Rattle.std.specs.Prelude.{◌≡◌, true, ◌≤◌, length};
ghost use Rattle.surface.specs.Rows.{rows};
ghost use Rattle.faults.specs.Counts.{CountsFit};
ghost use Rattle.refusal.specs.InnerTells.{Tells};
ghost use Rattle.faults.specs.Words.{Unused, AllUsed};
ghost use Rattle.faults.specs.Inner.{CheckedRows};
ghost use Rattle.slots.specs.Slot.{Whole};
ghost use Rattle.slots.specs.Chain.{Lasts};

use refusal::Refusal;

// 9, a corner unused, where a first table is asked.
fn first_unused(t: &[u32], n: usize, last: &[usize], first: bool) -> bool
    requires whole { Whole t.now }
    requires lasts { Lasts t.now last.now }
    requires n_in_bounds { n ≤ length last.now }
    ensures { Tells result ((first ≡ true) × Unused n (rows t.now)) (first ≡ true → AllUsed n (rows t.now)) }
{
    first && numbers::corner_unused(t, n, last)
}

// Inner: the first of 5 to 11 that holds; 9 is asked of first tables only.
pub fn check_rows(t: &[u32], n: usize, first: bool) -> Result<(), Refusal>
    requires { CountsFit n t.now }
    ensures { CheckedRows first n (rows t.now) result }
{
    if numbers::not_below(t, n) {
        return Err(Refusal::NumberNotBelow);
    }
    if numbers::twice_in_row(t) {
        return Err(Refusal::NumberTwice);
    }
    let mut last = [0usize; surface::MOST_CORNERS];
    let mut prev = [0usize; slots::MOST_SLOTS];
    slots::chains(t, &mut last, &mut prev);
    let mut reverse = [0usize; slots::MOST_SLOTS];
    if edges::edge_twice(t, n, &last, &prev, &mut reverse) {
        return Err(Refusal::EdgeTwice);
    }
    if reverses::reverse_missing(t, n, &mut reverse) {
        return Err(Refusal::ReverseMissing);
    }
    if first_unused(t, n, &last, first) {
        return Err(Refusal::CornerUnused);
    }
    if rings::many_rings(t, n, &last, &reverse) {
        return Err(Refusal::RingsMany);
    }
    if reach::not_connected(t, &last, &prev) {
        return Err(Refusal::NotConnected);
    }
    Ok(())
}
