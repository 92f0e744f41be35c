// Slots of a flat table: the next one in a row, and the chains that list the slots of a corner.
#![tactic(auto)]

ghost use Rattle.std.specs.Prelude.{◌≡◌, ◌≤◌, ◌<◌, length};
ghost use Rattle.slots.specs.Slot.{next_slot, most_slots, Under};
ghost use Rattle.slots.specs.Chain.{Chained};
ghost use Rattle.slots.specs.Marks.{Blank};

// Three for each of the most rows: the length of an array with a number for each slot.
pub const MOST_SLOTS: usize = 3 * surface::MOST_ROWS;

// Inner: the next slot in the same row.
pub fn next(e: usize) -> usize
    requires { e < most_slots }
    ensures { result ≡ next_slot e }
{
    if e % 3 == 2 { e - 2 } else { e + 1 }
}

// Inner: for each corner its last slot, and for each slot the one before it with the same corner.
// One more than the slot, and 0 for none: an Option<usize> would double the lent arrays.
pub fn chains(t: &[u32], last: &mut [usize], prev: &mut [usize])
    requires under { Under t.now (length last.old) }
    requires t_in_bounds { length t.now ≤ length prev.old }
    requires blank { Blank last.old }
    ensures { Chained t.now last.new prev.new }
{
    for (i, x) in t.iter().enumerate() {
        let v = *x as usize;
        prev[i] = last[v];
        last[v] = i + 1;
    }
}
