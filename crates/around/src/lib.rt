// Round a corner of a table whose rows keep their slots: its slots gathered and its marked neighbours counted in one walk, and its neighbours met.
#![tactic(auto)]

ghost use Rattle.std.specs.Prelude.{◌≡◌, ◌≢◌, ◌+◌, ◌≤◌, ◌<◌, length, get_or};
ghost use Rattle.surface.specs.Limits.{most_corners};
ghost use Rattle.slots.specs.Slot.{most_slots};
ghost use Rattle.spots.specs.InnerHeld.{HoldsSomeStage};
ghost use Rattle.spots.specs.InnerLists.{Mapped};
ghost use Rattle.around.specs.InnerRing.{next_to, WalkedRound};
ghost use Rattle.around.specs.InnerMeeting.{Listed, Met};

use waiting::Waiting;

// A mark for each corner, and one for LEFT, the number in rows that have left.
pub const MARKS: usize = surface::MOST_CORNERS + 1;

// What a walk found: so many slots, and so many marked corners next to them.
#[derive(Clone, Copy)]
pub struct Walked {
    pub slots: usize,
    pub marked: usize,
}

// Inner: writes the places of v's slots to the front of ring, and counts the corners next to them that have the mark stamp. The list is that
// of the first table: a slot whose row has left is written over by the next.
pub fn walk(
    held: &[u16],
    start: &[u16],
    list: &[u16],
    mark: &[u16],
    v: u16,
    stamp: u16,
    ring: &mut [u16],
) -> Walked
    requires mapped { Mapped held.now start.now list.now v }
    requires holds_some_stage { HoldsSomeStage held.now }
    requires v_lt_most_corners { v < most_corners }
    requires mark_len { (length mark.now ≡ most_corners + 1) × (get_or mark.now most_corners 0 ≢ stamp) }
    requires most_slots_in_bounds { most_slots ≤ length ring.old }
    ensures { WalkedRound held.now v mark.now stamp ring.new result.slots result.marked }
{
    let mut k: usize = 0;
    let mut c: usize = 0;
    for x in &list[start[v as usize] as usize..start[v as usize + 1] as usize] {
        let w = held[*x as usize];
        ring[k] = *x;
        k += usize::from(w != spots::LEFT);
        c += usize::from(mark[w as usize] == stamp);
    }
    Walked {
        slots: k,
        marked: c,
    }
}

// Inner: meets at u the corners next to the places of ring.
pub fn meet(held: &[u16], ring: &[u16], mark: &mut [u16], waiting: &mut Waiting, u: u16, but: u16)
    requires listed { Listed held.now ring.now }
    requires mark_len { (length mark.old ≡ most_corners + 1) × (u < most_corners) }
    ensures { Met u but (next_to held.now ring.now) mark.old waiting.old mark.new waiting.new }
{
    for x in ring {
        let w = held[*x as usize];
        let m = mark[w as usize];
        mark[w as usize] = u + 1;
        waiting.put(w as usize, m != but && u < w);
    }
}
