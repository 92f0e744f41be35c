// The quick engine: thinning without a limit that finishes one corner before the next. Rows keep their slots until the end, places are ranks among the
// rows that stand, and a neighbour that was tried in vain waits no more before its edge can have changed.
#![tactic(auto)]

ghost use Rattle.std.specs.Prelude.{ℕ, ◌≡◌, ◌+◌, ◌*◌, ◌≤◌, ◌<◌, length};
ghost use Rattle.surface.specs.Limits.{most_corners};
ghost use Rattle.surface.specs.InnerStageTable.{StageTable};
ghost use Rattle.slots.specs.Slot.{most_slots, Whole, Under};
ghost use Rattle.slots.specs.Marks.{Blank};
ghost use Rattle.spots.specs.InnerHeld.{flat_of};
ghost use Rattle.ranks.specs.InnerRanks.{Stairs};
ghost use Rattle.trapped.specs.ByCorner.{ByCorner};
ghost use Rattle.going.specs.Going.{CanGoOn, WentBy};
ghost use Rattle.quick.specs.InnerGround.{BeforeCorner};
ghost use Rattle.waiting.specs.InnerWaiting.{Member, LeastWaits};
ghost use Rattle.quick.specs.InnerClose.{Begun, RoomFor, ThinnedAll};
ghost use Rattle.quick.specs.InnerRound.{AtOpenCorner, Tried, CornerDone, AllDone, Unchanged};

use waiting::Waiting;

// The mark of a corner that has been removed, and what is no mark. Numbers beside the marks u + 1: a mark is looked at for every neighbour, and an
// enum of them would be twice as wide.
const GONE: u16 = surface::MOST_CORNERS as u16 + 1;

const NO_MARK: u16 = surface::MOST_CORNERS as u16 + 2;

// What a thinning works in: the slots of the first table, corner by corner; a mark for each corner, and those that wait; how many rows stand before
// each, with what is taken off when rows leave; and the slots of a corner.
#[derive(Drop)]
struct Work {
    start: [u16; spots::STARTS],
    list: [u16; slots::MOST_SLOTS],
    mark: [u16; around::MARKS],
    waiting: Waiting,
    sub: [u8; surface::MOST_ROWS],
    sup: [u16; ranks::BLOCKS],
    stair: [u8; ranks::STAIR],
    flight: [u16; ranks::FLIGHT],
    ring: [u16; slots::MOST_SLOTS],
    ghost stairs: { Stairs stair flight },
}

impl Work {
    // The rows of a first table are laid down in held; all of them stand.
    fn begin(&mut self, t: &[u32], held: &mut [u16])
        requires whole { Whole t.now × Under t.now most_corners }
        requires t_value { (4 * length t.now ≡ 3 * length held.old) × (length t.now ≤ most_slots) }
        requires blank { Blank self.old.start × Blank self.old.mark }
        requires empty { (w : ℕ) → ¬ Member self.old.waiting w }
        ensures held_after { flat_of held.new ≡ t.now }
        ensures begun { Begun t.now self.new.start self.new.list self.new.mark self.new.waiting self.new.sub self.new.sup }
    {
        spots::lay(t, held, &mut self.start, &mut self.list);
        ranks::fill(&mut self.sub, &mut self.sup);
    }
}

// Neighbours of a corner with three may all have changed when it goes; of another only those that are new to u.
fn unchanged(slots: usize, u: u16) -> u16
    requires { u < most_corners }
    ensures { Unchanged slots u result }
{
    if slots == 3 { NO_MARK } else { u + 1 }
}

// Tries the least corner v that waits: it waits no more, and where its edge to u may be contracted, it is. Answers how many records there are
// then. u has its own mark too, so that three are found where two are common.
fn attempt(
    n: usize,
    held: &mut [u16],
    work: &mut Work,
    log: &mut [u32],
    u: u16,
    v: u16,
    total: usize,
    done: usize,
) -> usize
    requires at_open_corner { AtOpenCorner n held.old work.old.start work.old.list work.old.mark work.old.waiting work.old.sub work.old.sup log.old u total done }
    requires least_waits { LeastWaits work.old.waiting v }
    ensures { Tried n work.new.start work.new.list held.old work.old.waiting log.old held.new work.new.mark work.new.waiting work.new.sub work.new.sup log.new u v total done result }
{
    work.waiting.take(v as usize);
    if total - 2 * done <= 4 {
        return done;
    }
    let walked = around::walk(
        held,
        &work.start,
        &work.list,
        &work.mark,
        v,
        u + 1,
        &mut work.ring,
    );
    if walked.marked != 3 {
        return done;
    }
    let k = walked.slots;
    around::meet(
        held,
        &work.ring[..k],
        &mut work.mark,
        &mut work.waiting,
        u,
        unchanged(k, u),
    );
    work.mark[v as usize] = GONE;
    let e = strike::step(
        held,
        &work.ring[..k],
        &mut work.sub,
        &mut work.sup,
        &work.stair,
        &work.flight,
        u,
        v,
    );
    record::write_record(log, record::WIDTH * done, e);
    done + 1
}

// Finishes the corner u; answers how many records there are then.
fn finish(
    n: usize,
    held: &mut [u16],
    work: &mut Work,
    log: &mut [u32],
    u: u16,
    total: usize,
    done: usize,
) -> usize
    requires before_corner { BeforeCorner n held.old work.old.start work.old.list work.old.mark work.old.waiting work.old.sub work.old.sup log.old u total done }
    requires u_lt_n { u < n }
    ensures { CornerDone n work.new.start work.new.list held.old log.old held.new work.new.mark work.new.waiting work.new.sub work.new.sup log.new u total done result }
{
    if work.mark[u as usize] == GONE {
        return done;
    }
    let walked = around::walk(
        held,
        &work.start,
        &work.list,
        &work.mark,
        u,
        u + 1,
        &mut work.ring,
    );
    let k = walked.slots;
    around::meet(
        held,
        &work.ring[..k],
        &mut work.mark,
        &mut work.waiting,
        u,
        NO_MARK,
    );
    work.mark[u as usize] = u + 1;
    let mut d = done;
    while let Some(v) = work.waiting.least() {
        d = attempt(n, held, work, log, u, v, total, d);
    }
    d
}

// Finishes all corners, from the lowest up; answers how many records there are then.
fn finish_all(
    n: usize,
    held: &mut [u16],
    work: &mut Work,
    log: &mut [u32],
    total: usize,
    done: usize,
) -> usize
    requires { BeforeCorner n held.old work.old.start work.old.list work.old.mark work.old.waiting work.old.sub work.old.sup log.old 0 total done }
    ensures { AllDone n n held.old log.old held.new log.new done result }
{
    let mut d = done;
    for u in 0..n {
        d = finish(n, held, work, log, u as u16, total, d);
    }
    d
}

// Thins a stage: its rows are laid down in held, thinned where they lie, and closed up.
fn thin_all(t: &mut [u32], held: &mut [u16], n: usize, log: &mut [u32], done: usize) -> usize
    requires stage_table { StageTable n t.old }
    requires t_value { 4 * length t.old ≡ 3 * length held.old }
    requires room_for { RoomFor t.old log.old done }
    ensures { ThinnedAll n t.old log.old done result t.new log.new }
{
    let mut stair = [0; ranks::STAIR];
    let mut flight = [0; ranks::FLIGHT];
    ranks::fill_stairs(&mut stair, &mut flight);
    // Made here and not by a function of Work: what is returned is copied, and small tables took twice as long.
    let mut work = Work {
        start: [0; spots::STARTS],
        list: [0; slots::MOST_SLOTS],
        mark: [0; around::MARKS],
        waiting: Waiting::new(),
        sub: [0; surface::MOST_ROWS],
        sup: [0; ranks::BLOCKS],
        stair,
        flight,
        ring: [0; slots::MOST_SLOTS],
    };
    work.begin(t, held);
    let total = t.len() / 3 + 2 * done;
    let k = finish_all(n, held, &mut work, log, total, done);
    let j = spots::close_up(held, t);
    shrink::clear(t, j);
    k
}

// Inner: goes on thinning the first rows of a lent table without a limit, with done records in the log already; answers how many records
// there are in all.
pub fn go_on(table: &mut [u32], rows: usize, n: usize, log: &mut [u32], done: usize) -> usize
    requires { CanGoOn n table.old rows log.old done }
    ensures { WentBy (ByCorner n) table.old rows log.old done result table.new log.new }
{
    let mut held = [0u16; spots::PLACES];
    let end = 3 * rows;
    let places = 4 * rows;
    thin_all(&mut table[..end], &mut held[..places], n, log, done)
}
