// The step on a table whose rows keep their slots, with its record.
#![tactic(auto)]

ghost use Rattle.std.specs.Prelude.{◌+◌, ◌*◌, ◌≤◌, ◌<◌, length};
ghost use Rattle.surface.specs.Limits.{most_rows};
ghost use Rattle.ranks.specs.InnerRanks.{CountsSome, Stairs};
ghost use Rattle.strike.specs.InnerStrike.{Inside, Picks, BothBeside, SomeBeside, Ordered, SlotsRenamed, Killed, LeavingTold, Ready, Struck};

use record::{Corner, Leaving, Place, Record};

// Two places of a ring: u comes right after the slot of the one, and is the third corner at that of the other.
#[derive(Clone, Copy)]
struct Beside {
    one: usize,
    two: usize,
}

// Two rows, in their order.
#[derive(Clone, Copy)]
struct Pair {
    earlier: usize,
    later: usize,
}

// x where two numbers are the same, else y.
fn pick(a: u16, b: u16, x: usize, y: usize) -> usize
    ensures { Picks a b x y result }
{
    if a == b { x } else { y }
}

// Where u stands beside the slots of ring. All are looked at, so that no branch has to be foreseen.
fn find(held: &[u16], ring: &[u16], u: u16) -> Beside
    requires inside { Inside held.now ring.now }
    requires some_beside { SomeBeside held.now ring.now u }
    ensures { BothBeside held.now ring.now u result.one result.two }
{
    let mut one: usize = 0;
    let mut two: usize = 0;
    for place in ring {
        let x = *place as usize;
        one = pick(held[x], u, x, one);
        two = pick(held[spots::after(x)], u, x, two);
    }
    Beside { one, two }
}

// The rows of two places.
fn ordered(one: usize, two: usize) -> Pair
    ensures { Ordered one two result.earlier result.later }
{
    if one < two {
        Pair {
            earlier: one / 4,
            later: two / 4,
        }
    } else {
        Pair {
            earlier: two / 4,
            later: one / 4,
        }
    }
}

// The slots of ring hold u.
fn rename(held: &mut [u16], ring: &[u16], u: u16)
    requires { Inside held.old ring.now }
    ensures { SlotsRenamed held.old ring.now u held.new }
{
    for x in ring {
        held[spots::own_place(*x as usize)] = u;
    }
}

// A row leaves. Its fourth place, which says nothing, is written too: four places go at once.
fn kill(held: &mut [u16], r: usize)
    requires { (4 * r + 4 ≤ length held.old) × (length held.old ≤ 4 * most_rows) }
    ensures { Killed held.old r held.new }
{
    let x = 4 * r;
    held[x] = spots::LEFT;
    held[x + 1] = spots::LEFT;
    held[x + 2] = spots::LEFT;
    held[x + 3] = spots::LEFT;
}

// A row that is to leave, and its place among those that stand.
fn leaving_of(held: &[u16], sub: &[u8], sup: &[u16], r: usize) -> Leaving
    requires r_in_bounds { (4 * r + 4 ≤ length held.now) × (r < most_rows) }
    requires counts_some { CountsSome sub.now sup.now }
    ensures { LeavingTold held.now sub.now sup.now r result }
{
    let x = 4 * r;
    let place = ranks::before(sub, sup, r);
    let a = held[x + 2] as u32;
    let b = held[x] as u32;
    let c = held[x + 1] as u32;
    Leaving {
        place: Place(place),
        a: Corner(a),
        b: Corner(b),
        c: Corner(c),
    }
}

// Inner: contracts the edge from u up to v, whose slots ring names.
pub fn step(
    held: &mut [u16],
    ring: &[u16],
    sub: &mut [u8],
    sup: &mut [u16],
    stair: &[u8],
    flight: &[u16],
    u: u16,
    v: u16,
) -> Record
    requires ready { Ready held.old ring.now sub.old sup.old u v }
    requires stairs { Stairs stair.now flight.now }
    ensures { Struck held.old u v result held.new sub.new sup.new }
{
    let beside = find(held, ring, u);
    let pair = ordered(beside.one, beside.two);
    let earlier = leaving_of(held, sub, sup, pair.earlier);
    let later = leaving_of(held, sub, sup, pair.later);
    rename(held, ring, u);
    kill(held, pair.earlier);
    kill(held, pair.later);
    ranks::leave(sub, sup, stair, flight, pair.earlier, pair.later);
    Record {
        kept: Corner(u as u32),
        removed: Corner(v as u32),
        earlier,
        later,
    }
}
