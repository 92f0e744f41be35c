// The flip of one edge on a stage's table and its chains.
#![tactic(auto)]

ghost use Rattle.std.specs.Prelude.{◌≡◌, ◌≤◌, ◌<◌, length};
ghost use Rattle.surface.specs.Limits.{most_corners};
ghost use Rattle.surface.specs.Rows.{rows};
ghost use Rattle.flips.specs.Undo.{put_rows_lem};
ghost use Rattle.slots.specs.Slot.{Whole};
ghost use Rattle.neighbours.specs.Around.{Charted};
ghost use Rattle.chart.specs.Chart.{InChains, Numbered};
ghost use Rattle.fliplog.specs.InnerMeant.{meant};
ghost use Rattle.flip.specs.Inner.{third_at, RowAt, new_rows_lem, Tries};

use fliplog::FlipRecord;
use flipped::FlipRefusal;
use record::{Corner, Leaving, Place};

// The third corner of the row of a directed edge, by the edge's slot.
fn third_of(t: &[u32], e: usize) -> Corner
    requires whole { Whole t.now }
    requires e_in_bounds { e < length t.now }
    ensures { result.0 ≡ third_at t.now e }
{
    Corner(t[slots::next(slots::next(e))])
}

// Inner: the row at a place.
pub fn row_at(t: &[u32], p: usize) -> Leaving
    requires whole { Whole t.now }
    requires p_in_bounds { p < length (rows t.now) }
    ensures { RowAt t.now p result }
{
    let e = 3 * p;
    Leaving {
        place: Place(p as u32),
        a: Corner(t[e]),
        b: Corner(t[e + 1]),
        c: Corner(t[e + 2]),
    }
}

// Inner: writes the two rows of a record at their places.
pub fn put_rows(t: &mut [u32], last: &mut [usize], prev: &mut [usize], r: FlipRecord)
    requires in_chains { InChains t.old last.old prev.old }
    requires place_in_bounds { (r.first.place.0 < length (rows t.old)) × Numbered r.first (length last.old) }
    requires place_in_bounds_2 { (r.second.place.0 < length (rows t.old)) × Numbered r.second (length last.old) }
    ensures t_after { rows t.new ≡ put_rows_lem (meant r) (rows t.old) }
    ensures in_chains_2 { InChains t.new last.new prev.new }
{
    chart::put_row(t, last, prev, r.second);
    chart::put_row(t, last, prev, r.first);
}

// What a flip writes, in the places of the rows (a, b, c) and (b, a, d).
fn new_rows(old: FlipRecord, a: Corner, b: Corner, c: Corner, d: Corner) -> FlipRecord
    ensures { result ≡ new_rows_lem old a b c d }
{
    FlipRecord {
        first: Leaving {
            place: old.first.place,
            a: c,
            b: a,
            c: d,
        },
        second: Leaving {
            place: old.second.place,
            a: c,
            b: d,
            c: b,
        },
    }
}

// Inner: flips the edge a b where that is allowed: the rows (a, b, c) and (b, a, d) become (c, a, d) and (c, d, b). It gives the flip's record.
pub fn flip(
    t: &mut [u32],
    last: &mut [usize],
    prev: &mut [usize],
    a: Corner,
    b: Corner,
) -> Result<FlipRecord, FlipRefusal>
    requires charted { Charted t.old last.old prev.old }
    requires most_corners_in_bounds { most_corners ≤ length last.old }
    ensures tries { Tries t.old a.0 b.0 result t.new }
    ensures in_chains { InChains t.new last.new prev.new }
{
    let Some(x) = chart::slot_of(t, last, prev, a, b) else {
        return Err(FlipRefusal::EdgeMissing);
    };
    // an edge of a stage has its reverse
    let y = chart::slot_of(t, last, prev, b, a).unwrap();
    let c = third_of(t, x);
    let d = third_of(t, y);
    if chart::slot_of(t, last, prev, c, d).is_some() {
        return Err(FlipRefusal::EdgeBlocked);
    }
    let old = FlipRecord {
        first: row_at(t, x / 3),
        second: row_at(t, y / 3),
    };
    put_rows(t, last, prev, new_rows(old, a, b, c, d));
    Ok(old)
}
