// The undoing of one record of a flip on a stage's table and its chains, by the local rule: it looks at the record's two places and round one corner.
#![tactic(auto)]

ghost use Rattle.std.specs.Prelude.{◌≤◌, ◌<◌, length};
ghost use Rattle.surface.specs.Limits.{most_corners};
ghost use Rattle.surface.specs.Rows.{rows};
ghost use Rattle.refusal.specs.InnerTells.{Tells};
ghost use Rattle.flips.specs.InnerUndoable.{Undoable};
ghost use Rattle.neighbours.specs.Around.{Charted};
ghost use Rattle.chart.specs.Chart.{InChains};
ghost use Rattle.fliplog.specs.InnerMeant.{meant};
ghost use Rattle.unflip.specs.Inner.{Wrote, Undoes};

use fliplog::FlipRecord;
use record::{Corner, Leaving};

// Whether the flip that wrote (c, a, d) and (c, d, b) had the old rows of the record.
fn wrote(upper: Leaving, lower: Leaving, r: FlipRecord) -> bool
    ensures { Tells result (Wrote upper lower r) (¬ Wrote upper lower r) }
{
    if upper.a.0 != lower.a.0 || upper.c.0 != lower.b.0 {
        return false;
    }
    let Some((c, d)) = ends::pair_of(r.first, r.second, upper.b, lower.c) else {
        return false;
    };
    c.0 == upper.a.0 && d.0 == upper.c.0
}

// Whether a record is undone.
fn undoable(t: &[u32], last: &[usize], prev: &[usize], r: FlipRecord) -> bool
    requires charted { Charted t.now last.now prev.now }
    requires most_corners_in_bounds { most_corners ≤ length last.now }
    ensures { Tells result (Undoable (rows t.now) (meant r)) (¬ Undoable (rows t.now) (meant r)) }
{
    let p = r.first.place.0 as usize;
    let q = r.second.place.0 as usize;
    if t.len() / 3 <= p || t.len() / 3 <= q {
        return false;
    }
    let upper = flip::row_at(t, p);
    let lower = flip::row_at(t, q);
    if !wrote(upper, lower, r) {
        return false;
    }
    let a = upper.b;
    let b = lower.c;
    chart::slot_of(t, last, prev, a, b).is_none()
}

// Inner: undoes a record where it is undone, and tells whether it is.
pub fn undo(t: &mut [u32], last: &mut [usize], prev: &mut [usize], r: FlipRecord) -> bool
    requires charted { Charted t.old last.old prev.old }
    requires most_corners_in_bounds { most_corners ≤ length last.old }
    ensures undoes { Undoes t.old (meant r) result t.new }
    ensures in_chains { InChains t.new last.new prev.new }
{
    if !undoable(t, last, prev, r) {
        return false;
    }
    flip::put_rows(t, last, prev, r);
    true
}
