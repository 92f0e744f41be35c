// Whether a record is accepted at a stage, by the local rule: it looks round the kept corner alone.
#![tactic(auto)]

ghost use Rattle.std.specs.Prelude.{◌≤◌, length};
ghost use Rattle.surface.specs.Limits.{most_rows};
ghost use Rattle.surface.specs.Rows.{rows};
ghost use Rattle.surface.specs.Table.{Used};
ghost use Rattle.surface.specs.InnerStageTable.{StageTable};
ghost use Rattle.record.specs.Meant.{meant};
ghost use Rattle.slots.specs.Slot.{Whole};
ghost use Rattle.slots.specs.Marks.{Blank};
ghost use Rattle.refusal.specs.InnerTells.{Tells};
ghost use Rattle.noted.specs.Noted.{Round};
ghost use Rattle.accept.specs.Test.{InBounds, Answered};

use record::{Corner, Record};

// Whether a record's numbers and places can be those of a step to so many rows.
fn in_bounds(r: Record, rows: usize, corners: usize) -> bool
    requires { rows ≤ most_rows }
    ensures { Tells result (InBounds corners rows (meant r)) (¬ InBounds corners rows (meant r)) }
{
    r.kept.0 < r.removed.0
        && (r.removed.0 as usize) < corners
        && r.earlier.place.0 < r.later.place.0
        && (r.later.place.0 as usize) < rows + 2
        && rows + 2 <= surface::MOST_ROWS
}

// Whether a table uses a corner. A step of the loop does not leave it, so that many numbers are compared at once.
fn uses(t: &[u32], v: Corner) -> bool
    requires { Whole t.now }
    ensures { Tells result (Used (rows t.now) v.0) (¬ Used (rows t.now) v.0) }
{
    let mut found = false;
    for x in t {
        if *x == v.0 {
            found = true;
        }
    }
    found
}

// Inner: x and y of a record that is accepted at a stage; at has the rows round its kept corner.
pub fn accepts(t: &[u32], corners: usize, r: Record, at: &mut [usize]) -> Option<(Corner, Corner)>
    requires stage_table { StageTable corners t.now }
    requires corners_in_bounds { corners ≤ length at.old }
    requires blank { Blank at.old }
    ensures answered { Answered corners (rows t.now) (meant r) result }
    ensures round { Round t.now r.kept.0 at.new }
{
    let kept = r.kept;
    let removed = r.removed;
    noted::note_round(t, kept, at);
    if !in_bounds(r, t.len() / 3, corners) {
        return None;
    }
    if uses(t, removed) {
        return None;
    }
    let (x, y) = ends::ends_of(r)?;
    if !noted::two_near(at, x, y) {
        return None;
    }
    Some((x, y))
}
