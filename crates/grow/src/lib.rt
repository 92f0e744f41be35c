// A record grown back in place, where it is accepted.
#![tactic(auto)]

ghost use Rattle.std.specs.Prelude.{◌+◌, ◌*◌, ◌≤◌, length};
ghost use Rattle.surface.specs.InnerStageTable.{StageTable};
ghost use Rattle.record.specs.Meant.{meant};
ghost use Rattle.grow.specs.Walk.{Walkable, Renamed};
ghost use Rattle.record.specs.Front.{front_rows};
ghost use Rattle.grow.specs.Room.{GrewBack};

use record::{Corner, Record};

// The removed number goes on the rows round the kept corner, from y forward to x.
fn rename(t: &mut [u32], at: &[usize], r: Record, x: Corner, y: Corner)
    requires { Walkable t.old at.now r.kept.0 x.0 y.0 }
    ensures { Renamed r.kept.0 r.removed.0 x.0 y.0 t.old t.new }
{
    let mut p = y.0;
    while p != x.0 {
        let e = at[p as usize] - 1;
        t[e] = r.removed.0;
        p = t[slots::next(slots::next(e))];
    }
}

// Inner: grows a record back on so many rows where it is accepted, and tells whether it is.
pub fn grow(room: &mut [u32], rows: usize, corners: usize, r: Record) -> bool
    requires stage_table { StageTable corners (front_rows rows room.old) }
    requires rows_in_bounds { 3 * (rows + 2) ≤ length room.old }
    ensures { GrewBack corners rows (meant r) room.old result room.new }
{
    let n = 3 * rows;
    let mut at = [0usize; surface::MOST_CORNERS];
    let Some((x, y)) = accept::accepts(&room[..n], corners, r, &mut at) else {
        return false;
    };
    rename(&mut room[..n], &at, r, x, y);
    insert::put_rows(room, rows, r);
    true
}
