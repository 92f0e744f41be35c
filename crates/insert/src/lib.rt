// Rows put in at their places, among the rows that stand in a room.
#![tactic(auto)]

ghost use Rattle.std.specs.Prelude.{◌≡◌, ◌+◌, ◌*◌, ◌≤◌, length};
ghost use Rattle.surface.specs.Record.{placed};
ghost use Rattle.growth.specs.Grow.{put, put_back};
ghost use Rattle.record.specs.Meant.{meant};
ghost use Rattle.record.specs.Front.{standing, filled};
ghost use Rattle.ends.specs.Rows.{row_of};
ghost use Rattle.insert.specs.Moved.{MovedOn};

use record::{Leaving, Record};

// The numbers from slot i up to slot j move three slots on, the last first.
fn move_on(room: &mut [u32], i: usize, j: usize)
    requires i_le_j { i ≤ j }
    requires j_in_bounds { j + 3 ≤ length room.old }
    ensures { MovedOn i j room.old room.new }
{
    let mut k = j;
    while i < k {
        k -= 1;
        room[k + 3] = room[k];
    }
}

// A row is put in at its place, among so many rows.
fn put_row(room: &mut [u32], rows: usize, r: Leaving)
    requires place_le_rows { r.place.0 ≤ rows }
    requires rows_in_bounds { 3 * (rows + 1) ≤ length room.old }
    ensures { room.new ≡ filled (put r.place.0 (row_of r) (standing rows room.old)) room.old }
{
    let i = 3 * (r.place.0 as usize);
    move_on(room, i, 3 * rows);
    room[i] = r.a.0;
    room[i + 1] = r.b.0;
    room[i + 2] = r.c.0;
}

// Inner: the two leaving rows go back to their places, the earlier first.
pub fn put_rows(room: &mut [u32], rows: usize, r: Record)
    requires place_le_rows { r.earlier.place.0 ≤ rows }
    requires place_bound { r.later.place.0 ≤ rows + 1 }
    requires rows_in_bounds { 3 * (rows + 2) ≤ length room.old }
    ensures { room.new ≡ filled (put_back (placed (meant r)) (standing rows room.old)) room.old }
{
    let earlier = r.earlier;
    let later = r.later;
    put_row(room, rows, earlier);
    put_row(room, rows + 1, later);
}
