// A sheet's form: its size, its first line, its counts and its other lines. What it holds is read, and not checked.
#![tactic(auto)]

ghost use Rattle.std.specs.Prelude.{◌*◌, take, drop};
ghost use Rattle.refusal.specs.InnerTells.{Tells};
ghost use Rattle.form.specs.Form.{CountsIn};
ghost use Rattle.form.specs.Inner.{BodyAt, NoBody, Rooms, ReadForm};

use refusal::Refusal;
use text::Cursor;

// The limits of a sheet; the library's may be larger.
pub const MOST_BYTES: usize = 65536;

pub const MOST_ROWS: usize = 1024;

pub const MOST_CORNERS: usize = 514;

// Three numbers for each row and each corner of a sheet.
pub const NUMBERS: usize = MOST_ROWS * 3;

pub const COORDINATES: usize = MOST_CORNERS * 3;

// Whether the counts are inside a sheet's limits.
fn counts_in(n: usize, m: usize) -> bool
    ensures { Tells result (CountsIn n m) (¬ CountsIn n m) }
{
    surface::LEAST_CORNERS <= n && n <= MOST_CORNERS && surface::LEAST_ROWS <= m && m <= MOST_ROWS
}

// The lines after the first one, each kind into its room; nothing follows the last row.
fn read_body(bytes: &[u8], from: Cursor, n: usize, m: usize, xs: &mut [i32], t: &mut [u32]) -> bool
    requires { CountsIn n m × Rooms xs.old t.old }
    ensures { Tells result (BodyAt (drop from.at bytes.now) n m (take (n * 3) xs.new) (take (m * 3) t.new)) (NoBody (drop from.at bytes.now) n m) }
{
    let corners = reading::number_lines(bytes, from, b"C", heading::MOST_DIGITS, 3, n, xs);
    let Some(middle) = corners else {
        return false;
    };
    let rows = reading::number_lines(bytes, middle, b"R", heading::MOST_DIGITS, 3, m, t);
    let Some(end) = rows else {
        return false;
    };
    bytes.len() <= end.at
}

// Inner: size, first line, counts, other lines: 12, 12, 2, 12. In the form, what it holds stands in front of the rooms: the corner count and the row
// count are answered.
pub fn read_form(bytes: &[u8], xs: &mut [i32], t: &mut [u32]) -> Result<(usize, usize), Refusal>
    requires { Rooms xs.old t.old }
    ensures { ReadForm bytes.now xs.new t.new result }
{
    if MOST_BYTES < bytes.len() {
        return Err(Refusal::SheetForm);
    }
    let Some(first) = heading::first_line(bytes, b"SKIN") else {
        return Err(Refusal::SheetForm);
    };
    let n = first.corners;
    let m = first.rows;
    if !counts_in(n, m) {
        return Err(Refusal::CountsOutside);
    }
    if !read_body(bytes, first.after, n, m, xs, t) {
        return Err(Refusal::SheetForm);
    }
    Ok((n, m))
}
