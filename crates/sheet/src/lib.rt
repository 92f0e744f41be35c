// The sheet: a skin as text, read whole or refused.
#![tactic(auto)]

ghost use Rattle.form.specs.Inner.{Held};
ghost use Rattle.sheet.specs.Inner.{Delivered};
ghost use Rattle.sheet.specs.Outcome.{ReadSheet};

use refusal::Refusal;

// The rest, 3 and 4 to 11, of the corners and rows that a sheet holds; where none is given, they are put into the lent rooms, and the corner count and
// the row count are answered.
fn deliver(
    xs: &[i32],
    t: &[u32],
    n: usize,
    m: usize,
    table: &mut [u32],
    corners: &mut [i32],
) -> Result<(usize, usize), Refusal>
    requires { Held n m xs.now t.now }
    ensures { Delivered n m xs.now t.now table.old table.new corners.old corners.new result }
{
    if table.len() < t.len() {
        return Err(Refusal::RoomShort);
    }
    if corners.len() < xs.len() {
        return Err(Refusal::RoomShort);
    }
    skin::check_first(t, xs)?;
    table[..t.len()].copy_from_slice(t);
    corners[..xs.len()].copy_from_slice(xs);
    Ok((n, m))
}

// Reads a sheet: its table and its corners go in front of the lent rooms, and the rest of these stays; the corner count and the row count are
// answered. Refused, it leaves both as they were.
pub fn read_sheet(
    bytes: &[u8],
    table: &mut [u32],
    corners: &mut [i32],
) -> Result<(usize, usize), Refusal>
    ensures { ReadSheet bytes.now table.old table.new corners.old corners.new result }
{
    let mut xs = [0i32; form::COORDINATES];
    let mut t = [0u32; form::NUMBERS];
    let (n, m) = form::read_form(bytes, &mut xs, &mut t)?;
    deliver(&xs[..n * 3], &t[..m * 3], n, m, table, corners)
}
