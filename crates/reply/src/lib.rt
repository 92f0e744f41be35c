// The desk's answer to a sheet: read, checked once, thinned without limit, and told as text.
#![tactic(auto)]

ghost use Rattle.reply.specs.Outcome.{Replied};
ghost use Rattle.form.specs.Inner.{Rooms};
ghost use Rattle.reply.specs.Inner.{SheetSkin, RunPut, ReadSkin};

use engines::Engine;
use refusal::Refusal;

// Numbers of the log that the thinning of a sheet may need.
const LOG: usize = (form::MOST_CORNERS - surface::LEAST_CORNERS) * record::WIDTH;

// Bytes that suffice for whatever the desk has to say.
pub const MOST_TEXT: usize = 65536;

// The answer to a skin: the engine is asked itself, since the skin is checked already.
fn thinned(table: &mut [u32], corners: &[i32], out: &mut [u8]) -> Result<usize, Refusal>
    requires { SheetSkin corners.now table.old }
    ensures { RunPut corners.now table.old out.old result out.new }
{
    let before = figure::volume_of(table, corners);
    let mut log = [0u32; LOG];
    let rows = table.len() / 3;
    let n = corners.len() / 3;
    let k = engines::go_on(Engine::Quick, table, rows, n, corners, None, &mut log, 0);
    // a record takes two rows
    let left = table.len() - k * 6;
    let after = figure::volume_of(&table[..left], corners);
    let logged = k * record::WIDTH;
    tell::tell_run(&table[..left], &log[..logged], before, after, out)
}

// A sheet's skin: its corners and rows in front of the rooms, checked, and their counts.
fn read_skin(
    sheet: &[u8],
    corners: &mut [i32],
    table: &mut [u32],
) -> Result<(usize, usize), Refusal>
    requires { Rooms corners.old table.old }
    ensures { ReadSkin sheet.now corners.new table.new result }
{
    let (n, m) = form::read_form(sheet, corners, table)?;
    skin::check_first(&table[..m * 3], &corners[..n * 3])?;
    Ok((n, m))
}

// The desk's whole answer to any bytes, in front of the lent text; the rest of it stays. Where it does not fit, nothing is written.
pub fn reply(sheet: &[u8], text: &mut [u8]) -> Result<usize, Refusal>
    ensures { Replied sheet.now text.old result text.new }
{
    let mut table = [0u32; form::NUMBERS];
    let mut corners = [0i32; form::COORDINATES];
    match read_skin(sheet, &mut corners, &mut table) {
        Ok((n, m)) => thinned(&mut table[..m * 3], &corners[..n * 3], text),
        Err(r) => tell::tell_refusal(r, text),
    }
}
