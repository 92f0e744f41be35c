// Lines of numbers read into lent rooms: plain numbers, which have no minus, and coordinates.
#![tactic(auto)]

ghost use Rattle.std.specs.Prelude.{◌*◌, ◌≤◌, ◌<◌, length, drop};
ghost use Rattle.lines.specs.Inner.{ReadInto};
ghost use Rattle.reading.specs.Inner.{LinesOf};

use lines::Field;
use text::Cursor;

// Inner: so many lines of the word w, each with width numbers, put into room from its start on.
pub fn number_lines<F: Field>(
    s: &[u8],
    from: Cursor,
    w: &[u8],
    most: usize,
    width: usize,
    count: usize,
    room: &mut [F],
) -> Option<Cursor>
    requires { (0 < most) × (most ≤ F.limit) × (count * width ≤ length room.old) }
    ensures { ReadInto (LinesOf F.up most w.now width count (drop from.at s.now)) (count * width) s.now room.old 0 room.new result }
{
    let mut at = from;
    for i in 0..count {
        at = lines::read_line(s, at, w, most, room, i * width, width)?;
    }
    Some(at)
}
