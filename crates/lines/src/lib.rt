// A line of numbers: a word, fields parted by single tabs, one newline. What is read goes into a lent room.
#![tactic(auto)]

ghost use Rattle.std.specs.Prelude.{◌≡◌, ℕ, ◌+◌, ◌≤◌, ◌<◌, ℤ, pos, length, drop};
ghost use Rattle.lines.specs.InnerLimits.{most_plain, most_signed};
ghost use Rattle.lines.specs.Inner.{FieldsOf, LineOf, ReadField, ReadInto};

use text::Cursor;

// Inner: one field, a tab and a number.
pub fn read_field(s: &[u8], from: Cursor, most: usize) -> Option<(i64, Cursor)>
    requires { (0 < most) × (most ≤ most_signed) }
    ensures { ReadField (λ z. z) most s.now from.at result }
{
    text::read_signed(s, text::expect(s, from, b"\t")?, most)
}

// A number that stands in a line after a tab: a plain number has no minus.
pub trait Field: Copy {
    ghost up: { Self → ℤ };

    ghost limit: { ℕ };

    // Inner: the number after a tab at a place, in at most so many digits, and the place after it.
    fn read(s: &[u8], from: Cursor, most: usize) -> Option<(Self, Cursor)>
        requires { (0 < most) × (most ≤ limit) }
        ensures { ReadField up most s.now from.at result };

    // Inner: the number as it is written.
    fn widened(self) -> i64
        ensures { result ≡ up self };
}

impl Field for u32 {
    ghost up = { pos };

    ghost limit = { most_plain };

    fn read(s: &[u8], from: Cursor, most: usize) -> Option<(u32, Cursor)> {
        let after = text::expect(s, from, b"\t")?;
        let (v, next) = text::read_number(s, after, most)?;
        Some((v as u32, next))
    }

    fn widened(self) -> i64 {
        i64::from(self)
    }
}

impl Field for i64 {
    ghost up = { λ z. z };

    ghost limit = { most_signed };

    fn read(s: &[u8], from: Cursor, most: usize) -> Option<(i64, Cursor)> {
        read_field(s, from, most)
    }

    fn widened(self) -> i64 {
        self
    }
}

impl Field for i32 {
    ghost up = { λ z. z };

    ghost limit = { most_plain };

    fn read(s: &[u8], from: Cursor, most: usize) -> Option<(i32, Cursor)> {
        let (z, next) = read_field(s, from, most)?;
        Some((z as i32, next))
    }

    fn widened(self) -> i64 {
        i64::from(self)
    }
}

// Inner: so many fields, put into room from its place start on.
pub fn read_fields<F: Field>(
    s: &[u8],
    from: Cursor,
    most: usize,
    room: &mut [F],
    start: usize,
    count: usize,
) -> Option<Cursor>
    requires { (0 < most) × (most ≤ F.limit) × (start + count ≤ length room.old) }
    ensures { ReadInto (FieldsOf F.up most (drop from.at s.now)) count s.now room.old start room.new result }
{
    let mut at = from;
    for i in 0..count {
        let (x, next) = F::read(s, at, most)?;
        room[start + i] = x;
        at = next;
    }
    Some(at)
}

// Inner: a line of the word w with so many fields, put into room from its place start on.
pub fn read_line<F: Field>(
    s: &[u8],
    from: Cursor,
    w: &[u8],
    most: usize,
    room: &mut [F],
    start: usize,
    count: usize,
) -> Option<Cursor>
    requires { (0 < most) × (most ≤ F.limit) × (start + count ≤ length room.old) }
    ensures { ReadInto (LineOf F.up most w.now (drop from.at s.now)) count s.now room.old start room.new result }
{
    let after = text::expect(s, from, w)?;
    let end = read_fields(s, after, most, room, start, count)?;
    text::expect(s, end, b"\n")
}
