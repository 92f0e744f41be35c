// Decimal numbers and bytes, read from a place of a text, and written to one.
#![tactic(auto)]

ghost use Rattle.std.specs.Prelude.{◌≡◌, ◌+◌, ◌≤◌, ◌<◌, length};
ghost use Rattle.text.specs.Decimal.{decimal, signed};
ghost use Rattle.text.specs.InnerReading.{ReadNumber, ReadSigned, Expected, DigitAt, Written};

// A place in a text.
#[derive(Clone, Copy)]
pub struct Cursor {
    pub at: usize,
}

// The digit at a place, where one stands there.
fn digit_at(s: &[u8], i: usize) -> Option<u64>
    ensures { DigitAt s.now i result }
{
    let b = *s.get(i)?;
    // is_ascii_digit: tried and slower, a log sheet takes half as long again to read
    if b < b'0' || b'9' < b {
        return None;
    }
    Some((b - b'0') as u64)
}

// Inner: the number at a place and the place after it, in at most so many digits, with no needless zero in front and no digit after it.
pub fn read_number(s: &[u8], from: Cursor, most: usize) -> Option<(u64, Cursor)>
    requires { (0 < most) × (most ≤ 19) }
    ensures { ReadNumber most s.now from.at result }
{
    let at = from.at;
    let mut v = digit_at(s, at)?;
    let mut i = at + 1;
    while let Some(d) = digit_at(s, i) {
        // a needless zero, or too many digits
        if v == 0 {
            return None;
        }
        if most <= i - at {
            return None;
        }
        v = v * 10 + d;
        i += 1;
    }
    Some((v, Cursor { at: i }))
}

// Inner: the number at a place and the place after it, with a minus where it is below zero, in at most so many digits.
pub fn read_signed(s: &[u8], from: Cursor, most: usize) -> Option<(i64, Cursor)>
    requires { (0 < most) × (most ≤ 18) }
    ensures { ReadSigned most s.now from.at result }
{
    let Some(after) = expect(s, from, b"-") else {
        let (v, next) = read_number(s, from, most)?;
        return Some((v as i64, next));
    };
    let (size, next) = read_number(s, after, most)?;
    // no zero has a minus
    if size == 0 {
        return None;
    }
    Some((-(size as i64), next))
}

// Inner: the place after the bytes w, where they stand at a place.
pub fn expect(s: &[u8], from: Cursor, w: &[u8]) -> Option<Cursor>
    ensures { Expected w.now s.now from.at result }
{
    let mut at = from.at;
    for b in w {
        if s.get(at)? != b {
            return None;
        }
        at += 1;
    }
    Some(Cursor { at })
}

// Inner: how many bytes a number takes.
pub fn number_length(v: u64) -> usize
    ensures { (result ≡ length (decimal v)) × (result ≤ 20) }
{
    if v < 10 {
        return 1;
    }
    number_length(v / 10) + 1
}

// Inner: how many bytes a number with its sign takes.
pub fn signed_length(z: i64) -> usize
    ensures { (result ≡ length (signed z)) × (result ≤ 20) }
{
    let n = number_length(z.unsigned_abs());
    if z < 0 {
        return n + 1;
    }
    n
}

// Inner: a number put at a place; answers the place after it.
pub fn write_number(out: &mut [u8], at: usize, v: u64) -> usize
    requires { at + length (decimal v) ≤ length out.old }
    ensures { Written out.old at (decimal v) result out.new }
{
    if v < 10 {
        out[at] = b'0' + v as u8;
        return at + 1;
    }
    let last = write_number(out, at, v / 10);
    out[last] = b'0' + (v % 10) as u8;
    last + 1
}

// Inner: a number put at a place, with a minus where it is below zero; answers the place after it.
pub fn write_signed(out: &mut [u8], at: usize, z: i64) -> usize
    requires { at + length (signed z) ≤ length out.old }
    ensures { Written out.old at (signed z) result out.new }
{
    let v = z.unsigned_abs();
    if z < 0 {
        out[at] = b'-';
        return write_number(out, at + 1, v);
    }
    write_number(out, at, v)
}
