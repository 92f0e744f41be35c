// Lines of numbers written: a word, fields parted by single tabs, one newline. They go to a place of a lent text.
#![tactic(auto)]

ghost use Rattle.std.specs.Prelude.{◌≡◌, map, ◌+◌, ◌*◌, ◌≤◌, length};
ghost use Rattle.text.specs.InnerReading.{Written};
ghost use Rattle.lines.specs.Lines.{fields, line, lines};
ghost use Rattle.writing.specs.Limits.{most_measured};

use lines::Field;

// Inner: how many bytes numbers take as fields.
pub fn fields_length<F: Field>(zs: &[F]) -> usize
    requires { length zs.now ≤ most_measured }
    ensures { (result ≡ length (fields (map F.up zs.now))) × (result ≤ 21 * length zs.now) }
{
    let mut n: usize = 0;
    for z in zs {
        n += 1 + text::signed_length(z.widened());
    }
    n
}

// Puts bytes at a place; answers the place after them. The other writers do the same with what they write.
fn write_bytes(out: &mut [u8], at: usize, w: &[u8]) -> usize
    requires { at + length w.now ≤ length out.old }
    ensures { Written out.old at w.now result out.new }
{
    let end = at + w.len();
    out[at..end].copy_from_slice(w);
    end
}

// Each number after one tab.
fn write_fields<F: Field>(out: &mut [u8], at: usize, zs: &[F]) -> usize
    requires { at + length (fields (map F.up zs.now)) ≤ length out.old }
    ensures { Written out.old at (fields (map F.up zs.now)) result out.new }
{
    let mut k = at;
    for z in zs {
        out[k] = b'\t';
        k = text::write_signed(out, k + 1, z.widened());
    }
    k
}

// Inner: a line of a word and its numbers.
pub fn write_line<F: Field>(out: &mut [u8], at: usize, w: &[u8], zs: &[F]) -> usize
    requires { at + length (line w.now (map F.up zs.now)) ≤ length out.old }
    ensures { Written out.old at (line w.now (map F.up zs.now)) result out.new }
{
    let word = write_bytes(out, at, w);
    let numbers = write_fields(out, word, zs);
    write_bytes(out, numbers, b"\n")
}

// Inner: so many lines of a word, each with width numbers.
pub fn number_lines<F: Field>(
    out: &mut [u8],
    at: usize,
    w: &[u8],
    ns: &[F],
    width: usize,
    count: usize,
) -> usize
    requires numbers_there { count * width ≤ length ns.now }
    requires fits { at + length (lines w.now width count (map F.up ns.now)) ≤ length out.old }
    ensures { Written out.old at (lines w.now width count (map F.up ns.now)) result out.new }
{
    let mut k = at;
    for i in 0..count {
        let from = i * width;
        k = write_line(out, k, w, &ns[from..from + width]);
    }
    k
}
