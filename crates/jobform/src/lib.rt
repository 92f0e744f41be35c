// A job sheet's form: its size, its first line, and a line for each entry to its end. Entries past the most are read and not kept.
#![tactic(auto)]

ghost use Rattle.std.specs.Prelude.{drop};
ghost use Rattle.jobform.specs.Inner.{ReadLetter, ReadName, ReadEntry, ReadEntries, ReadJob};

use text::Cursor;

// A job sheet's size limit.
pub const MOST_JOB_BYTES: usize = 65536;

// The most entries of a job.
pub const MOST_ENTRIES: usize = 32;

// A sum has so many digits at most.
const MOST_SUM_DIGITS: usize = 18;

// An entry of a job as its line tells it: its letter, the number of the entry that it stands in, if it names one, and its sum.
#[derive(Clone, Copy)]
pub struct Entry {
    pub letter: u8,
    pub name: Option<usize>,
    pub sum: i64,
}

// A tab and a capital letter, and the place after it.
fn read_letter(s: &[u8], from: Cursor) -> Option<(u8, Cursor)>
    ensures { ReadLetter s.now from.at result }
{
    let start = text::expect(s, from, b"\t")?;
    let at = start.at;
    let b = *s.get(at)?;
    if !b.is_ascii_uppercase() {
        return None;
    }
    Some((b, Cursor { at: at + 1 }))
}

// A tab and a name, a plain number, or `-` for none; and the place after it.
fn read_name(s: &[u8], from: Cursor) -> Option<(Option<usize>, Cursor)>
    ensures { ReadName s.now from.at result }
{
    let start = text::expect(s, from, b"\t")?;
    if let Some(next) = text::expect(s, start, b"-") {
        return Some((None, next));
    }
    let (number, next) = text::read_number(s, start, heading::MOST_DIGITS)?;
    Some((Some(number as usize), next))
}

// An entry's line, and the place after it.
fn read_entry(s: &[u8], from: Cursor) -> Option<(Entry, Cursor)>
    ensures { ReadEntry s.now from.at result }
{
    let start = text::expect(s, from, b"J")?;
    let (letter, after_letter) = read_letter(s, start)?;
    let (name, after_name) = read_name(s, after_letter)?;
    let (sum, after_sum) = lines::read_field(s, after_name, MOST_SUM_DIGITS)?;
    let next = text::expect(s, after_sum, b"\n")?;
    Some((Entry { letter, name, sum }, next))
}

// Lines of entries to the end, and how many; those that the room takes are kept in front of it. None if something else stands there.
fn read_entries(s: &[u8], from: Cursor, entries: &mut [Entry]) -> Option<usize>
    ensures { ReadEntries (drop from.at s.now) entries.new result }
{
    let mut k = from.at;
    let mut count: usize = 0;
    while k < s.len() {
        let (e, next) = read_entry(s, Cursor { at: k })?;
        if count < entries.len() {
            entries[count] = e;
        }
        k = next.at;
        count += 1;
    }
    Some(count)
}

// Inner: size, first line, a line for each entry, as many as it says; those that the lent room takes are kept in front of it. How many there are, or
// none if it is not in its form.
pub fn read_job_form(bytes: &[u8], entries: &mut [Entry]) -> Option<usize>
    ensures { ReadJob bytes.now entries.new result }
{
    if MOST_JOB_BYTES < bytes.len() {
        return None;
    }
    let mut told = [0u32; 1];
    let start = Cursor { at: 0 };
    let after = lines::read_line(bytes, start, b"JOB", heading::MOST_DIGITS, &mut told, 0, 1)?;
    let k = read_entries(bytes, after, entries)?;
    if k == told[0] as usize { Some(k) } else { None }
}
