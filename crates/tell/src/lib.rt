// What the desk says, as text: the `NO` line of a refusal, or the lines of a run. It is measured first, so that nothing is written where it does not fit.
#![tactic(auto)]

ghost use Rattle.tell.specs.Text.{no_text, run_text};
ghost use Rattle.tell.specs.Put.{Put};
ghost use Rattle.tell.specs.Inner.{CanTell};

use refusal::Refusal;

// Inner: `NO` and the number of a refusal. Answers how many bytes were written, or that the text is short.
pub fn tell_refusal(r: Refusal, out: &mut [u8]) -> Result<usize, Refusal>
    ensures { Put (no_text r) out.old result out.new }
{
    let number = [u32::from(r) as i64];
    // its word and its newline
    if out.len() < 3 + writing::fields_length(&number) {
        return Err(Refusal::RoomShort);
    }
    Ok(writing::write_line(out, 0, b"NO", &number))
}

// Inner: a last stage, its log and the two figures; answered alike.
pub fn tell_run(
    last: &[u32],
    log: &[u32],
    before: i64,
    after: i64,
    out: &mut [u8],
) -> Result<usize, Refusal>
    requires { CanTell last.now log.now }
    ensures { Put (run_text last.now log.now before after) out.old result out.new }
{
    let rows = last.len() / 3;
    let records = log.len() / record::WIDTH;
    let head = [rows as i64, records as i64, before, after];
    // the word and the newline of each line, and all fields
    let words = 3 + 2 * (rows + records);
    let first_fields = writing::fields_length(&head);
    let other_fields = writing::fields_length(last) + writing::fields_length(log);
    if out.len() < words + first_fields + other_fields {
        return Err(Refusal::RoomShort);
    }
    let first = writing::write_line(out, 0, b"OK", &head);
    let second = writing::number_lines(out, first, b"R", last, 3, rows);
    let third = writing::number_lines(out, second, b"K", log, record::WIDTH, records);
    Ok(third)
}
