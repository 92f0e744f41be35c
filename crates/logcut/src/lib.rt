// A log sheet cut after any byte: the lines that end in a newline are read as the log sheet of a skin, the unfinished tail is dropped.
#![tactic(auto)]

ghost use Rattle.logcut.specs.Inner.{WholeEnd, CanKeep, ReadCut};

use refusal::Refusal;

// Where the lines that end in a newline end.
fn whole_end(bytes: &[u8]) -> usize
    ensures { WholeEnd bytes.now result }
{
    for i in (0..bytes.len()).rev() {
        if bytes[i] == b'\n' {
            return i + 1;
        }
    }
    0
}

// Inner: reads the whole lines of a cut log sheet as those of a skin of n corners and m rows; its log goes in front of the room. Answers how many
// records they hold.
pub fn read_cut(bytes: &[u8], n: usize, m: usize, room: &mut [u32]) -> Result<usize, Refusal>
    requires { CanKeep n m room.old }
    ensures { ReadCut bytes.now n m room.old room.new result }
{
    if logform::MOST_LOG_BYTES < bytes.len() {
        return Err(Refusal::SheetForm);
    }
    let end = whole_end(bytes);
    let read = logsheet::read_log_sheet(&bytes[..end], room)?;
    if read.corners != n {
        return Err(Refusal::CountsOutside);
    }
    if read.rows != m {
        return Err(Refusal::CountsOutside);
    }
    Ok(read.records)
}
