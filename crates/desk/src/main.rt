// The desk's program: a sheet from standard input, the answer to standard output.
// No contract can say what is read and written, so the work is done by functions on slices.
#![tactic(auto)]

ghost use Rattle.std.specs.Prelude.{◌≤◌, length, take, IfOk};
ghost use Rattle.io.specs.Counts.{IsPrefixLen};
ghost use Rattle.tell.specs.Text.{most_text};
ghost use Rattle.reply.specs.Outcome.{Answers};

use std::io::Read;

// One byte more than a sheet may have, so that a longer one shows and the rest of it is not read.
const INPUT: usize = form::MOST_BYTES + 1;

// Reads until the room is full or the input ends.
fn read_input<R: Read>(from: &mut R, room: &mut [u8]) -> std::io::Result<usize>
    ensures { IfOk result (λ n. IsPrefixLen n room.new) }
{
    let mut n: usize = 0;
    while n < room.len() {
        let more = from.read(&mut room[n..])?;
        if more == 0 {
            return Ok(n);
        }
        n += more;
    }
    Ok(n)
}

// What the desk has to say of the bytes; it stands in front of the text, which is never short.
fn answer(bytes: &[u8], text: &mut [u8]) -> usize
    requires { most_text ≤ length text.old }
    ensures { Answers bytes.now (take result text.new) × IsPrefixLen result text.new }
{
    reply::reply(bytes, text).unwrap()
}

// What goes wrong is said on standard error, and the status is 0 all the same.
fn main(rt: HostRuntime) {
    let mut room = [0u8; INPUT];
    let mut text = [0u8; reply::MOST_TEXT];
    let mut stdin = rt.stdin();
    let Ok(n) = read_input(&mut stdin, &mut room) else {
        io::write_all(2, b"desk: standard input cannot be read\n");
        return;
    };
    let m = answer(&room[..n], &mut text);
    if !io::write_all(1, &text[..m]) {
        io::write_all(2, b"desk: standard output cannot be written\n");
    }
}
