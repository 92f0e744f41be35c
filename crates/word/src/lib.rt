// A word: eight bytes, the lowest first; a signed number by two's complement. Contracts fix every value.
#![tactic(auto)]

ghost use Rattle.std.specs.Prelude.{◌≡◌, ◌+◌, ◌≤◌, length};
ghost use Rattle.std.proofs.lemmas.List.Edits.{sets};
ghost use Rattle.word.specs.Bytes.{bytes_at, bytes_of};
ghost use Rattle.word.specs.Twos.{twos, ReadNarrow};

// The bytes of a word.
pub const BYTES: usize = 8;

// Inner: the word whose bytes stand from place i on.
pub fn word_at(b: &[u8], i: usize) -> u64
    requires { i + 8 ≤ length b.now }
    ensures { result ≡ bytes_at 8 b.now i }
{
    let mut word = [0u8; BYTES];
    word.copy_from_slice(&b[i..i + BYTES]);
    u64::from_le_bytes(word)
}

// Inner: writes a word's bytes from place i on.
pub fn put_word(b: &mut [u8], i: usize, w: u64)
    requires { i + 8 ≤ length b.old }
    ensures { b.new ≡ sets b.old i (bytes_of 8 w) }
{
    b[i..i + BYTES].copy_from_slice(&w.to_le_bytes());
}

// Inner: the word of a signed number.
pub fn word_of(x: i64) -> u64
    ensures { result ≡ twos x }
{
    x.cast_unsigned()
}

// Inner: the signed number that a word is, or that it is none of its type.
pub fn signed_of(w: u64) -> Option<i32>
    ensures { ReadNarrow w result }
{
    i32::try_from(w.cast_signed()).ok()
}
