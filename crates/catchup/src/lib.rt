// The catch-up part: of two lent logs, what the longer has more.
#![tactic(auto)]

ghost use Rattle.std.specs.Prelude.{◌≡◌};
ghost use Rattle.catchup.specs.CatchUp.{CaughtUp};

// The rest of the longer log where one is a beginning of the other, else an empty part of the first: the caller's own memory.
pub fn catch_up<'a>(first: &'a [u32], second: &'a [u32]) -> &'a [u32]
    ensures { CaughtUp first.entry second.entry result }
{
    let m = first.len();
    let n = second.len();
    if m < n && second.starts_with(first) {
        return &second[m..];
    }
    if n < m && first.starts_with(second) {
        return &first[n..];
    }
    &first[0..0]
}
