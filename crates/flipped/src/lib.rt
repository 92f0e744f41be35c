// What flips are refused for, and how flipping a list and undoing a log end early.
#![tactic(auto)]

ghost use Rattle.std.specs.Prelude.{◌≡◌};
ghost use Rattle.flipped.specs.Number.{number};
ghost use Rattle.flipped.specs.declared.FlipHalt.TheVariants.{Refused};

use refusal::Refusal;

// One case for each number that 02 gives an edge or a record: it stops the list, and those before it stay done.
#[derive(Clone, Copy, Debug, PartialEq, Eq)]
pub enum FlipRefusal {
    EdgeMissing,
    EdgeBlocked,
    UndoFails,
}

// 02's number of a refusal.
impl From<FlipRefusal> for u32 {
    ghost from_gives = { λ r n. n ≡ number r };

    fn from(r: FlipRefusal) -> u32 {
        match r {
            FlipRefusal::EdgeMissing => 30,
            FlipRefusal::EdgeBlocked => 31,
            FlipRefusal::UndoFails => 32,
        }
    }
}

// Not all are done: those before one that is refused are, or none, by the refusal of table, list, log or room.
#[derive(Clone, Copy, Debug, PartialEq, Eq)]
pub enum FlipHalt {
    Stopped(FlipRefusal, usize),
    Refused(Refusal),
}

impl From<Refusal> for FlipHalt {
    ghost from_gives = { λ r h. h ≡ Refused r };

    fn from(r: Refusal) -> FlipHalt {
        FlipHalt::Refused(r)
    }
}
