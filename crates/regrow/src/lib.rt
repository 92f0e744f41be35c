// Growing back: a log's records undone on the table they led to, the last first.
#![tactic(auto)]

ghost use Rattle.std.specs.Prelude.{◌≡◌};
ghost use Rattle.regrow.specs.declared.Halt.TheVariants.{Refused};
ghost use Rattle.follow.specs.Inner.{FollowedIn};
ghost use Rattle.regrow.specs.Outcome.{growing, GrownAs};
ghost use Rattle.regrow.specs.Inner.{CanGrow};

use refusal::Refusal;

// Why growing back and replay stop: at a record that fails, with how many were done before it; or refused before any.
#[derive(Clone, Copy, Debug, PartialEq, Eq)]
pub enum Halt {
    Stopped(usize),
    Refused(Refusal),
}

impl From<Refusal> for Halt {
    ghost from_gives = { λ r h. h ≡ Refused r };

    fn from(r: Refusal) -> Halt {
        Halt::Refused(r)
    }
}

// Grows a log back on the stage that stands in a room, from its last record on: how many records were done.
fn grow_log(room: &mut [u32], rows: usize, corners: usize, log: &[u32]) -> Result<usize, Halt>
    requires { CanGrow corners rows room.old log.now }
    ensures { FollowedIn (growing corners rows room.old log.now) result room.new }
{
    let all = log.len() / record::WIDTH;
    for done in 0..all {
        let r = record::read_record(log, record::WIDTH * (all - 1 - done));
        if !grow::grow(room, rows + 2 * done, corners, r) {
            return Err(Halt::Stopped(done));
        }
    }
    Ok(all)
}

// Grows a log back on the rows that stand in a room.
pub fn grow_back(room: &mut [u32], rows: usize, corners: usize, log: &[u32]) -> Result<usize, Halt>
    ensures { GrownAs corners rows room.old log.now result room.new }
{
    growable::judge(room, rows, corners, log)?;
    grow_log(room, rows, corners, log)
}
