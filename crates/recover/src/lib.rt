// Recovery: a log sheet cut after any byte is followed on the skin that it began with, and thinning goes on from the stage handed over.
#![tactic(auto)]

ghost use Rattle.std.specs.Prelude.{◌≡◌};
ghost use Rattle.thin.specs.Inner.{Fair};
ghost use Rattle.recover.specs.Outcome.{RecoveredAs, RecoveredBy};
ghost use Rattle.recover.specs.Inner.{done_in_lem, CanHandOver, HandedOver, CanRecover, WentOnFrom};

use engines::Engine;
use length::Order;
use refusal::Refusal;
use regrow::Halt;

// Numbers of the longest log that a sheet may hold.
const MOST_KEPT: usize = (surface::MOST_CORNERS - surface::LEAST_CORNERS) * record::WIDTH;

// How many records were followed.
fn done_in(a: Result<usize, Halt>) -> usize
    ensures { result ≡ done_in_lem a }
{
    match a {
        Ok(k) => k,
        Err(Halt::Stopped(k)) => k,
        Err(Halt::Refused(_)) => 0,
    }
}

// Follows the records kept, and puts those done in front of the log.
fn hand_over(table: &mut [u32], n: usize, kept: &[u32], log: &mut [u32]) -> Result<usize, Halt>
    requires { CanHandOver n table.old kept.now log.old }
    ensures { HandedOver n table.old kept.now log.old result table.new log.new }
{
    let followed = replay::replay_log(table, n, kept);
    let end = done_in(followed) * record::WIDTH;
    log[..end].copy_from_slice(&kept[..end]);
    followed
}

// Follows the records kept, and goes on thinning from the stage handed over where all of them replay: the records kept and those there are in all.
fn follow_on(
    table: &mut [u32],
    corners: &[i32],
    bound: Option<u64>,
    kept: &[u32],
    log: &mut [u32],
) -> Result<(usize, usize), Halt>
    requires { CanRecover bound corners.now table.old kept.now log.old }
    ensures { WentOnFrom bound corners.now table.old kept.now log.old result table.new log.new }
{
    let rows = table.len() / 3;
    let n = corners.len() / 3;
    let k = hand_over(table, n, kept, log)?;
    let all = engines::go_on(
        Engine::Quick,
        table,
        rows - 2 * k,
        n,
        corners,
        bound,
        log,
        k,
    );
    Ok((k, all))
}

// Recovery as asked. The records kept are read into scratch, so that the log is written only where they replay.
fn recover_as(
    table: &mut [u32],
    corners: &[i32],
    a: Result<Option<u64>, Refusal>,
    log: &mut [u32],
    bytes: &[u8],
) -> Result<(usize, usize), Halt>
    requires { Fair a }
    ensures { RecoveredAs a corners.now table.old log.old bytes.now result table.new log.new }
{
    thin::judge(table, corners, a, log.len())?;
    let bound = a?;
    let mut kept = [0u32; MOST_KEPT];
    let k = logcut::read_cut(bytes, corners.len() / 3, table.len() / 3, &mut kept)?;
    let end = k * record::WIDTH;
    follow_on(table, corners, bound, &kept[..end], log)
}

// Recovers a skin from a log sheet cut after any byte, and goes on under an order: the records kept and those there are in all; or so many done
// before one that does not replay; or a refusal.
pub fn recover(
    table: &mut [u32],
    corners: &[i32],
    order: Order,
    log: &mut [u32],
    bytes: &[u8],
) -> Result<(usize, usize), Halt>
    ensures { RecoveredBy order corners.now table.old log.old bytes.now result table.new log.new }
{
    match order {
        Order::NoLimit => recover_as(table, corners, Ok(None), log, bytes),
        Order::Limit(l) => recover_as(
            table,
            corners,
            thin::asked_of(length::read_limit(l)),
            log,
            bytes,
        ),
    }
}
