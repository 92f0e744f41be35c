// Thinning: the call of document 01, and the same by the plain engine.
#![tactic(auto)]

ghost use Rattle.std.specs.Prelude.{◌≡◌, Err};
ghost use Rattle.refusal.specs.InnerTells.{Tells};
ghost use Rattle.refusal.specs.declared.Refusal.TheVariants.{LimitUnusable};
ghost use Rattle.thin.specs.Order.{asked_by};
ghost use Rattle.thin.specs.Thin.{ThinnedAs, Thinned};
ghost use Rattle.thin.specs.Inner.{Fair, JudgedThinning};

use engines::Engine;
use length::{Length, Order};
use refusal::Refusal;

// Inner: what a reading asks: its limit, which may be unusable. An order without a limit asks for none.
pub fn asked_of(r: Option<u64>) -> Result<Option<u64>, Refusal>
    ensures { result ≡ asked_by r }
{
    match r {
        Some(c) => Ok(Some(c)),
        None => Err(Refusal::LimitUnusable),
    }
}

// Whether a limit is unusable.
fn no_use(a: Result<Option<u64>, Refusal>) -> bool
    ensures { Tells result (a ≡ Err LimitUnusable) (¬ (a ≡ Err LimitUnusable)) }
{
    matches!(a, Err(Refusal::LimitUnusable))
}

// Inner: the first of a thinning's refusals, 1 to 11, that holds; room is the log's length.
pub fn judge(
    table: &[u32],
    corners: &[i32],
    a: Result<Option<u64>, Refusal>,
    room: usize,
) -> Result<(), Refusal>
    ensures { JudgedThinning a corners.now table.now room result }
{
    if no_use(a) {
        return Err(Refusal::LimitUnusable);
    }
    if !counts::counts_fit_at(table, corners) {
        return Err(Refusal::CountsOutside);
    }
    if room < record::WIDTH * (corners.len() / 3 - surface::LEAST_CORNERS) {
        return Err(Refusal::RoomShort);
    }
    skin::check_first(table, corners)
}

// Thinning from a first table, as asked.
fn thin_as(
    by: Engine,
    table: &mut [u32],
    corners: &[i32],
    a: Result<Option<u64>, Refusal>,
    log: &mut [u32],
) -> Result<usize, Refusal>
    requires { Fair a }
    ensures { ThinnedAs a corners.now table.old log.old result table.new log.new }
{
    judge(table, corners, a, log.len())?;
    let bound = a?;
    let rows = table.len() / 3;
    let n = corners.len() / 3;
    Ok(engines::go_on(by, table, rows, n, corners, bound, log, 0))
}

// Thinning under an order. The limit reader matches the length that a limit holds.
fn thin_by(
    by: Engine,
    table: &mut [u32],
    corners: &[i32],
    order: Order,
    log: &mut [u32],
) -> Result<usize, Refusal>
    ensures { Thinned order corners.now table.old log.old result table.new log.new }
{
    match order {
        Order::NoLimit => thin_as(by, table, corners, Ok(None), log),
        Order::Limit(l) => thin_as(by, table, corners, asked_of(length::read_limit(l)), log),
    }
}

// Thins a first table under an order, by the quick engine where there is no limit: how many records were written, or the refusal.
pub fn thin(
    table: &mut [u32],
    corners: &[i32],
    order: Order,
    log: &mut [u32],
) -> Result<usize, Refusal>
    ensures { Thinned order corners.now table.old log.old result table.new log.new }
{
    thin_by(Engine::Quick, table, corners, order, log)
}

// Thins a first table under an order, by the plain engine.
pub fn thin_plain(
    table: &mut [u32],
    corners: &[i32],
    order: Order,
    log: &mut [u32],
) -> Result<usize, Refusal>
    ensures { Thinned order corners.now table.old log.old result table.new log.new }
{
    thin_by(Engine::Plain, table, corners, order, log)
}
