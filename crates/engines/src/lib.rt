// Which engine goes on: without a limit the quick one, unless the plain one is asked for; with one always the plain one. They leave the same.
#![tactic(auto)]

ghost use Rattle.least.specs.Limited.{Allowed};
ghost use Rattle.least.specs.Inner.{Measurable};
ghost use Rattle.going.specs.Going.{CanGoOn, WentOn};

// The engine that thins where there is no limit.
#[derive(Clone, Copy)]
pub enum Engine {
    Plain,
    Quick,
}

// Inner: goes on thinning the first rows of a lent table, with done records in the log already; answers how many records there are in all.
pub fn go_on(
    by: Engine,
    table: &mut [u32],
    rows: usize,
    n: usize,
    xs: &[i32],
    bound: Option<u64>,
    log: &mut [u32],
    done: usize,
) -> usize
    requires can_go_on { CanGoOn n table.old rows log.old done }
    requires measurable { Measurable bound n xs.now }
    ensures { WentOn (Allowed bound xs.now) table.old rows log.old done result table.new log.new }
{
    match by {
        Engine::Plain => engine::go_on(table, rows, n, xs, bound, log, done),
        Engine::Quick => match bound {
            None => quick::go_on(table, rows, n, log, done),
            Some(_) => engine::go_on(table, rows, n, xs, bound, log, done),
        },
    }
}
