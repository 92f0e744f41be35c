// Flipping a list of edges on a table, the first first, up to the first that is refused.
#![tactic(auto)]

ghost use Rattle.refusal.specs.InnerTells.{Tells};
ghost use Rattle.fliplist.specs.Outcome.{FlipFits, FlippedAs};
ghost use Rattle.fliplist.specs.Inner.{FlipReady, FlippedOn, JudgedFlips};

use flipped::FlipHalt;
use record::Corner;
use refusal::Refusal;

// Numbers an edge of a list.
pub const EDGE_WIDTH: usize = 2;

// Flips the edges of a list on a stage's table, from the first on. The chains of its slots are made once for all flips.
fn flip_edges(table: &mut [u32], edges: &[u32], log: &mut [u32]) -> Result<usize, FlipHalt>
    requires { FlipReady table.old edges.now log.old }
    ensures { FlippedOn table.old edges.now log.old result table.new log.new }
{
    let mut last = [0usize; surface::MOST_CORNERS];
    let mut prev = [0usize; slots::MOST_SLOTS];
    slots::chains(table, &mut last, &mut prev);
    let all = edges.len() / EDGE_WIDTH;
    for done in 0..all {
        let a = Corner(edges[EDGE_WIDTH * done]);
        let b = Corner(edges[EDGE_WIDTH * done + 1]);
        match flip::flip(table, &mut last, &mut prev, a, b) {
            Err(r) => return Err(FlipHalt::Stopped(r, done)),
            Ok(k) => fliplog::write_flip(log, fliplog::WIDTH * done, k),
        }
    }
    Ok(all)
}

// Whether table, corner count and list are within their limits.
fn list_fits(table: &[u32], corners: usize, edges: &[u32]) -> bool
    ensures { Tells result (FlipFits corners table.now edges.now) (¬ FlipFits corners table.now edges.now) }
{
    counts::counts_fit(table, corners) && edges.len() % EDGE_WIDTH == 0
}

// The first of the refusals 2, 3, 5 to 8, 10 and 11 that holds.
fn judge(table: &[u32], corners: usize, edges: &[u32], log: &[u32]) -> Result<(), Refusal>
    ensures { JudgedFlips corners table.now edges.now log.now result }
{
    if !list_fits(table, corners, edges) {
        return Err(Refusal::CountsOutside);
    }
    if log.len() / fliplog::WIDTH < edges.len() / EDGE_WIDTH {
        return Err(Refusal::RoomShort);
    }
    skin::check_stage(table, corners)
}

// Flips a list of edges, and logs the flips done.
pub fn flip_list(
    table: &mut [u32],
    corners: usize,
    edges: &[u32],
    log: &mut [u32],
) -> Result<usize, FlipHalt>
    ensures { FlippedAs corners table.old edges.now log.old result table.new log.new }
{
    judge(table, corners, edges, log)?;
    flip_edges(table, edges, log)
}
