// The functions of `gauge` as other languages call them: each calls the one of its name, with the same clauses. tools/exports writes this file.
#![tactic(auto)]

ghost use Rattle.std.specs.Prelude.{◌≤◌, ◌<◌, length, None};
ghost use Rattle.surface.specs.Limits.{most_corners};
ghost use Rattle.surface.specs.Lists.{◌∈◌, Distinct};
ghost use Rattle.surface.specs.Rows.{rows};
ghost use Rattle.neighbours.specs.Around.{Charted, Marked, Unmarked};
ghost use Rattle.link.specs.InnerBoth.{TellsEdge};
ghost use Rattle.trapped.specs.ByCorner.{ByCorner};
ghost use Rattle.least.specs.Limited.{Allowed};
ghost use Rattle.least.specs.Inner.{Measurable};
ghost use Rattle.going.specs.Going.{CanGoOn, WentBy, WentOn};

// Inner: `meets_round` of `link`, for Rust to call. It asks what the test asks, and the benchmark sees to that.
#[unsafe(no_mangle)]
pub extern "C" fn flaxglimmer_gauge_link(
    t: &[u32],
    last: &[usize],
    prev: &[usize],
    first: &[u32],
    near: &[u8],
    b: u32,
    second: &mut [u32],
    far: &mut [u8],
) -> bool
    requires charted { Charted t.now last.now prev.now }
    requires distinct { Distinct first.now × (b ∈ first.now) }
    requires marked { Marked first.now near.now }
    requires b_in_bounds { b < length last.now }
    requires most_corners_in_bounds { most_corners ≤ length second.old }
    requires unmarked { Unmarked far.old }
    ensures tells_edge { TellsEdge (rows t.now) first.now b result }
    ensures unmarked_2 { Unmarked far.new }
{
    gauge::flaxglimmer_gauge_link(t, last, prev, first, near, b, second, far)
}

// Inner: `go_on` of `quick` from no record, for Rust to call.
#[unsafe(no_mangle)]
pub extern "C" fn flaxglimmer_gauge_quick(
    table: &mut [u32],
    rows: usize,
    n: usize,
    log: &mut [u32],
) -> usize
    requires { CanGoOn n table.old rows log.old 0 }
    ensures { WentBy (ByCorner n) table.old rows log.old 0 result table.new log.new }
{
    gauge::flaxglimmer_gauge_quick(table, rows, n, log)
}

// Inner: `go_on` of `engine` from no record and without a limit, for Rust to call.
#[unsafe(no_mangle)]
pub extern "C" fn flaxglimmer_gauge_plain(
    table: &mut [u32],
    rows: usize,
    n: usize,
    xs: &[i32],
    log: &mut [u32],
) -> usize
    requires can_go_on { CanGoOn n table.old rows log.old 0 }
    requires measurable { Measurable None n xs.now }
    ensures { WentOn (Allowed None xs.now) table.old rows log.old 0 result table.new log.new }
{
    gauge::flaxglimmer_gauge_plain(table, rows, n, xs, log)
}
