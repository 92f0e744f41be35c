// The contraction of an edge, in place on a lent table, with its record.
#![tactic(auto)]

ghost use Rattle.std.specs.Prelude.{◌*◌, ◌≤◌, length};
ghost use Rattle.record.specs.Front.{front_rows};
ghost use Rattle.leaving.specs.Leaving.{MayStep};
ghost use Rattle.step.specs.Step.{Stepped};
ghost use Rattle.step.specs.Front.{SteppedFront};

use record::{Corner, Record};

// Contracts the edge in place, and tells its record.
fn contract(t: &mut [u32], kept: Corner, removed: Corner) -> Record
    requires { MayStep t.old kept.0 removed.0 }
    ensures { Stepped t.old kept.0 removed.0 result t.new }
{
    let r = leaving::record_of(t, kept, removed);
    shrink::shrink(t, kept.0, removed.0);
    r
}

// Inner: the step on the first rows of a lent table.
pub fn contract_front(table: &mut [u32], rows: usize, kept: Corner, removed: Corner) -> Record
    requires rows_in_bounds { 3 * rows ≤ length table.old }
    requires may_step { MayStep (front_rows rows table.old) kept.0 removed.0 }
    ensures { SteppedFront table.old rows kept.0 removed.0 result table.new }
{
    let end = 3 * rows;
    contract(&mut table[..end], kept, removed)
}
