// Where a log has led a corner, and in how many steps.
#![tactic(auto)]

ghost use Rattle.std.specs.Prelude.{◌≡◌};
ghost use Rattle.record.specs.Layout.{records};
ghost use Rattle.standin.specs.StandIn.{stand_in, moves};

use record::Corner;

// Where the records of a log lead a corner, and how many of them moved it.
#[derive(Clone, Copy)]
pub struct Followed {
    pub corner: Corner,
    pub count: usize,
}

// Inner: the stand-in of a corner after the records of a log, and its count.
pub fn follow(log: &[u32], corner: u32) -> Followed
    ensures { (result.corner.0 ≡ stand_in corner (records log.now)) × (result.count ≡ moves corner (records log.now)) }
{
    let mut at = corner;
    let mut moved = 0;
    for j in 0..log.len() / record::WIDTH {
        let e = record::read_contracted(log, record::WIDTH * j);
        if e.removed.0 == at {
            at = e.kept.0;
            moved += 1;
        }
    }
    Followed {
        corner: Corner(at),
        count: moved,
    }
}
