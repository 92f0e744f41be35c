// The refusals: one case for each number that 01 lists, and the lesser of two answers of a check.
#![tactic(auto)]

ghost use Rattle.std.specs.Prelude.{◌≡◌};
ghost use Rattle.refusal.specs.Number.{number};
ghost use Rattle.refusal.specs.Inner.{lesser_of};

#[derive(Clone, Copy, Debug, PartialEq, Eq)]
pub enum Refusal {
    LimitUnusable,
    CountsOutside,
    RoomShort,
    CoordinateOutOfRange,
    NumberNotBelow,
    NumberTwice,
    EdgeTwice,
    ReverseMissing,
    CornerUnused,
    RingsMany,
    NotConnected,
    SheetForm,
    RecordFails,
}

// 01's number of a refusal.
impl From<Refusal> for u32 {
    ghost from_gives = { λ r n. n ≡ number r };

    fn from(r: Refusal) -> u32 {
        match r {
            Refusal::LimitUnusable => 1,
            Refusal::CountsOutside => 2,
            Refusal::RoomShort => 3,
            Refusal::CoordinateOutOfRange => 4,
            Refusal::NumberNotBelow => 5,
            Refusal::NumberTwice => 6,
            Refusal::EdgeTwice => 7,
            Refusal::ReverseMissing => 8,
            Refusal::CornerUnused => 9,
            Refusal::RingsMany => 10,
            Refusal::NotConnected => 11,
            Refusal::SheetForm => 12,
            Refusal::RecordFails => 13,
        }
    }
}

// Inner: the verdict with the lesser number, the answer where two tables are asked; passing has none.
pub fn lesser(v: Result<(), Refusal>, w: Result<(), Refusal>) -> Result<(), Refusal>
    ensures { result ≡ lesser_of v w }
{
    match (v, w) {
        (Err(a), Err(b)) if u32::from(b) < u32::from(a) => w,
        _ => v.and(w),
    }
}
