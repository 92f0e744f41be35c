// Corner numbers and row places, the record of a step, and its layout in a log.
#![tactic(auto)]

ghost use Rattle.std.specs.Prelude.{◌≡◌, ◌∷◌, [], ◌+◌, ◌≤◌, length};
ghost use Rattle.std.proofs.lemmas.List.Edits.{sets};
ghost use Rattle.record.specs.Layout.{width, numbers, record_at};
ghost use Rattle.record.specs.Meant.{meant};
ghost use Rattle.record.specs.Inner.{IsContracted};

// A corner number.
#[derive(Clone, Copy)]
pub struct Corner(pub u32);

// A row's place in a table.
#[derive(Clone, Copy)]
pub struct Place(pub u32);

// A row that leaves: its place before the step, and its three numbers.
#[derive(Clone, Copy)]
pub struct Leaving {
    pub place: Place,
    pub a: Corner,
    pub b: Corner,
    pub c: Corner,
}

// What a step writes.
#[derive(Clone, Copy)]
pub struct Record {
    pub kept: Corner,
    pub removed: Corner,
    pub earlier: Leaving,
    pub later: Leaving,
}

// The edge that a step contracted.
#[derive(Clone, Copy)]
pub struct Contracted {
    pub kept: Corner,
    pub removed: Corner,
}

// Numbers a record.
pub const WIDTH: usize = 10;

// Inner: reads the record whose numbers stand in the log from place i on.
pub fn read_record(log: &[u32], i: usize) -> Record
    requires { i + width ≤ length log.now }
    ensures { meant result ≡ record_at log.now i }
{
    let earlier = Leaving {
        place: Place(log[i + 2]),
        a: Corner(log[i + 3]),
        b: Corner(log[i + 4]),
        c: Corner(log[i + 5]),
    };
    let later = Leaving {
        place: Place(log[i + 6]),
        a: Corner(log[i + 7]),
        b: Corner(log[i + 8]),
        c: Corner(log[i + 9]),
    };
    Record {
        kept: Corner(log[i]),
        removed: Corner(log[i + 1]),
        earlier,
        later,
    }
}

// Inner: reads kept and removed alone of the record whose numbers stand in the log from place i on.
pub fn read_contracted(log: &[u32], i: usize) -> Contracted
    requires { i + width ≤ length log.now }
    ensures { IsContracted (record_at log.now i) result }
{
    Contracted {
        kept: Corner(log[i]),
        removed: Corner(log[i + 1]),
    }
}

// Inner: writes a leaving row's place and numbers.
pub fn write_leaving(log: &mut [u32], i: usize, r: Leaving)
    requires { i + 4 ≤ length log.old }
    ensures { log.new ≡ sets log.old i (r.place.0 ∷ r.a.0 ∷ r.b.0 ∷ r.c.0 ∷ []) }
{
    log[i] = r.place.0;
    log[i + 1] = r.a.0;
    log[i + 2] = r.b.0;
    log[i + 3] = r.c.0;
}

// Inner: writes a record's numbers into the log from place i on.
pub fn write_record(log: &mut [u32], i: usize, r: Record)
    requires { i + width ≤ length log.old }
    ensures { log.new ≡ sets log.old i (numbers (meant r)) }
{
    log[i] = r.kept.0;
    log[i + 1] = r.removed.0;
    write_leaving(log, i + 2, r.earlier);
    write_leaving(log, i + 6, r.later);
}
