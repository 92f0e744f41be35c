// How a job's entries are nested: the questions asked of them, and their nets.
#![tactic(auto)]

ghost use Rattle.std.specs.Prelude.{◌≡◌, ◌+◌, ◌-◌, ◌≤◌, ◌<◌, length};
ghost use Rattle.refusal.specs.InnerTells.{Tells};
ghost use Rattle.wide.specs.Rounding.{figure};
ghost use Rattle.wide.specs.Wide.{Exact};
ghost use Rattle.nest.specs.Limits.{most_depth};
ghost use Rattle.nest.specs.Questions.{kind_of_lem, NameGood, Alternates, Every, Deep};
ghost use Rattle.nest.specs.Inner.{Answered, asks, Earlier, Before, net_within, Summable};

use jobform::Entry;
use wide::Wide;

// The deepest nesting; the first entry is at 1.
const MOST_DEPTH: usize = 8;

// The most that a sum may be, either way.
const MOST_SUM: u64 = 768000000000000000;

// What an entry is marked.
#[derive(Clone, Copy, Debug, PartialEq, Eq)]
pub enum Kind {
    Void,
    Solid,
    Other,
}

// What is asked of every entry.
#[derive(Clone, Copy)]
pub enum Question {
    Kind,
    Name,
    Alternation,
    Depth,
    Sum,
}

// The kind that a letter marks.
fn kind_of(letter: u8) -> Kind
    ensures { result ≡ kind_of_lem letter }
{
    match letter {
        b'V' => Kind::Void,
        b'S' => Kind::Solid,
        _ => Kind::Other,
    }
}

// Whether a name is a good one for entry i.
fn named(name: Option<usize>, i: usize) -> bool
    ensures { Tells result (NameGood i name) (¬ NameGood i name) }
{
    match name {
        None => i == 0,
        Some(j) => j < i,
    }
}

// Whether entry i is of another kind than the one that it stands in.
fn alternates(entries: &[Entry], i: usize) -> bool
    requires { Earlier entries.now × (i < length entries.now) }
    ensures { Answered Alternates i entries.now result }
{
    let e = entries[i];
    match e.name {
        None => true,
        Some(j) => kind_of(e.letter) != kind_of(entries[j].letter),
    }
}

// How deep an entry stands.
fn depth_of(entries: &[Entry], i: usize) -> usize
    requires { Earlier entries.now × (i < length entries.now) }
    ensures { Deep entries.now i result × (result ≤ i + 1) }
{
    match entries[i].name {
        None => 1,
        Some(j) => depth_of(entries, j) + 1,
    }
}

// Whether entry i answers a question well.
fn answers(q: Question, entries: &[Entry], i: usize) -> bool
    requires { Before q entries.now × (i < length entries.now) }
    ensures { Answered (asks q) i entries.now result }
{
    let e = entries[i];
    match q {
        Question::Kind => kind_of(e.letter) != Kind::Other,
        Question::Name => named(e.name, i),
        Question::Alternation => alternates(entries, i),
        Question::Depth => depth_of(entries, i) <= MOST_DEPTH,
        Question::Sum => ints::size(e.sum) <= MOST_SUM,
    }
}

// Inner: whether every entry answers a question well.
pub fn every(q: Question, entries: &[Entry]) -> bool
    requires { Before q entries.now }
    ensures { Tells result (Every (asks q) entries.now) (¬ Every (asks q) entries.now) }
{
    for i in 0..entries.len() {
        if !answers(q, entries, i) {
            return false;
        }
    }
    true
}

// The net of a void: its own exact sum less the nets of the solids directly in it. All that name it are solids, since kinds alternate; `left` is how
// many levels may lie below. That void and solid are two functions, each of which calls the other, is a form that 02 names.
#[cycle(net_of_solid_net_of_void)]
fn net_of_void(entries: &[Entry], i: usize, left: usize) -> Wide
    requires { Summable entries.now × (i < length entries.now) × (left < most_depth) }
    ensures { Exact (net_within left entries.now i) result }
{
    let mut solids = wide::enter(0);
    if 0 < left {
        for (k, e) in entries.iter().enumerate() {
            if e.name == Some(i) {
                solids = wide::add(solids, net_of_solid(entries, k, left - 1));
            }
        }
    }
    let own = entries[i].sum;
    wide::less(wide::enter(own), solids)
}

// The net of a solid, worked the same way over the voids directly in it, which are all that name it.
#[cycle(net_of_solid_net_of_void)]
fn net_of_solid(entries: &[Entry], i: usize, left: usize) -> Wide
    requires { Summable entries.now × (i < length entries.now) × (left < most_depth) }
    ensures { Exact (net_within left entries.now i) result }
{
    let mut voids = wide::enter(0);
    if 0 < left {
        for (k, e) in entries.iter().enumerate() {
            if e.name == Some(i) {
                voids = wide::add(voids, net_of_void(entries, k, left - 1));
            }
        }
    }
    let own = entries[i].sum;
    wide::less(wide::enter(own), voids)
}

// Inner: the net of the topmost entry, rounded once.
pub fn figure_of(entries: &[Entry]) -> i64
    requires { Summable entries.now × (0 < length entries.now) }
    ensures { result ≡ figure (net_within (most_depth - 1) entries.now 0) }
{
    let net = match kind_of(entries[0].letter) {
        Kind::Void => net_of_void(entries, 0, MOST_DEPTH - 1),
        Kind::Solid | Kind::Other => net_of_solid(entries, 0, MOST_DEPTH - 1),
    };
    wide::cubic_metres(net)
}
