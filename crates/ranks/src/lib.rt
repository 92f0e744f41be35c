// How many rows stand before a row, where rows leave two at a time: sums over blocks, in two lent arrays.
// The loops have fixed lengths and no branch, so that the compiler takes sixteen bytes at a time.
#![tactic(auto)]

ghost use Rattle.std.specs.Prelude.{◌≡◌, ◌*◌, ◌<◌, length};
ghost use Rattle.surface.specs.Limits.{most_rows};
ghost use Rattle.ranks.specs.InnerRanks.{block, blocks, every, CountsRows, CountsSome, Stair, Stairs, StandBefore, TwoStand, TwoLeft, InBlocks, Firsts, CanLower, BlockWritten, BlockLowered, CanDrop, Dropped};

// Rows in a block, and blocks.
pub const BLOCK: usize = 64;

pub const BLOCKS: usize = surface::MOST_ROWS / BLOCK;

// The lengths of the stair and the flight, noughts and then ones.
pub const STAIR: usize = 2 * BLOCK;

pub const FLIGHT: usize = 2 * BLOCKS;

// Each row stands after as many of its block as its place there.
fn fill_within(sub: &mut [u8])
    requires { length sub.old ≡ most_rows }
    ensures { InBlocks sub.new }
{
    for (i, x) in sub.iter_mut().enumerate() {
        *x = (i % BLOCK) as u8;
    }
}

// Each block stands after the rows of the blocks before it.
fn fill_sums(sup: &mut [u16])
    requires { length sup.old ≡ blocks }
    ensures { Firsts sup.new }
{
    for (b, x) in sup.iter_mut().enumerate() {
        *x = (BLOCK * b) as u16;
    }
}

// Inner: the set of every row.
pub fn fill(sub: &mut [u8], sup: &mut [u16])
    requires sub_len { length sub.old ≡ most_rows }
    requires sup_len { length sup.old ≡ blocks }
    ensures { CountsRows every sub.new sup.new }
{
    fill_within(sub);
    fill_sums(sup);
}

// Inner: the stair and the flight, noughts and as many ones, for the rows of a block and for the blocks; `leave` takes off parts of them.
pub fn fill_stairs(stair: &mut [u8], flight: &mut [u16])
    requires stair_len { length stair.old ≡ 2 * block }
    requires flight_len { length flight.old ≡ 2 * blocks }
    ensures { Stairs stair.new flight.new }
{
    let (low, high) = stair.split_at_mut(BLOCK);
    low.fill(0);
    high.fill(1);
    let (low, high) = flight.split_at_mut(BLOCKS);
    low.fill(0);
    high.fill(1);
}

// Inner: how many rows stand before i.
pub fn before(sub: &[u8], sup: &[u16], i: usize) -> u32
    requires i_lt_most_rows { i < most_rows }
    requires counts_some { CountsSome sub.now sup.now }
    ensures { StandBefore i sub.now sup.now result }
{
    sup[i / BLOCK] as u32 + sub[i] as u32
}

// The numbers in i's block are now those of less. Number by number: `copy_from_slice` was tried and slower, since less then lies in memory.
fn write_block(sub: &mut [u8], less: &[u8], i: usize)
    requires i_lt_most_rows { i < most_rows }
    requires sub_len { length sub.old ≡ most_rows }
    requires less_len { length less.now ≡ block }
    ensures { BlockWritten i less.now sub.old sub.new }
{
    let b = BLOCK * (i / BLOCK);
    for k in 0..BLOCK {
        sub[b + k] = less[k];
    }
}

// The rows of i's block past it lose one: the stair is taken so that its ones start at k = i % BLOCK + 1.
// Less is there because the compiler does not know that sub and stair lie apart; it holds it in registers.
fn leave_block(sub: &mut [u8], stair: &[u8], i: usize)
    requires i_lt_most_rows { i < most_rows }
    requires stair { Stair block stair.now }
    requires can_lower { CanLower i sub.old }
    ensures { BlockLowered i sub.old sub.new }
{
    let mut less = [0u8; BLOCK];
    let b = BLOCK * (i / BLOCK);
    let o = BLOCK - 1 - i % BLOCK;
    for k in 0..BLOCK {
        less[k] = sub[b + k] - stair[o + k];
    }
    write_block(sub, &less, i);
}

// The blocks past i's lose one, and those past j's.
fn leave_sums(sup: &mut [u16], flight: &[u16], i: usize, j: usize)
    requires i_lt_most_rows { i < most_rows }
    requires j_lt_most_rows { j < most_rows }
    requires stair { Stair blocks flight.now }
    requires can_drop { CanDrop i j sup.old }
    ensures { Dropped i j sup.old sup.new }
{
    let mut less = [0u16; BLOCKS];
    let x = BLOCKS - 1 - i / BLOCK;
    let y = BLOCKS - 1 - j / BLOCK;
    let first = &flight[x..];
    let second = &flight[y..];
    for k in 0..BLOCKS {
        less[k] = sup[k] - first[k] - second[k];
    }
    sup.copy_from_slice(&less);
}

// Inner: the rows i and j leave.
pub fn leave(sub: &mut [u8], sup: &mut [u16], stair: &[u8], flight: &[u16], i: usize, j: usize)
    requires i_lt_most_rows { i < most_rows }
    requires j_lt_most_rows { j < most_rows }
    requires stairs { Stairs stair.now flight.now }
    requires two_stand { TwoStand i j sub.old sup.old }
    ensures { TwoLeft i j sub.old sup.old sub.new sup.new }
{
    leave_block(sub, stair, i);
    leave_block(sub, stair, j);
    leave_sums(sup, flight, i, j);
}
