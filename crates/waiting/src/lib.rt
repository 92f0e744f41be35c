// Corners that wait, and the least of them. Bytes, one a corner, would be written one by one and read sixteen at a time, and the processor waits where
// a wide look follows close on a narrow write; a word is read as it was written.
#![tactic(auto)]

ghost use Rattle.std.specs.Prelude.{ℕ, ◌<◌};
ghost use Rattle.surface.specs.Limits.{most_corners};
ghost use Rattle.waiting.specs.InnerWaiting.{Member, Joined, Released, LeastOf};

use std::marker::Model;

// Bits in a word, and words for the bits of all corners.
const WORD: usize = 64;

pub const WORDS: usize = surface::MOST_CORNERS / WORD + 1;

// A bit for each corner, and one for each word of them that is not nought.
#[derive(Drop)]
pub struct Waiting {
    bits: [u64; WORDS],
    tops: u64,
}

impl Model for Waiting {
    ghost use Rattle.std.specs.Prelude.{List, ℕ};
    ghost use Rattle.waiting.specs.InnerWaiting.{TopsTell};

    ghost Value = { List ℕ };

    ghost view = { λ w. w.bits };

    ghost invariant = { λ w. TopsTell w.bits w.tops };
}

impl Waiting {
    // Inner: nobody waits.
    pub fn new() -> Self
        ensures { (w : ℕ) → ¬ Member result w }
    {
        Waiting {
            bits: [0; WORDS],
            tops: 0,
        }
    }

    // Inner: w joins where on says so.
    pub fn put(&mut self, w: usize, on: bool)
        requires { w < most_corners }
        ensures { Joined on w self.old self.new }
    {
        let b = w / WORD;
        let x = u64::from(on);
        self.bits[b] |= x << (w % WORD);
        self.tops |= x << b;
    }

    // Inner: v, which waits, waits no more.
    pub fn take(&mut self, v: usize)
        requires { Member self.old v }
        ensures { Released v self.old self.new }
    {
        let b = v / WORD;
        let one: u64 = 1;
        let rest = self.bits[b] - (one << (v % WORD));
        self.bits[b] = rest;
        self.tops -= u64::from(rest == 0) << b;
    }

    // Inner: the least corner that waits.
    pub fn least(&self) -> Option<u16>
        ensures { LeastOf self.now result }
    {
        if self.tops == 0 {
            return None;
        }
        let b = self.tops.trailing_zeros() as usize;
        Some((WORD * b + self.bits[b].trailing_zeros() as usize) as u16)
    }
}
