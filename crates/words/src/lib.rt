// Lists of numbers as words on standard input and standard output. There is None once a word is missing, is none of its type, or is not taken.
#![tactic(auto)]

ghost use Rattle.std.specs.Prelude.{◌≡◌, ℕ, ◌^◌, ◌<◌, MatchOption};
ghost use Rattle.word.specs.Twos.{Narrow};

// The most numbers that a list may have, and the most bytes.
pub const MOST_NUMBERS: usize = 16384;

pub const MOST_BYTES: usize = 131072;

// A type whose values cross as words.
pub trait Cross: Copy {
    // The value that a word is, or that it is none of the type.
    fn of_word(w: u64) -> Option<Self>;

    // The word of a value.
    fn to_word(self) -> u64;
}

// A type of whose values it is known which word each is. It crosses by that; any other type may still cross by two bodies alone.
pub trait KnownWord: Copy {
    // A word, and the value of the type that it is.
    ghost is_word: { ℕ → Self → Type 0 };

    // Inner: the value that a word is, or that it is none of the type.
    fn of_known_word(w: u64) -> Option<Self>
        ensures { MatchOption result ((x : Self) → ¬ is_word w x) (λ x. is_word w x) };

    // Inner: the word of a value.
    fn to_known_word(self) -> u64
        ensures { is_word result self };
}

impl<T: KnownWord> Cross for T {
    fn of_word(w: u64) -> Option<T>
        ensures { MatchOption result ((x : T) → ¬ T.is_word w x) (λ x. T.is_word w x) }
    {
        T::of_known_word(w)
    }

    fn to_word(self) -> u64
        ensures { T.is_word result self }
    {
        self.to_known_word()
    }
}

impl KnownWord for u64 {
    ghost is_word = { λ w x. w ≡ x };

    fn of_known_word(w: u64) -> Option<u64> {
        Some(w)
    }

    fn to_known_word(self) -> u64 {
        self
    }
}

impl KnownWord for usize {
    ghost is_word = { λ w x. w ≡ x };

    fn of_known_word(w: u64) -> Option<usize> {
        usize::try_from(w).ok()
    }

    fn to_known_word(self) -> u64 {
        self as u64
    }
}

impl KnownWord for u32 {
    ghost is_word = { λ w x. (w ≡ x) × (x < 2 ^ 32) };

    fn of_known_word(w: u64) -> Option<u32> {
        u32::try_from(w).ok()
    }

    fn to_known_word(self) -> u64 {
        u64::from(self)
    }
}

impl KnownWord for u8 {
    ghost is_word = { λ w x. (w ≡ x) × (x < 2 ^ 8) };

    fn of_known_word(w: u64) -> Option<u8> {
        u8::try_from(w).ok()
    }

    fn to_known_word(self) -> u64 {
        u64::from(self)
    }
}

impl KnownWord for i32 {
    ghost is_word = { Narrow };

    #[tactic(auto, unfolding(word::specs::Twos::ReadNarrow))]
    fn of_known_word(w: u64) -> Option<i32> {
        word::signed_of(w)
    }

    fn to_known_word(self) -> u64 {
        word::word_of(i64::from(self))
    }
}

// Inner: the next value of the input.
pub fn take<T: Cross>() -> Option<T> {
    let mut b = [0u8; word::BYTES];
    if io::read_full(0, &mut b) < word::BYTES {
        return None;
    }
    T::of_word(word::word_at(&b, 0))
}

// Inner: the next list of the input, its length first, read into the front of a room that holds the longest.
pub fn take_list<T: Cross>(room: &mut [T]) -> Option<&mut [T]> {
    let n: usize = take()?;
    let list = room.get_mut(..n)?;
    for x in list.iter_mut() {
        *x = take()?;
    }
    Some(list)
}

// Inner: writes a value.
pub fn write<T: Cross>(x: T) -> Option<()> {
    let mut b = [0u8; word::BYTES];
    word::put_word(&mut b, 0, x.to_word());
    io::write_all(1, &b).then_some(())
}

// Inner: writes the values of a list alone.
pub fn write_each<T: Cross>(list: &[T]) -> Option<()> {
    for x in list {
        write(*x)?;
    }
    Some(())
}

// Inner: writes a list, its length first.
pub fn write_list<T: Cross>(list: &[T]) -> Option<()> {
    write(list.len())?;
    write_each(list)
}

#[cfg(test)]
mod tests {
    use super::*;
    use std::test::Fail;

    // It crosses by two bodies alone.
    #[derive(Clone, Copy)]
    struct Half(u64);

    impl Cross for Half {
        fn of_word(w: u64) -> Option<Half> {
            if w % 2 == 0 { Some(Half(w / 2)) } else { None }
        }

        fn to_word(self) -> u64 {
            self.0.wrapping_mul(2)
        }
    }

    // The word of the value that a word is.
    fn crossed<T: Cross>(w: u64) -> Option<u64> {
        Some(T::of_word(w)?.to_word())
    }

    #[test]
    fn values_cross() -> Result<(), Fail> {
        for (word, wanted) in [
            (crossed::<Half>(6), Some(6)),
            (crossed::<Half>(7), None),
            (crossed::<u64>(u64::MAX), Some(u64::MAX)),
            (crossed::<usize>(u64::MAX), Some(u64::MAX)),
            (crossed::<u32>(4294967295), Some(4294967295)),
            (crossed::<u32>(4294967296), None),
            (crossed::<u8>(255), Some(255)),
            (crossed::<u8>(256), None),
            (i32::of_word(u64::MAX).map(|x| u64::from(x == -1)), Some(1)),
            (crossed::<i32>(u64::MAX), Some(u64::MAX)),
            (crossed::<i32>(2147483647), Some(2147483647)),
            (crossed::<i32>(2147483648), None),
        ] {
            (word == wanted)
                .then_some(())
                .ok_or("a word is told otherwise")?;
        }
        Ok(())
    }
}
