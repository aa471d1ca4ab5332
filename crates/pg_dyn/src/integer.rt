//! Integers of 128 bits in two words, so that an item is aligned as a word is.

ghost use Rattle.std.specs.Prelude.{◌≡◌};

use std::marker::Model;

/// An integer from -2^127 to 2^127 - 1.
#[derive(Clone, Copy)]
pub struct Integer {
    high: u64,
    low: u64,
}

impl Model for Integer {
    ghost use Rattle.std.specs.Prelude.{ℤ};

    ghost Value = { ℤ };

    ghost use Rattle.pg_dyn.specs.word.Integers.{AreWords, integer_of, words_of, words_of_integer};

    ghost view = { integer_of };

    ghost invariant = { AreWords };

    ghost inverse = { words_of };

    ghost inverse_ok = { words_of_integer };
}

impl Integer {
    /// The integer of the number.
    #[inline]
    pub(crate) fn new(number: i128) -> Integer
        ensures { result ≡ number }
    {
        let bits = number.cast_unsigned();
        Integer {
            high: (bits / 0x1_0000_0000_0000_0000) as u64,
            low: (bits % 0x1_0000_0000_0000_0000) as u64,
        }
    }

    /// The number.
    #[inline]
    pub fn get(self) -> i128
        ensures { result ≡ self }
    {
        let bits = u128::from(self.high) * 0x1_0000_0000_0000_0000 + u128::from(self.low);
        bits.cast_signed()
    }
}
