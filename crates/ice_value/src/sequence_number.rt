//! The numbers that order the changes of a table.

ghost use Rattle.std.specs.Prelude.{◌≡◌, ◌<◌, ◌^◌};
ghost use Rattle.std.specs.Option.{SomeIff};

use std::marker::Model;

/// A sequence number: each change of a table has a larger one than the changes before it. It fits a long, so what was
/// read can be written.
#[derive(Clone, Copy, Debug, PartialEq, Eq, PartialOrd, Ord)]
pub struct SequenceNumber {
    number: u64,
}

impl Model for SequenceNumber {
    ghost use Rattle.std.specs.Prelude.{ℕ, ◌<◌, ◌^◌};

    ghost Value = { ℕ };

    ghost view = { λ s. s.number };

    ghost invariant = { λ s. s.number < 2 ^ 63 };

    ghost inverse = { λ n. record { number = n } };
}

impl SequenceNumber {
    /// The number, where it fits a long.
    pub fn new(number: u64) -> Option<Self>
        ensures { SomeIff result (number < 2 ^ 63) number }
    {
        if number < 0x8000_0000_0000_0000 {
            Some(SequenceNumber { number })
        } else {
            None
        }
    }

    /// The number of what was there before the first change.
    pub fn zero() -> Self
        ensures { result ≡ 0 }
    {
        SequenceNumber { number: 0 }
    }

    /// The number as it is.
    pub fn get(self) -> u64
        ensures same { result ≡ self }
        ensures fits_long { result < 2 ^ 63 }
    {
        self.number
    }
}
