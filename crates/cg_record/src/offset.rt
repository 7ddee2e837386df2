//! The offset of a partition.
ghost use Rattle.std.specs.Prelude.{◌≡◌, ℕ, ◌≤◌, SomeIff};
ghost use Rattle.cg_record.specs.declared.offset.TheConstants.{OFFSET_MAX};

use std::marker::Model;

/// Maximum offset of a partition: Kafka's offsets are signed 64-bit numbers, and a committed offset is not negative.
pub const OFFSET_MAX: u64 = 9_223_372_036_854_775_807;

/// An offset in a partition, counted in messages from 0. Contracts see the number.
#[derive(Clone, Copy, Debug, PartialEq, Eq, PartialOrd, Ord, Hash)]
pub struct Offset {
    number: u64,
}

impl Model for Offset {
    ghost Value = { ℕ };

    ghost view = { λ o. o.number };

    ghost invariant = { λ o. o.number ≤ OFFSET_MAX };

    ghost inverse = { λ n. record { number = n } };
}

impl Offset {
    /// Checks the number. Returns `None` above `OFFSET_MAX`.
    pub fn new(number: u64) -> Option<Self>
        ensures { SomeIff result (number ≤ OFFSET_MAX) number }
    {
        if number <= OFFSET_MAX {
            Some(Offset { number })
        } else {
            None
        }
    }

    /// Returns the offset as a number.
    pub fn get(self) -> u64
        ensures number { result ≡ self }
        ensures in_range { self ≤ OFFSET_MAX }
    {
        self.number
    }
}
