//! The number of a partition.
ghost use Rattle.std.specs.Prelude.{◌≡◌, ℕ, ◌≤◌, SomeIff};
ghost use Rattle.cg_record.specs.declared.partition.TheConstants.{PARTITION_MAX};

use std::marker::Model;

/// Maximum partition number of a topic: Kafka's partitions are signed 32-bit numbers from 0.
pub const PARTITION_MAX: u32 = 2_147_483_647;

/// A partition number of a topic. Contracts see the number.
#[derive(Clone, Copy, Debug, PartialEq, Eq, PartialOrd, Ord, Hash)]
pub struct Partition {
    number: u32,
}

impl Model for Partition {
    ghost Value = { ℕ };

    ghost view = { λ p. p.number };

    ghost invariant = { λ p. p.number ≤ PARTITION_MAX };

    ghost inverse = { λ n. record { number = n } };
}

impl Partition {
    /// Checks the number. Returns `None` above `PARTITION_MAX`.
    pub fn new(number: u32) -> Option<Self>
        ensures { SomeIff result (number ≤ PARTITION_MAX) number }
    {
        if number <= PARTITION_MAX {
            Some(Partition { number })
        } else {
            None
        }
    }

    /// Returns the partition number.
    pub fn get(self) -> u32
        ensures number { result ≡ self }
        ensures in_range { self ≤ PARTITION_MAX }
    {
        self.number
    }
}
