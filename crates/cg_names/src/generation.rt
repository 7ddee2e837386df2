//! The generation of a group.
ghost use Rattle.std.specs.Prelude.{◌≡◌, ℕ, ◌≤◌, SomeIff};
ghost use Rattle.cg_names.specs.Generations.{next_generation};

use std::marker::Model;

/// Maximum generation: the protocol encodes it as an `INT32`.
pub const GENERATION_MAX: u32 = 2_147_483_647;

/// The generation of a group: 0 until its first rebalance completes, then 1 to `GENERATION_MAX`. Contracts see the
/// number.
#[derive(Clone, Copy, Debug, PartialEq, Eq, PartialOrd, Ord, Hash)]
pub struct Generation {
    number: u32,
}

impl Model for Generation {
    ghost use Rattle.std.specs.Prelude.{ℕ, ◌≤◌};
    ghost use Rattle.cg_names.specs.declared.generation.TheConstants.{GENERATION_MAX};

    ghost Value = { ℕ };

    ghost view = { λ g. g.number };

    ghost invariant = { λ g. g.number ≤ GENERATION_MAX };

    ghost inverse = { λ n. record { number = n } };
}

impl Generation {
    /// The generation of a group in which no rebalance has completed.
    pub const ZERO: Generation = Generation { number: 0 };

    /// Checks the number. Returns `None` above `GENERATION_MAX`.
    pub fn new(number: u32) -> Option<Generation>
        ensures { SomeIff result (number ≤ GENERATION_MAX) number }
    {
        if number <= GENERATION_MAX {
            Some(Generation { number })
        } else {
            None
        }
    }

    /// Returns the generation of the next completed rebalance: 1 after `GENERATION_MAX`.
    pub fn next(self) -> Generation
        ensures { result ≡ next_generation self }
    {
        if self.number < GENERATION_MAX {
            Generation {
                number: self.number + 1,
            }
        } else {
            Generation { number: 1 }
        }
    }

    /// Returns the number of the generation.
    pub fn get(self) -> u32
        ensures value { result ≡ self }
        ensures range { self ≤ GENERATION_MAX }
    {
        self.number
    }
}
