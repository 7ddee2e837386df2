//! The generation of a completed rebalance.
ghost use Rattle.std.specs.Prelude.{◌≡◌, ℕ, ◌≤◌, SomeIff};
ghost use Rattle.cg_names.specs.declared.generation.TheConstants.{GENERATION_MAX};

use cg_names::{GENERATION_MAX, Generation};
use std::marker::Model;

/// A generation that a rebalance has completed, from 1 to `GENERATION_MAX`. Contracts see the number.
#[derive(Clone, Copy, Debug, PartialEq, Eq, PartialOrd, Ord, Hash)]
pub struct CompletedGeneration {
    number: u32,
}

impl Model for CompletedGeneration {
    ghost use Rattle.std.specs.Prelude.{ℕ, ◌≤◌};
    ghost use Rattle.cg_names.specs.declared.generation.TheConstants.{GENERATION_MAX};

    ghost Value = { ℕ };

    ghost view = { λ g. g.number };

    ghost invariant = { λ g. (1 ≤ g.number) × (g.number ≤ GENERATION_MAX) };

    ghost inverse = { λ n. record { number = n } };
}

impl CompletedGeneration {
    /// Checks the number. Returns `None` for 0 and above `GENERATION_MAX`.
    pub fn new(number: u32) -> Option<Self>
        ensures { SomeIff result ((1 ≤ number) × (number ≤ GENERATION_MAX)) number }
    {
        if 1 <= number && number <= GENERATION_MAX {
            Some(CompletedGeneration { number })
        } else {
            None
        }
    }

    /// Returns the number of the generation.
    pub fn get(self) -> u32
        ensures number { result ≡ self }
        ensures low { 1 ≤ self }
        ensures high { self ≤ GENERATION_MAX }
    {
        self.number
    }

    /// Converts to the generation of a group.
    pub fn generation(self) -> Generation
        ensures { result ≡ self }
    {
        Generation::new(self.number).unwrap()
    }
}
