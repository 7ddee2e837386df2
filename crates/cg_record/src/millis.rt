//! Timeouts in milliseconds.
ghost use Rattle.std.specs.Prelude.{◌≡◌, ℕ, ◌≤◌, SomeIff};

use std::marker::Model;

/// Minimum session timeout, in milliseconds (`group.min.session.timeout.ms`).
pub const SESSION_MS_MIN: u32 = 6_000;

/// Maximum session timeout, in milliseconds (`group.max.session.timeout.ms`).
pub const SESSION_MS_MAX: u32 = 1_800_000;

/// Maximum rebalance timeout, in milliseconds: the protocol encodes it as an `INT32`.
pub const REBALANCE_MS_MAX: u32 = 2_147_483_647;

/// A duration of `MIN` to `MAX` milliseconds. Contracts see the number.
#[derive(Clone, Copy, Debug, PartialEq, Eq, PartialOrd, Ord, Hash)]
pub struct Millis<const MIN: u32, const MAX: u32> {
    number: u32,
}

/// Session timeout: a member that is not heard for this long expires (KIP-62).
pub type SessionTimeout = Millis<SESSION_MS_MIN, SESSION_MS_MAX>;

/// Rebalance timeout: how long a rebalance waits for a member (KIP-62).
pub type RebalanceTimeout = Millis<0, REBALANCE_MS_MAX>;

impl<const MIN: u32, const MAX: u32> Model for Millis<MIN, MAX> {
    ghost Value = { ℕ };

    ghost view = { λ m. m.number };

    ghost invariant = { λ m. (MIN ≤ m.number) × (m.number ≤ MAX) };

    ghost inverse = { λ n. record { number = n } };
}

impl<const MIN: u32, const MAX: u32> Millis<MIN, MAX> {
    /// Checks the number. Returns `None` if it is out of range.
    pub fn new(number: u32) -> Option<Self>
        ensures { SomeIff result ((MIN ≤ number) × (number ≤ MAX)) number }
    {
        if MIN <= number && number <= MAX {
            Some(Millis { number })
        } else {
            None
        }
    }

    /// Returns the number of milliseconds.
    pub fn get(self) -> u32
        ensures number { result ≡ self.entry }
        ensures low { MIN ≤ self.entry }
        ensures high { self.entry ≤ MAX }
    {
        self.number
    }
}
