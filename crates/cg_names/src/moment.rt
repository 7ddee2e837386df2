//! Moments in milliseconds.
ghost use Rattle.std.specs.Prelude.{◌≡◌, ℕ, ◌+◌, ◌-◌, min, nat_le};

use std::marker::Model;

/// A moment, in milliseconds since an origin that the caller chooses. Contracts see the number of milliseconds.
#[derive(Clone, Copy, Debug, PartialEq, Eq, PartialOrd, Ord, Hash)]
pub struct Moment {
    millis: u64,
}

impl Model for Moment {
    ghost Value = { ℕ };

    ghost view = { λ m. m.millis };

    ghost inverse = { λ n. record { millis = n } };
}

impl Moment {
    /// Creates the moment this many milliseconds after the origin.
    pub const fn from_millis(millis: u64) -> Moment
        ensures { result ≡ millis }
    {
        Moment { millis }
    }

    /// Returns the number of milliseconds since the origin.
    pub const fn as_millis(self) -> u64
        ensures { result ≡ self }
    {
        self.millis
    }

    /// Returns the moment this many milliseconds later, or the last moment if that is out of range.
    pub fn later_by(self, millis: u32) -> Moment
        ensures { result ≡ min (self + millis) u64.MAX }
    {
        Moment {
            millis: self.millis.saturating_add(u64::from(millis)),
        }
    }

    /// Returns whether at least this many milliseconds have passed since `start`.
    pub fn is_past(self, start: Moment, millis: u32) -> bool
        ensures { result ≡ nat_le (start + millis) self }
    {
        start.millis <= self.millis && u64::from(millis) <= self.millis - start.millis
    }
}
