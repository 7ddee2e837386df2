//! The id of a segment.
ghost use Rattle.std.specs.Prelude.{◌≡◌, ℕ, ◌^◌, ◌<◌};

use std::marker::Model;

/// The number of a segment, as it is stored: segment 0 has the first sectors after the root slots. Contracts see the number.
#[derive(Clone, Copy, Debug, PartialEq, Eq, PartialOrd, Ord, Hash)]
pub struct SegmentId {
    number: u16,
}

impl Model for SegmentId {
    ghost Value = { ℕ };

    ghost view = { λ id. id.number };

    ghost invariant = { λ id. id.number < 2 ^ 16 };

    ghost inverse = { λ n. record { number = n } };
}

impl SegmentId {
    /// Returns the id of the segment of that number.
    pub fn new(number: u16) -> Self
        ensures { result ≡ number }
    {
        SegmentId { number }
    }

    /// Returns its number.
    pub fn get(self) -> u16
        ensures number { result ≡ self }
        ensures in_range { self < 2 ^ 16 }
    {
        self.number
    }
}
