//! Lists of segment ids.
ghost use Rattle.std.specs.Prelude.{◌≡◌, length};

use crate::SegmentId;
use std::marker::Model;

/// Segments in order. Contracts see a list of their numbers.
#[derive(Debug, Drop)]
pub struct SegmentIds {
    ids: Vec<SegmentId>,
}

impl Model for SegmentIds {
    ghost use Rattle.std.specs.Prelude.{ℕ, List};

    ghost Value = { List ℕ };

    ghost view = { λ s. s.ids.items };
}

impl SegmentIds {
    /// Takes ids in order, any ids: `publish` requires lawful ones.
    pub fn from_vec(ids: Vec<SegmentId>) -> Self
        ensures { result ≡ ids.items }
    {
        SegmentIds { ids }
    }

    /// Returns the ids in order.
    pub fn as_slice(&self) -> &[SegmentId]
        ensures { result.now ≡ self.now }
    {
        self.ids.as_slice()
    }

    /// Returns how many there are.
    pub fn len(&self) -> usize
        ensures { result ≡ length self.now }
    {
        self.ids.len()
    }
}
