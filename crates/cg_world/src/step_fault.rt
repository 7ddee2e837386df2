//! The error of a step for which an allocation fails.
ghost use Rattle.std.specs.Prelude.{◌≡◌, None, Some};

use cg_desk::Outgoing;
use std::alloc::AllocError;

/// An allocation failed for a step, which was not taken.
#[derive(Debug, Drop)]
pub struct Wanting {
    /// Refusal of the request, if the step is one.
    pub last: Option<Outgoing>,
}

impl From<AllocError> for Wanting {
    ghost from_gives = { λ _ wanting. wanting.last ≡ None };

    fn from(_: AllocError) -> Self {
        Wanting { last: None }
    }
}

impl From<Outgoing> for Wanting {
    ghost from_gives = { λ refused wanting. wanting.last ≡ Some refused };

    fn from(refused: Outgoing) -> Self {
        Wanting {
            last: Some(refused),
        }
    }
}
