//! Errors of parsing a line.
ghost use Rattle.std.specs.Prelude.{◌≡◌};
ghost use Rattle.cg_line.specs.declared.line_fault.LineFault.TheVariants.{Memory};

use std::alloc::{AllocError, AllocFailed};
use thiserror::Error;

/// Error of a line that is not parsed. `TooLong` is reported first, then `Malformed`.
#[derive(Clone, Copy, Debug, PartialEq, Eq, Error)]
pub enum LineFault {
    /// The line is a request, and an allocation for it failed.
    #[error("no memory for a request")]
    Memory,
    /// The line is not a request.
    #[error("a line is malformed")]
    Malformed,
    /// The line has more than `LINE_BYTES_MAX` bytes.
    #[error("a line is too long")]
    TooLong,
}

impl From<AllocError> for LineFault {
    ghost from_gives = { λ _ fault. fault ≡ Memory };

    fn from(_: AllocError) -> LineFault {
        LineFault::Memory
    }
}

impl<T: Drop> From<AllocFailed<T>> for LineFault {
    ghost from_gives = { λ _ fault. fault ≡ Memory };

    fn from(_: AllocFailed<T>) -> LineFault {
        LineFault::Memory
    }
}
