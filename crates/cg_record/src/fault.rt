//! The faults of a payload.
ghost use Rattle.std.specs.Prelude.{◌≡◌};
ghost use Rattle.cg_record.specs.declared.fault.RecordFault.TheVariants.{Memory};

use std::alloc::{AllocError, AllocFailed};
use thiserror::Error;

/// The first fault of a payload, from left to right.
#[derive(Clone, Copy, Debug, PartialEq, Eq, Error)]
pub enum RecordFault {
    /// An allocation failed, and the payload has no fault.
    #[error("no memory for commands")]
    Memory,
    /// The bytes end inside a field.
    #[error("the bytes end inside a field")]
    Short,
    /// The first byte is not a known version, or the first byte of a command is not a kind of this version.
    #[error("the version or the kind of a command is unknown")]
    BadKind,
    /// A name is empty, too long (reported before `Short`), or outside the grammar of names; the member of a `Replaced`
    /// has no instance; or, reported at the end of the command, the leader is not a member.
    #[error("a name is missing, too long or outside its grammar")]
    BadName,
    /// A number, a count or a length is outside its range, or the metadata of a commit together pass their limit; a length
    /// is reported before `Short`.
    #[error("a number or a length is out of its range")]
    BadLength,
    /// A partition, a member id or an instance appears twice in one command; reported before the bytes after it are
    /// read.
    #[error("a partition, a member or an instance comes twice in one command")]
    Repeated,
}

impl From<AllocError> for RecordFault {
    ghost from_gives = { λ _ fault. fault ≡ Memory };

    fn from(_: AllocError) -> RecordFault {
        RecordFault::Memory
    }
}

impl<T: Drop> From<AllocFailed<T>> for RecordFault {
    ghost from_gives = { λ _ fault. fault ≡ Memory };

    fn from(_: AllocFailed<T>) -> RecordFault {
        RecordFault::Memory
    }
}
