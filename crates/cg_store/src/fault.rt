//! The faults of a store.
ghost use Rattle.std.specs.Prelude.{◌≡◌};
ghost use Rattle.cg_store.specs.Faults.{of_log};
ghost use Rattle.cg_store.specs.declared.fault.CompactFault.TheVariants as compact_fault;
ghost use Rattle.cg_store.specs.declared.fault.OpenFault.TheVariants as open_fault;

use cg_log::LogFault;
use std::alloc::AllocError;
use thiserror::Error;

/// The reason why a store was not opened. Where no allocation and no call of the disk fails, the faults are reported in
/// the order `NoRoot`, `BadRoot`, `BadFrame`, `BadRecord`: every frame is read before any record is judged.
#[derive(Clone, Copy, Debug, PartialEq, Eq, Error)]
pub enum OpenFault {
    /// An allocation failed.
    #[error("no memory to open the store")]
    Memory,
    /// The disk failed.
    #[error("the disk failed")]
    Device,
    /// The disk has fewer than four sectors, or both root gates are closed.
    #[error("no root")]
    NoRoot,
    /// A root gate is open and its body breaks a rule, or both are open and the epochs are equal.
    #[error("a bad root")]
    BadRoot,
    /// A segment that the root names has an open gate without a frame after it, or there are more commands than
    /// command numbers.
    #[error("a frame is damaged")]
    BadFrame,
    /// A payload cannot be decoded, or the number of its commands differs from the count of its frame.
    #[error("a record is damaged")]
    BadRecord,
}

impl From<AllocError> for OpenFault {
    ghost from_gives = { λ _ fault. fault ≡ open_fault.Memory };

    fn from(_: AllocError) -> Self {
        OpenFault::Memory
    }
}

impl From<LogFault> for OpenFault {
    ghost from_gives = { λ log fault. fault ≡ of_log log };

    fn from(fault: LogFault) -> Self {
        match fault {
            LogFault::Memory => OpenFault::Memory,
            LogFault::Device => OpenFault::Device,
            LogFault::BadRoot => OpenFault::BadRoot,
            LogFault::BadFrame => OpenFault::BadFrame,
            // No opening reports that a log is full or has failed.
            LogFault::NoRoot | LogFault::Full | LogFault::Failed => OpenFault::NoRoot,
        }
    }
}

/// The reason why a call of a compaction was refused. The faults are reported in the order `Failed`, `WrongPhase`,
/// `NoRoom`, `Memory`, `Device`; a write reports `NoRoom` once it knows the size of its frame. `NoRoom` and `Memory` end
/// the compaction, and leave content and root.
#[derive(Clone, Copy, Debug, PartialEq, Eq, Error)]
pub enum CompactFault {
    /// An allocation failed. The compaction is over.
    #[error("no memory for the compaction")]
    Memory,
    /// The disk failed, and every further call reports `Failed`.
    #[error("the disk failed")]
    Device,
    /// The call needs a segment and none is free, or the epoch is the last; in `compact_read`, a disk that is not honest
    /// gave back a bad frame or record. The compaction is over.
    #[error("no room for the compaction")]
    NoRoom,
    /// The compaction is in another phase, and stays there.
    #[error("the compaction is in another phase")]
    WrongPhase,
    /// The disk failed in an earlier call.
    #[error("the store has failed")]
    Failed,
}

impl From<AllocError> for CompactFault {
    ghost from_gives = { λ _ fault. fault ≡ compact_fault.Memory };

    fn from(_: AllocError) -> Self {
        CompactFault::Memory
    }
}

/// The reason why a batch was not appended. The faults are reported in the order `Failed`, `OutOfOrder`, `Full`,
/// `Memory`, `Device`.
#[derive(Clone, Copy, Debug, PartialEq, Eq, Error)]
pub enum StoreFault {
    /// An allocation for the frame failed. The store is unchanged.
    #[error("no memory for a batch")]
    Memory,
    /// The disk failed. The batch may be on disk or not, and every further append reports `Failed`.
    #[error("the disk failed")]
    Device,
    /// The frame does not fit the last tail, and no segment is free or the epoch is the last; or too few command
    /// numbers are left. The store is unchanged.
    #[error("the store is full")]
    Full,
    /// The first number of the batch is not the one after the store's last. The store is unchanged.
    #[error("the batch is not the next one")]
    OutOfOrder,
    /// The disk failed in an earlier call.
    #[error("the store has failed")]
    Failed,
}
