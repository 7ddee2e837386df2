//! What the calls of an engine report.
ghost use Rattle.std.specs.Prelude.{◌≡◌};
ghost use Rattle.cg_engine.specs.Faults.{of_opening};
ghost use Rattle.cg_engine.specs.declared.fault.FinishFault.TheVariants as finish_fault;
ghost use Rattle.cg_engine.specs.declared.fault.PassFault.TheVariants as pass_fault;
ghost use Rattle.cg_engine.specs.declared.fault.RoundFault.TheVariants as round_fault;

use cg_store::OpenFault;
use std::alloc::AllocError;
use thiserror::Error;

/// The reason why nothing was loaded.
#[derive(Clone, Copy, Debug, PartialEq, Eq, Error)]
pub enum LoadFault {
    /// An allocation failed.
    #[error("no memory to load")]
    Memory,
    /// The disk failed.
    #[error("the disk failed")]
    Device,
    /// The disk has fewer than four sectors, or both root gates are closed.
    #[error("no root")]
    NoRoot,
    /// A root gate is open and its body breaks a rule, or both are open and the epochs are equal.
    #[error("a bad root")]
    BadRoot,
    /// A segment that the root names has an open gate without a frame after it, or there are more commands than
    /// command numbers.
    #[error("a frame is damaged")]
    BadFrame,
    /// A payload cannot be decoded, or the number of its commands differs from the count of its frame.
    #[error("a record is damaged")]
    BadRecord,
    /// A disk is loaded already, or another thread loads one.
    #[error("a disk is loaded already")]
    Loaded,
}

impl From<OpenFault> for LoadFault {
    ghost from_gives = { λ opening fault. fault ≡ of_opening opening };

    fn from(fault: OpenFault) -> Self {
        match fault {
            OpenFault::Memory => LoadFault::Memory,
            OpenFault::Device => LoadFault::Device,
            OpenFault::NoRoot => LoadFault::NoRoot,
            OpenFault::BadRoot => LoadFault::BadRoot,
            OpenFault::BadFrame => LoadFault::BadFrame,
            OpenFault::BadRecord => LoadFault::BadRecord,
        }
    }
}

/// The reason why a pass was not made.
#[derive(Clone, Copy, Debug, PartialEq, Eq, Error)]
pub enum PassFault {
    /// An allocation failed.
    #[error("no memory for a pass")]
    Memory,
    /// The engine has made 65,536 passes.
    #[error("no pass is left")]
    Full,
}

impl From<AllocError> for PassFault {
    ghost from_gives = { λ _ fault. fault ≡ pass_fault.Memory };

    fn from(_: AllocError) -> Self {
        PassFault::Memory
    }
}

/// Why a round left its work for a later one.
#[derive(Clone, Copy, Debug, Drop, PartialEq, Eq)]
pub enum Skip {
    /// The store has no room for the batch, which waits for the next round.
    Full,
    /// The compaction has no room, or read a damaged frame, which the next load reports; it is over.
    NoRoom,
    /// Another thread has a batch in flight.
    InFlight,
}

/// How a round ended.
#[derive(Clone, Copy, Debug, Drop, PartialEq, Eq)]
pub enum RoundEnd {
    /// Nothing is loaded, or there was nothing to take or settle.
    Nothing,
    /// The round did its work: a batch was settled, a tick run, or a step of a compaction made.
    Done,
    /// The round left its work for a later one.
    Skipped(Skip),
}

/// The reason why a round was not done. Replies may have left in it.
#[derive(Clone, Copy, Debug, PartialEq, Eq, Error)]
pub enum RoundFault {
    /// An allocation failed. The work stays for the next round; a compaction is over.
    #[error("no memory for a round")]
    Memory,
    /// The disk failed in this round. Every pending call was refused with 15.
    #[error("the disk failed")]
    Device,
    /// The disk failed in an earlier round, or desk and store do not fit each other. Every pending call was refused with 15.
    #[error("the disk failed earlier")]
    Failed,
}

/// The reason why an engine was not finished.
#[derive(Clone, Copy, Debug, PartialEq, Eq, Error)]
pub enum FinishFault {
    /// An allocation failed: in the test of the trail, or when a step or an answer was to be recorded.
    #[error("no memory for the trail")]
    Memory,
    /// The machine replies other than the trail records, the answers of the passes or the stored commands are not those of
    /// the trail, or the units do not add up.
    #[error("the trail differs")]
    TrailDiffers,
    /// The passes are not all that the engine made, each once.
    #[error("a pass is missing")]
    MissingPass,
}

impl From<AllocError> for FinishFault {
    ghost from_gives = { λ _ fault. fault ≡ finish_fault.Memory };

    fn from(_: AllocError) -> Self {
        FinishFault::Memory
    }
}

impl From<AllocError> for RoundFault {
    ghost from_gives = { λ _ fault. fault ≡ round_fault.Memory };

    fn from(_: AllocError) -> Self {
        RoundFault::Memory
    }
}
