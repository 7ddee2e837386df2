//! The faults of a log.
ghost use Rattle.std.specs.Prelude.{◌≡◌};
ghost use Rattle.cg_log.specs.declared.fault.LogFault.TheVariants as log_fault;
ghost use Rattle.cg_log.specs.FaultOf.{of_root, of_scan};

use cg_disk::DiskFault;
use cg_frame::ScanFault;
use cg_root::RootFault;
use std::alloc::AllocError;
use thiserror::Error;

/// The reason why a call of the log failed.
#[derive(Clone, Copy, Debug, PartialEq, Eq, Error)]
pub enum LogFault {
    /// An allocation failed. The log is unchanged.
    #[error("no memory for the log")]
    Memory,
    /// The device failed during this call.
    #[error("the device failed")]
    Device,
    /// `append` and `roll`: a segment is needed, and none is free or the epoch is the last; `append` also where the
    /// number of a command would be too great. `fresh_append`: a segment is needed, and none is free. `switch`: the
    /// epoch is the last. `format`: the disk has no whole segment. Nothing was written.
    #[error("the log is full")]
    Full,
    /// A root gate is open and its body breaks a rule, or both are open and the epochs are equal.
    #[error("a bad root")]
    BadRoot,
    /// A segment that the root names has an open gate without a frame after it, or the numbers of the commands pass
    /// `COMMAND_NUMBER_MAX`.
    #[error("a bad frame")]
    BadFrame,
    /// The disk has fewer than four sectors, or both root gates are closed.
    #[error("no root")]
    NoRoot,
    /// The device failed in an earlier call.
    #[error("the log has failed")]
    Failed,
}

impl From<AllocError> for LogFault {
    ghost from_gives = { λ _ fault. fault ≡ log_fault.Memory };

    fn from(_: AllocError) -> Self {
        LogFault::Memory
    }
}

impl From<DiskFault> for LogFault {
    ghost from_gives = { λ _ fault. fault ≡ log_fault.Device };

    fn from(_: DiskFault) -> Self {
        LogFault::Device
    }
}

impl From<RootFault> for LogFault {
    ghost from_gives = { λ root fault. fault ≡ of_root root };

    fn from(fault: RootFault) -> Self {
        match fault {
            RootFault::Memory => LogFault::Memory,
            RootFault::Device => LogFault::Device,
            RootFault::NoRoot => LogFault::NoRoot,
            RootFault::BadRoot => LogFault::BadRoot,
        }
    }
}

impl From<ScanFault> for LogFault {
    ghost from_gives = { λ scan fault. fault ≡ of_scan scan };

    fn from(fault: ScanFault) -> Self {
        match fault {
            ScanFault::Memory => LogFault::Memory,
            ScanFault::Device => LogFault::Device,
            ScanFault::BadLength => LogFault::BadFrame,
        }
    }
}
