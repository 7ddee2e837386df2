//! Why no root is read.
ghost use Rattle.std.specs.Prelude.{◌≡◌};
ghost use Rattle.cg_root.specs.declared.fault.RootFault.TheVariants as root_fault;

use cg_disk::DiskFault;
use std::alloc::AllocError;
use thiserror::Error;

/// Why no root was read.
#[derive(Clone, Copy, Debug, PartialEq, Eq, Error)]
pub enum RootFault {
    /// An allocation for the segment ids of the root that counts failed. It is reported last.
    #[error("no memory for a root")]
    Memory,
    /// The device failed.
    #[error("the device failed")]
    Device,
    /// The disk has fewer than four sectors, or both gates are closed.
    #[error("no root on the disk")]
    NoRoot,
    /// A gate is open and its body breaks a rule, or both gates are open and the epochs are equal.
    #[error("a bad root behind an open gate")]
    BadRoot,
}

impl From<AllocError> for RootFault {
    ghost from_gives = { λ _ fault. fault ≡ root_fault.Memory };

    fn from(_: AllocError) -> Self {
        RootFault::Memory
    }
}

impl From<DiskFault> for RootFault {
    ghost from_gives = { λ _ fault. fault ≡ root_fault.Device };

    fn from(_: DiskFault) -> Self {
        RootFault::Device
    }
}
