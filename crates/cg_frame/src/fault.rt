//! Why a frame is not appended or not read.
ghost use Rattle.std.specs.Prelude.{◌≡◌};
ghost use Rattle.cg_frame.specs.declared.fault.FrameFault.TheVariants as frame_fault;
ghost use Rattle.cg_frame.specs.declared.fault.ScanFault.TheVariants as scan_fault;

use cg_disk::DiskFault;
use std::alloc::AllocError;
use thiserror::Error;

/// Why a frame was not appended.
#[derive(Clone, Copy, Debug, PartialEq, Eq, Error)]
pub enum FrameFault {
    /// There was no memory for the sectors of the frame, and the disk was not called.
    #[error("no memory for a frame")]
    Memory,
    /// The device failed. The frame may stand or not.
    #[error("the device failed")]
    Device,
    /// The frame and the gate after it do not fit the segment. Reported first.
    #[error("no room for a frame")]
    NoRoom,
}

impl From<AllocError> for FrameFault {
    ghost from_gives = { λ _ fault. fault ≡ frame_fault.Memory };

    fn from(_: AllocError) -> Self {
        FrameFault::Memory
    }
}

impl From<DiskFault> for FrameFault {
    ghost from_gives = { λ _ fault. fault ≡ frame_fault.Device };

    fn from(_: DiskFault) -> Self {
        FrameFault::Device
    }
}

/// Why no frame was read.
#[derive(Clone, Copy, Debug, PartialEq, Eq, Error)]
pub enum ScanFault {
    /// There was no memory for the payload of a frame that stands as far as its gate and its head tell.
    #[error("no memory for a payload")]
    Memory,
    /// The device failed.
    #[error("the device failed")]
    Device,
    /// The gate is open before no frame: the count is 0, or the length does not fit the segment.
    #[error("no frame behind an open gate")]
    BadLength,
}

impl From<AllocError> for ScanFault {
    ghost from_gives = { λ _ fault. fault ≡ scan_fault.Memory };

    fn from(_: AllocError) -> Self {
        ScanFault::Memory
    }
}

impl From<DiskFault> for ScanFault {
    ghost from_gives = { λ _ fault. fault ≡ scan_fault.Device };

    fn from(_: DiskFault) -> Self {
        ScanFault::Device
    }
}
