//! The fault of a disk.
ghost use Rattle.std.specs.Prelude.{◌≡◌, is_err};
ghost use Rattle.cg_disk.specs.Disk.{Counts};

use thiserror::Error;

/// The reason why a disk call failed.
#[derive(Clone, Copy, Debug, PartialEq, Eq, Error)]
pub enum DiskFault {
    /// The device failed during this call.
    #[error("the device failed")]
    Device,
}

/// Counts the call if it failed. The count stops at `u64::MAX`.
pub(crate) fn count<E: Drop>(failures: &mut u64, outcome: Result<(), E>) -> Result<(), DiskFault>
    ensures same { is_err result ≡ is_err outcome }
    ensures counts { Counts failures.old failures.new (is_err outcome) }
{
    if outcome.is_ok() {
        return Ok(());
    }
    *failures = failures.saturating_add(1);
    Err(DiskFault::Device)
}
