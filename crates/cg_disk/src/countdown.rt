//! The count of calls before one that fails.
ghost use Rattle.std.specs.Prelude.{◌≡◌, is_err};
ghost use Rattle.cg_disk.specs.Countdown.{counted_down, fails_next};

use crate::DiskFault;

/// Counts one call down. If no call was left, reports `Device`, counts that failure, and goes on from `next`. Without a
/// count no call fails.
pub(crate) fn count_down(
    calls: &mut Option<u64>,
    failed: &mut u64,
    next: Option<u64>,
) -> Result<(), DiskFault>
    ensures counts { (calls.new, failed.new) ≡ counted_down next (calls.old, failed.old) }
    ensures fails { is_err result ≡ fails_next calls.old }
{
    match *calls {
        None => Ok(()),
        Some(0) => {
            *calls = next;
            *failed = failed.saturating_add(1);
            Err(DiskFault::Device)
        }
        Some(left) => {
            *calls = Some(left - 1);
            Ok(())
        }
    }
}
