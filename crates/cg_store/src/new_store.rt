//! Formatting a disk.
ghost use Rattle.std.specs.Prelude.{◌≡◌, ◌≢◌, ◌↔◌, ◌+◌, true, IfErr, OnOk, IsErrOf};
ghost use Rattle.cg_disk.specs.Disk.{Changes, Counts};
ghost use Rattle.cg_fold.specs.Durable.{empty};
ghost use Rattle.cg_gate.specs.Layout.{segment_count};
ghost use Rattle.cg_gate.specs.declared.layout.TheConstants.{FIRST_SEGMENT_SECTOR};
ghost use Rattle.cg_log.specs.Faults.{is_device_failure, IsWritingFault};
ghost use Rattle.cg_store.specs.Carried.{AllCarry};

use cg_disk::SectorDisk;
use cg_log::LogFault;
use std::alloc::Global;

/// Formats a disk: afterwards it has no commands. A disk without a whole segment is `Full`, and unchanged. A crash
/// during the call may leave a disk that cannot be opened.
pub fn format<D: SectorDisk>(alloc: Global, disk: &mut D) -> Result<(), LogFault>
    ensures ok { D.is_honest disk.old ≡ true → OnOk result (AllCarry (D.history disk.new) (D.size disk.old) 0 empty) }
    ensures full { IsErrOf result LogFault.Full ↔ (segment_count (D.size disk.old) ≡ 0) }
    // It changes the root slots and the first gate of the first segment, and no other sector.
    ensures time { D.is_honest disk.old ≡ true → Changes 0 (FIRST_SEGMENT_SECTOR + 1) (D.history disk.old) (D.history disk.new) }
    ensures unchanged { IfErr result (λ fault. fault ≢ LogFault.Device → disk.new ≡ disk.old) }
    ensures faults { IfErr result IsWritingFault }
    ensures device { Counts (D.failures disk.old) (D.failures disk.new) (is_device_failure result) }
    ensures same_size { D.size disk.new ≡ D.size disk.old }
    ensures same_honesty { D.is_honest disk.new ≡ D.is_honest disk.old }
{
    cg_log::format(alloc, disk)?;
    Ok(())
}
