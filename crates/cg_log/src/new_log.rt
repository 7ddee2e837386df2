//! Formatting a disk.
ghost use Rattle.std.specs.Prelude.{◌≡◌, ◌≢◌, ◌↔◌, ◌+◌, ◌≤◌, ◌<◌, [], true, IfErr, IfOk, OnOk, IsErrOf, is_err};
ghost use Rattle.cg_disk.specs.Disk.{Changes, Counts, present};
ghost use Rattle.cg_gate.specs.Gates.{IsClosedGate};
ghost use Rattle.cg_gate.specs.Layout.{segment_count, first_sector};
ghost use Rattle.cg_gate.specs.declared.layout.TheConstants.{FIRST_SEGMENT_SECTOR};
ghost use Rattle.cg_log.specs.Carried.{AllCarry, KeepsLog};
ghost use Rattle.cg_log.specs.Faults.{is_device_failure, IsWritingFault};
ghost use Rattle.cg_log.specs.Formatted.{first_root, nothing};
ghost use Rattle.cg_log.specs.Ready.{AllClosed};
ghost use Rattle.cg_root.specs.Slots.{gate_of};

use crate::LogFault;
use cg_disk::{DiskFault, SECTOR_BYTES, SectorDisk};
use cg_gate::{close_gate, first_sector, segment_count};
use cg_root::{Root, SegmentId, SegmentIds, Slot, publish};
use std::alloc::{AllocError, Global};

/// The tail of a formatted disk.
const FIRST_SEGMENT: u16 = 0;

// Returns the root of a formatted disk.
fn make_first_root(alloc: Global) -> Result<Root, AllocError>
    ensures { IfOk result (λ root. root ≡ first_root) }
{
    let mut tail = Vec::new(alloc);
    tail.push(SegmentId::new(FIRST_SEGMENT))?;
    Ok(Root {
        slot: Slot::Zero,
        epoch: 1,
        base_number: 0,
        base: SegmentIds::from_vec(Vec::new(alloc)),
        tail: SegmentIds::from_vec(tail),
    })
}

// Returns the sector of a closed gate.
fn closed_gate() -> [u8; SECTOR_BYTES]
    ensures { IsClosedGate result }
{
    [0; SECTOR_BYTES]
}

// Closes the gates of both root slots, with one sync.
fn close_root_gates<D: SectorDisk>(disk: &mut D) -> Result<(), DiskFault>
    requires { 4 ≤ D.size disk.old }

    ensures zero { D.is_honest disk.old ≡ true → OnOk result (AllClosed (present (D.history disk.new)) (gate_of Slot.Zero)) }
    ensures one { D.is_honest disk.old ≡ true → OnOk result (AllClosed (present (D.history disk.new)) (gate_of Slot.One)) }
    ensures time { D.is_honest disk.old ≡ true → Changes 0 FIRST_SEGMENT_SECTOR (D.history disk.old) (D.history disk.new) }
    ensures cause { Counts (D.failures disk.old) (D.failures disk.new) (is_err result) }
    ensures same_size { D.size disk.new ≡ D.size disk.old }
    ensures same_honesty { D.is_honest disk.new ≡ D.is_honest disk.old }
{
    let closed = closed_gate();
    disk.write(Slot::Zero.gate(), &closed)?;
    disk.write(Slot::One.gate(), &closed)?;
    disk.sync()?;
    Ok(())
}

// Closes the gates of both root slots, and then the first gate of the first segment.
fn close_gates<D: SectorDisk>(disk: &mut D) -> Result<(), DiskFault>
    requires { 0 < segment_count (D.size disk.old) }

    ensures zero { D.is_honest disk.old ≡ true → OnOk result (AllClosed (present (D.history disk.new)) (gate_of Slot.Zero)) }
    ensures one { D.is_honest disk.old ≡ true → OnOk result (AllClosed (present (D.history disk.new)) (gate_of Slot.One)) }
    ensures first { D.is_honest disk.old ≡ true → OnOk result (AllClosed (present (D.history disk.new)) (first_sector 0)) }
    ensures room { 4 ≤ D.size disk.old }
    ensures time { D.is_honest disk.old ≡ true → Changes 0 (FIRST_SEGMENT_SECTOR + 1) (D.history disk.old) (D.history disk.new) }
    ensures cause { Counts (D.failures disk.old) (D.failures disk.new) (is_err result) }
    ensures same_size { D.size disk.new ≡ D.size disk.old }
    ensures same_honesty { D.is_honest disk.new ≡ D.is_honest disk.old }
{
    let first = first_sector(FIRST_SEGMENT);
    close_root_gates(disk)?;
    close_gate(disk, first)?;
    Ok(())
}

/// Formats a disk: afterwards it has no command and no frame, in every crash image. A disk without a whole segment is
/// `Full`, and unchanged. A crash during the call may leave a disk that cannot be opened.
pub fn format<D: SectorDisk>(alloc: Global, disk: &mut D) -> Result<(), LogFault>
    ensures formatted { D.is_honest disk.old ≡ true → OnOk result
        (KeepsLog (present (D.history disk.new)) (D.size disk.old) first_root nothing) }
    ensures empty { D.is_honest disk.old ≡ true → OnOk result
        (AllCarry (present (D.history disk.new)) (D.size disk.old) 0 [] []) }
    ensures full { IsErrOf result LogFault.Full ↔ (segment_count (D.size disk.old) ≡ 0) }
    // It changes the root slots and the first gate of the first segment, and no other sector.
    ensures time { D.is_honest disk.old ≡ true → Changes 0 (FIRST_SEGMENT_SECTOR + 1) (D.history disk.old) (D.history disk.new) }
    ensures unchanged { IfErr result (λ fault. fault ≢ LogFault.Device → disk.new ≡ disk.old) }
    ensures faults { IfErr result IsWritingFault }
    ensures device { Counts (D.failures disk.old) (D.failures disk.new) (is_device_failure result) }
    ensures same_size { D.size disk.new ≡ D.size disk.old }
    ensures same_honesty { D.is_honest disk.new ≡ D.is_honest disk.old }
{
    if segment_count(disk.sectors()) == 0 {
        return Err(LogFault::Full);
    }
    let root = make_first_root(alloc)?;
    close_gates(disk)?;
    publish(disk, &root)?;
    Ok(())
}
