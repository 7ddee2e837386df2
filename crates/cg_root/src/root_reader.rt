//! Reading the root that counts.
ghost use Rattle.cg_root.specs.declared.slot_state.TheConstants.{SLOTS_BYTES};
ghost use Rattle.std.specs.Prelude.{◌≡◌, ◌<◌, ◌≤◌, true, length, IfOk, IsErrOf};
ghost use Rattle.cg_disk.specs.Disk.{present, sector, Stays, Counts};
ghost use Rattle.cg_root.specs.Roots.{IsLawful, CountingRoot, HasNoRoot, HasBadRoot};
ghost use Rattle.cg_root.specs.Outcomes.{is_device_failure};
ghost use Rattle.cg_root.specs.declared.root.Root.{Root};

use crate::root_decoder::root_of;
use crate::slot_state::{SLOTS_BYTES, body_of_slot, counting_slot, state_of_slot};
use crate::{Root, RootFault, Slot};
use cg_disk::SectorDisk;
use cg_gate::FIRST_SEGMENT_SECTOR;
use std::alloc::Global;

// Reads the root that counts among those of both slots.
fn root_among(alloc: Global, slots: &[u8], sectors: u64) -> Result<Root, RootFault>
    requires long { length slots.now ≡ SLOTS_BYTES }
    requires room { 4 ≤ sectors }
    ensures counting { IfOk result (λ root. CountingRoot (sector slots.now) sectors root) }
    ensures no_root { IsErrOf result RootFault.NoRoot → HasNoRoot (sector slots.now) sectors }
    ensures bad_root { IsErrOf result RootFault.BadRoot → HasBadRoot (sector slots.now) sectors }
    ensures memory { IsErrOf result RootFault.Memory →
        (root : Root) × CountingRoot (sector slots.now) sectors root }
    ensures no_device { ¬ IsErrOf result RootFault.Device }
{
    let zero = state_of_slot(slots, Slot::Zero, sectors);
    let one = state_of_slot(slots, Slot::One, sectors);
    let slot = counting_slot(zero, one)?;
    let root = root_of(alloc, slot, body_of_slot(slots, slot))?;
    Ok(root)
}

/// Reads the root that counts, in one call of the device. Memory is asked for last, when the root is known.
pub fn read_root<D: SectorDisk>(alloc: Global, disk: &mut D) -> Result<Root, RootFault>
    ensures counting { D.is_honest disk.old ≡ true → IfOk result (λ root.
        CountingRoot (present (D.history disk.old)).content (D.size disk.old) root) }
    ensures no_root { D.is_honest disk.old ≡ true → IsErrOf result RootFault.NoRoot →
        HasNoRoot (present (D.history disk.old)).content (D.size disk.old) }
    ensures bad_root { D.is_honest disk.old ≡ true → IsErrOf result RootFault.BadRoot →
        HasBadRoot (present (D.history disk.old)).content (D.size disk.old) }
    // An allocation fails only for a root that counts.
    ensures memory { D.is_honest disk.old ≡ true → IsErrOf result RootFault.Memory →
        (root : Root) × CountingRoot (present (D.history disk.old)).content (D.size disk.old) root }

    // These hold whatever the disk gives.
    ensures room { IfOk result (λ root. 4 ≤ D.size disk.old) }
    ensures lawful { IfOk result (λ root. IsLawful (D.size disk.old) root) }
    ensures few_sectors { D.size disk.old < 4 → IsErrOf result RootFault.NoRoot }
    ensures device { Counts (D.failures disk.old) (D.failures disk.new) (is_device_failure result) }
    ensures same_size { D.size disk.new ≡ D.size disk.old }
    ensures same_honesty { D.is_honest disk.new ≡ D.is_honest disk.old }

    // The content stays.
    ensures time { D.is_honest disk.old ≡ true → Stays (D.history disk.old) (D.history disk.new) }
{
    let sectors = disk.sectors();
    if sectors < FIRST_SEGMENT_SECTOR {
        return Err(RootFault::NoRoot);
    }
    let mut slots = [0; SLOTS_BYTES];
    disk.read(0, &mut slots)?;
    let root = root_among(alloc, &slots, sectors)?;
    Ok(root)
}
