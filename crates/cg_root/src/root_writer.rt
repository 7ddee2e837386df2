//! Closing the other slot, and publishing a root.
ghost use Rattle.std.specs.Prelude.{◌≡◌, ℕ, ◌+◌, ◌≤◌, true, length, slice_index, OnOk, is_err};
ghost use Rattle.cg_disk.specs.Disk.{Image, present, IsImage, IsSynced, Changes, LeavesOnly, TakesCalls, Counts};
ghost use Rattle.cg_gate.specs.Gates.{IsOpen, IsClosed};
ghost use Rattle.cg_root.specs.Slots.{gate_of, other_slot};
ghost use Rattle.cg_root.specs.Roots.{root_body, IsLawful, CountingRoot, IsNewest, KeepsRoot, Published, IsOldOrNew};
ghost use Rattle.cg_root.specs.declared.root.Root.{Root};

use crate::Root;
use crate::root_encoder::body_of;
use cg_disk::{DiskFault, SectorDisk};
use cg_gate::{close_gate, write_guarded};

/// Closes the gate of the slot that the next root takes, and syncs it, in two calls of the device. For a gate that is
/// open, so that an older root is stored after it: a closed gate is not written again, since until the sync it could
/// open before a body that no root has.
pub fn close_other<D: SectorDisk>(disk: &mut D, current: &Root) -> Result<(), DiskFault>
    requires room { 4 ≤ D.size disk.old }
    requires root { D.is_honest disk.old ≡ true →
        KeepsRoot (present (D.history disk.old)) (D.size disk.old) current.now }
    requires opened { D.is_honest disk.old ≡ true → (image : Image) →
        IsImage (present (D.history disk.old)) image → IsOpen image (gate_of (other_slot current.now.slot)) }

    ensures same_size { D.size disk.new ≡ D.size disk.old }
    ensures same_honesty { D.is_honest disk.new ≡ D.is_honest disk.old }

    // It changes that gate alone, and a crash at any moment leaves the root.
    ensures time { D.is_honest disk.old ≡ true →
        Changes (gate_of (other_slot current.now.slot)) 1 (D.history disk.old) (D.history disk.new) }
    ensures any_moment { D.is_honest disk.old ≡ true →
        LeavesOnly (D.history disk.old) (D.history disk.new)
        (λ image. CountingRoot image (D.size disk.old) current.now) }
    ensures closed { D.is_honest disk.old ≡ true → OnOk result ((image : Image) →
        IsImage (present (D.history disk.new)) image → IsClosed image (gate_of (other_slot current.now.slot))) }
    ensures durable { D.is_honest disk.old ≡ true → OnOk result (IsSynced (present (D.history disk.new))) }
    ensures clock { D.is_honest disk.old ≡ true → TakesCalls 2 (D.history disk.old) (D.history disk.new) (is_err result) }
    ensures cause { Counts (D.failures disk.old) (D.failures disk.new) (is_err result) }
{
    close_gate(disk, current.slot.other().gate())?;
    Ok(())
}

/// Writes a root into its slot, whose gate is closed: the body, then the open gate, each synced, in four calls of the
/// device.
pub fn publish<D: SectorDisk>(disk: &mut D, next: &Root) -> Result<(), DiskFault>
    requires room { 4 ≤ D.size disk.old }
    requires lawful { IsLawful (D.size disk.old) next.now }
    requires closed { D.is_honest disk.old ≡ true → (image : Image) →
        IsImage (present (D.history disk.old)) image → IsClosed image (gate_of next.now.slot) }
    // The other slot holds no root, or an older one.
    requires newest { D.is_honest disk.old ≡ true → (image : Image) →
        IsImage (present (D.history disk.old)) image → IsNewest image (D.size disk.old) next.now }

    ensures same_size { D.size disk.new ≡ D.size disk.old }
    ensures same_honesty { D.is_honest disk.new ≡ D.is_honest disk.old }

    // It changes the two sectors of that slot alone. A crash at any moment leaves the root from before it or the new one.
    ensures time { D.is_honest disk.old ≡ true →
        Changes (gate_of next.now.slot) 2 (D.history disk.old) (D.history disk.new) }
    ensures any_moment { D.is_honest disk.old ≡ true →
        LeavesOnly (D.history disk.old) (D.history disk.new)
        (Published (present (D.history disk.old)) (D.size disk.old) next.now) }
    ensures root { D.is_honest disk.old ≡ true → (root : Root) →
        KeepsRoot (present (D.history disk.old)) (D.size disk.old) root →
        LeavesOnly (D.history disk.old) (D.history disk.new) (IsOldOrNew (D.size disk.old) root next.now) }
    ensures published { D.is_honest disk.old ≡ true → OnOk result
        (KeepsRoot (present (D.history disk.new)) (D.size disk.old) next.now) }
    // The rest of the body is zeros.
    ensures zeros { D.is_honest disk.old ≡ true → OnOk result ((i : ℕ) → length (root_body next.now) ≤ i →
        slice_index ((present (D.history disk.new)).content (gate_of next.now.slot + 1)) i ≡ 0) }
    ensures durable { D.is_honest disk.old ≡ true → OnOk result (IsSynced (present (D.history disk.new))) }
    ensures clock { D.is_honest disk.old ≡ true → TakesCalls 4 (D.history disk.old) (D.history disk.new) (is_err result) }
    ensures cause { Counts (D.failures disk.old) (D.failures disk.new) (is_err result) }
{
    write_guarded(disk, next.slot.gate(), &body_of(next))?;
    Ok(())
}
