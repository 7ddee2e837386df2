//! The guarded write: sectors after a closed gate, a sync, the open gate, a sync.
ghost use Rattle.std.specs.Prelude.{◌≡◌, ◌+◌, ◌^◌, ◌<◌, ◌≤◌, true, OnOk, is_err};
ghost use Rattle.cg_disk.specs.Disk.{Image, present, sector_count, IsWhole, Holds, IsImage, IsSynced, AllBut, Changes, LeavesOnly, TakesCalls, Counts};
ghost use Rattle.cg_gate.specs.Gates.{IsClosed, IsOpenGate, IsClosedGate, IsGuarded, GuardedWrite};

use crate::gate::{closed_gate, open_gate};
use cg_disk::{DiskFault, SectorDisk};

// Writes sectors and syncs them.
fn write_synced<D: SectorDisk>(disk: &mut D, at: u64, bytes: &[u8]) -> Result<(), DiskFault>
    requires whole { IsWhole bytes.now }
    requires in_range { at + sector_count bytes.now ≤ D.size disk.old }

    ensures same_size { D.size disk.new ≡ D.size disk.old }
    ensures same_honesty { D.is_honest disk.new ≡ D.is_honest disk.old }
    ensures bytes { D.is_honest disk.old ≡ true → OnOk result
        (Holds (present (D.history disk.new)).content at (sector_count bytes.now) bytes.now) }
    ensures durable { D.is_honest disk.old ≡ true → OnOk result (IsSynced (present (D.history disk.new))) }
    ensures time { D.is_honest disk.old ≡ true →
        Changes at (sector_count bytes.now) (D.history disk.old) (D.history disk.new) }
    ensures clock { D.is_honest disk.old ≡ true → TakesCalls 2 (D.history disk.old) (D.history disk.new) (is_err result) }
    ensures cause { Counts (D.failures disk.old) (D.failures disk.new) (is_err result) }
{
    disk.write(at, bytes)?;
    disk.sync()?;
    Ok(())
}

/// Writes a closed gate and syncs it, in two calls of the device.
pub fn close_gate<D: SectorDisk>(disk: &mut D, gate: u64) -> Result<(), DiskFault>
    requires on_disk { gate < D.size disk.old }

    ensures same_size { D.size disk.new ≡ D.size disk.old }
    ensures same_honesty { D.is_honest disk.new ≡ D.is_honest disk.old }

    // It changes that sector alone.
    ensures time { D.is_honest disk.old ≡ true →
        Changes gate 1 (D.history disk.old) (D.history disk.new) }
    ensures any_moment { D.is_honest disk.old ≡ true →
        LeavesOnly (D.history disk.old) (D.history disk.new)
        (AllBut gate 1 (present (D.history disk.old))) }
    ensures closed { D.is_honest disk.old ≡ true → OnOk result
        ((image : Image) → IsImage (present (D.history disk.new)) image → IsClosed image gate) }
    ensures gate { D.is_honest disk.old ≡ true → OnOk result
        (IsClosedGate ((present (D.history disk.new)).content gate)) }
    ensures durable { D.is_honest disk.old ≡ true → OnOk result (IsSynced (present (D.history disk.new))) }
    ensures clock { D.is_honest disk.old ≡ true → TakesCalls 2 (D.history disk.old) (D.history disk.new) (is_err result) }
    ensures cause { Counts (D.failures disk.old) (D.failures disk.new) (is_err result) }
{
    write_synced(disk, gate, &closed_gate())?;
    Ok(())
}

/// Writes sectors after a closed gate, syncs them, opens the gate and syncs it, in four calls of the device.
pub fn write_guarded<D: SectorDisk>(
    disk: &mut D,
    gate: u64,
    sectors: &[u8],
) -> Result<(), DiskFault>
    requires whole { IsWhole sectors.now }
    requires in_range { gate + 1 + sector_count sectors.now ≤ D.size disk.old }
    requires small { gate + 1 < 2 ^ 64 }
    requires closed { D.is_honest disk.old ≡ true →
        (image : Image) → IsImage (present (D.history disk.old)) image → IsClosed image gate }

    ensures same_size { D.size disk.new ≡ D.size disk.old }
    ensures same_honesty { D.is_honest disk.new ≡ D.is_honest disk.old }

    // It changes the gate and these sectors alone. At any moment a crash leaves the gate closed or the sectors whole.
    ensures time { D.is_honest disk.old ≡ true →
        Changes gate (sector_count sectors.now + 1) (D.history disk.old) (D.history disk.new) }
    ensures any_moment { D.is_honest disk.old ≡ true →
        LeavesOnly (D.history disk.old) (D.history disk.new)
        (GuardedWrite (present (D.history disk.old)) gate (sector_count sectors.now) sectors.now) }
    ensures guarded { D.is_honest disk.old ≡ true → OnOk result
        ((image : Image) → IsImage (present (D.history disk.new)) image →
        IsGuarded image gate (sector_count sectors.now) sectors.now) }
    ensures gate { D.is_honest disk.old ≡ true → OnOk result
        (IsOpenGate ((present (D.history disk.new)).content gate)) }
    ensures durable { D.is_honest disk.old ≡ true → OnOk result (IsSynced (present (D.history disk.new))) }
    ensures clock { D.is_honest disk.old ≡ true → TakesCalls 4 (D.history disk.old) (D.history disk.new) (is_err result) }
    ensures cause { Counts (D.failures disk.old) (D.failures disk.new) (is_err result) }
{
    write_synced(disk, gate + 1, sectors)?;
    write_synced(disk, gate, &open_gate())?;
    Ok(())
}
