//! Reading the root of a log.
ghost use Rattle.std.specs.Prelude.{◌≡◌, ◌≤◌, ◌<◌, ◌↔◌, true, IfOk, IfErr, IsTrue, OnOk};
ghost use Rattle.cg_disk.specs.Disk.{BeginsWithSync, Counts, IsSynced, Stays, present};
ghost use Rattle.cg_gate.specs.Gates.{IsOpen};
ghost use Rattle.cg_root.specs.Roots.{CountingRoot, IsLawful};
ghost use Rattle.cg_root.specs.Slots.{gate_of, other_slot};
ghost use Rattle.cg_log.specs.Faults.{Tells, is_device_failure};

use crate::LogFault;
use cg_disk::SectorDisk;
use cg_gate::is_open;
use cg_root::{Root, read_root};
use std::alloc::Global;

/// What is known of the root slots.
#[derive(Drop)]
pub(crate) struct Roots {
    /// The root that counts.
    pub(crate) root: Root,
    /// Whether the gate of the other slot is open.
    pub(crate) is_other_open: bool,
}

/// Reads the root that counts, and the gate of the other slot.
fn read_slots<D: SectorDisk>(alloc: Global, disk: &mut D) -> Result<Roots, LogFault>
    ensures counting { D.is_honest disk.old ≡ true → IfOk result (λ roots.
        CountingRoot (present (D.history disk.old)).content (D.size disk.old) roots.root) }
    ensures other { D.is_honest disk.old ≡ true → IfOk result (λ roots. IsTrue roots.is_other_open
        ↔ IsOpen (present (D.history disk.old)).content (gate_of (other_slot roots.root.slot))) }
    ensures tells { D.is_honest disk.old ≡ true → IfErr result (λ fault.
        Tells (present (D.history disk.old)).content (D.size disk.old) fault) }
    ensures lawful { IfOk result (λ roots. IsLawful (D.size disk.old) roots.root) }
    ensures room { IfOk result (λ roots. 4 ≤ D.size disk.old) }
    ensures device { Counts (D.failures disk.old) (D.failures disk.new) (is_device_failure result) }
    ensures same_size { D.size disk.new ≡ D.size disk.old }
    ensures same_honesty { D.is_honest disk.new ≡ D.is_honest disk.old }
    ensures time { D.is_honest disk.old ≡ true → Stays (D.history disk.old) (D.history disk.new) }
{
    let root = read_root(alloc, disk)?;
    let is_other_open = is_open(disk, root.slot.other().gate())?;
    Ok(Roots {
        root,
        is_other_open,
    })
}

/// Syncs the disk, so that a crash cannot take back what is read, and reads the root slots.
pub(crate) fn read_roots<D: SectorDisk>(alloc: Global, disk: &mut D) -> Result<Roots, LogFault>
    ensures counting { D.is_honest disk.old ≡ true → IfOk result (λ roots.
        CountingRoot (present (D.history disk.old)).content (D.size disk.old) roots.root) }
    ensures other { D.is_honest disk.old ≡ true → IfOk result (λ roots. IsTrue roots.is_other_open
        ↔ IsOpen (present (D.history disk.old)).content (gate_of (other_slot roots.root.slot))) }
    ensures tells { D.is_honest disk.old ≡ true → IfErr result (λ fault.
        Tells (present (D.history disk.old)).content (D.size disk.old) fault) }
    ensures synced { D.is_honest disk.old ≡ true → OnOk result (IsSynced (present (D.history disk.new))) }
    ensures first { D.is_honest disk.old ≡ true →
        BeginsWithSync (D.history disk.old) (D.history disk.new) (is_device_failure result) }
    ensures lawful { IfOk result (λ roots. IsLawful (D.size disk.old) roots.root) }
    ensures room { IfOk result (λ roots. 4 ≤ D.size disk.old) }
    ensures device { Counts (D.failures disk.old) (D.failures disk.new) (is_device_failure result) }
    ensures same_size { D.size disk.new ≡ D.size disk.old }
    ensures same_honesty { D.is_honest disk.new ≡ D.is_honest disk.old }
    ensures time { D.is_honest disk.old ≡ true → Stays (D.history disk.old) (D.history disk.new) }
{
    disk.sync()?;
    let roots = read_slots(alloc, disk)?;
    Ok(roots)
}
