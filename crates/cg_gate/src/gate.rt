//! Gates: the sectors that open and close one, and reading one.
ghost use Rattle.std.specs.Prelude.{◌≡◌, ◌<◌, ◌↔◌, true, IsTrue, IfOk, is_err};
ghost use Rattle.cg_disk.specs.Disk.{present, Stays, Counts};
ghost use Rattle.cg_gate.specs.Gates.{IsOpen, IsOpenGate, IsClosedGate};

use cg_disk::{DiskFault, SECTOR_BYTES, SectorDisk};

/// The first byte of an open gate, of which no other byte is looked at.
pub const OPEN: u8 = 1;

/// Returns the sector of an open gate.
pub(crate) fn open_gate() -> [u8; SECTOR_BYTES]
    ensures { IsOpenGate result }
{
    let mut gate = [0; SECTOR_BYTES];
    gate[0] = OPEN;
    gate
}

/// Returns the sector of a closed gate.
pub(crate) fn closed_gate() -> [u8; SECTOR_BYTES]
    ensures { IsClosedGate result }
{
    [0; SECTOR_BYTES]
}

/// Reads whether a gate is open.
pub fn is_open<D: SectorDisk>(disk: &mut D, gate: u64) -> Result<bool, DiskFault>
    requires { gate < D.size disk.old }

    ensures same_size { D.size disk.new ≡ D.size disk.old }
    ensures same_honesty { D.is_honest disk.new ≡ D.is_honest disk.old }
    ensures opened { D.is_honest disk.old ≡ true → IfOk result (λ opened.
        IsTrue opened ↔ IsOpen (present (D.history disk.old)).content gate) }
    ensures time { D.is_honest disk.old ≡ true → Stays (D.history disk.old) (D.history disk.new) }
    ensures cause { Counts (D.failures disk.old) (D.failures disk.new) (is_err result) }
{
    let mut sector = [0; SECTOR_BYTES];
    disk.read(gate, &mut sector)?;
    Ok(sector[0] == OPEN)
}
