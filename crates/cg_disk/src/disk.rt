//! The disk interface and the contract of each call.
ghost use Rattle.std.specs.Prelude.{◌≡◌, ℕ, ◌+◌, ◌≤◌, Bool, true, OnOk, is_err};
ghost use Rattle.cg_disk.specs.Disk.{History, present, sector_count, IsWhole, Holds, IsUnsynced, IsSynced, Changes, Stays, TakesCalls, Counts};

use crate::DiskFault;

/// Size of a sector, the unit of reads and writes, in bytes.
pub const SECTOR_BYTES: usize = 512;

/// A disk of sectors. A crash keeps what was synced; a sector that was written after the last successful sync may hold
/// anything afterwards. Buffers are whole sectors within the disk. Except for sizes and the count of failures, the
/// contracts hold for honest disks only. On an honest disk each successful call moves the clock of its history by one.
pub trait SectorDisk {
    /// Number of sectors.
    ghost size: { Self → ℕ };

    /// Whether the disk obeys the model.
    ghost is_honest: { Self → Bool };

    /// The moments of the disk so far.
    ghost history: { Self → History };

    /// Number of failed calls.
    ghost failures: { Self → ℕ };

    /// Returns the number of sectors.
    fn sectors(&self) -> u64
        ensures { result ≡ size self.now };

    /// Reads the sectors from position `at`. A failed read may leave anything in the buffer.
    fn read(&mut self, at: u64, bytes: &mut [u8]) -> Result<(), DiskFault>
        requires whole { IsWhole bytes.old }
        requires in_range { at + sector_count bytes.old ≤ size self.old }

        ensures same_size { size self.new ≡ size self.old }
        ensures same_honesty { is_honest self.new ≡ is_honest self.old }
        ensures bytes { is_honest self.old ≡ true → OnOk result
            (Holds (present (history self.old)).content at (sector_count bytes.old) bytes.new) }
        ensures time { is_honest self.old ≡ true → Stays (history self.old) (history self.new) }
        ensures clock { is_honest self.old ≡ true → TakesCalls 1 (history self.old) (history self.new) (is_err result) }
        ensures cause { Counts (failures self.old) (failures self.new) (is_err result) };

    /// Writes the sectors from position `at`. Until the next sync a crash may leave anything in them, and so may a
    /// failed write.
    fn write(&mut self, at: u64, bytes: &[u8]) -> Result<(), DiskFault>
        requires whole { IsWhole bytes.now }
        requires in_range { at + sector_count bytes.now ≤ size self.old }

        ensures same_size { size self.new ≡ size self.old }
        ensures same_honesty { is_honest self.new ≡ is_honest self.old }
        ensures bytes { is_honest self.old ≡ true → OnOk result
            (Holds (present (history self.new)).content at (sector_count bytes.now) bytes.now) }
        ensures marks { is_honest self.old ≡ true → OnOk result
            (IsUnsynced (present (history self.new)) at (sector_count bytes.now)) }
        ensures time { is_honest self.old ≡ true →
            Changes at (sector_count bytes.now) (history self.old) (history self.new) }
        ensures clock { is_honest self.old ≡ true → TakesCalls 1 (history self.old) (history self.new) (is_err result) }
        ensures cause { Counts (failures self.old) (failures self.new) (is_err result) };

    /// Makes all writes durable: after a successful sync a crash leaves what reads return.
    fn sync(&mut self) -> Result<(), DiskFault>
        ensures same_size { size self.new ≡ size self.old }
        ensures same_honesty { is_honest self.new ≡ is_honest self.old }
        ensures durable { is_honest self.old ≡ true → OnOk result (IsSynced (present (history self.new))) }
        ensures time { is_honest self.old ≡ true → Stays (history self.old) (history self.new) }
        ensures clock { is_honest self.old ≡ true → TakesCalls 1 (history self.old) (history self.new) (is_err result) }
        ensures cause { Counts (failures self.old) (failures self.new) (is_err result) };
}
