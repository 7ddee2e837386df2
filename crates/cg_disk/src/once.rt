//! Fault injection: a disk that fails one call.
ghost use Rattle.std.specs.Prelude.{◌≡◌, ◌⊎◌, ◌+◌, ◌≤◌, true, OnOk, is_err, Some};
ghost use Rattle.cg_disk.specs.Disk.{present, sector_count, IsWhole, Holds, IsUnsynced, IsSynced, Changes, Stays, TakesCalls, Counts};
ghost use Rattle.cg_disk.specs.Countdown.{fails_next};
ghost use Rattle.cg_disk.specs.Once.{HasPassed, left_bytes};

use crate::countdown::count_down;
use crate::{DiskFault, SectorDisk};
use std::alloc::Global;

/// The byte that a failed read leaves in its buffer, and a failed write in its sectors: the one that opens a gate.
const LEFT_BYTE: u8 = 0x01;

/// A disk for fault injection: it fails one call of `read`, `write` or `sync`, and passes every other one to another
/// disk. The read that it fails fills the buffer with the byte 01, and the write its sectors, unless the allocation of
/// these bytes fails: then they stay. The sync that it fails does not reach the other disk.
#[derive(Drop)]
pub struct OnceDisk<D: SectorDisk> {
    alloc: Global,
    inner: D,
    calls: Option<u64>,
    failed: u64,
}

impl<D: SectorDisk> OnceDisk<D> {
    ghost use Rattle.cg_disk.specs.Once.{failed_calls, inner_of, once_of};

    /// Wraps a disk that passes this many calls, fails one, and passes all later ones.
    pub fn new(alloc: Global, disk: D, calls: u64) -> OnceDisk<D>
        ensures inner { inner_of result ≡ disk }
        ensures once { once_of result ≡ Some calls }
        ensures failed { failed_calls result ≡ 0 }
    {
        OnceDisk {
            alloc,
            inner: disk,
            calls: Some(calls),
            failed: 0,
        }
    }

    /// Sets how many calls pass from now on before one fails. With `None` no call fails.
    pub fn set(&mut self, calls: Option<u64>)
        ensures inner { inner_of self.new ≡ inner_of self.old }
        ensures once { once_of self.new ≡ calls }
        ensures failed { failed_calls self.new ≡ failed_calls self.old }
    {
        self.calls = calls;
    }

    /// Returns how many calls pass from now on before one fails.
    pub fn calls_left(&self) -> Option<u64>
        ensures { result ≡ once_of self.now }
    {
        self.calls
    }

    /// Returns the wrapped disk, without a disk call.
    pub fn into_inner(self) -> D
        ensures { result ≡ inner_of self }
    {
        let OnceDisk { inner, .. } = self;
        inner
    }
}

// Fills the sectors of these bytes with the byte of a failed write, unless the allocation of that fails.
fn spoil<D: SectorDisk>(alloc: Global, disk: &mut D, at: u64, bytes: &[u8])
    requires whole { IsWhole bytes.now }
    requires in_range { at + sector_count bytes.now ≤ D.size disk.old }
    ensures left { D.is_honest disk.old ≡ true → (disk.new ≡ disk.old)
        ⊎ (HasPassed (D.failures disk.old) (D.failures disk.new)
        → Holds (present (D.history disk.new)).content at (sector_count bytes.now) (left_bytes bytes.now)) }
    ensures same_size { D.size disk.new ≡ D.size disk.old }
    ensures same_honesty { D.is_honest disk.new ≡ D.is_honest disk.old }
    ensures time { D.is_honest disk.old ≡ true → Changes at (sector_count bytes.now) (D.history disk.old) (D.history disk.new) }
    ensures clock { D.is_honest disk.old ≡ true → TakesCalls 1 (D.history disk.old) (D.history disk.new) true }
    ensures later { D.failures disk.old ≤ D.failures disk.new }
{
    if let Ok(left) = vec![in alloc; LEFT_BYTE; bytes.len()] {
        let _ = disk.write(at, &left);
    }
}

impl<D: SectorDisk> SectorDisk for OnceDisk<D> {
    ghost use Rattle.cg_disk.specs.Once.{FailsOnce, failures_of, inner_of, once_of};

    ghost size = { λ disk. D.size disk.inner };

    ghost is_honest = { λ disk. D.is_honest disk.inner };

    ghost history = { λ disk. D.history disk.inner };

    ghost failures = { failures_of D.failures };

    fn sectors(&self) -> u64 {
        self.inner.sectors()
    }

    fn read(&mut self, at: u64, bytes: &mut [u8]) -> Result<(), DiskFault>
        requires whole { IsWhole bytes.old }
        requires in_range { at + sector_count bytes.old ≤ D.size (inner_of self.old) }

        ensures once { FailsOnce D.failures self.old self.new (is_err result) }
        ensures untouched { fails_next (once_of self.old) ≡ true → inner_of self.new ≡ inner_of self.old }
        ensures buffer { fails_next (once_of self.old) ≡ true → bytes.new ≡ left_bytes bytes.old }

        // The clauses of every `SectorDisk`.
        ensures same_size { D.size (inner_of self.new) ≡ D.size (inner_of self.old) }
        ensures same_honesty { D.is_honest (inner_of self.new) ≡ D.is_honest (inner_of self.old) }
        ensures bytes { D.is_honest (inner_of self.old) ≡ true → OnOk result
            (Holds (present (D.history (inner_of self.old))).content at (sector_count bytes.old) bytes.new) }
        ensures time { D.is_honest (inner_of self.old) ≡ true → Stays (D.history (inner_of self.old)) (D.history (inner_of self.new)) }
        ensures clock { D.is_honest (inner_of self.old) ≡ true → TakesCalls 1 (D.history (inner_of self.old)) (D.history (inner_of self.new)) (is_err result) }
        ensures cause { Counts (failures_of D.failures self.old) (failures_of D.failures self.new) (is_err result) }
    {
        if let Err(fault) = count_down(&mut self.calls, &mut self.failed, None) {
            bytes.fill(LEFT_BYTE);
            return Err(fault);
        }
        self.inner.read(at, bytes)
    }

    fn write(&mut self, at: u64, bytes: &[u8]) -> Result<(), DiskFault>
        requires whole { IsWhole bytes.now }
        requires in_range { at + sector_count bytes.now ≤ D.size (inner_of self.old) }

        ensures once { FailsOnce D.failures self.old self.new (is_err result) }
        // The write that fails fills its sectors, unless its allocation or the wrapped disk fails.
        ensures left { D.is_honest (inner_of self.old) ≡ true → fails_next (once_of self.old) ≡ true → (inner_of self.new ≡ inner_of self.old)
            ⊎ (HasPassed (D.failures (inner_of self.old)) (D.failures (inner_of self.new))
            → Holds (present (D.history (inner_of self.new))).content at (sector_count bytes.now) (left_bytes bytes.now)) }

        // The clauses of every `SectorDisk`.
        ensures same_size { D.size (inner_of self.new) ≡ D.size (inner_of self.old) }
        ensures same_honesty { D.is_honest (inner_of self.new) ≡ D.is_honest (inner_of self.old) }
        ensures bytes { D.is_honest (inner_of self.old) ≡ true → OnOk result
            (Holds (present (D.history (inner_of self.new))).content at (sector_count bytes.now) bytes.now) }
        ensures marks { D.is_honest (inner_of self.old) ≡ true → OnOk result
            (IsUnsynced (present (D.history (inner_of self.new))) at (sector_count bytes.now)) }
        ensures time { D.is_honest (inner_of self.old) ≡ true →
            Changes at (sector_count bytes.now) (D.history (inner_of self.old)) (D.history (inner_of self.new)) }
        ensures clock { D.is_honest (inner_of self.old) ≡ true → TakesCalls 1 (D.history (inner_of self.old)) (D.history (inner_of self.new)) (is_err result) }
        ensures cause { Counts (failures_of D.failures self.old) (failures_of D.failures self.new) (is_err result) }
    {
        if let Err(fault) = count_down(&mut self.calls, &mut self.failed, None) {
            spoil(self.alloc, &mut self.inner, at, bytes);
            return Err(fault);
        }
        self.inner.write(at, bytes)
    }

    fn sync(&mut self) -> Result<(), DiskFault>
        ensures once { FailsOnce D.failures self.old self.new (is_err result) }
        ensures untouched { fails_next (once_of self.old) ≡ true → inner_of self.new ≡ inner_of self.old }

        // The clauses of every `SectorDisk`.
        ensures same_size { D.size (inner_of self.new) ≡ D.size (inner_of self.old) }
        ensures same_honesty { D.is_honest (inner_of self.new) ≡ D.is_honest (inner_of self.old) }
        ensures durable { D.is_honest (inner_of self.old) ≡ true → OnOk result (IsSynced (present (D.history (inner_of self.new)))) }
        ensures time { D.is_honest (inner_of self.old) ≡ true → Stays (D.history (inner_of self.old)) (D.history (inner_of self.new)) }
        ensures clock { D.is_honest (inner_of self.old) ≡ true → TakesCalls 1 (D.history (inner_of self.old)) (D.history (inner_of self.new)) (is_err result) }
        ensures cause { Counts (failures_of D.failures self.old) (failures_of D.failures self.new) (is_err result) }
    {
        count_down(&mut self.calls, &mut self.failed, None)?;
        self.inner.sync()
    }
}
