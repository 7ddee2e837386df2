//! Fault injection: a disk that fails each call after some.
ghost use Rattle.std.specs.Prelude.{◌≡◌, ◌+◌, ◌≤◌, true, OnOk, is_err, Some};
ghost use Rattle.cg_disk.specs.Disk.{present, sector_count, IsWhole, Holds, IsUnsynced, IsSynced, Changes, Stays, TakesCalls, Counts};
ghost use Rattle.cg_disk.specs.Countdown.{fails_next};

use crate::countdown::count_down;
use crate::{DiskFault, OnceDisk, SectorDisk};

/// A disk for fault injection: it passes a number of calls of `read`, `write` and `sync` to another disk, and then fails
/// each. A call that it fails reaches the other disk not at all, and leaves the buffer unchanged.
#[derive(Drop)]
pub struct FuseDisk<D: SectorDisk> {
    inner: D,
    calls: Option<u64>,
    blown: u64,
}

impl<D: SectorDisk> FuseDisk<D> {
    ghost use Rattle.cg_disk.specs.Fuse.{blown_calls, fuse_of, inner_of};

    /// Wraps a disk that passes this many calls, and then fails each.
    pub fn new(disk: D, calls: u64) -> FuseDisk<D>
        ensures inner { inner_of result ≡ disk }
        ensures fuse { fuse_of result ≡ Some calls }
        ensures blown { blown_calls result ≡ 0 }
    {
        FuseDisk {
            inner: disk,
            calls: Some(calls),
            blown: 0,
        }
    }

    /// Sets how many calls pass from now on before each fails. With `None` no call fails.
    pub fn set(&mut self, calls: Option<u64>)
        ensures inner { inner_of self.new ≡ inner_of self.old }
        ensures fuse { fuse_of self.new ≡ calls }
        ensures blown { blown_calls self.new ≡ blown_calls self.old }
    {
        self.calls = calls;
    }

    /// Returns how many calls pass from now on before each fails.
    pub fn calls_left(&self) -> Option<u64>
        ensures { result ≡ fuse_of self.now }
    {
        self.calls
    }

    /// Returns the wrapped disk, without a disk call.
    pub fn into_inner(self) -> D
        ensures { result ≡ inner_of self }
    {
        let FuseDisk { inner, .. } = self;
        inner
    }
}

impl<D: SectorDisk> FuseDisk<OnceDisk<D>> {
    ghost use Rattle.cg_disk.specs.Injected.{SetsOnce};

    /// Sets how many of the calls that the fuse passes pass from now on before one fails. With `None` no call fails.
    pub fn set_once(&mut self, calls: Option<u64>)
        ensures { SetsOnce calls self.old self.new }
    {
        self.inner.set(calls);
    }
}

impl<D: SectorDisk> SectorDisk for FuseDisk<D> {
    ghost use Rattle.cg_disk.specs.Fuse.{inner_of, fuse_of, failures_of, PassesOrFails};

    ghost size = { λ disk. D.size disk.inner };

    ghost is_honest = { λ disk. D.is_honest disk.inner };

    ghost history = { λ disk. D.history disk.inner };

    ghost failures = { failures_of D.failures };

    fn sectors(&self) -> u64 {
        self.inner.sectors()
    }

    fn read(&mut self, at: u64, bytes: &mut [u8]) -> Result<(), DiskFault>
        requires whole { IsWhole bytes.old }
        requires in_range { at + sector_count bytes.old ≤ D.size (inner_of self.old) }

        ensures fuse { PassesOrFails D.failures self.old self.new (is_err result) }
        ensures untouched { fails_next (fuse_of self.old) ≡ true → inner_of self.new ≡ inner_of self.old }
        ensures buffer { fails_next (fuse_of self.old) ≡ true → bytes.new ≡ bytes.old }

        // The clauses of every `SectorDisk`.
        ensures same_size { D.size (inner_of self.new) ≡ D.size (inner_of self.old) }
        ensures same_honesty { D.is_honest (inner_of self.new) ≡ D.is_honest (inner_of self.old) }
        ensures bytes { D.is_honest (inner_of self.old) ≡ true → OnOk result
            (Holds (present (D.history (inner_of self.old))).content at (sector_count bytes.old) bytes.new) }
        ensures time { D.is_honest (inner_of self.old) ≡ true → Stays (D.history (inner_of self.old)) (D.history (inner_of self.new)) }
        ensures clock { D.is_honest (inner_of self.old) ≡ true → TakesCalls 1 (D.history (inner_of self.old)) (D.history (inner_of self.new)) (is_err result) }
        ensures cause { Counts (failures_of D.failures self.old) (failures_of D.failures self.new) (is_err result) }
    {
        count_down(&mut self.calls, &mut self.blown, Some(0))?;
        self.inner.read(at, bytes)
    }

    fn write(&mut self, at: u64, bytes: &[u8]) -> Result<(), DiskFault>
        requires whole { IsWhole bytes.now }
        requires in_range { at + sector_count bytes.now ≤ D.size (inner_of self.old) }

        ensures fuse { PassesOrFails D.failures self.old self.new (is_err result) }
        ensures untouched { fails_next (fuse_of self.old) ≡ true → inner_of self.new ≡ inner_of self.old }

        // The clauses of every `SectorDisk`.
        ensures same_size { D.size (inner_of self.new) ≡ D.size (inner_of self.old) }
        ensures same_honesty { D.is_honest (inner_of self.new) ≡ D.is_honest (inner_of self.old) }
        ensures bytes { D.is_honest (inner_of self.old) ≡ true → OnOk result
            (Holds (present (D.history (inner_of self.new))).content at (sector_count bytes.now) bytes.now) }
        ensures marks { D.is_honest (inner_of self.old) ≡ true → OnOk result
            (IsUnsynced (present (D.history (inner_of self.new))) at (sector_count bytes.now)) }
        ensures time { D.is_honest (inner_of self.old) ≡ true →
            Changes at (sector_count bytes.now) (D.history (inner_of self.old)) (D.history (inner_of self.new)) }
        ensures clock { D.is_honest (inner_of self.old) ≡ true → TakesCalls 1 (D.history (inner_of self.old)) (D.history (inner_of self.new)) (is_err result) }
        ensures cause { Counts (failures_of D.failures self.old) (failures_of D.failures self.new) (is_err result) }
    {
        count_down(&mut self.calls, &mut self.blown, Some(0))?;
        self.inner.write(at, bytes)
    }

    fn sync(&mut self) -> Result<(), DiskFault>
        ensures fuse { PassesOrFails D.failures self.old self.new (is_err result) }
        ensures untouched { fails_next (fuse_of self.old) ≡ true → inner_of self.new ≡ inner_of self.old }

        // The clauses of every `SectorDisk`.
        ensures same_size { D.size (inner_of self.new) ≡ D.size (inner_of self.old) }
        ensures same_honesty { D.is_honest (inner_of self.new) ≡ D.is_honest (inner_of self.old) }
        ensures durable { D.is_honest (inner_of self.old) ≡ true → OnOk result (IsSynced (present (D.history (inner_of self.new)))) }
        ensures time { D.is_honest (inner_of self.old) ≡ true → Stays (D.history (inner_of self.old)) (D.history (inner_of self.new)) }
        ensures clock { D.is_honest (inner_of self.old) ≡ true → TakesCalls 1 (D.history (inner_of self.old)) (D.history (inner_of self.new)) (is_err result) }
        ensures cause { Counts (failures_of D.failures self.old) (failures_of D.failures self.new) (is_err result) }
    {
        count_down(&mut self.calls, &mut self.blown, Some(0))?;
        self.inner.sync()
    }
}
