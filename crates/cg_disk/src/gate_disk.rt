//! A disk on which a gate decides about one sync, for tests of threads. The gate byte of a frame on disk is another
//! thing: see `cg_gate`.
ghost use Rattle.std.specs.Prelude.{◌≡◌, ◌≢◌, ◌+◌, ◌≤◌, Bool, true, false, not, is_err, Some, OnOk};
ghost use Rattle.cg_disk.specs.GatedSync.{left_before, left_after_sync, has_refused};
ghost use Rattle.cg_disk.specs.Disk.{present, sector_count, IsWhole, Holds, IsUnsynced, IsSynced, Changes, Stays, TakesCalls, Counts};

use crate::{DiskFault, SectorDisk};

/// Decides about the gated sync of a `GateDisk`. Tests implement it.
///
/// `opened` may wait for another thread. The trait has no bound `Wait`, so a gate that waits keeps a reference to the
/// runtime: `struct Signal<'a, R: Wait> { rt: &'a R, .. }` with `impl<R: Wait> Gate for Signal<'_, R>`.
pub trait Gate {
    /// Whether a call of `opened` may return this value and lead from the first state of the gate to the second. The
    /// default allows everything.
    ghost opened_gives: { Self → Bool → Self → Type 0 } = { λ _ _ _. Unit {0} };

    /// Returns whether the gated sync may go to the inner disk.
    fn opened(&mut self) -> bool
        ensures { opened_gives self.old result self.new };
}

/// The state of the gated sync.
#[derive(Clone, Copy)]
enum GatedSync {
    /// This many syncs come before it.
    Ahead(u64),
    /// `opened` returned true, and the sync went to the inner disk.
    Passed,
    /// `opened` returned false, and the sync failed.
    Refused,
}

/// A disk with one gated sync, for tests of threads: a sync that waits until another thread did something. The gated
/// sync calls `opened` once, before anything else. If that returns false, the sync fails with `DiskFault::Device` and
/// the inner disk is not called. Every other call goes to the inner disk, and so does the gated sync if `opened` returns
/// true.
#[derive(Drop)]
pub struct GateDisk<D: SectorDisk, G: Gate> {
    inner: D,
    gate: G,
    gated: GatedSync,
}

impl<D: SectorDisk, G: Gate> GateDisk<D, G> {
    ghost use Rattle.cg_disk.specs.GateDisk.{inner_of, gate_of, syncs_left, is_refused};

    /// Wraps a disk so that `syncs` syncs come before the gated one, whether or not they succeed.
    pub fn new(disk: D, syncs: u64, gate: G) -> GateDisk<D, G>
        ensures inner { inner_of result ≡ disk }
        ensures gate { gate_of result ≡ gate }
        ensures left { syncs_left result ≡ Some syncs }
        ensures refused { is_refused result ≡ false }
    {
        GateDisk {
            inner: disk,
            gate,
            gated: GatedSync::Ahead(syncs),
        }
    }
}

impl<D: SectorDisk, G: Gate + Drop> GateDisk<D, G> {
    ghost use Rattle.cg_disk.specs.GateDisk.{inner_of};

    /// Returns the inner disk, without a disk call. Drops the gate.
    pub fn into_inner(self) -> D
        ensures { result ≡ inner_of self }
    {
        let GateDisk { inner, .. } = self;
        inner
    }
}

/// Counts a sync, and calls `opened` if the sync is the gated one. Fails if that returns false.
fn pass<G: Gate>(gate: &mut G, gated: &mut GatedSync) -> Result<(), DiskFault>
    ensures left { left_before gated.new ≡ left_after_sync (left_before gated.old) }
    ensures passes { left_before gated.old ≢ Some 0 → is_err result ≡ false }
    ensures asks_nothing { left_before gated.old ≢ Some 0 → gate.new ≡ gate.old }
    ensures same { left_before gated.old ≢ Some 0 → has_refused gated.new ≡ has_refused gated.old }
    ensures asks { left_before gated.old ≡ Some 0 → G.opened_gives gate.old (not (is_err result)) gate.new }
    ensures refuses { left_before gated.old ≡ Some 0 → has_refused gated.new ≡ is_err result }
{
    match *gated {
        GatedSync::Ahead(0) => {
            if gate.opened() {
                *gated = GatedSync::Passed;
                Ok(())
            } else {
                *gated = GatedSync::Refused;
                Err(DiskFault::Device)
            }
        }
        GatedSync::Ahead(syncs) => {
            *gated = GatedSync::Ahead(syncs - 1);
            Ok(())
        }
        GatedSync::Passed | GatedSync::Refused => Ok(()),
    }
}

impl<D: SectorDisk, G: Gate> SectorDisk for GateDisk<D, G> {
    ghost use Rattle.cg_disk.specs.GateDisk.{inner_of, failures_of, PassesOn, GatesSync};

    ghost size = { λ disk. D.size disk.inner };

    ghost is_honest = { λ disk. D.is_honest disk.inner };

    ghost history = { λ disk. D.history disk.inner };

    ghost failures = { failures_of D.failures };

    fn sectors(&self) -> u64 {
        self.inner.sectors()
    }

    fn read(&mut self, at: u64, bytes: &mut [u8]) -> Result<(), DiskFault>
        requires whole { IsWhole bytes.old }
        requires in_range { at + sector_count bytes.old ≤ D.size (inner_of self.old) }

        ensures gate { PassesOn D.failures self.old self.new (is_err result) }

        // The clauses of every `SectorDisk`.
        ensures same_size { D.size (inner_of self.new) ≡ D.size (inner_of self.old) }
        ensures same_honesty { D.is_honest (inner_of self.new) ≡ D.is_honest (inner_of self.old) }
        ensures bytes { D.is_honest (inner_of self.old) ≡ true → OnOk result
            (Holds (present (D.history (inner_of self.old))).content at (sector_count bytes.old) bytes.new) }
        ensures time { D.is_honest (inner_of self.old) ≡ true → Stays (D.history (inner_of self.old)) (D.history (inner_of self.new)) }
        ensures clock { D.is_honest (inner_of self.old) ≡ true → TakesCalls 1 (D.history (inner_of self.old)) (D.history (inner_of self.new)) (is_err result) }
        ensures cause { Counts (failures_of D.failures self.old) (failures_of D.failures self.new) (is_err result) }
    {
        self.inner.read(at, bytes)
    }

    fn write(&mut self, at: u64, bytes: &[u8]) -> Result<(), DiskFault>
        requires whole { IsWhole bytes.now }
        requires in_range { at + sector_count bytes.now ≤ D.size (inner_of self.old) }

        ensures gate { PassesOn D.failures self.old self.new (is_err result) }

        // The clauses of every `SectorDisk`.
        ensures same_size { D.size (inner_of self.new) ≡ D.size (inner_of self.old) }
        ensures same_honesty { D.is_honest (inner_of self.new) ≡ D.is_honest (inner_of self.old) }
        ensures bytes { D.is_honest (inner_of self.old) ≡ true → OnOk result
            (Holds (present (D.history (inner_of self.new))).content at (sector_count bytes.now) bytes.now) }
        ensures marks { D.is_honest (inner_of self.old) ≡ true → OnOk result
            (IsUnsynced (present (D.history (inner_of self.new))) at (sector_count bytes.now)) }
        ensures time { D.is_honest (inner_of self.old) ≡ true →
            Changes at (sector_count bytes.now) (D.history (inner_of self.old)) (D.history (inner_of self.new)) }
        ensures clock { D.is_honest (inner_of self.old) ≡ true → TakesCalls 1 (D.history (inner_of self.old)) (D.history (inner_of self.new)) (is_err result) }
        ensures cause { Counts (failures_of D.failures self.old) (failures_of D.failures self.new) (is_err result) }
    {
        self.inner.write(at, bytes)
    }

    fn sync(&mut self) -> Result<(), DiskFault>
        ensures gate { GatesSync D.failures G.opened_gives self.old self.new (is_err result) }

        // The clauses of every `SectorDisk`.
        ensures same_size { D.size (inner_of self.new) ≡ D.size (inner_of self.old) }
        ensures same_honesty { D.is_honest (inner_of self.new) ≡ D.is_honest (inner_of self.old) }
        ensures durable { D.is_honest (inner_of self.old) ≡ true → OnOk result (IsSynced (present (D.history (inner_of self.new)))) }
        ensures time { D.is_honest (inner_of self.old) ≡ true → Stays (D.history (inner_of self.old)) (D.history (inner_of self.new)) }
        ensures clock { D.is_honest (inner_of self.old) ≡ true → TakesCalls 1 (D.history (inner_of self.old)) (D.history (inner_of self.new)) (is_err result) }
        ensures cause { Counts (failures_of D.failures self.old) (failures_of D.failures self.new) (is_err result) }
    {
        pass(&mut self.gate, &mut self.gated)?;
        self.inner.sync()
    }
}
