//! The switch to the fresh segments: the next root names them as its base.
ghost use Rattle.std.specs.Prelude.{◌≡◌, ◌≢◌, ◌⊎◌, ◌+◌, ◌^◌, ◌≤◌, ◌<◌, [], List, true, false, IfErr, IfOk, OnErr, OnOk, IsErrOf, MatchResult, is_err};
ghost use Rattle.cg_disk.specs.Disk.{Changes, Counts, LeavesOnly, present};
ghost use Rattle.cg_root.specs.Roots.{IsLawful, IsOldOrNew, KeepsRoot};
ghost use Rattle.cg_root.specs.Slots.{gate_of, other_slot};
ghost use Rattle.cg_root.specs.declared.root_layout.TheConstants.{EPOCH_MAX};
ghost use Rattle.cg_log.specs.Carried.{AllCarry, Content};
ghost use Rattle.cg_log.specs.Cursors.{tails_from};
ghost use Rattle.cg_log.specs.Faults.{IsWritingFault, is_device_failure};
ghost use Rattle.cg_log.specs.Free.{is_among};
ghost use Rattle.cg_log.specs.Ready.{AllClosed, AllOpen};
ghost use Rattle.cg_log.specs.Segments.{Filled, frames_of};
ghost use Rattle.cg_log.specs.Switched.{CarriesEither, IsSwitchedRoot, number_switched, switched};
ghost use Rattle.cg_log.specs.declared.numbers.TheConstants.{COMMAND_NUMBER_MAX};

use crate::LogFault;
use crate::log::Log;
use crate::roll::close_other_if_open;
use crate::sealed_read::index_of;
use cg_disk::{DiskFault, SectorDisk};
use cg_root::{EPOCH_MAX, Root, SegmentId, SegmentIds, publish};
use std::alloc::{AllocError, Global};

// Returns the root with these base segments, and the tails from the cut on.
fn switched_root(
    alloc: Global,
    current: &Root,
    fresh: &[SegmentId],
    cut: SegmentId,
    base_number: u64,
) -> Result<Root, AllocError>
    requires { current.now.epoch + 1 < 2 ^ 63 }
    ensures { IfOk result (λ next. IsSwitchedRoot current.now fresh.now cut base_number next) }
{
    let tail = current.tail.as_slice();
    let kept = &tail[index_of(cut, tail)..];
    let mut base_ids = Vec::new(alloc);
    base_ids.extend_from_slice(fresh)?;
    let mut tail_ids = Vec::new(alloc);
    tail_ids.extend_from_slice(kept)?;
    Ok(Root {
        slot: current.slot.other(),
        epoch: current.epoch + 1,
        base_number,
        base: SegmentIds::from_vec(base_ids),
        tail: SegmentIds::from_vec(tail_ids),
    })
}

// Publishes the next root. A crash at any moment leaves the current root or the next.
fn publish_next<D: SectorDisk>(
    disk: &mut D,
    current: &Root,
    next: &Root,
    is_other_open: bool,
) -> Result<(), DiskFault>
    requires room { 4 ≤ D.size disk.old }
    requires lawful { IsLawful (D.size disk.old) next.now }
    requires slot { next.now.slot ≡ other_slot current.now.slot }
    requires epoch { next.now.epoch ≡ current.now.epoch + 1 }
    requires root { D.is_honest disk.old ≡ true →
        KeepsRoot (present (D.history disk.old)) (D.size disk.old) current.now }
    requires opened { D.is_honest disk.old ≡ true → is_other_open ≡ true →
        AllOpen (present (D.history disk.old)) (gate_of (other_slot current.now.slot)) }
    requires shut { D.is_honest disk.old ≡ true → is_other_open ≡ false →
        AllClosed (present (D.history disk.old)) (gate_of (other_slot current.now.slot)) }

    ensures same_size { D.size disk.new ≡ D.size disk.old }
    ensures same_honesty { D.is_honest disk.new ≡ D.is_honest disk.old }
    ensures time { D.is_honest disk.old ≡ true → Changes 0 4 (D.history disk.old) (D.history disk.new) }
    ensures any_moment { D.is_honest disk.old ≡ true →
        LeavesOnly (D.history disk.old) (D.history disk.new) (IsOldOrNew (D.size disk.old) current.now next.now) }
    ensures published { D.is_honest disk.old ≡ true → OnOk result
        (KeepsRoot (present (D.history disk.new)) (D.size disk.old) next.now) }
    ensures other { D.is_honest disk.old ≡ true → OnOk result
        (AllOpen (present (D.history disk.new)) (gate_of (other_slot next.now.slot))) }
    ensures calls { D.is_honest disk.old ≡ true → (D.history disk.new).now ≤ (D.history disk.old).now + 6 }
    ensures cause { Counts (D.failures disk.old) (D.failures disk.new) (is_err result) }
{
    close_other_if_open(disk, current, is_other_open)?;
    publish(disk, next)?;
    Ok(())
}

impl<D: SectorDisk> Log<D> {
    ghost use Rattle.cg_log.specs.Log.{HasFresh, IsUnchanged, LogHas, disk_of, end_of, fresh_end_of, fresh_of, has_failed, number_of, root_of};

    // Publishes the next root, of the fresh segments and the tails from the cut on.
    fn publish_switch(&mut self, next: Root, cut: SegmentId) -> Result<(), LogFault>
        requires serves { has_failed self.old ≡ false }
        requires cut { is_among cut (root_of self.old).tail ≡ true }
        requires next { IsSwitchedRoot (root_of self.old) (fresh_of self.old) cut next.base_number next }
        requires lawful { IsLawful (D.size (disk_of self.old)) next }

        ensures stored { (has : Content) (fresh : List Filled) → LogHas D.is_honest D.history D.size self.old has →
            HasFresh D.is_honest D.history self.old fresh → number_switched has cut next.base_number ≡ number_of self.old →
            OnOk result (LogHas D.is_honest D.history D.size self.new (switched has fresh cut)) }
        ensures images { (has : Content) (fresh : List Filled) → LogHas D.is_honest D.history D.size self.old has →
            HasFresh D.is_honest D.history self.old fresh → number_switched has cut next.base_number ≤ COMMAND_NUMBER_MAX →
            LeavesOnly (D.history (disk_of self.old)) (D.history (disk_of self.new))
            (CarriesEither (D.size (disk_of self.old)) (number_of self.old) has fresh cut next.base_number) }
        ensures after { (has : Content) (fresh : List Filled) → LogHas D.is_honest D.history D.size self.old has →
            HasFresh D.is_honest D.history self.old fresh → number_switched has cut next.base_number ≤ COMMAND_NUMBER_MAX → OnOk result
            (AllCarry (present (D.history (disk_of self.new))) (D.size (disk_of self.old)) (number_switched has cut next.base_number)
            (frames_of fresh) (frames_of (tails_from cut has))) }
        ensures root { OnOk result (root_of self.new ≡ next) }
        ensures fresh { OnOk result (fresh_of self.new ≡ []) }
        ensures fresh_end { OnOk result (fresh_end_of self.new ≡ 0) }
        ensures same_root { OnErr result (root_of self.new ≡ root_of self.old) }
        ensures same_fresh { OnErr result (fresh_of self.new ≡ fresh_of self.old) }
        ensures same_end { end_of self.new ≡ end_of self.old }
        ensures same_number { number_of self.new ≡ number_of self.old }
        ensures calls { D.is_honest (disk_of self.old) ≡ true →
            (D.history (disk_of self.new)).now ≤ (D.history (disk_of self.old)).now + 6 }
        ensures serves { OnOk result (has_failed self.new ≡ false) }
        ensures failed { IfErr result (λ fault. has_failed self.new ≡ true) }
        ensures faults { IfErr result (λ fault. fault ≡ LogFault.Device) }
        ensures device { Counts (D.failures (disk_of self.old)) (D.failures (disk_of self.new)) (is_device_failure result) }
        ensures same_size { D.size (disk_of self.new) ≡ D.size (disk_of self.old) }
        ensures same_honesty { D.is_honest (disk_of self.new) ≡ D.is_honest (disk_of self.old) }
    {
        match publish_next(&mut self.disk, &self.root, &next, self.is_other_open) {
            Ok(()) => {
                self.root = next;
                self.is_other_open = true;
                self.fresh.clear();
                self.fresh_end = 0;
                Ok(())
            }
            Err(DiskFault::Device) => {
                self.has_failed = true;
                Err(LogFault::Device)
            }
        }
    }

    /// Publishes a root with the fresh segments as its base, `base_number` as its number, and every tail from the cut on
    /// as its tails; all other segments are free then. In six calls of the device at most, which write the root slots
    /// alone. Every crash image since the start carries the content with the number of the log, or the content after the
    /// switch, whose number is the base number plus the commands of the tails that are kept; after `Ok` the latter. The
    /// log keeps its number: if the two differ, `stored` does not apply, and the log has to be opened again. `Full` is
    /// reported where the epoch is the last, and nowhere else. After a fault the fresh segments are still there.
    pub fn switch(&mut self, cut: SegmentId, base_number: u64) -> Result<(), LogFault>
        requires cut { is_among cut (root_of self.old).tail ≡ true }
        requires base_number { base_number ≤ COMMAND_NUMBER_MAX }

        ensures stored { (has : Content) (fresh : List Filled) → LogHas D.is_honest D.history D.size self.old has →
            HasFresh D.is_honest D.history self.old fresh → number_switched has cut base_number ≡ number_of self.old →
            OnOk result (LogHas D.is_honest D.history D.size self.new (switched has fresh cut)) }
        ensures images { (has : Content) (fresh : List Filled) → LogHas D.is_honest D.history D.size self.old has →
            HasFresh D.is_honest D.history self.old fresh → number_switched has cut base_number ≤ COMMAND_NUMBER_MAX →
            LeavesOnly (D.history (disk_of self.old)) (D.history (disk_of self.new))
            (CarriesEither (D.size (disk_of self.old)) (number_of self.old) has fresh cut base_number) }
        ensures after { (has : Content) (fresh : List Filled) → LogHas D.is_honest D.history D.size self.old has →
            HasFresh D.is_honest D.history self.old fresh → number_switched has cut base_number ≤ COMMAND_NUMBER_MAX → OnOk result
            (AllCarry (present (D.history (disk_of self.new))) (D.size (disk_of self.old)) (number_switched has cut base_number)
            (frames_of fresh) (frames_of (tails_from cut has))) }
        ensures root { OnOk result (IsSwitchedRoot (root_of self.old) (fresh_of self.old) cut base_number (root_of self.new)) }
        ensures fresh { OnOk result (fresh_of self.new ≡ []) }
        ensures holds { D.is_honest (disk_of self.old) ≡ true → OnOk result (HasFresh D.is_honest D.history self.new []) }
        ensures full { IsErrOf result LogFault.Full → (root_of self.old).epoch ≡ EPOCH_MAX }
        ensures clear { MatchResult result
            (λ _. (root_of self.old).epoch < EPOCH_MAX)
            (λ fault. fault ≢ LogFault.Failed → fault ≢ LogFault.Full → (root_of self.old).epoch < EPOCH_MAX) }
        ensures unchanged { IfErr result (λ fault. fault ≢ LogFault.Device → IsUnchanged self.old self.new) }
        ensures same_root { OnErr result (root_of self.new ≡ root_of self.old) }
        ensures same_fresh { OnErr result (fresh_of self.new ≡ fresh_of self.old) }
        ensures same_end { end_of self.new ≡ end_of self.old }
        ensures same_number { number_of self.new ≡ number_of self.old }
        ensures calls { D.is_honest (disk_of self.old) ≡ true →
            (D.history (disk_of self.new)).now ≤ (D.history (disk_of self.old)).now + 6 }
        ensures serves { OnOk result (has_failed self.new ≡ false) }
        ensures failed { IsErrOf result LogFault.Device → has_failed self.new ≡ true }
        ensures refused { has_failed self.old ≡ true → IsErrOf result LogFault.Failed }
        ensures faults { IfErr result (λ fault. IsWritingFault fault ⊎ ((fault ≡ LogFault.Failed) × (has_failed self.old ≡ true))) }
        ensures device { Counts (D.failures (disk_of self.old)) (D.failures (disk_of self.new)) (is_device_failure result) }
        ensures same_size { D.size (disk_of self.new) ≡ D.size (disk_of self.old) }
        ensures same_honesty { D.is_honest (disk_of self.new) ≡ D.is_honest (disk_of self.old) }
    {
        if self.has_failed {
            return Err(LogFault::Failed);
        }
        if self.root.epoch == EPOCH_MAX {
            return Err(LogFault::Full);
        }
        let next = switched_root(
            self.alloc,
            &self.root,
            self.fresh.as_slice(),
            cut,
            base_number,
        )?;
        self.publish_switch(next, cut)?;
        Ok(())
    }
}
