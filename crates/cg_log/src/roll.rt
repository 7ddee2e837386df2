//! A new tail: a free segment, and the root that names it.
ghost use Rattle.std.specs.Prelude.{◌≡◌, ℕ, ◌+◌, ◌^◌, ◌≤◌, ◌<◌, ◌⊎◌, ◌≢◌, ◌++◌, List, true, false, IfErr, IfOk, OnErr, OnOk, IsErrOf, MatchResult, is_err};
ghost use Rattle.cg_disk.specs.Disk.{Changes, Counts, LeavesOnly, present};
ghost use Rattle.cg_gate.specs.Layout.{segment_count};
ghost use Rattle.cg_root.specs.Roots.{CountingRoot, IsLawful, KeepsRoot, root_ids};
ghost use Rattle.cg_root.specs.Slots.{gate_of, other_slot};
ghost use Rattle.cg_log.specs.Carried.{Carries, Content, KeepsLog, rolled, tails};
ghost use Rattle.cg_log.specs.Free.{is_among};
ghost use Rattle.cg_log.specs.Fresh.{KeepsFresh};
ghost use Rattle.cg_log.specs.Segments.{Filled, frames_of};
ghost use Rattle.cg_log.specs.Faults.{IsWritingFault, is_device_failure};
ghost use Rattle.cg_log.specs.Ready.{AllClosed, AllOpen, IsReady};
ghost use Rattle.cg_log.specs.Rolled.{HasOneMoreTail, HasOrRolled, IsNextTail, IsFullFor, IsRolled};
ghost use Rattle.cg_log.specs.Room.{HasNext, rolled_room};

use crate::LogFault;
use crate::free::least_free;
use crate::log::Log;
use crate::segment_layout::last_id;
use cg_disk::{DiskFault, SectorDisk};
use cg_gate::{close_gate, first_sector};
use cg_root::{EPOCH_MAX, Root, SegmentId, SegmentIds, close_other, publish};
use std::alloc::{AllocError, Global};

/// The next tail of a log, before it is written.
#[derive(Drop)]
pub(crate) struct NextTail {
    pub(crate) id: SegmentId,
    pub(crate) root: Root,
}

/// Returns the next tail and the root that names it. Reports `Full` before it allocates.
pub(crate) fn next_tail(
    alloc: Global,
    sectors: u64,
    current: &Root,
    fresh: &[SegmentId],
) -> Result<NextTail, LogFault>
    requires { IsLawful sectors current.now }
    ensures next { IfOk result (λ tail. IsNextTail sectors (root_ids current.now ++ fresh.now) current.now tail.id tail.root) }
    ensures full { IsErrOf result LogFault.Full → IsFullFor sectors (root_ids current.now ++ fresh.now) current.now }
    ensures clear { IsErrOf result LogFault.Memory → HasNext sectors (root_ids current.now ++ fresh.now) current.now }
    ensures faults { IfErr result (λ fault. (fault ≡ LogFault.Memory) ⊎ (fault ≡ LogFault.Full)) }
{
    if current.epoch == EPOCH_MAX {
        return Err(LogFault::Full);
    }
    let Some(id) = least_free(
        sectors,
        current.base.as_slice(),
        current.tail.as_slice(),
        fresh,
    ) else {
        return Err(LogFault::Full);
    };
    let root = next_root(alloc, current, id)?;
    Ok(NextTail { id, root })
}

/// Returns the root with one more tail.
fn next_root(alloc: Global, current: &Root, id: SegmentId) -> Result<Root, AllocError>
    requires { current.now.epoch + 1 < 2 ^ 63 }
    ensures { IfOk result (λ next. HasOneMoreTail current.now next id) }
{
    let base = current.base.as_slice();
    let mut base_ids = Vec::with_capacity(alloc, base.len())?;
    base_ids.extend_from_slice(base)?;
    let mut tail_ids = Vec::new(alloc);
    tail_ids.extend_from_slice(current.tail.as_slice())?;
    tail_ids.push(id)?;
    Ok(Root {
        slot: current.slot.other(),
        epoch: current.epoch + 1,
        base_number: current.base_number,
        base: SegmentIds::from_vec(base_ids),
        tail: SegmentIds::from_vec(tail_ids),
    })
}

/// Closes the gate of the other root, unless it is known to be closed: it is not written again then.
pub(crate) fn close_other_if_open<D: SectorDisk>(
    disk: &mut D,
    current: &Root,
    is_other_open: bool,
) -> Result<(), DiskFault>
    requires room { 4 ≤ D.size disk.old }
    requires root { D.is_honest disk.old ≡ true →
        KeepsRoot (present (D.history disk.old)) (D.size disk.old) current.now }
    requires opened { D.is_honest disk.old ≡ true → is_other_open ≡ true →
        AllOpen (present (D.history disk.old)) (gate_of (other_slot current.now.slot)) }
    requires shut { D.is_honest disk.old ≡ true → is_other_open ≡ false →
        AllClosed (present (D.history disk.old)) (gate_of (other_slot current.now.slot)) }

    ensures same_size { D.size disk.new ≡ D.size disk.old }
    ensures same_honesty { D.is_honest disk.new ≡ D.is_honest disk.old }
    ensures time { D.is_honest disk.old ≡ true →
        Changes (gate_of (other_slot current.now.slot)) 1 (D.history disk.old) (D.history disk.new) }
    ensures any_moment { D.is_honest disk.old ≡ true →
        LeavesOnly (D.history disk.old) (D.history disk.new)
        (λ image. CountingRoot image (D.size disk.old) current.now) }
    ensures closed { D.is_honest disk.old ≡ true → OnOk result
        (AllClosed (present (D.history disk.new)) (gate_of (other_slot current.now.slot))) }
    ensures calls { D.is_honest disk.old ≡ true → (D.history disk.new).now ≤ (D.history disk.old).now + 2 }
    ensures cause { Counts (D.failures disk.old) (D.failures disk.new) (is_err result) }
{
    if is_other_open {
        close_other(disk, current)?;
    }
    Ok(())
}

/// Closes the first gate of a free segment, and publishes the root that names it. A crash at any moment leaves the
/// content as it was, with the new tail or without.
pub(crate) fn publish_tail<D: SectorDisk>(
    disk: &mut D,
    current: &Root,
    next: &Root,
    id: SegmentId,
    is_other_open: bool,
) -> Result<(), DiskFault>
    requires room { 4 ≤ D.size disk.old }
    requires lawful { IsLawful (D.size disk.old) next.now }
    requires more { HasOneMoreTail current.now next.now id }
    requires free { is_among id (root_ids current.now) ≡ false }
    requires on_disk { id < segment_count (D.size disk.old) }
    requires root { D.is_honest disk.old ≡ true →
        KeepsRoot (present (D.history disk.old)) (D.size disk.old) current.now }
    requires opened { D.is_honest disk.old ≡ true → is_other_open ≡ true →
        AllOpen (present (D.history disk.old)) (gate_of (other_slot current.now.slot)) }
    requires shut { D.is_honest disk.old ≡ true → is_other_open ≡ false →
        AllClosed (present (D.history disk.old)) (gate_of (other_slot current.now.slot)) }

    ensures same_size { D.size disk.new ≡ D.size disk.old }
    ensures same_honesty { D.is_honest disk.new ≡ D.is_honest disk.old }
    ensures images { D.is_honest disk.old ≡ true → (has : Content) →
        KeepsLog (present (D.history disk.old)) (D.size disk.old) current.now has →
        LeavesOnly (D.history disk.old) (D.history disk.new) (HasOrRolled (D.size disk.old) current.now next.now has id) }
    ensures stored { D.is_honest disk.old ≡ true → OnOk result ((has : Content) →
        KeepsLog (present (D.history disk.old)) (D.size disk.old) current.now has →
        KeepsLog (present (D.history disk.new)) (D.size disk.old) next.now (rolled has id)) }
    ensures fresh { D.is_honest disk.old ≡ true → (ids : List ℕ) → is_among id ids ≡ false →
        KeepsFresh (present (D.history disk.old)) (present (D.history disk.new)) ids }
    ensures ready { D.is_honest disk.old ≡ true → OnOk result
        (IsReady (present (D.history disk.new)) (D.size disk.old) next.now 0 true) }
    ensures calls { D.is_honest disk.old ≡ true → (D.history disk.new).now ≤ (D.history disk.old).now + 8 }
    ensures cause { Counts (D.failures disk.old) (D.failures disk.new) (is_err result) }
{
    close_gate(disk, first_sector(id.get()))?;
    close_other_if_open(disk, current, is_other_open)?;
    publish(disk, next)?;
    Ok(())
}

impl<D: SectorDisk> Log<D> {
    ghost use Rattle.cg_log.specs.Log.{HasFresh, IsUnchanged, LogHas, disk_of, end_of, fresh_end_of, fresh_of, has_failed, number_of, room_of, root_of, taken_of};

    /// Publishes the next tail.
    pub(crate) fn add_tail(&mut self, tail: NextTail) -> Result<SegmentId, LogFault>
        requires serves { has_failed self.old ≡ false }
        requires next { IsNextTail (D.size (disk_of self.old)) (taken_of self.old) (root_of self.old) tail.id tail.root }

        ensures stored { (has : Content) → LogHas D.is_honest D.history D.size self.old has → IfOk result (λ id.
            LogHas D.is_honest D.history D.size self.new (rolled has id)) }
        ensures images { (has : Content) → LogHas D.is_honest D.history D.size self.old has →
            LeavesOnly (D.history (disk_of self.old)) (D.history (disk_of self.new))
            (λ image. Carries image (D.size (disk_of self.old)) (number_of self.old) (frames_of has.base) (frames_of (tails has))) }
        ensures number { number_of self.new ≡ number_of self.old }
        ensures end { OnOk result (end_of self.new ≡ 0) }
        ensures root { OnOk result (root_of self.new ≡ tail.root) }
        ensures same_root { OnErr result (root_of self.new ≡ root_of self.old) }
        ensures id { IfOk result (λ id. id ≡ tail.id) }
        ensures fresh { (fresh : List Filled) → HasFresh D.is_honest D.history self.old fresh →
            HasFresh D.is_honest D.history self.new fresh }
        ensures same_fresh { fresh_of self.new ≡ fresh_of self.old }
        ensures same_fresh_end { fresh_end_of self.new ≡ fresh_end_of self.old }
        ensures calls { D.is_honest (disk_of self.old) ≡ true →
            (D.history (disk_of self.new)).now ≤ (D.history (disk_of self.old)).now + 8 }
        ensures serves { OnOk result (has_failed self.new ≡ false) }
        ensures faults { IfErr result (λ fault. fault ≡ LogFault.Device) }
        ensures failed { IfErr result (λ fault. has_failed self.new ≡ true) }
        ensures device { Counts (D.failures (disk_of self.old)) (D.failures (disk_of self.new)) (is_device_failure result) }
        ensures same_size { D.size (disk_of self.new) ≡ D.size (disk_of self.old) }
        ensures same_honesty { D.is_honest (disk_of self.new) ≡ D.is_honest (disk_of self.old) }
    {
        let NextTail { id, root } = tail;
        match publish_tail(&mut self.disk, &self.root, &root, id, self.is_other_open) {
            Ok(()) => {
                self.root = root;
                self.end = 0;
                self.is_other_open = true;
                Ok(id)
            }
            Err(DiskFault::Device) => {
                self.has_failed = true;
                Err(LogFault::Device)
            }
        }
    }

    /// Begins a new tail in the free segment of the least id, unless the last tail has no frame. Returns the id of the
    /// last tail. Every crash image since the start carries the frames as they were. `Full` is reported only where no
    /// segment is free or the epoch is the last.
    pub fn roll(&mut self) -> Result<SegmentId, LogFault>
        ensures stored { (has : Content) → LogHas D.is_honest D.history D.size self.old has → IfOk result (λ id.
            (new : Content) × (IsRolled has id new × LogHas D.is_honest D.history D.size self.new new)) }
        ensures images { (has : Content) → LogHas D.is_honest D.history D.size self.old has →
            LeavesOnly (D.history (disk_of self.old)) (D.history (disk_of self.new))
            (λ image. Carries image (D.size (disk_of self.old)) (number_of self.old) (frames_of has.base) (frames_of (tails has))) }
        ensures number { number_of self.new ≡ number_of self.old }
        ensures full { IsErrOf result LogFault.Full → (end_of self.old ≢ 0)
            × IsFullFor (D.size (disk_of self.old)) (taken_of self.old) (root_of self.old) }
        ensures clear { MatchResult result
            (λ _. end_of self.old ≢ 0 → HasNext (D.size (disk_of self.old)) (taken_of self.old) (root_of self.old))
            (λ fault. fault ≢ LogFault.Failed → fault ≢ LogFault.Full →
            HasNext (D.size (disk_of self.old)) (taken_of self.old) (root_of self.old)) }
        ensures unchanged { IfErr result (λ fault. fault ≢ LogFault.Device → IsUnchanged self.old self.new) }
        ensures empty_stays { end_of self.old ≡ 0 → IsUnchanged self.old self.new }
        // A new tail is the free segment of the least id.
        ensures next { end_of self.old ≢ 0 → IfOk result (λ id.
            IsNextTail (D.size (disk_of self.old)) (taken_of self.old) (root_of self.old) id (root_of self.new)) }
        // The id is a tail's. Fresh segments stay, and so does every tail.
        ensures tail { IfOk result (λ id. is_among id (root_of self.new).tail ≡ true) }
        ensures fresh { (fresh : List Filled) → HasFresh D.is_honest D.history self.old fresh → OnOk result
            (HasFresh D.is_honest D.history self.new fresh) }
        ensures same_fresh { fresh_of self.new ≡ fresh_of self.old }
        ensures same_tails { (id : ℕ) → is_among id (root_of self.old).tail ≡ true → is_among id (root_of self.new).tail ≡ true }
        ensures calls { D.is_honest (disk_of self.old) ≡ true →
            (D.history (disk_of self.new)).now ≤ (D.history (disk_of self.old)).now + 8 }
        // A new tail takes one of the free segments.
        ensures room { OnOk result (end_of self.old ≢ 0 →
            room_of D.size self.new ≡ rolled_room (room_of D.size self.old)) }
        ensures serves { OnOk result (has_failed self.new ≡ false) }
        ensures failed { IsErrOf result LogFault.Device → has_failed self.new ≡ true }
        ensures refused { has_failed self.old ≡ true → IsErrOf result LogFault.Failed }
        ensures faults { IfErr result (λ fault. IsWritingFault fault ⊎ ((fault ≡ LogFault.Failed) × (has_failed self.old ≡ true))) }
        ensures device { Counts (D.failures (disk_of self.old)) (D.failures (disk_of self.new)) (is_device_failure result) }
        ensures same_size { D.size (disk_of self.new) ≡ D.size (disk_of self.old) }
        ensures same_honesty { D.is_honest (disk_of self.new) ≡ D.is_honest (disk_of self.old) }
    {
        if self.has_failed {
            return Err(LogFault::Failed);
        }
        if self.end == 0 {
            return Ok(last_id(self.root.tail.as_slice()));
        }
        let tail = next_tail(
            self.alloc,
            self.disk.sectors(),
            &self.root,
            self.fresh.as_slice(),
        )?;
        let id = self.add_tail(tail)?;
        Ok(id)
    }
}
