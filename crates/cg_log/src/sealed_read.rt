//! Reading the frames of a log in order.
ghost use Rattle.std.specs.Prelude.{◌≡◌, ◌≢◌, ◌+◌, ◌≤◌, ◌<◌, ◌++◌, List, true, false, length, take, IfErr, IfSome, IsTrue, IsErrOf, IfOk, MatchResult, ◌⊎◌, nat_lt};
ghost use Rattle.std.specs.List.{list_all};
ghost use Rattle.cg_disk.specs.Disk.{Counts, Stays, present};
ghost use Rattle.cg_gate.specs.Layout.{segment_count};
ghost use Rattle.cg_log.specs.Carried.{Content, segments_of};
ghost use Rattle.cg_log.specs.Cursors.{IsAt, Reads, index_of, read_limit, segment_index, segments_before};
ghost use Rattle.cg_log.specs.Faults.{is_device_failure, IsReadingFault};
ghost use Rattle.cg_log.specs.Segments.{Filled, Frames, ids_of, AreStored};
ghost use Rattle.cg_root.specs.Roots.{root_ids};

use crate::log::Log;
use crate::scan::{id_at, next_frame};
use crate::{Cursor, LogFault};
use cg_disk::SectorDisk;
use cg_frame::Frame;
use cg_root::SegmentId;
use std::alloc::Global;

/// Returns the index of an id; where it is not among these, how many there are.
pub(crate) fn index_of(id: SegmentId, ids: &[SegmentId]) -> usize
    ensures index { result ≡ index_of id ids.now }
    ensures inside { result ≤ length ids.now }
{
    match ids {
        [first, rest @ ..] => {
            if id.get() == first.get() {
                0
            } else {
                1 + index_of(id, rest)
            }
        }
        _ => 0,
    }
}

// Reads the frame at a cursor, of the segments before the one at index `end`.
fn read_from<D: SectorDisk>(
    alloc: Global,
    disk: &mut D,
    base: &[SegmentId],
    tail: &[SegmentId],
    cursor: Cursor,
    end: usize,
    room: &mut Vec<u8>,
) -> Result<Option<(Frame, Cursor)>, LogFault>
    requires on_disk { IsTrue (list_all (λ id. nat_lt id (segment_count (D.size disk.old))) (base.now ++ tail.now)) }
    requires end { end ≤ length (base.now ++ tail.now) }

    ensures reads { D.is_honest disk.old ≡ true → (segments : List Filled) (read : Frames) →
        base.now ++ tail.now ≡ ids_of segments → AreStored (present (D.history disk.old)).content segments →
        IsAt segments cursor read → Reads segments (take end segments) read result }
    ensures good { D.is_honest disk.old ≡ true → (segments : List Filled) (read : Frames) →
        base.now ++ tail.now ≡ ids_of segments → AreStored (present (D.history disk.old)).content segments →
        IsAt segments cursor read → ¬ IsErrOf result LogFault.BadFrame }
    ensures before { IfOk result (λ o. IfSome o (λ found. segment_index found.1 < end)) }
    ensures counted { IfOk result (λ o. IfSome o (λ found. 1 ≤ found.0.count)) }
    ensures faults { IfErr result IsReadingFault }
    ensures device { Counts (D.failures disk.old) (D.failures disk.new) (is_device_failure result) }
    ensures same_size { D.size disk.new ≡ D.size disk.old }
    ensures same_honesty { D.is_honest disk.new ≡ D.is_honest disk.old }
    ensures time { D.is_honest disk.old ≡ true → Stays (D.history disk.old) (D.history disk.new) }
{
    let mut pos = cursor.pos;
    for index in cursor.segment..end {
        let id = id_at(base, tail, index);
        if let Some(frame) = next_frame(alloc, disk, id, pos, room)? {
            let next = Cursor {
                segment: index,
                pos: frame.next,
            };
            return Ok(Some((frame, next)));
        }
        pos = 0;
    }
    Ok(None)
}

fn is_device_failure(outcome: &Result<Option<(Frame, Cursor)>, LogFault>) -> bool
    ensures { result ≡ is_device_failure outcome.now }
{
    match outcome {
        Err(fault) => *fault == LogFault::Device,
        Ok(_) => false,
    }
}

impl<D: SectorDisk> Log<D> {
    ghost use Rattle.cg_log.specs.Log.{HasFresh, LogHas, disk_of, end_of, fresh_end_of, fresh_of, has_failed, number_of, root_of};

    // The index of the segment before which a reading ends, among those of the base and then the tails.
    fn limit_of(&self, until: Option<SegmentId>) -> usize
        ensures limit { result ≡ read_limit (root_of self.now) until }
        ensures inside { result ≤ length (root_ids (root_of self.now)) }
    {
        let base = self.root.base.as_slice();
        let tail = self.root.tail.as_slice();
        match until {
            None => base.len() + tail.len(),
            Some(id) => base.len() + index_of(id, tail),
        }
    }

    /// Reads the next frame, of those of the base and then of the tails, in order; with an id, which must be a tail's,
    /// only of those before that tail. Returns the frame and the position after it, or `None` after the last. The payload
    /// takes the memory of `room`, whatever it holds: a caller that gives the last payload back allocates only for a
    /// longer one.
    pub fn sealed_read(
        &mut self,
        cursor: Cursor,
        until: Option<SegmentId>,
        room: &mut Vec<u8>,
    ) -> Result<Option<(Frame, Cursor)>, LogFault>
        ensures reads { (has : Content) (read : Frames) → LogHas D.is_honest D.history D.size self.old has →
            IsAt (segments_of has) cursor read → Reads (segments_of has) (segments_before until has) read result }
        ensures good { (has : Content) (read : Frames) → LogHas D.is_honest D.history D.size self.old has →
            IsAt (segments_of has) cursor read → ¬ IsErrOf result LogFault.BadFrame }
        ensures stored { (has : Content) → LogHas D.is_honest D.history D.size self.old has →
            LogHas D.is_honest D.history D.size self.new has }
        // The position after it is in a segment before that tail.
        ensures before { IfOk result (λ o. IfSome o (λ found. segment_index found.1 < read_limit (root_of self.old) until)) }
        ensures time { D.is_honest (disk_of self.old) ≡ true →
            Stays (D.history (disk_of self.old)) (D.history (disk_of self.new)) }
        ensures fresh { (fresh : List Filled) → HasFresh D.is_honest D.history self.old fresh →
            HasFresh D.is_honest D.history self.new fresh }
        ensures same_fresh { fresh_of self.new ≡ fresh_of self.old }
        ensures same_fresh_end { fresh_end_of self.new ≡ fresh_end_of self.old }
        ensures counted { IfOk result (λ o. IfSome o (λ found. 1 ≤ found.0.count)) }
        ensures faults { IfErr result (λ fault. IsReadingFault fault ⊎ ((fault ≡ LogFault.Failed) × (has_failed self.old ≡ true))) }
        ensures serves { MatchResult result
            (λ _. has_failed self.new ≡ has_failed self.old)
            (λ fault. fault ≢ LogFault.Device → has_failed self.new ≡ has_failed self.old) }
        ensures failed { IsErrOf result LogFault.Device → has_failed self.new ≡ true }
        ensures refused { has_failed self.old ≡ true → IsErrOf result LogFault.Failed }
        ensures same_root { root_of self.new ≡ root_of self.old }
        ensures same_end { end_of self.new ≡ end_of self.old }
        ensures same_number { number_of self.new ≡ number_of self.old }
        ensures device { Counts (D.failures (disk_of self.old)) (D.failures (disk_of self.new)) (is_device_failure result) }
        ensures same_size { D.size (disk_of self.new) ≡ D.size (disk_of self.old) }
        ensures same_honesty { D.is_honest (disk_of self.new) ≡ D.is_honest (disk_of self.old) }
    {
        if self.has_failed {
            return Err(LogFault::Failed);
        }
        let end = self.limit_of(until);
        let base = self.root.base.as_slice();
        let tail = self.root.tail.as_slice();
        let outcome = read_from(self.alloc, &mut self.disk, base, tail, cursor, end, room);
        self.has_failed = is_device_failure(&outcome);
        outcome
    }
}
