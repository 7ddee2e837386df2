//! Opening a log in one pass, which hands out its frames.
ghost use Rattle.std.specs.Prelude.{◌≡◌, ◌≢◌, ◌↔◌, ℕ, ◌+◌, ◌≤◌, ◌<◌, [], ◌∷◌, ◌++◌, true, false, length, OnOk, IfOk, IfErr, IfSome, IsErr, IsErrOf, MatchResult};
ghost use Rattle.cg_disk.specs.Disk.{BeginsWithSync, Counts, Image, Stays, present};
ghost use Rattle.cg_frame.specs.Reader.{IsBuffered, position_of, segment_read};
ghost use Rattle.cg_root.specs.Roots.{IsLawful, root_ids};
ghost use Rattle.cg_log.specs.Carried.{AllCarry, Carries, Content};
ghost use Rattle.cg_log.specs.Faults.{IsReadingFault, Tells, is_device_failure, is_opening_failure};
ghost use Rattle.cg_log.specs.Props.{IsLawful-prop};
ghost use Rattle.cg_log.specs.ReadTo.{id_at, number_with};
ghost use Rattle.cg_log.specs.Segments.{Frames, segment_of};
ghost use Rattle.cg_log.specs.declared.numbers.TheConstants.{COMMAND_NUMBER_MAX};

use crate::log::Log;
use crate::log_root::{Roots, read_roots};
use crate::scan::{id_at, read_on};
use crate::segment_layout::segment;
use crate::{COMMAND_NUMBER_MAX, LogFault};
use cg_disk::SectorDisk;
use cg_frame::SegmentReader;
use cg_root::Root;
use std::alloc::{AllocError, Global};

// Adds to the number of a command. Reports `BadFrame` where it would be too great.
fn number_after(number: u64, more: u64) -> Result<u64, LogFault>
    ensures { MatchResult result
        (λ sum. (sum ≡ number + more) × (sum ≤ COMMAND_NUMBER_MAX))
        (λ fault. (fault ≡ LogFault.BadFrame) × (COMMAND_NUMBER_MAX < number + more)) }
{
    match number.checked_add(more) {
        Some(sum) if sum <= COMMAND_NUMBER_MAX => Ok(sum),
        _ => Err(LogFault::BadFrame),
    }
}

// Returns the number of the last command after a frame of the segment at an index: frames of the base do not count.
fn number_with(root: &Root, index: usize, number: u64, count: u64) -> Result<u64, LogFault>
    requires { number ≤ COMMAND_NUMBER_MAX }
    ensures { MatchResult result
        (λ sum. (sum ≡ number_with root.now index number count) × (sum ≤ COMMAND_NUMBER_MAX))
        (λ fault. (fault ≡ LogFault.BadFrame) × (COMMAND_NUMBER_MAX < number_with root.now index number count)) }
{
    if index < root.base.len() {
        Ok(number)
    } else {
        number_after(number, count)
    }
}

// Returns a reader of the first segment of a root.
fn first_reader(alloc: Global, root: &Root) -> Result<SegmentReader, AllocError>
    requires { 0 < length (root_ids root.now) }
    ensures segment { IfOk result (λ reader. segment_read reader ≡ segment_of (id_at root.now 0)) }
    ensures position { IfOk result (λ reader. position_of reader ≡ 0) }
    ensures buffered { IfOk result (λ reader. (image : Image) → IsBuffered image reader) }
{
    let first = id_at(root.base.as_slice(), root.tail.as_slice(), 0);
    let reader = SegmentReader::new(alloc, segment(first))?;
    Ok(reader)
}

/// An opening of a log: it reads each frame once, hands it out, and makes the log when there is no more. It has one
/// buffer of the size of a segment, in which the payload that it hands out lies.
///
/// Begin, then call `next` until it returns `None`, then `finish`. After a fault only the disk is left, by `into_disk`.
#[derive(Drop)]
pub struct Opening<D: SectorDisk> {
    alloc: Global,
    disk: D,
    root: Root,
    is_other_open: bool,
    reader: SegmentReader,
    // Index of the segment that is read, among those of the base and then the tails.
    segment: usize,
    // The base number, and the commands of the tail's frames that were handed out.
    number: u64,
    is_at_end: bool,
    has_fault: bool,
    ghost room: { 4 ≤ D.size disk },
    ghost lawful: { IsLawful (D.size disk) root } by { IsLawful-prop (D.size disk) root },
    ghost inside: { segment < length (root_ids root) },
    ghost at: { segment_read reader ≡ segment_of (id_at root segment) },
    ghost in_range: { number ≤ COMMAND_NUMBER_MAX },
}

impl<D: SectorDisk> Opening<D> {
    ghost use Rattle.cg_log.specs.Log.{LogHas, disk_of, fresh_of, has_failed, number_of};
    ghost use Rattle.cg_log.specs.Openings.{HasRead, disk_begun, disk_under, has_fault, is_at_end, left_to_read, number_so_far, payload_read};

    /// Begins to open the log on a disk: syncs the disk once, and reads the root. Writes nothing. A fault comes with the
    /// disk.
    pub fn begin(alloc: Global, disk: D) -> Result<Self, (LogFault, D)>
        // Of an honest disk no frame was handed out yet.
        ensures begins { D.is_honest disk ≡ true → IfOk result (λ opening.
            HasRead D.is_honest D.history D.size opening (present (D.history disk)).content []) }
        ensures tells { D.is_honest disk ≡ true → IfErr result (λ refused.
            Tells (present (D.history disk)).content (D.size disk) refused.0) }
        ensures not_yet { IfOk result (λ opening. (is_at_end opening ≡ false) × (has_fault opening ≡ false)) }
        ensures first { D.is_honest disk ≡ true →
            BeginsWithSync (D.history disk) (D.history (disk_begun result)) (is_opening_failure result) }
        ensures content { D.is_honest disk ≡ true → Stays (D.history disk) (D.history (disk_begun result)) }
        ensures device { Counts (D.failures disk) (D.failures (disk_begun result)) (is_opening_failure result) }
        ensures same_size { D.size (disk_begun result) ≡ D.size disk }
        ensures same_honesty { D.is_honest (disk_begun result) ≡ D.is_honest disk }
    {
        let mut disk = disk;
        let Roots {
            root,
            is_other_open,
        } = match read_roots(alloc, &mut disk) {
            Ok(roots) => roots,
            Err(fault) => return Err((fault, disk)),
        };
        let reader = match first_reader(alloc, &root) {
            Ok(reader) => reader,
            Err(_) => return Err((LogFault::Memory, disk)),
        };
        Ok(Opening {
            alloc,
            disk,
            number: root.base_number,
            root,
            is_other_open,
            reader,
            segment: 0,
            is_at_end: false,
            has_fault: false,
        })
    }

    // Reads the next frame.
    fn read_next(&mut self) -> Result<Option<u64>, LogFault>
        ensures frame { (image : Image) (read : Frames) →
            HasRead D.is_honest D.history D.size self.old image read → self.old.is_at_end ≡ false →
            IfOk result (λ o. IfSome o (λ count.
            HasRead D.is_honest D.history D.size self.new image (read ++ (count, payload_read self.new) ∷ []))) }
        ensures all { (image : Image) (read : Frames) →
            HasRead D.is_honest D.history D.size self.old image read → result ≡ Ok None →
            HasRead D.is_honest D.history D.size self.new image read }
        ensures tells { (image : Image) (read : Frames) →
            HasRead D.is_honest D.history D.size self.old image read → self.old.is_at_end ≡ false →
            IfErr result (Tells image (D.size (disk_under self.new))) }
        ensures at_end { result ≡ Ok None → is_at_end self.new ≡ true }
        ensures same_fault { has_fault self.new ≡ has_fault self.old }
        ensures moves { IfOk result (λ o. IfSome o (λ _. left_to_read self.new < left_to_read self.old)) }
        ensures counted { IfOk result (λ o. IfSome o (λ count. 1 ≤ count)) }
        ensures faults { IfErr result IsReadingFault }
        ensures device { Counts (D.failures (disk_under self.old)) (D.failures (disk_under self.new)) (is_device_failure result) }
        ensures same_size { D.size (disk_under self.new) ≡ D.size (disk_under self.old) }
        ensures same_honesty { D.is_honest (disk_under self.new) ≡ D.is_honest (disk_under self.old) }
        ensures time { D.is_honest (disk_under self.old) ≡ true →
            Stays (D.history (disk_under self.old)) (D.history (disk_under self.new)) }
    {
        let next = read_on(
            &mut self.disk,
            &self.root,
            &mut self.reader,
            &mut self.segment,
        )?;
        match next {
            Some(count) => {
                self.number = number_with(&self.root, self.segment, self.number, count)?;
                Ok(Some(count))
            }
            None => {
                self.is_at_end = true;
                Ok(None)
            }
        }
    }

    /// Hands out the next frame, of those of the base and then of the tails, in order: returns the count of its commands,
    /// and `payload` its payload until the next call. Returns `None` after the last frame.
    ///
    /// The faults are those of `Log::open`: `BadFrame` also where the numbers of the tail's commands pass
    /// `COMMAND_NUMBER_MAX`. After a fault the next calls report `Failed`.
    pub fn next(&mut self) -> Result<Option<u64>, LogFault>
        // Of an honest disk these are the frames that it carries, and all of them at `None`.
        ensures frame { (image : Image) (read : Frames) →
            HasRead D.is_honest D.history D.size self.old image read → IfOk result (λ o. IfSome o (λ count.
            HasRead D.is_honest D.history D.size self.new image (read ++ (count, payload_read self.new) ∷ []))) }
        ensures all { (image : Image) (read : Frames) →
            HasRead D.is_honest D.history D.size self.old image read → result ≡ Ok None →
            HasRead D.is_honest D.history D.size self.new image read × ((base : Frames) × ((tail : Frames) ×
            ((read ≡ base ++ tail)
            × Carries image (D.size (disk_under self.new)) (number_so_far self.new) base tail))) }
        ensures tells { (image : Image) (read : Frames) →
            HasRead D.is_honest D.history D.size self.old image read →
            IfErr result (Tells image (D.size (disk_under self.new))) }
        ensures front { (image : Image) (read : Frames) →
            HasRead D.is_honest D.history D.size self.old image read → (n : ℕ) (base tail : Frames) →
            Carries image (D.size (disk_under self.old)) n base tail →
            (rest : Frames) × (base ++ tail ≡ read ++ rest) }

        // These hold whatever the disk gives.
        ensures at_end { result ≡ Ok None → is_at_end self.new ≡ true }
        ensures moves { IfOk result (λ o. IfSome o (λ _. left_to_read self.new < left_to_read self.old)) }
        ensures counted { IfOk result (λ o. IfSome o (λ count. 1 ≤ count)) }
        ensures serves { OnOk result ((has_fault self.old ≡ false) × (has_fault self.new ≡ false)) }
        ensures failed { IsErr result → has_fault self.new ≡ true }
        ensures refused { IsErrOf result LogFault.Failed ↔ (has_fault self.old ≡ true) }
        ensures faults { IfErr result (λ fault. fault ≢ LogFault.Failed → IsReadingFault fault) }
        ensures device { Counts (D.failures (disk_under self.old)) (D.failures (disk_under self.new)) (is_device_failure result) }
        ensures same_size { D.size (disk_under self.new) ≡ D.size (disk_under self.old) }
        ensures same_honesty { D.is_honest (disk_under self.new) ≡ D.is_honest (disk_under self.old) }

        // The content stays.
        ensures time { D.is_honest (disk_under self.old) ≡ true →
            Stays (D.history (disk_under self.old)) (D.history (disk_under self.new)) }
    {
        if self.has_fault {
            return Err(LogFault::Failed);
        }
        if self.is_at_end {
            return Ok(None);
        }
        match self.read_next() {
            Ok(next) => Ok(next),
            Err(fault) => {
                self.has_fault = true;
                Err(fault)
            }
        }
    }

    /// Reads the frames that are left.
    pub(crate) fn read_all(&mut self) -> Result<(), LogFault>
        ensures read { (image : Image) (read : Frames) → HasRead D.is_honest D.history D.size self.old image read →
            OnOk result ((all : Frames) × HasRead D.is_honest D.history D.size self.new image all) }
        ensures tells { (image : Image) (read : Frames) → HasRead D.is_honest D.history D.size self.old image read →
            IfErr result (Tells image (D.size (disk_under self.new))) }
        ensures at_end { OnOk result (is_at_end self.new ≡ true) }
        ensures device { Counts (D.failures (disk_under self.old)) (D.failures (disk_under self.new)) (is_device_failure result) }
        ensures same_size { D.size (disk_under self.new) ≡ D.size (disk_under self.old) }
        ensures same_honesty { D.is_honest (disk_under self.new) ≡ D.is_honest (disk_under self.old) }
        ensures time { D.is_honest (disk_under self.old) ≡ true →
            Stays (D.history (disk_under self.old)) (D.history (disk_under self.new)) }
    {
        while let Some(_) = self.next()? {}
        Ok(())
    }

    /// Returns the payload of the frame that `next` handed out last.
    pub fn payload(&self) -> &[u8]
        ensures { result.now ≡ payload_read self.now }
    {
        self.reader.payload()
    }

    /// Makes the log, once `next` returned `None`. Calls the device no more.
    pub fn finish(self) -> Log<D>
        requires at_end { is_at_end self ≡ true }
        requires read { D.is_honest (disk_under self) ≡ true → (image : Image) × ((read : Frames) ×
            HasRead D.is_honest D.history D.size self image read) }
        ensures stored { D.is_honest (disk_under self) ≡ true →
            (has : Content) × LogHas D.is_honest D.history D.size result has }
        ensures carried { (image : Image) (read : Frames) → HasRead D.is_honest D.history D.size self image read →
            (n : ℕ) (base tail : Frames) → Carries image (D.size (disk_under self)) n base tail →
            (number_of result ≡ n) × AllCarry (present (D.history (disk_of result))) (D.size (disk_under self)) n base tail }
        ensures disk { disk_of result ≡ disk_under self }
        ensures number { number_of result ≡ number_so_far self }
        ensures serves { has_failed result ≡ false }
        ensures fresh { fresh_of result ≡ [] }
    {
        let Opening {
            alloc,
            disk,
            root,
            is_other_open,
            reader,
            number,
            ..
        } = self;
        let end = reader.position();
        Log {
            alloc,
            disk,
            root,
            end,
            number,
            is_other_open,
            has_failed: false,
            fresh: Vec::new(alloc),
            fresh_end: 0,
        }
    }

    /// Returns the disk, without a call of the device.
    pub fn into_disk(self) -> D
        ensures { result ≡ disk_under self }
    {
        let Opening { disk, .. } = self;
        disk
    }
}
