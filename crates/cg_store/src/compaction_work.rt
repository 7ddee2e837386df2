//! The work of each phase of a compaction, on its log. Each fault ends the compaction.
ghost use Rattle.std.specs.Prelude.{◌≡◌, ◌≢◌, ℕ, ◌+◌, ◌≤◌, ◌<◌, ◌++◌, [], true, false, List, IfErr, IfOk, IfSome, OnErr, OnOk, IsErrOf, MatchResult};
ghost use Rattle.std.specs.Option.{ForSome};
ghost use Rattle.cg_disk.specs.Disk.{Counts, LeavesOnly, Stays};
ghost use Rattle.cg_fold.specs.Durable.{State};
ghost use Rattle.cg_fold.specs.Snapshot.{snapshot_of};
ghost use Rattle.cg_log.specs.Carried.{Carries, Content, tails};
ghost use Rattle.cg_log.specs.Free.{NoneIsFree, is_among};
ghost use Rattle.cg_log.specs.Log.{IsUnchanged, LogHas, disk_of, end_of, fresh_end_of, fresh_of, has_failed, number_of, room_of, root_of, taken_of};
ghost use Rattle.cg_log.specs.Rolled.{IsFullFor};
ghost use Rattle.cg_log.specs.Room.{HasNext, rolled_room};
ghost use Rattle.cg_log.specs.Segments.{Frames, frames_of};
ghost use Rattle.cg_log.specs.Switched.{IsSwitchedRoot};
ghost use Rattle.cg_record.specs.declared.command.Command.{Command};
ghost use Rattle.cg_root.specs.declared.root_layout.TheConstants.{EPOCH_MAX};
ghost use Rattle.cg_store.specs.Carried.{Carries as CarriesState, Spell};
ghost use Rattle.cg_store.specs.Compacting.{Compacts, HasCopied, HaveSameFrames, IsFolding, IsFrameRead, IsTakenFrom, IsWritten, NeedsSegment, cut_in, phase_in, unwritten_in};
ghost use Rattle.cg_store.specs.Phases.{IsEnd, is_compact_failure, phase_after};

use crate::compaction::{Compaction, Cut, Reading, Writing};
use crate::draft::CommandsDraft;
use crate::fault::CompactFault;
use crate::phase::{Phase, Progress};
use crate::recovery::{add_commands, room_for_spent};
use crate::snapshot_frames::SnapshotFrames;
use cg_disk::SectorDisk;
use cg_fold::Durable;
use cg_log::{Cursor, Log, LogFault};
use std::alloc::{AllocError, Global};
use std::mem;

/// Begins a compaction. Its cut is the last tail; if that has a frame, the log rolls first.
pub(crate) fn start<D: SectorDisk>(
    alloc: Global,
    log: &mut Log<D>,
    compaction: &mut Compaction,
) -> Result<(), CompactFault>
    requires serves { has_failed log.old ≡ false }
    // All frames are before the cut, and are left to read.
    ensures begun { (has : Content) → LogHas D.is_honest D.history D.size log.old has → OnOk result ((new : Content)
        × (LogHas D.is_honest D.history D.size log.new new × HaveSameFrames has new
        × Compacts D.is_honest D.history log.new new (number_of log.new) (frames_of new.base ++ frames_of (tails new)) compaction.new)) }
    ensures images { (has : Content) → LogHas D.is_honest D.history D.size log.old has → LeavesOnly (D.history (disk_of log.old)) (D.history (disk_of log.new))
        (λ image. Carries image (D.size (disk_of log.old)) (number_of log.old) (frames_of has.base) (frames_of (tails has))) }
    ensures phase { OnOk result (phase_in compaction.new ≡ Phase.Reading) }
    ensures cut { OnOk result (ForSome (cut_in compaction.new) (λ cut. (is_among cut.id (root_of log.new).tail ≡ true) × (cut.number ≤ number_of log.new))) }
    ensures same { OnErr result (compaction.new ≡ compaction.old) }
    ensures full { IsErrOf result CompactFault.NoRoom → (end_of log.old ≢ 0) × IsFullFor (D.size (disk_of log.old)) (taken_of log.old) (root_of log.old) }
    ensures clear { MatchResult result
        (λ _. end_of log.old ≢ 0 → HasNext (D.size (disk_of log.old)) (taken_of log.old) (root_of log.old))
        (λ fault. fault ≢ CompactFault.NoRoom → HasNext (D.size (disk_of log.old)) (taken_of log.old) (root_of log.old)) }
    ensures room { OnOk result (end_of log.old ≢ 0 → room_of D.size log.new ≡ rolled_room (room_of D.size log.old)) }
    ensures empty_stays { end_of log.old ≡ 0 → IsUnchanged log.old log.new }
    ensures unchanged { IfErr result (λ fault. fault ≢ CompactFault.Device → IsUnchanged log.old log.new) }
    ensures same_number { number_of log.new ≡ number_of log.old }
    ensures same_fresh { fresh_of log.new ≡ fresh_of log.old }
    ensures faults { IfErr result IsEnd }
    ensures serves { OnOk result (has_failed log.new ≡ false) }
    ensures failed { IsErrOf result CompactFault.Device → has_failed log.new ≡ true }
    ensures device { Counts (D.failures (disk_of log.old)) (D.failures (disk_of log.new)) (is_compact_failure result) }
    ensures same_size { D.size (disk_of log.new) ≡ D.size (disk_of log.old) }
    ensures same_honesty { D.is_honest (disk_of log.new) ≡ D.is_honest (disk_of log.old) }
{
    let id = match log.roll() {
        Ok(id) => id,
        Err(LogFault::Memory) => return Err(CompactFault::Memory),
        Err(LogFault::Device) => return Err(CompactFault::Device),
        Err(LogFault::Full) => return Err(CompactFault::NoRoom),
        Err(LogFault::BadRoot | LogFault::BadFrame | LogFault::NoRoot | LogFault::Failed) => {
            unreachable!()
        }
    };
    let number = log.number();
    *compaction = Compaction::Reading(Reading {
        cut: Cut { id, number },
        cursor: Cursor::start(),
        durable: Durable::new(alloc),
        room: Vec::new(alloc),
        spent: room_for_spent(alloc),
    });
    Ok(())
}

// Applies the next frame before the cut to the folded state. Returns `Done` if no frame is left. Reports `NoRoom` if a
// disk that is not honest returns a bad frame or record.
fn read_frame<D: SectorDisk>(
    alloc: Global,
    log: &mut Log<D>,
    reading: &mut Reading,
) -> Result<Progress, CompactFault>
    requires serves { has_failed log.old ≡ false }
    ensures read { (has : Content) (number : ℕ) (left : Frames) (state : State) → LogHas D.is_honest D.history D.size log.old has
        → Spell (frames_of has.base ++ frames_of (tails has)) state → IsFolding has number left reading.old
        → IfOk result (λ progress. (now : Frames) × (IsFrameRead progress left now × IsFolding has number now reading.new)) }
    ensures honest { (has : Content) (number : ℕ) (left : Frames) (state : State) → LogHas D.is_honest D.history D.size log.old has
        → Spell (frames_of has.base ++ frames_of (tails has)) state → IsFolding has number left reading.old
        → ¬ IsErrOf result CompactFault.NoRoom }
    ensures same_cut { reading.new.cut ≡ reading.old.cut }
    ensures stored { (has : Content) → LogHas D.is_honest D.history D.size log.old has → LogHas D.is_honest D.history D.size log.new has }
    ensures time { D.is_honest (disk_of log.old) ≡ true → Stays (D.history (disk_of log.old)) (D.history (disk_of log.new)) }
    ensures faults { IfErr result IsEnd }
    ensures serves { OnOk result (has_failed log.new ≡ false) }
    ensures failed { IsErrOf result CompactFault.Device → has_failed log.new ≡ true }
    ensures device { Counts (D.failures (disk_of log.old)) (D.failures (disk_of log.new)) (is_compact_failure result) }
    ensures still { IfErr result (λ fault. fault ≢ CompactFault.Device → has_failed log.new ≡ false) }
    ensures same_fresh { fresh_of log.new ≡ fresh_of log.old }
    ensures same_root { root_of log.new ≡ root_of log.old }
    ensures same_end { end_of log.new ≡ end_of log.old }
    ensures same_number { number_of log.new ≡ number_of log.old }
    ensures same_size { D.size (disk_of log.new) ≡ D.size (disk_of log.old) }
    ensures same_honesty { D.is_honest (disk_of log.new) ≡ D.is_honest (disk_of log.old) }
{
    let until = Some(reading.cut.id);
    let found = match log.sealed_read(reading.cursor, until, &mut reading.room) {
        Ok(found) => found,
        Err(LogFault::Memory) => return Err(CompactFault::Memory),
        Err(LogFault::Device) => return Err(CompactFault::Device),
        Err(LogFault::BadFrame) => return Err(CompactFault::NoRoom),
        Err(LogFault::BadRoot | LogFault::Full | LogFault::NoRoot | LogFault::Failed) => {
            unreachable!()
        }
    };
    let Some((frame, next)) = found else {
        return Ok(Progress::Done);
    };
    reading.cursor = next;
    let is_text = add_commands(
        alloc,
        &mut reading.durable,
        &mut reading.spent,
        frame.count,
        &frame.payload,
    )?;
    reading.room = frame.payload;
    if is_text {
        Ok(Progress::More)
    } else {
        Err(CompactFault::NoRoom)
    }
}

// Drops what a phase kept, and goes on to the next.
fn go_on_to(compaction: &mut Compaction, next: Compaction)
    ensures { compaction.new ≡ next }
{
    *compaction = next;
}

// Lists the commands of what was folded.
fn writing_of(alloc: Global, reading: Reading) -> Result<Writing, AllocError>
    ensures frames { IfOk result (λ writing. writing.frames ≡ snapshot_of reading.durable) }
    ensures cut { IfOk result (λ writing. writing.cut ≡ reading.cut) }
{
    let draft = CommandsDraft::new(alloc)?;
    let frames = SnapshotFrames::new(alloc, reading.durable);
    Ok(Writing {
        cut: reading.cut,
        frames,
        draft,
    })
}

// Begins to write the snapshot of what was folded.
fn begin<D: SectorDisk>(
    alloc: Global,
    log: &mut Log<D>,
    compaction: &mut Compaction,
) -> Result<(), AllocError>
    requires phase { phase_in compaction.old ≡ Phase.Reading }
    ensures begun { (has : Content) (number : ℕ) → D.is_honest (disk_of log.old) ≡ true → Compacts D.is_honest D.history log.old has number [] compaction.old
        → OnOk result (Compacts D.is_honest D.history log.new has number [] compaction.new) }
    ensures phase { OnOk result (phase_in compaction.new ≡ Phase.Writing) }
    ensures same_cut { OnOk result (cut_in compaction.new ≡ cut_in compaction.old) }
    ensures over { OnErr result (compaction.new ≡ Compaction.Idle) }
    ensures stored { (has : Content) → LogHas D.is_honest D.history D.size log.old has → LogHas D.is_honest D.history D.size log.new has }
    ensures fresh { fresh_of log.new ≡ [] }
    ensures disk { disk_of log.new ≡ disk_of log.old }
    ensures same_failed { has_failed log.new ≡ has_failed log.old }
    ensures same_root { root_of log.new ≡ root_of log.old }
    ensures same_end { end_of log.new ≡ end_of log.old }
    ensures same_number { number_of log.new ≡ number_of log.old }
{
    // No segment is fresh; the call is here for its contract, which says so of every crash image.
    log.drop_fresh();
    match mem::replace(compaction, Compaction::Idle) {
        Compaction::Reading(reading) => {
            let writing = writing_of(alloc, reading)?;
            go_on_to(compaction, Compaction::Writing(writing));
            Ok(())
        }
        _ => unreachable!(),
    }
}

/// Applies the next frame before the cut to the folded state. Returns `Done` if no frame is left: the writing begins.
pub(crate) fn read<D: SectorDisk>(
    alloc: Global,
    log: &mut Log<D>,
    compaction: &mut Compaction,
) -> Result<Progress, CompactFault>
    requires serves { has_failed log.old ≡ false }
    requires phase { phase_in compaction.old ≡ Phase.Reading }
    requires none_fresh { fresh_of log.old ≡ [] }
    ensures read { (has : Content) (number : ℕ) (left : Frames) (state : State) → LogHas D.is_honest D.history D.size log.old has
        → Spell (frames_of has.base ++ frames_of (tails has)) state → Compacts D.is_honest D.history log.old has number left compaction.old
        → IfOk result (λ progress. (now : Frames) × (IsFrameRead progress left now × Compacts D.is_honest D.history log.new has number now compaction.new)) }
    ensures honest { (has : Content) (number : ℕ) (left : Frames) (state : State) → LogHas D.is_honest D.history D.size log.old has
        → Spell (frames_of has.base ++ frames_of (tails has)) state → Compacts D.is_honest D.history log.old has number left compaction.old
        → ¬ IsErrOf result CompactFault.NoRoom }
    ensures phase { phase_in compaction.new ≡ phase_after Phase.Writing Phase.Reading result }
    ensures cut { OnOk result (cut_in compaction.new ≡ cut_in compaction.old) }
    ensures over { OnErr result (compaction.new ≡ Compaction.Idle) }
    ensures stored { (has : Content) → LogHas D.is_honest D.history D.size log.old has → LogHas D.is_honest D.history D.size log.new has }
    ensures time { D.is_honest (disk_of log.old) ≡ true → Stays (D.history (disk_of log.old)) (D.history (disk_of log.new)) }
    ensures faults { IfErr result IsEnd }
    ensures serves { OnOk result (has_failed log.new ≡ false) }
    ensures failed { IsErrOf result CompactFault.Device → has_failed log.new ≡ true }
    ensures device { Counts (D.failures (disk_of log.old)) (D.failures (disk_of log.new)) (is_compact_failure result) }
    ensures still { IfErr result (λ fault. fault ≢ CompactFault.Device → has_failed log.new ≡ false) }
    ensures fresh { fresh_of log.new ≡ [] }
    ensures same_root { root_of log.new ≡ root_of log.old }
    ensures same_end { end_of log.new ≡ end_of log.old }
    ensures same_number { number_of log.new ≡ number_of log.old }
    ensures same_size { D.size (disk_of log.new) ≡ D.size (disk_of log.old) }
    ensures same_honesty { D.is_honest (disk_of log.new) ≡ D.is_honest (disk_of log.old) }
{
    let outcome = match compaction {
        Compaction::Reading(reading) => read_frame(alloc, log, reading),
        _ => unreachable!(),
    };
    match outcome {
        Ok(Progress::More) => Ok(Progress::More),
        Ok(Progress::Done) => {
            begin(alloc, log, compaction)?;
            Ok(Progress::Done)
        }
        Err(fault) => {
            go_on_to(compaction, Compaction::Idle);
            Err(fault)
        }
    }
}

// Appends the next frame of the snapshot to the fresh segments: `Done` if there was none.
fn write_frame<D: SectorDisk>(
    log: &mut Log<D>,
    frames: &mut SnapshotFrames,
    draft: &mut CommandsDraft,
) -> Result<Progress, CompactFault>
    requires serves { has_failed log.old ≡ false }
    ensures written { IfOk result (λ progress. IsWritten progress frames.old frames.new) }
    ensures copied { (all : List Command) → HasCopied D.is_honest D.history log.old all frames.old → OnOk result (HasCopied D.is_honest D.history log.new all frames.new) }
    ensures taken { OnOk result (IsTakenFrom (D.size (disk_of log.old)) (taken_of log.old) (fresh_of log.old) (fresh_of log.new)) }
    ensures full { IsErrOf result CompactFault.NoRoom → NoneIsFree (D.size (disk_of log.old)) (taken_of log.old) }
    ensures needed { IsErrOf result CompactFault.NoRoom → NeedsSegment (fresh_of log.old) (fresh_end_of log.old) frames.old }
    ensures none_taken { IfOk result (λ progress. progress ≡ Progress.Done → fresh_of log.new ≡ fresh_of log.old) }
    ensures stored { (has : Content) → LogHas D.is_honest D.history D.size log.old has → LogHas D.is_honest D.history D.size log.new has }
    ensures images { (has : Content) → LogHas D.is_honest D.history D.size log.old has → LeavesOnly (D.history (disk_of log.old)) (D.history (disk_of log.new))
        (λ image. Carries image (D.size (disk_of log.old)) (number_of log.old) (frames_of has.base) (frames_of (tails has))) }
    ensures disk { IfErr result (λ fault. fault ≢ CompactFault.Device → disk_of log.new ≡ disk_of log.old) }
    ensures faults { IfErr result IsEnd }
    ensures serves { OnOk result (has_failed log.new ≡ false) }
    ensures failed { IsErrOf result CompactFault.Device → has_failed log.new ≡ true }
    ensures device { Counts (D.failures (disk_of log.old)) (D.failures (disk_of log.new)) (is_compact_failure result) }
    ensures still { IfErr result (λ fault. fault ≢ CompactFault.Device → has_failed log.new ≡ false) }
    ensures same_root { root_of log.new ≡ root_of log.old }
    ensures same_end { end_of log.new ≡ end_of log.old }
    ensures same_number { number_of log.new ≡ number_of log.old }
    ensures same_size { D.size (disk_of log.new) ≡ D.size (disk_of log.old) }
    ensures same_honesty { D.is_honest (disk_of log.new) ≡ D.is_honest (disk_of log.old) }
{
    if !frames.next(draft)? {
        return Ok(Progress::Done);
    }
    let commands = draft.share()?;
    match log.fresh_append(commands.frame()) {
        Ok(()) => Ok(Progress::More),
        Err(LogFault::Memory) => Err(CompactFault::Memory),
        Err(LogFault::Device) => Err(CompactFault::Device),
        Err(LogFault::Full) => Err(CompactFault::NoRoom),
        Err(LogFault::BadRoot | LogFault::BadFrame | LogFault::NoRoot | LogFault::Failed) => {
            unreachable!()
        }
    }
}

/// Writes the next frame of the snapshot. Returns `Done` if no command is left: the switch comes next. A fault frees
/// the fresh segments.
pub(crate) fn write<D: SectorDisk>(
    log: &mut Log<D>,
    compaction: &mut Compaction,
) -> Result<Progress, CompactFault>
    requires serves { has_failed log.old ≡ false }
    requires phase { phase_in compaction.old ≡ Phase.Writing }
    ensures written { IfOk result (λ progress. IsWritten progress (unwritten_in compaction.old) (unwritten_in compaction.new)) }
    ensures compacts { (has : Content) (number : ℕ) (left : Frames) → Compacts D.is_honest D.history log.old has number left compaction.old
        → OnOk result (Compacts D.is_honest D.history log.new has number left compaction.new) }
    ensures taken { OnOk result (IsTakenFrom (D.size (disk_of log.old)) (taken_of log.old) (fresh_of log.old) (fresh_of log.new)) }
    ensures full { IsErrOf result CompactFault.NoRoom → NoneIsFree (D.size (disk_of log.old)) (taken_of log.old) }
    ensures needed { IsErrOf result CompactFault.NoRoom → NeedsSegment (fresh_of log.old) (fresh_end_of log.old) (unwritten_in compaction.old) }
    ensures none_taken { IfOk result (λ progress. progress ≡ Progress.Done → fresh_of log.new ≡ fresh_of log.old) }
    ensures phase { phase_in compaction.new ≡ phase_after Phase.Ready Phase.Writing result }
    ensures cut { OnOk result (cut_in compaction.new ≡ cut_in compaction.old) }
    ensures over { OnErr result (compaction.new ≡ Compaction.Idle) }
    ensures freed { OnErr result (fresh_of log.new ≡ []) }
    ensures stored { (has : Content) → LogHas D.is_honest D.history D.size log.old has → LogHas D.is_honest D.history D.size log.new has }
    ensures images { (has : Content) → LogHas D.is_honest D.history D.size log.old has → LeavesOnly (D.history (disk_of log.old)) (D.history (disk_of log.new))
        (λ image. Carries image (D.size (disk_of log.old)) (number_of log.old) (frames_of has.base) (frames_of (tails has))) }
    ensures disk { IfErr result (λ fault. fault ≢ CompactFault.Device → disk_of log.new ≡ disk_of log.old) }
    ensures faults { IfErr result IsEnd }
    ensures serves { OnOk result (has_failed log.new ≡ false) }
    ensures failed { IsErrOf result CompactFault.Device → has_failed log.new ≡ true }
    ensures device { Counts (D.failures (disk_of log.old)) (D.failures (disk_of log.new)) (is_compact_failure result) }
    ensures still { IfErr result (λ fault. fault ≢ CompactFault.Device → has_failed log.new ≡ false) }
    ensures same_root { root_of log.new ≡ root_of log.old }
    ensures same_end { end_of log.new ≡ end_of log.old }
    ensures same_number { number_of log.new ≡ number_of log.old }
    ensures same_size { D.size (disk_of log.new) ≡ D.size (disk_of log.old) }
    ensures same_honesty { D.is_honest (disk_of log.new) ≡ D.is_honest (disk_of log.old) }
{
    let (outcome, cut) = match compaction {
        Compaction::Writing(Writing { cut, frames, draft }) => {
            (write_frame(log, frames, draft), *cut)
        }
        _ => unreachable!(),
    };
    match outcome {
        Ok(Progress::More) => Ok(Progress::More),
        Ok(Progress::Done) => {
            go_on_to(compaction, Compaction::Ready(cut));
            Ok(Progress::Done)
        }
        Err(fault) => {
            log.drop_fresh();
            go_on_to(compaction, Compaction::Idle);
            Err(fault)
        }
    }
}

// Publishes the root that names the fresh segments and the tails from the cut on.
fn publish<D: SectorDisk>(log: &mut Log<D>, cut: Cut) -> Result<(), CompactFault>
    requires serves { has_failed log.old ≡ false }
    requires cut { (is_among cut.id (root_of log.old).tail ≡ true) × (cut.number ≤ number_of log.old) }
    ensures stored { (has : Content) (left : Frames) (state : State) → LogHas D.is_honest D.history D.size log.old has
        → Spell (frames_of has.base ++ frames_of (tails has)) state → Compacts D.is_honest D.history log.old has (number_of log.old) left (Compaction.Ready cut)
        → OnOk result ((new : Content) × (LogHas D.is_honest D.history D.size log.new new × Spell (frames_of new.base ++ frames_of (tails new)) state)) }
    ensures images { (has : Content) (left : Frames) (state : State) → LogHas D.is_honest D.history D.size log.old has
        → Spell (frames_of has.base ++ frames_of (tails has)) state → Compacts D.is_honest D.history log.old has (number_of log.old) left (Compaction.Ready cut)
        → LeavesOnly (D.history (disk_of log.old)) (D.history (disk_of log.new)) (λ image. CarriesState image (D.size (disk_of log.old)) (number_of log.old) state) }
    ensures unchanged { IfErr result (λ fault. fault ≢ CompactFault.Device → IsUnchanged log.old log.new) }
    ensures root { OnOk result (IsSwitchedRoot (root_of log.old) (fresh_of log.old) cut.id cut.number (root_of log.new)) }
    ensures fresh { OnOk result (fresh_of log.new ≡ []) }
    ensures full { IsErrOf result CompactFault.NoRoom → (root_of log.old).epoch ≡ EPOCH_MAX }
    ensures clear { MatchResult result (λ _. (root_of log.old).epoch < EPOCH_MAX) (λ fault. fault ≢ CompactFault.NoRoom → (root_of log.old).epoch < EPOCH_MAX) }
    ensures same_root { OnErr result (root_of log.new ≡ root_of log.old) }
    ensures same_end { end_of log.new ≡ end_of log.old }
    ensures same_number { number_of log.new ≡ number_of log.old }
    ensures faults { IfErr result IsEnd }
    ensures serves { OnOk result (has_failed log.new ≡ false) }
    ensures failed { IsErrOf result CompactFault.Device → has_failed log.new ≡ true }
    ensures device { Counts (D.failures (disk_of log.old)) (D.failures (disk_of log.new)) (is_compact_failure result) }
    ensures same_size { D.size (disk_of log.new) ≡ D.size (disk_of log.old) }
    ensures same_honesty { D.is_honest (disk_of log.new) ≡ D.is_honest (disk_of log.old) }
{
    match log.switch(cut.id, cut.number) {
        Ok(()) => Ok(()),
        Err(LogFault::Memory) => Err(CompactFault::Memory),
        Err(LogFault::Device) => Err(CompactFault::Device),
        Err(LogFault::Full) => Err(CompactFault::NoRoom),
        Err(LogFault::BadRoot | LogFault::BadFrame | LogFault::NoRoot | LogFault::Failed) => {
            unreachable!()
        }
    }
}

/// Publishes the root that names the fresh segments and the tails from the cut on. A fault frees the fresh segments.
pub(crate) fn switch<D: SectorDisk>(
    log: &mut Log<D>,
    compaction: &mut Compaction,
) -> Result<(), CompactFault>
    requires serves { has_failed log.old ≡ false }
    requires phase { phase_in compaction.old ≡ Phase.Ready }
    requires cut { ForSome (cut_in compaction.old) (λ cut. (is_among cut.id (root_of log.old).tail ≡ true) × (cut.number ≤ number_of log.old)) }
    ensures stored { (has : Content) (left : Frames) (state : State) → LogHas D.is_honest D.history D.size log.old has
        → Spell (frames_of has.base ++ frames_of (tails has)) state → Compacts D.is_honest D.history log.old has (number_of log.old) left compaction.old
        → OnOk result ((new : Content) × (LogHas D.is_honest D.history D.size log.new new × Spell (frames_of new.base ++ frames_of (tails new)) state)) }
    ensures images { (has : Content) (left : Frames) (state : State) → LogHas D.is_honest D.history D.size log.old has
        → Spell (frames_of has.base ++ frames_of (tails has)) state → Compacts D.is_honest D.history log.old has (number_of log.old) left compaction.old
        → LeavesOnly (D.history (disk_of log.old)) (D.history (disk_of log.new)) (λ image. CarriesState image (D.size (disk_of log.old)) (number_of log.old) state) }
    ensures kept { (has : Content) → LogHas D.is_honest D.history D.size log.old has
        → IfErr result (λ fault. fault ≢ CompactFault.Device → LogHas D.is_honest D.history D.size log.new has) }
    ensures over { compaction.new ≡ Compaction.Idle }
    ensures root { OnOk result (IfSome (cut_in compaction.old) (λ cut. IsSwitchedRoot (root_of log.old) (fresh_of log.old) cut.id cut.number (root_of log.new))) }
    ensures fresh { fresh_of log.new ≡ [] }
    ensures full { IsErrOf result CompactFault.NoRoom → (root_of log.old).epoch ≡ EPOCH_MAX }
    ensures clear { MatchResult result (λ _. (root_of log.old).epoch < EPOCH_MAX) (λ fault. fault ≢ CompactFault.NoRoom → (root_of log.old).epoch < EPOCH_MAX) }
    ensures same_root { OnErr result (root_of log.new ≡ root_of log.old) }
    ensures same_end { end_of log.new ≡ end_of log.old }
    ensures same_number { number_of log.new ≡ number_of log.old }
    ensures disk { IfErr result (λ fault. fault ≢ CompactFault.Device → disk_of log.new ≡ disk_of log.old) }
    ensures faults { IfErr result IsEnd }
    ensures serves { OnOk result (has_failed log.new ≡ false) }
    ensures failed { IsErrOf result CompactFault.Device → has_failed log.new ≡ true }
    ensures device { Counts (D.failures (disk_of log.old)) (D.failures (disk_of log.new)) (is_compact_failure result) }
    ensures still { IfErr result (λ fault. fault ≢ CompactFault.Device → has_failed log.new ≡ false) }
    ensures same_size { D.size (disk_of log.new) ≡ D.size (disk_of log.old) }
    ensures same_honesty { D.is_honest (disk_of log.new) ≡ D.is_honest (disk_of log.old) }
{
    match mem::replace(compaction, Compaction::Idle) {
        Compaction::Ready(cut) => match publish(log, cut) {
            Ok(()) => Ok(()),
            Err(fault) => {
                log.drop_fresh();
                Err(fault)
            }
        },
        _ => unreachable!(),
    }
}
