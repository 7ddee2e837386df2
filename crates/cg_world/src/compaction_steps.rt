//! The steps of a compaction.
ghost use Rattle.std.specs.Prelude.{◌≡◌, ℕ, [], true, false, None, Some, IfErr, IfOk, OnErr, OnOk, MatchResult};
ghost use Rattle.cg_disk.specs.Disk.{Counts};
ghost use Rattle.cg_fold.specs.Durable.{State};
ghost use Rattle.cg_store.specs.Phases.{abort_result};
ghost use Rattle.cg_store.specs.Store.{IsUnchanged, StandsAt, disk_of, fresh_of, front_of, has_failed, phase_of, sectors_of};
ghost use Rattle.cg_desk.specs.Desks.{failing_on, numbered_of, settled_of, state_of};
ghost use Rattle.cg_desk.specs.Desks as state;
ghost use Rattle.cg_world.specs.Agreeing.{is_serving};
ghost use Rattle.cg_world.specs.Faults.{failed_append, is_failure};
ghost use Rattle.cg_world.specs.Steps.{IsOutOfMemory, IsTaken};
ghost use Rattle.cg_world.specs.StoreTurns.{note_of_call};

use crate::step::{Step, StepNote};
use crate::step_fault::Wanting;
use crate::transit::Transit;
use crate::world::World;
use cg_desk::{Desk, Outgoing};
use cg_disk::SectorDisk;
use cg_store::{CompactFault, Phase, Progress};
use std::alloc::Global;

// Returns the note of a call of a compaction, if no allocation failed.
fn note_of(called: Result<Progress, CompactFault>) -> Result<StepNote, Wanting>
    ensures { MatchResult result
        (λ note. note_of_call called ≡ Some note)
        (λ wanting. (note_of_call called ≡ None) × (wanting.last ≡ None)) }
{
    match called {
        Ok(Progress::More) => Ok(StepNote::More),
        Ok(Progress::Done) => Ok(StepNote::Done),
        Err(CompactFault::Memory) => Err(Wanting { last: None }),
        Err(CompactFault::Device) => Ok(StepNote::Device),
        Err(CompactFault::NoRoom) => Ok(StepNote::NoRoom),
        Err(CompactFault::WrongPhase) => Ok(StepNote::WrongPhase),
        Err(CompactFault::Failed) => Ok(StepNote::Failed),
    }
}

// If the disk failed, fails the desk, drops the batch or receipt in transit, and returns the refusals that leave.
fn replies_of(
    alloc: Global,
    note: StepNote,
    desk: &mut Desk,
    transit: &mut Transit,
) -> Vec<Outgoing>
    ensures same { is_failure note ≡ false → (state_of desk.new ≡ state_of desk.old) × (transit.new ≡ transit.old) × (result.items ≡ []) }
    ensures failed { is_failure note ≡ true → (state_of desk.new ≡ state.Failed (numbered_of (state_of desk.old)) (settled_of (state_of desk.old))) × (transit.new ≡ Transit.Empty) }
    ensures order { is_failure note ≡ true → result.items ≡ failing_on (state_of desk.old) }
{
    if note.is_failure() {
        *transit = Transit::Empty;
        desk.fail()
    } else {
        Vec::new(alloc)
    }
}

impl<D: SectorDisk> World<D> {
    ghost use Rattle.cg_world.specs.Sights.{opening_of, sight, store_of};

    /// Begins a compaction of the store.
    pub(crate) fn compact_start(&mut self) -> Result<(StepNote, Vec<Outgoing>), Wanting>
        ensures ok { IfOk result (λ told. IsTaken D.is_honest D.history Step.CompactStart told.0 told.1.items self.old self.new) }
        ensures err { OnErr result (IsOutOfMemory D.is_honest D.history Step.CompactStart self.old self.new) }
        ensures last { IfErr result (λ wanting. wanting.last ≡ None) }
        ensures rests { is_serving (sight self.old).desk ≡ false → disk_of (store_of self.new) ≡ disk_of (store_of self.old) }
        ensures device { Counts (D.failures (disk_of (store_of self.old))) (D.failures (disk_of (store_of self.new))) (failed_append result) }
        ensures same_size { D.size (disk_of (store_of self.new)) ≡ D.size (disk_of (store_of self.old)) }
        ensures same_honesty { D.is_honest (disk_of (store_of self.new)) ≡ D.is_honest (disk_of (store_of self.old)) }
        ensures opening { opening_of self.new ≡ opening_of self.old }
    {
        let called = self.store.compact_start();
        let note = note_of(called)?;
        let out = replies_of(self.alloc, note, &mut self.desk, &mut self.transit);
        Ok((note, out))
    }

    /// Reads the next frame for the compaction.
    pub(crate) fn compact_read(&mut self) -> Result<(StepNote, Vec<Outgoing>), Wanting>
        ensures ok { IfOk result (λ told. IsTaken D.is_honest D.history Step.CompactRead told.0 told.1.items self.old self.new) }
        ensures err { OnErr result (IsOutOfMemory D.is_honest D.history Step.CompactRead self.old self.new) }
        ensures last { IfErr result (λ wanting. wanting.last ≡ None) }
        ensures rests { is_serving (sight self.old).desk ≡ false → disk_of (store_of self.new) ≡ disk_of (store_of self.old) }
        ensures device { Counts (D.failures (disk_of (store_of self.old))) (D.failures (disk_of (store_of self.new))) (failed_append result) }
        ensures same_size { D.size (disk_of (store_of self.new)) ≡ D.size (disk_of (store_of self.old)) }
        ensures same_honesty { D.is_honest (disk_of (store_of self.new)) ≡ D.is_honest (disk_of (store_of self.old)) }
        ensures opening { opening_of self.new ≡ opening_of self.old }
    {
        let called = self.store.compact_read();
        let note = note_of(called)?;
        let out = replies_of(self.alloc, note, &mut self.desk, &mut self.transit);
        Ok((note, out))
    }

    /// Writes the next frame of the snapshot.
    pub(crate) fn compact_write(&mut self) -> Result<(StepNote, Vec<Outgoing>), Wanting>
        ensures ok { IfOk result (λ told. IsTaken D.is_honest D.history Step.CompactWrite told.0 told.1.items self.old self.new) }
        ensures err { OnErr result (IsOutOfMemory D.is_honest D.history Step.CompactWrite self.old self.new) }
        ensures last { IfErr result (λ wanting. wanting.last ≡ None) }
        ensures rests { is_serving (sight self.old).desk ≡ false → disk_of (store_of self.new) ≡ disk_of (store_of self.old) }
        ensures device { Counts (D.failures (disk_of (store_of self.old))) (D.failures (disk_of (store_of self.new))) (failed_append result) }
        ensures same_size { D.size (disk_of (store_of self.new)) ≡ D.size (disk_of (store_of self.old)) }
        ensures same_honesty { D.is_honest (disk_of (store_of self.new)) ≡ D.is_honest (disk_of (store_of self.old)) }
        ensures opening { opening_of self.new ≡ opening_of self.old }
    {
        let called = self.store.compact_write();
        let note = note_of(called)?;
        let out = replies_of(self.alloc, note, &mut self.desk, &mut self.transit);
        Ok((note, out))
    }

    /// Publishes the root that names the snapshot.
    pub(crate) fn compact_switch(&mut self) -> Result<(StepNote, Vec<Outgoing>), Wanting>
        ensures ok { IfOk result (λ told. IsTaken D.is_honest D.history Step.CompactSwitch told.0 told.1.items self.old self.new) }
        ensures err { OnErr result (IsOutOfMemory D.is_honest D.history Step.CompactSwitch self.old self.new) }
        ensures last { IfErr result (λ wanting. wanting.last ≡ None) }
        ensures rests { is_serving (sight self.old).desk ≡ false → disk_of (store_of self.new) ≡ disk_of (store_of self.old) }
        ensures device { Counts (D.failures (disk_of (store_of self.old))) (D.failures (disk_of (store_of self.new))) (failed_append result) }
        ensures same_size { D.size (disk_of (store_of self.new)) ≡ D.size (disk_of (store_of self.old)) }
        ensures same_honesty { D.is_honest (disk_of (store_of self.new)) ≡ D.is_honest (disk_of (store_of self.old)) }
        ensures opening { opening_of self.new ≡ opening_of self.old }
    {
        let called = self.store.compact_switch();
        let note = note_of(called)?;
        let out = replies_of(self.alloc, note, &mut self.desk, &mut self.transit);
        Ok((note, out))
    }

    /// Ends the compaction of the store, and frees its fresh segments. No allocation, no disk call.
    pub fn compact_abort(&mut self) -> Result<Progress, CompactFault>
        ensures told { result ≡ abort_result (has_failed (store_of self.old)) (phase_of (store_of self.old)) }
        ensures stands { (n : ℕ) (state : State) → StandsAt D.is_honest D.history (store_of self.old) n state → StandsAt D.is_honest D.history (store_of self.new) n state }
        ensures disk { disk_of (store_of self.new) ≡ disk_of (store_of self.old) }
        ensures phase { OnOk result (phase_of (store_of self.new) ≡ Phase.Idle) }
        ensures freed { OnOk result (fresh_of (store_of self.new) ≡ []) }
        ensures unchanged { OnErr result (IsUnchanged (store_of self.old) (store_of self.new)) }
        ensures same_front { front_of (store_of self.new) ≡ front_of (store_of self.old) }
        ensures same_failed { has_failed (store_of self.new) ≡ has_failed (store_of self.old) }
        ensures same_sectors { sectors_of (store_of self.new) ≡ sectors_of (store_of self.old) }
        ensures sight { sight self.new ≡ sight self.old }
        ensures opening { opening_of self.new ≡ opening_of self.old }
    {
        self.store.compact_abort()
    }
}
