//! The end of an engine.
ghost use Rattle.std.specs.Prelude.{◌≡◌, ◌≢◌, ◌↔◌, ◌+◌, ◌<◌, None, IfErr, IfOk, IsErrOf, IsTrue, MatchOption, OnOk, vec_len};
ghost use Rattle.cg_engine.specs.Appended.{AreAsMany};
ghost use Rattle.cg_engine.specs.BorneOut.{AreAll, AreAllIn, AreCounted, IsBorneOut, IsTested, IsTestedBy, has_number, units_with};
ghost use Rattle.cg_engine.specs.Left.{AreRefusals, Leaves};
ghost use Rattle.cg_engine.specs.Recorders.{trail_of};
ghost use Rattle.cg_engine.specs.Sides.{noted_by, opening_by, recorder_of, since_by, unpaid_in};

use crate::closed::Closed;
use crate::desk_side::DeskSide;
use crate::engine::Engine;
use crate::fault::FinishFault;
use crate::pass::SessionPass;
use crate::store_side::StoreSide;
use crate::trail::Recorder;
use cg_disk::SectorDisk;
use cg_trail::Trail;
use std::alloc::{AllocError, Global};
use std::sync::ledger::Ledger;
use std::sync::{Condvar, Mutex};

// Returns whether one of the passes has this number. If they are in the order of their numbers, it looks at one.
fn has_number<L: Ledger>(passes: &[SessionPass<L>], number: u64) -> bool
    ensures { result ≡ has_number number passes.now }
{
    let in_place = passes
        .get(number as usize)
        .is_some_and(|pass| pass.number() == number);
    in_place || passes.iter().any(|pass| pass.number() == number)
}

// Returns whether these are all passes of an engine that made this many, each once.
fn are_all<L: Ledger>(made: usize, passes: &[SessionPass<L>]) -> bool
    ensures { IsTrue result ↔ AreAll made passes.now }
{
    if passes.len() != made {
        return false;
    }
    for number in 0..made as u64 {
        if !has_number(passes, number) {
            return false;
        }
    }
    true
}

// Returns whether each pass has noted all its answers, if a trail is kept.
fn are_whole<L: Ledger>(passes: &[SessionPass<L>]) -> bool {
    passes.iter().all(|pass| !pass.noted.is_lost())
}

// Returns whether the answers of each pass are replies of the trail, each a different one, in the order of the trail.
fn are_in<L: Ledger>(passes: &[SessionPass<L>], trail: &Trail) -> bool
    ensures { IsTrue result ↔ AreAllIn passes.now trail.now }
{
    let mut rest = passes;
    while let [pass, others @ ..] = rest {
        if !pass.noted.are_in(trail) {
            return false;
        }
        rest = others;
    }
    true
}

// Returns what is left of a number of units without those of the passes, unless these are more.
fn without_passes<L: Ledger>(units: u64, passes: &[SessionPass<L>]) -> Option<u64>
    ensures { MatchOption result (units < units_with passes.now) (λ left. left + units_with passes.now ≡ units) }
{
    let mut left = units;
    let mut rest = passes;
    while let [pass, others @ ..] = rest {
        left = left.checked_sub(pass.units())?;
        rest = others;
    }
    Some(left)
}

// Returns whether each command that was appended since loading is worth a unit: one of a pass, or one that no pass has.
fn are_counted<D: SectorDisk + Drop, L: Ledger>(
    desk: &DeskSide<L>,
    store: &StoreSide<D, L>,
    passes: &[SessionPass<L>],
) -> bool
    ensures { IsTrue result ↔ AreCounted (since_by store.now) passes.now (unpaid_in desk.now) }
{
    match without_passes(store.since_loading(), passes) {
        Some(left) => desk.has_unpaid(left),
        None => false,
    }
}

// Tests a trail: the machine runs over it again, and store, passes and units bear it out.
fn is_tested<D: SectorDisk + Drop, L: Ledger>(
    alloc: Global,
    trail: &Trail,
    desk: &DeskSide<L>,
    store: &StoreSide<D, L>,
    passes: &[SessionPass<L>],
) -> Result<bool, AllocError>
    ensures { IfOk result (λ tested. IsTrue tested ↔ IsTested trail.now (noted_by store.now) (since_by store.now) passes.now (unpaid_in desk.now)) }
{
    let Some(made) = trail.replay()? else {
        return Ok(false);
    };
    let bears = store.bears(alloc, trail, made.as_slice())?;
    Ok(bears && are_in(passes, trail) && are_counted(desk, store, passes))
}

// Tests the trail, if one is kept.
fn test_of<D: SectorDisk + Drop, L: Ledger>(
    alloc: Global,
    desk: &DeskSide<L>,
    store: &StoreSide<D, L>,
    passes: &[SessionPass<L>],
) -> Result<(), FinishFault>
    ensures ok { OnOk result (IsTestedBy (recorder_of desk.now) (noted_by store.now) (since_by store.now) passes.now (unpaid_in desk.now)) }
    ensures differs { IsErrOf result FinishFault.TrailDiffers → ¬ IsTestedBy (recorder_of desk.now) (noted_by store.now) (since_by store.now) passes.now (unpaid_in desk.now) }
    ensures never { IfErr result (λ fault. fault ≢ FinishFault.MissingPass) }
{
    let trail = match desk.recorder() {
        Recorder::Off | Recorder::Waiting => return Ok(()),
        Recorder::Lost => return Err(FinishFault::Memory),
        Recorder::On(trail) => trail,
    };
    if !are_whole(passes) {
        return Err(FinishFault::Memory);
    }
    if is_tested(alloc, trail, desk, store, passes)? {
        Ok(())
    } else {
        Err(FinishFault::TrailDiffers)
    }
}

// Tests the passes of an engine that made this many, then its trail.
fn tested<D: SectorDisk + Drop, L: Ledger>(
    alloc: Global,
    desk: &DeskSide<L>,
    store: &StoreSide<D, L>,
    made: usize,
    passes: &[SessionPass<L>],
) -> Result<(), FinishFault>
    ensures all { OnOk result (AreAll made passes.now) }
    ensures missing { IsErrOf result FinishFault.MissingPass ↔ (¬ AreAll made passes.now) }
    ensures ok { OnOk result (IsTestedBy (recorder_of desk.now) (noted_by store.now) (since_by store.now) passes.now (unpaid_in desk.now)) }
    ensures differs { IsErrOf result FinishFault.TrailDiffers → ¬ IsTestedBy (recorder_of desk.now) (noted_by store.now) (since_by store.now) passes.now (unpaid_in desk.now) }
{
    if !are_all(made, passes) {
        return Err(FinishFault::MissingPass);
    }
    test_of(alloc, desk, store, passes)
}

impl<D: SectorDisk + Drop, L: Ledger> Engine<D, L> {
    /// Ends the engine: refuses every pending call, and gives the disk back. The passes have to be all that it made, each
    /// once; and if a trail was kept, the trail is tested. After a fault, returns engine and passes: the faults come in the
    /// order MissingPass, Memory (an allocation failed, now or when a step or an answer was to be recorded), TrailDiffers.
    pub fn finish(
        self,
        passes: Vec<SessionPass<L>>,
    ) -> Result<Closed<D>, (FinishFault, Self, Vec<SessionPass<L>>)>
        ensures left { IfOk result (λ closed. ∥ Leaves D.is_honest D.history D.size None closed.disk closed.front ∥₁) }
        ensures refused { IfOk result (λ closed. AreRefusals closed.refused.items) }
        ensures all { OnOk result (AreAll (vec_len passes) passes.items) }
        ensures trail { IfOk result (λ closed. MatchOption closed.trail (Unit {0}) (λ trail. ∥ IsBorneOut D.is_honest D.history D.size trail passes.items closed.disk closed.front ∥₁)) }
        ensures passes { IfErr result (λ refused. refused.2 ≡ passes) }
    {
        let Engine {
            alloc,
            trail,
            desk,
            store,
            pending: _,
            answered,
        } = self;
        let desk = desk.into_inner();
        let store = store.into_inner();
        match tested(alloc, &desk, &store, desk.passes(), passes.as_slice()) {
            Ok(()) => Ok(closed(desk, store)),
            Err(fault) => {
                let engine = Engine {
                    alloc,
                    trail,
                    desk: Mutex::new(desk),
                    store: Mutex::new(store),
                    pending: Condvar::new(),
                    answered,
                };
                Err((fault, engine, passes))
            }
        }
    }

    /// Ends the engine without its passes and without a test of its trail, which is dropped. For a caller that cannot
    /// hand the passes in. Calls whose requests were not handed over are not among those that it refuses.
    pub fn abandon(self) -> Closed<D>
        ensures left { ∥ Leaves D.is_honest D.history D.size None result.disk result.front ∥₁ }
        ensures refused { AreRefusals result.refused.items }
        ensures trail { result.trail ≡ None }
    {
        let Engine {
            alloc: _,
            trail: _,
            desk,
            store,
            pending: _,
            answered: _,
        } = self;
        let Closed {
            front,
            disk,
            refused,
            trail: _,
        } = closed(desk.into_inner(), store.into_inner());
        Closed {
            front,
            disk,
            refused,
            trail: None,
        }
    }
}

fn closed<D: SectorDisk + Drop, L: Ledger>(desk: DeskSide<L>, store: StoreSide<D, L>) -> Closed<D>
    ensures front { result.front ≡ opening_by store + since_by store }
    ensures counted { AreAsMany (noted_by store) (since_by store) }
    ensures left { ∥ Leaves D.is_honest D.history D.size (noted_by store) result.disk result.front ∥₁ }
    ensures refused { AreRefusals result.refused.items }
    ensures trail { result.trail ≡ trail_of (recorder_of desk) }
{
    let (refused, trail) = desk.close();
    let (front, disk) = store.close();
    Closed {
        front,
        disk,
        refused,
        trail,
    }
}
