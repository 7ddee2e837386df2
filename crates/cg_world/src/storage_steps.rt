//! The steps between the desk and the store: take, append, settle.
ghost use Rattle.std.specs.Prelude.{◌≡◌, ◌≢◌, ◌+◌, ◌≤◌, ℕ, [], true, false, length, None, OnErr, IfOk, IfErr};
ghost use Rattle.cg_disk.specs.Disk.{Counts, LeavesOnly};
ghost use Rattle.cg_fold.specs.Durable.{State, after};
ghost use Rattle.cg_store.specs.Carried.{CarriesBeforeOrAfter};
ghost use Rattle.cg_store.specs.Batches.{calls_for};
ghost use Rattle.cg_store.specs.Store.{IsUnchanged, StandsAt, disk_of, phase_of, sectors_of};
ghost use Rattle.cg_world.specs.Turns.{appended, in_flight, is_taken, settled, taken, IsAppendNote, IsSettleNote, IsTakeNote, quiet};
ghost use Rattle.cg_world.specs.Faults.{failed_append};
ghost use Rattle.cg_world.specs.StoreTurns.{IsAppendedRoom, IsFitNote, fits};

use crate::step::StepNote;
use crate::step_fault::Wanting;
use crate::transit::Transit;
use crate::world::World;
use cg_desk::{Outgoing, SettleFault, TakeFault};
use cg_disk::SectorDisk;
use cg_store::StoreFault;

impl<D: SectorDisk> World<D> {
    ghost use Rattle.cg_world.specs.Sights.{opening_of, sight, store_of, store_sight};

    /// Takes the next batch from the desk, if there is one.
    pub(crate) fn take(&mut self) -> Result<StepNote, Wanting>
        ensures note { IfOk result (λ note. IsTakeNote (sight self.old) note) }
        ensures after { IfOk result (λ note. taken note (sight self.old) ≡ quiet (sight self.new)) }
        ensures err { IfErr result (λ wanting. (sight self.new ≡ sight self.old) × (wanting.last ≡ None)) }
        ensures store { store_of self.new ≡ store_of self.old }
        ensures opening { opening_of self.new ≡ opening_of self.old }
    {
        match self.desk.take_batch() {
            Ok(Some(batch)) => {
                self.transit = Transit::Taken(batch);
                Ok(StepNote::Done)
            }
            Ok(None) => Ok(StepNote::Nothing),
            Err(TakeFault::InFlight) => Ok(StepNote::InFlight),
            Err(TakeFault::Memory) => Err(Wanting { last: None }),
        }
    }

    /// Appends the batch that was taken to the store. If the store is full, the desk takes the batch back; if the disk
    /// fails, the desk fails too.
    pub(crate) fn append(&mut self) -> Result<(StepNote, Vec<Outgoing>), Wanting>
        ensures note { IfOk result (λ told. IsAppendNote (sight self.old) told.0) }
        ensures fits { IfOk result (λ told. IsFitNote (fits (sight self.old) (store_sight D.history self.old).room) told.0) }
        ensures after { IfOk result (λ told. appended told.0 (sight self.old) ≡ record { after = sight self.new; at_once = told.1.items; left = [] }) }
        ensures err { IfErr result (λ wanting. (sight self.new ≡ sight self.old) × (wanting.last ≡ None)) }
        // Below: what the disk holds.
        ensures images { (n : ℕ) (state : State) → StandsAt D.is_honest D.history (store_of self.old) n state
            → LeavesOnly (D.history (disk_of (store_of self.old))) (D.history (disk_of (store_of self.new))) (CarriesBeforeOrAfter (sectors_of (store_of self.old)) n state (in_flight (sight self.old).desk)) }
        ensures stored { (n : ℕ) (state : State) → StandsAt D.is_honest D.history (store_of self.old) n state
            → IfOk result (λ told. told.0 ≡ StepNote.Done → StandsAt D.is_honest D.history (store_of self.new) (n + length (in_flight (sight self.old).desk)) (after state (in_flight (sight self.old).desk))) }
        ensures unchanged { IfOk result (λ told. told.0 ≢ StepNote.Done → told.0 ≢ StepNote.Device → IsUnchanged (store_of self.old) (store_of self.new)) }
        ensures wanting { OnErr result (IsUnchanged (store_of self.old) (store_of self.new)) }
        ensures clock { D.is_honest (disk_of (store_of self.old)) ≡ true → (D.history (disk_of (store_of self.new))).now ≤ (D.history (disk_of (store_of self.old))).now
            + calls_for (store_sight D.history self.old).room (in_flight (sight self.old).desk) }
        ensures room { IfOk result (λ told. IsAppendedRoom told.0 (sight self.old) (store_sight D.history self.old).room (store_sight D.history self.new).room) }
        ensures same_phase { phase_of (store_of self.new) ≡ phase_of (store_of self.old) }
        ensures same_sectors { sectors_of (store_of self.new) ≡ sectors_of (store_of self.old) }
        ensures nothing { is_taken (sight self.old) ≡ false → store_of self.new ≡ store_of self.old }
        ensures device { Counts (D.failures (disk_of (store_of self.old))) (D.failures (disk_of (store_of self.new))) (failed_append result) }
        ensures same_size { D.size (disk_of (store_of self.new)) ≡ D.size (disk_of (store_of self.old)) }
        ensures same_honesty { D.is_honest (disk_of (store_of self.new)) ≡ D.is_honest (disk_of (store_of self.old)) }
        ensures opening { opening_of self.new ≡ opening_of self.old }
    {
        let Some(batch) = self.transit.take_batch() else {
            return Ok((StepNote::Nothing, Vec::new(self.alloc)));
        };
        match self.store.append(batch) {
            Ok(receipt) => {
                self.transit = Transit::Appended(receipt);
                Ok((StepNote::Done, Vec::new(self.alloc)))
            }
            Err((StoreFault::Memory, batch)) => {
                self.transit = Transit::Taken(batch);
                Err(Wanting { last: None })
            }
            Err((StoreFault::Full, batch)) => match self.desk.give_back(batch) {
                Ok(()) => Ok((StepNote::Full, Vec::new(self.alloc))),
                Err(_) => unreachable!(),
            },
            Err((StoreFault::Device, _)) => Ok((StepNote::Device, self.desk.fail())),
            Err((StoreFault::OutOfOrder, _)) => unreachable!(),
            Err((StoreFault::Failed, _)) => unreachable!(),
        }
    }

    /// Settles the batch that was appended.
    pub(crate) fn settle(&mut self) -> Result<(StepNote, Vec<Outgoing>), Wanting>
        ensures note { IfOk result (λ told. IsSettleNote (sight self.old) told.0) }
        ensures after { IfOk result (λ told. settled told.0 (sight self.old) ≡ record { after = sight self.new; at_once = []; left = told.1.items }) }
        ensures err { IfErr result (λ wanting. (sight self.new ≡ sight self.old) × (wanting.last ≡ None)) }
        ensures store { store_of self.new ≡ store_of self.old }
        ensures opening { opening_of self.new ≡ opening_of self.old }
    {
        let Some(receipt) = self.transit.take_receipt() else {
            return Ok((StepNote::Nothing, Vec::new(self.alloc)));
        };
        match self.desk.settle(receipt) {
            Ok(out) => Ok((StepNote::Done, out)),
            Err((SettleFault::Memory, receipt)) => {
                self.transit = Transit::Appended(receipt);
                Err(Wanting { last: None })
            }
            Err((SettleFault::NotInFlight, _)) => unreachable!(),
            Err((SettleFault::Foreign, _)) => unreachable!(),
        }
    }
}
