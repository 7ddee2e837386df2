//! The append of a batch.
ghost use Rattle.std.specs.Prelude.{◌≡◌, ◌≢◌, ℕ, ◌+◌, ◌≤◌, true, length, IfErr, OnErr, OnOk, IsErrOf, MatchResult, None, is_err};
ghost use Rattle.cg_disk.specs.Disk.{Counts, LeavesOnly, TakesCalls};
ghost use Rattle.cg_fold.specs.Durable.{State, after};
ghost use Rattle.cg_log.specs.Room.{fits_tail};
ghost use Rattle.cg_record.specs.Spelling.{spelling};
ghost use Rattle.cg_store.specs.Batches.{calls_for, room_after};
ghost use Rattle.cg_store.specs.Carried.{AllCarry, CarriesBeforeOrAfter};
ghost use Rattle.cg_store.specs.Faults.{IsToldOf, failed_append, failed_put};

use crate::batch::Batch;
use crate::fault::StoreFault;
use crate::receipt::Receipt;
use crate::store::Store;
use cg_disk::SectorDisk;
use cg_log::LogFault;

impl<D: SectorDisk> Store<D> {
    ghost use Rattle.cg_store.specs.Receipts.{batch_of};
    ghost use Rattle.cg_store.specs.Store.{IsUnchanged, StandsAt, compaction_of, disk_of, front_of, has_failed, phase_of, refusal, room_of, sectors_of};

    // Appends a batch without taking ownership of it, so that `append` can return it with a fault.
    fn put(&mut self, batch: &Batch) -> Result<(), StoreFault>
        ensures ok { (n : ℕ) (state : State) → StandsAt D.is_honest D.history self.old n state
            → OnOk result (StandsAt D.is_honest D.history self.new (n + length batch.now.commands) (after state batch.now.commands)) }
        ensures images { (n : ℕ) (state : State) → StandsAt D.is_honest D.history self.old n state
            → LeavesOnly (D.history (disk_of self.old)) (D.history (disk_of self.new)) (CarriesBeforeOrAfter (sectors_of self.old) n state batch.now.commands) }
        ensures number { OnOk result (front_of self.new ≡ front_of self.old + length batch.now.commands) }
        ensures same_number { OnErr result (front_of self.new ≡ front_of self.old) }
        ensures room { OnOk result (room_of self.new ≡ room_after (room_of self.old) batch.now.commands) }
        ensures serves { OnOk result (has_failed self.new ≡ has_failed self.old) }
        ensures same_compaction { compaction_of self.new ≡ compaction_of self.old }
        ensures same_phase { phase_of self.new ≡ phase_of self.old }
        ensures told { MatchResult result
            (λ _. refusal self.old batch.now ≡ None)
            (λ fault. IsToldOf (refusal self.old batch.now) fault) }
        ensures unchanged { IfErr result (λ fault. fault ≢ StoreFault.Device → IsUnchanged self.old self.new) }
        ensures failed { IsErrOf result StoreFault.Device → has_failed self.new ≡ true }
        ensures clock { D.is_honest (disk_of self.old) ≡ true → fits_tail (room_of self.old) (length (spelling batch.now.commands)) ≡ true
            → TakesCalls 4 (D.history (disk_of self.old)) (D.history (disk_of self.new)) (is_err result) }
        ensures calls { D.is_honest (disk_of self.old) ≡ true
            → (D.history (disk_of self.new)).now ≤ (D.history (disk_of self.old)).now + calls_for (room_of self.old) batch.now.commands }
        ensures device { Counts (D.failures (disk_of self.old)) (D.failures (disk_of self.new)) (failed_put result) }
        ensures same_sectors { sectors_of self.new ≡ sectors_of self.old }
        ensures same_size { D.size (disk_of self.new) ≡ D.size (disk_of self.old) }
        ensures same_honesty { D.is_honest (disk_of self.new) ≡ D.is_honest (disk_of self.old) }
    {
        if self.log.has_failed() {
            return Err(StoreFault::Failed);
        }
        if batch.first != self.log.number() + 1 {
            return Err(StoreFault::OutOfOrder);
        }
        match self.log.append(batch.commands.frame()) {
            Ok(()) => Ok(()),
            Err(LogFault::Memory) => Err(StoreFault::Memory),
            Err(LogFault::Device) => Err(StoreFault::Device),
            Err(LogFault::Full) => Err(StoreFault::Full),
            Err(LogFault::BadRoot | LogFault::BadFrame | LogFault::NoRoot | LogFault::Failed) => {
                unreachable!()
            }
        }
    }

    /// Appends a batch in one frame. Every crash image since the start has the state before or after the batch. After
    /// `Ok` every crash image has the batch, and the receipt holds it. A refused batch is returned with its fault. After
    /// `Device` every further append reports `Failed`.
    pub fn append(&mut self, batch: Batch) -> Result<Receipt, (StoreFault, Batch)>
        ensures ok { (n : ℕ) (state : State) → StandsAt D.is_honest D.history self.old n state
            → OnOk result (StandsAt D.is_honest D.history self.new (n + length batch.commands) (after state batch.commands)) }
        ensures images { (n : ℕ) (state : State) → StandsAt D.is_honest D.history self.old n state
            → LeavesOnly (D.history (disk_of self.old)) (D.history (disk_of self.new)) (CarriesBeforeOrAfter (sectors_of self.old) n state batch.commands) }
        ensures after { (n : ℕ) (state : State) → StandsAt D.is_honest D.history self.old n state
            → OnOk result (AllCarry (D.history (disk_of self.new)) (sectors_of self.old) (n + length batch.commands) (after state batch.commands)) }
        ensures batch { MatchResult result (λ receipt. batch_of receipt ≡ batch) (λ refused. refused.1 ≡ batch) }
        ensures number { OnOk result (front_of self.new ≡ front_of self.old + length batch.commands) }
        ensures same_number { OnErr result (front_of self.new ≡ front_of self.old) }
        ensures room { OnOk result (room_of self.new ≡ room_after (room_of self.old) batch.commands) }
        ensures serves { OnOk result (has_failed self.new ≡ has_failed self.old) }
        // A compaction goes on.
        ensures same_compaction { compaction_of self.new ≡ compaction_of self.old }
        ensures same_phase { phase_of self.new ≡ phase_of self.old }
        // The fault, and when it is reported.
        ensures told { MatchResult result
            (λ _. refusal self.old batch ≡ None)
            (λ refused. IsToldOf (refusal self.old batch) refused.0) }
        ensures unchanged { IfErr result (λ refused. refused.0 ≢ StoreFault.Device → IsUnchanged self.old self.new) }
        ensures failed { IfErr result (λ refused. refused.0 ≡ StoreFault.Device → has_failed self.new ≡ true) }
        // It takes four calls of the disk; where the batch needs a new segment, up to eight more.
        ensures clock { D.is_honest (disk_of self.old) ≡ true → fits_tail (room_of self.old) (length (spelling batch.commands)) ≡ true
            → TakesCalls 4 (D.history (disk_of self.old)) (D.history (disk_of self.new)) (is_err result) }
        ensures calls { D.is_honest (disk_of self.old) ≡ true
            → (D.history (disk_of self.new)).now ≤ (D.history (disk_of self.old)).now + calls_for (room_of self.old) batch.commands }
        ensures device { Counts (D.failures (disk_of self.old)) (D.failures (disk_of self.new)) (failed_append result) }
        ensures same_sectors { sectors_of self.new ≡ sectors_of self.old }
        ensures same_size { D.size (disk_of self.new) ≡ D.size (disk_of self.old) }
        ensures same_honesty { D.is_honest (disk_of self.new) ≡ D.is_honest (disk_of self.old) }
    {
        match self.put(&batch) {
            Ok(()) => Ok(Receipt::new(batch)),
            Err(fault) => Err((fault, batch)),
        }
    }
}
