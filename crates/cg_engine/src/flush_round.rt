//! Flush rounds: a batch goes from the desk to the store, and its receipt back.
use crate::delivery::Deliveries;
use crate::engine::Engine;
use crate::fault::{RoundEnd, RoundFault};
use crate::taken::{Taken, TakenBatch};
use cg_disk::SectorDisk;
use std::sync::Wait;
use std::sync::ledger::Ledger;

impl<D: SectorDisk + Drop, L: Ledger> Engine<D, L> {
    /// Takes a batch, appends it and settles it: its replies leave. A flusher calls this whenever `await_commands` returns. It is
    /// `take_batch` and `store_batch`.
    pub fn flush_round<R: Wait>(&self, rt: &R) -> Result<RoundEnd, RoundFault> {
        match self.take_batch(rt)? {
            Taken::Batch(taken) => self.store_batch(rt, taken),
            Taken::End(end) => Ok(end),
        }
    }

    /// Takes a batch from the desk. Settles a receipt first that is left from an earlier round: its replies leave.
    pub fn take_batch<R: Wait>(&self, rt: &R) -> Result<Taken<L>, RoundFault> {
        let mut deliveries = Deliveries::new(self.alloc);
        let mut desk = self.desk.lock(rt);
        let taken = desk.take(rt, &mut deliveries);
        drop(desk);
        self.send_all(rt, deliveries);
        taken
    }

    /// Appends a batch and settles it: its replies leave. A batch for which there is no room, no memory or no store yet goes back
    /// to the desk. If the disk fails, every pending call is refused.
    pub fn store_batch<R: Wait>(
        &self,
        rt: &R,
        taken: TakenBatch<L>,
    ) -> Result<RoundEnd, RoundFault> {
        let TakenBatch { batch, part } = taken;
        let appended = self.store.lock(rt).append(batch, part);
        let mut deliveries = Deliveries::new(self.alloc);
        let mut desk = self.desk.lock(rt);
        let end = match appended {
            Ok(receipt) => desk.settle(rt, receipt, &mut deliveries),
            Err((fault, batch, part)) => desk.refused(rt, fault, batch, part, &mut deliveries),
        };
        self.unlock(rt, desk, deliveries);
        end
    }
}
