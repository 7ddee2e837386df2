//! The steps of the desk's side that no call asks for: a tick, and the rounds of a flusher.
ghost use Rattle.std.specs.Prelude.{◌↔◌, ◌+◌, ◌<◌, ◌^◌, IsTrue};
ghost use Rattle.cg_engine.specs.Units.{units_in};

use crate::booked::BookedReceipt;
use crate::delivery::Deliveries;
use crate::desk_side::DeskSide;
use crate::fault::{RoundEnd, RoundFault, Skip};
use crate::taken::{Taken, TakenBatch};
use crate::units::Part;
use cg_desk::{SettleFault, TakeFault};
use cg_names::Moment;
use cg_store::{Batch, StoreFault};
use std::sync::Wait;
use std::sync::ledger::Ledger;

impl<L: Ledger> DeskSide<L> {
    // Fails, since desk and store do not fit each other. Returns the fault of the round.
    fn misfit<R: Wait>(&mut self, rt: &R, deliveries: &mut Deliveries<L>) -> RoundFault {
        self.fail(rt, deliveries);
        RoundFault::Failed
    }

    /// Runs the time-dependent rules.
    pub fn tick<R: Wait>(
        &mut self,
        rt: &R,
        now: Moment,
        deliveries: &mut Deliveries<L>,
    ) -> Result<RoundEnd, RoundFault> {
        if self.has_failed {
            return Err(RoundFault::Failed);
        }
        if self.desk.is_loading() {
            return Ok(RoundEnd::Nothing);
        }
        let held = self.recorder.begin_tick(&self.desk)?;
        let out = self.desk.tick(now)?;
        self.recorder
            .end_tick(self.alloc, &self.desk, held, now, out.as_slice());
        self.deliver_all(rt, out, deliveries);
        Ok(RoundEnd::Done)
    }

    /// Takes the next batch. Settles a receipt first that is left from an earlier round.
    pub fn take<R: Wait>(
        &mut self,
        rt: &R,
        deliveries: &mut Deliveries<L>,
    ) -> Result<Taken<L>, RoundFault> {
        if self.has_failed {
            return Err(RoundFault::Failed);
        }
        let nothing = match self.unsettled.take() {
            Some(receipt) => self.settle(rt, receipt, deliveries)?,
            None => RoundEnd::Nothing,
        };
        let Some(part) = self.courier.take() else {
            return Ok(Taken::End(RoundEnd::Skipped(Skip::InFlight)));
        };
        match self.desk.take_batch() {
            Ok(Some(batch)) => Ok(Taken::Batch(TakenBatch { batch, part })),
            Ok(None) => {
                self.courier = Some(part);
                Ok(Taken::End(nothing))
            }
            Err(TakeFault::InFlight) => {
                self.courier = Some(part);
                Err(self.misfit(rt, deliveries))
            }
            Err(TakeFault::Memory) => {
                self.courier = Some(part);
                Err(RoundFault::Memory)
            }
        }
    }

    // Returns whether the pool has room for these units.
    fn has_room_for(&self, units: u64) -> bool
        ensures { IsTrue result ↔ (units_in self.now.pool + units < 2 ^ 64) }
    {
        self.pool.count().checked_add(units).is_some()
    }

    /// Settles an appended batch and sends the replies that leave. A receipt that is refused is kept.
    pub fn settle<R: Wait>(
        &mut self,
        rt: &R,
        booked: BookedReceipt<L>,
        deliveries: &mut Deliveries<L>,
    ) -> Result<RoundEnd, RoundFault> {
        if !self.has_room_for(booked.units.count()) {
            self.unsettled = Some(booked);
            return Err(self.misfit(rt, deliveries));
        }
        let BookedReceipt { receipt, units } = booked;
        match self.desk.settle(receipt) {
            Ok(out) => {
                self.courier = Some(self.pool.collect(units));
                self.deliver_all(rt, out, deliveries);
                Ok(RoundEnd::Done)
            }
            Err((fault, receipt)) => {
                self.unsettled = Some(BookedReceipt { receipt, units });
                match fault {
                    SettleFault::Memory => Err(RoundFault::Memory),
                    SettleFault::NotInFlight | SettleFault::Foreign => {
                        Err(self.misfit(rt, deliveries))
                    }
                }
            }
        }
    }

    /// Takes back a batch that the store refused.
    pub fn refused<R: Wait>(
        &mut self,
        rt: &R,
        fault: Option<StoreFault>,
        batch: Batch,
        part: Part<L>,
        deliveries: &mut Deliveries<L>,
    ) -> Result<RoundEnd, RoundFault> {
        self.courier = Some(part);
        match fault {
            // The store is not there yet.
            None => self.give_back(rt, batch, Ok(RoundEnd::Nothing), deliveries),
            Some(StoreFault::Full) => {
                self.give_back(rt, batch, Ok(RoundEnd::Skipped(Skip::Full)), deliveries)
            }
            Some(StoreFault::Memory) => {
                self.give_back(rt, batch, Err(RoundFault::Memory), deliveries)
            }
            Some(StoreFault::Device) => {
                self.fail(rt, deliveries);
                Err(RoundFault::Device)
            }
            Some(StoreFault::Failed | StoreFault::OutOfOrder) => Err(self.misfit(rt, deliveries)),
        }
    }

    // Gives a batch back to the desk. Returns how the round ended.
    fn give_back<R: Wait>(
        &mut self,
        rt: &R,
        batch: Batch,
        end: Result<RoundEnd, RoundFault>,
        deliveries: &mut Deliveries<L>,
    ) -> Result<RoundEnd, RoundFault> {
        match self.desk.give_back(batch) {
            Ok(()) => end,
            Err(_) => Err(self.misfit(rt, deliveries)),
        }
    }
}
