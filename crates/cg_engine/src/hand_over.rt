//! Handing the requests of calls to the desk.
ghost use Rattle.std.specs.Prelude.{◌≡◌, [], drop, take};
ghost use Rattle.cg_engine.specs.Requests.{AreServed, waiting_in};
ghost use Rattle.cg_engine.specs.Sides.{desk_of};

use crate::delivery::Deliveries;
use crate::desk_side::DeskSide;
use crate::engine::Engine;
use crate::requests::Requests;
use cg_disk::SectorDisk;
use std::sync::Wait;
use std::sync::ledger::Ledger;

/// Most requests that are handed over before another thread may have the desk lock.
pub const TURN_REQUESTS: u32 = 32;

// Hands the first requests of a list to the desk, at most `TURN_REQUESTS`.
fn serve_some<L: Ledger, R: Wait>(
    rt: &R,
    desk: &mut DeskSide<L>,
    requests: &mut Requests<L>,
    deliveries: &mut Deliveries<L>,
)
    ensures left { waiting_in requests.new ≡ drop TURN_REQUESTS (waiting_in requests.old) }
    ensures served { AreServed (desk_of desk.old) (take TURN_REQUESTS (waiting_in requests.old)) (desk_of desk.new) }
{
    for _ in 0..TURN_REQUESTS {
        if let Some(submission) = requests.next() {
            desk.serve(rt, submission, deliveries);
        }
    }
}

impl<D: SectorDisk + Drop, L: Ledger> Engine<D, L> {
    /// Hands the requests of calls that were begun to the desk, in their order, and sends the answers that it makes. Returns
    /// whether commands wait for a batch and none is in flight: then the caller has to run a flush round, or notify a thread that
    /// does (`notify_flusher`).
    pub fn hand_over<R: Wait>(&self, rt: &R, requests: &mut Requests<L>) -> bool
        ensures { waiting_in requests.new ≡ [] }
    {
        let mut has_pending = false;
        while !requests.is_empty() {
            has_pending = self.hand_over_some(rt, requests);
        }
        has_pending
    }

    // Hands the first requests over under one hold of the desk lock. Returns whether commands wait for a batch and none is in
    // flight.
    fn hand_over_some<R: Wait>(&self, rt: &R, requests: &mut Requests<L>) -> bool
        ensures { waiting_in requests.new ≡ drop TURN_REQUESTS (waiting_in requests.old) }
    {
        let mut deliveries = Deliveries::new(self.alloc);
        let mut desk = self.desk.lock(rt);
        serve_some(rt, &mut desk, requests, &mut deliveries);
        let has_pending = desk.has_pending();
        drop(desk);
        self.send_all(rt, deliveries);
        has_pending
    }
}
