//! Requests on their way to the desk.
ghost use Rattle.std.specs.Prelude.{◌≡◌, ◌↔◌, ◌∷◌, ◌++◌, [], length, IfErr, IfNone, IsTrue, OnErr, OnOk, option_to_list};
ghost use Rattle.cg_engine.specs.Requests.{waiting_in};

use crate::units::Part;
use cg_group::{Request, Ticket};
use cg_names::Moment;
use std::alloc::Global;
use std::collections::VecDeque;
use std::sync::ledger::Ledger;
use uuid::Uuid;

/// A request of a call that was begun, and what the desk needs to answer it.
#[derive(Drop)]
pub struct Submission<L: Ledger> {
    pub ticket: Ticket,
    /// The part onto which the units of its answer are paid.
    pub part: Part<L>,
    pub request: Request,
    pub now: Moment,
    pub fresh: Uuid,
}

/// The requests of calls that one thread began, in their order. `Engine::hand_over` hands them to the desk.
#[derive(Drop)]
pub struct Requests<L: Ledger> {
    waiting: VecDeque<Submission<L>>,
}

impl<L: Ledger> Requests<L> {
    /// Creates an empty list, without an allocation.
    pub fn new(alloc: Global) -> Self
        ensures { waiting_in result ≡ [] }
    {
        Requests {
            waiting: VecDeque::new(alloc),
        }
    }

    /// Returns how many requests wait.
    pub fn len(&self) -> usize
        ensures { result ≡ length (waiting_in self.now) }
    {
        self.waiting.len()
    }

    /// Returns whether no request waits.
    pub fn is_empty(&self) -> bool
        ensures { IsTrue result ↔ (waiting_in self.now ≡ []) }
    {
        self.waiting.is_empty()
    }

    // Adds a request. If an allocation fails, returns it.
    pub(crate) fn add(&mut self, submission: Submission<L>) -> Result<(), Submission<L>>
        ensures last { OnOk result (waiting_in self.new ≡ waiting_in self.old ++ submission ∷ []) }
        ensures back { IfErr result (λ back. back ≡ submission) }
        ensures same { OnErr result (waiting_in self.new ≡ waiting_in self.old) }
    {
        match self.waiting.push_back(submission) {
            Ok(()) => Ok(()),
            Err(refused) => Err(refused.value),
        }
    }

    // Removes the first request.
    pub(crate) fn next(&mut self) -> Option<Submission<L>>
        ensures first { waiting_in self.old ≡ option_to_list result ++ waiting_in self.new }
        ensures none { IfNone result (waiting_in self.old ≡ []) }
    {
        self.waiting.pop_front()
    }
}
