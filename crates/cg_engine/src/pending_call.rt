//! A call that was begun, and waits for its answer.
ghost use Rattle.std.specs.Prelude.{◌≡◌, IsTrue};
ghost use Rattle.cg_desk.specs.Outgoings.{ticket_of};

use crate::answer::Answer;
use crate::caller::Caller;
use crate::kind::CallKind;
use crate::pass::SessionPass;
use cg_desk::Outgoing;
use cg_group::Ticket;
use std::sync::ledger::Ledger;

/// A call that was begun.
#[derive(Drop)]
pub enum BegunCall<L: Ledger> {
    /// It ended without the desk: the pass has made its last call, or an allocation failed.
    Ended(SessionPass<L>, Outgoing),
    /// It waits for its answer, which may be there already.
    Waits(PendingCall<L>),
}

/// A call that waits for its answer, with the pass that made it.
#[derive(Drop)]
pub struct PendingCall<L: Ledger> {
    pub(crate) caller: Caller<L>,
    pub(crate) ticket: Ticket,
    pub(crate) kind: CallKind,
}

impl<L: Ledger> PendingCall<L> {
    ghost use Rattle.cg_engine.specs.Passes.{pending_kind, pending_ticket};

    /// Returns whether an answer has come. Costs no lock, and moves nothing: a caller with many calls asks this first.
    pub fn has_answer(&self) -> bool {
        !self.caller.answers.is_empty()
    }

    // Returns whether this is the answer to the call. No other answer comes, since a pass has one call at a time.
    pub(crate) fn is_answered_by(&self, answer: &Answer<L>) -> bool
        ensures ticket { IsTrue result → ticket_of answer.now.outgoing ≡ pending_ticket self.now }
        ensures kind { IsTrue result → answer.now.kind ≡ pending_kind self.now }
    {
        answer.outgoing.ticket() == self.ticket && answer.kind == self.kind
    }
}
