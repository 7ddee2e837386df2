//! What the desk's side knows of a pass.
ghost use Rattle.std.specs.Prelude.{◌≡◌, ◌≢◌, ℕ, None, length, IfErr, IfOk, IfSome};
ghost use Rattle.slab.specs.Slab.{get};
ghost use Rattle.cg_desk.specs.Answering.{refusal};
ghost use Rattle.cg_engine.specs.Idle.{AreIdle, IsIdle};

use crate::answer::Answer;
use crate::delivery::{Deliveries, Delivery};
use crate::kind::CallKind;
use crate::units::{Part, Pool};
use cg_desk::{Outgoing, ReplyToken};
use cg_group::Ticket;
use cg_names::Code;
use crossbeam_channel::Sender;
use slab::Slab;
use std::sync::Wait;
use std::sync::ledger::Ledger;

/// A call that waits for its answer: its ticket and kind, and the part onto which the units of its answer are paid.
#[derive(Drop)]
pub struct Waiting<L: Ledger> {
    pub ticket: Ticket,
    pub kind: CallKind,
    pub part: Part<L>,
}

/// The desk's end of a pass.
#[derive(Drop)]
pub struct Session<L: Ledger> {
    pub answers: Sender<Answer<L>>,
    pub waiting: Option<Waiting<L>>,
}

impl<L: Ledger> Waiting<L> {
    /// Refuses the call with 15.
    pub fn refused(self, opening: u64) -> Answer<L>
        ensures kind { result.kind ≡ self.kind }
        ensures refused { result.outgoing ≡ refusal self.ticket }
    {
        let Waiting { ticket, kind, part } = self;
        let token = ReplyToken::new(ticket);
        Answer {
            kind,
            outgoing: token.refuse(Code::CoordinatorNotAvailable),
            units: part.without_units(),
            opening,
        }
    }

    /// Pays the units of a reply to the call. Returns the call if no command backs the reply.
    pub fn paid(
        self,
        pool: &mut Pool<L>,
        opening: u64,
        outgoing: Outgoing,
    ) -> Result<Answer<L>, Self>
        ensures kind { IfOk result (λ answer. answer.kind ≡ self.kind) }
        ensures outgoing { IfOk result (λ answer. answer.outgoing ≡ outgoing) }
        ensures back { IfErr result (λ back. back ≡ self) }
    {
        let made = outgoing.made();
        let worth = self.kind.worth(outgoing.reply(), made);
        if worth != made || made > pool.count() {
            return Err(self);
        }
        let Waiting {
            ticket: _,
            kind,
            part,
        } = self;
        let units = pool.pay(part, worth);
        Ok(Answer {
            kind,
            outgoing,
            units,
            opening,
        })
    }
}

impl<L: Ledger> Session<L> {
    /// Removes the call that waits, if it has this ticket.
    pub fn take_waiting(&mut self, ticket: Ticket) -> Option<Waiting<L>>
        ensures { IfSome result (λ waiting. waiting.ticket ≡ ticket) }
    {
        match &self.waiting {
            Some(waiting) if waiting.ticket == ticket => self.waiting.take(),
            _ => None,
        }
    }

    // Addresses an answer to the pass.
    fn address<R: Wait>(&self, rt: &R, answer: Answer<L>, deliveries: &mut Deliveries<L>) {
        match self.answers.clone() {
            Ok(to) => deliveries.add(rt, Delivery { to, answer }),
            Err(_) => deliveries.send(rt, &self.answers, answer),
        }
    }

    // Refuses the call that waits, if one does.
    fn refuse<R: Wait>(&mut self, rt: &R, opening: u64, deliveries: &mut Deliveries<L>)
        ensures { self.new.waiting ≡ None }
    {
        if let Some(waiting) = self.waiting.take() {
            self.address(rt, waiting.refused(opening), deliveries);
        }
    }
}

/// Addresses a reply to the call that waits for it. Returns whether one does, and commands back the reply.
pub fn delivers<L: Ledger, R: Wait>(
    rt: &R,
    sessions: &mut Slab<Session<L>>,
    pool: &mut Pool<L>,
    opening: u64,
    outgoing: Outgoing,
    deliveries: &mut Deliveries<L>,
) -> bool {
    let ticket = outgoing.ticket();
    let Some(session) = sessions.get_mut(ticket.session as usize) else {
        return false;
    };
    let Some(waiting) = session.take_waiting(ticket) else {
        return false;
    };
    match waiting.paid(pool, opening, outgoing) {
        Ok(answer) => {
            session.address(rt, answer, deliveries);
            true
        }
        Err(waiting) => {
            session.waiting = Some(waiting);
            false
        }
    }
}

// Refuses the call of one pass that waits.
fn refuse_at<L: Ledger, R: Wait>(
    rt: &R,
    sessions: &mut Slab<Session<L>>,
    key: usize,
    opening: u64,
    deliveries: &mut Deliveries<L>,
)
    ensures idle { IsIdle (get sessions.new key) }
    ensures others { (other : ℕ) → other ≢ key → get sessions.new other ≡ get sessions.old other }
    ensures len { length sessions.new.slots ≡ length sessions.old.slots }
{
    if let Some(session) = sessions.get_mut(key) {
        session.refuse(rt, opening, deliveries);
    }
}

/// Refuses every call that waits with 15. Linear in the passes.
pub fn refuse_all<L: Ledger, R: Wait>(
    rt: &R,
    sessions: &mut Slab<Session<L>>,
    opening: u64,
    deliveries: &mut Deliveries<L>,
)
    ensures { AreIdle sessions.new }
{
    for key in 0..sessions.capacity() {
        refuse_at(rt, sessions, key, opening, deliveries);
    }
}
