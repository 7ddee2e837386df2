//! The obligation to answer one request.
ghost use Rattle.std.specs.Prelude.{◌≡◌, ◌≤◌, IsTrue};
ghost use Rattle.cg_desk.specs.Outgoings.{answer};
ghost use Rattle.cg_desk.specs.Permits.{front_of};
ghost use Rattle.cg_desk.specs.Refusals.{is_refusal};

use crate::outgoing::Outgoing;
use crate::permit::Permit;
use cg_group::{Reply, Ticket};
use cg_names::Code;

/// Obligation to answer one pending request. A token cannot be dropped and can be spent once.
#[derive(Debug)]
pub struct ReplyToken {
    ticket: Ticket,
}

impl ReplyToken {
    ghost use Rattle.cg_desk.specs.Tokens.{call_of};

    /// Creates the token of the request with this ticket.
    pub fn new(ticket: Ticket) -> Self
        ensures { call_of result ≡ ticket }
    {
        ReplyToken { ticket }
    }

    /// Returns the ticket of the pending request.
    pub fn ticket(&self) -> Ticket
        ensures { result ≡ call_of self.now }
    {
        self.ticket
    }

    /// Answers the request, which made `made` commands, with a reply that depends on all commands up to number `need`.
    pub fn spend(self, reply: Reply, need: u64, made: u64, permit: &Permit) -> Outgoing
        requires { need ≤ front_of permit.now }
        ensures { result ≡ answer (call_of self) reply made }
    {
        let ReplyToken { ticket } = self;
        Outgoing::new(ticket, reply, made)
    }

    /// Answers the request with a code that depends on no command: -1 (an allocation failed), 14 (loading), 15 (not
    /// available) or 42 (malformed request).
    pub fn refuse(self, code: Code) -> Outgoing
        requires { IsTrue (is_refusal code) }
        ensures { result ≡ answer (call_of self) (Reply.Refused code) 0 }
    {
        let ReplyToken { ticket } = self;
        Outgoing::new(ticket, Reply::Refused(code), 0)
    }
}
