//! Replies that leave the desk.
ghost use Rattle.std.specs.Prelude.{◌≡◌};

use cg_group::{Reply, Ticket};

/// A reply that leaves, with the ticket of its request and the number of commands that the request made. Only a spent
/// token makes one.
#[derive(Debug, Drop)]
pub struct Outgoing {
    ticket: Ticket,
    reply: Reply,
    made: u64,
}

impl Outgoing {
    ghost use Rattle.cg_desk.specs.Outgoings.{answer, made_of, reply_of, ticket_of};

    pub(crate) fn new(ticket: Ticket, reply: Reply, made: u64) -> Self
        ensures { result ≡ answer ticket reply made }
    {
        Outgoing {
            ticket,
            reply,
            made,
        }
    }

    /// Returns the ticket of the request.
    pub fn ticket(&self) -> Ticket
        ensures { result ≡ ticket_of self.now }
    {
        self.ticket
    }

    /// Returns the reply.
    pub fn reply(&self) -> &Reply
        ensures { result.now ≡ reply_of self.now }
    {
        &self.reply
    }

    /// Returns how many commands the step of this request made, if the reply was made in that very step. Otherwise
    /// returns 0: for the reply to a parked request that another step answers, and for a refusal.
    pub fn made(&self) -> u64
        ensures { result ≡ made_of self.now }
    {
        self.made
    }

    /// Returns the reply and drops the ticket.
    pub fn into_reply(self) -> Reply
        ensures { result ≡ reply_of self }
    {
        let Outgoing { reply, .. } = self;
        reply
    }
}
