//! The answers that a pass notes, for the test of a trail.
ghost use Rattle.std.specs.Prelude.{◌≡◌, ◌∷◌, ◌++◌, [], OnOk, ◌↔◌, IsTrue};
ghost use Rattle.cg_desk.specs.Outgoings.{reply_of, ticket_of};
ghost use Rattle.cg_engine.specs.Noted.{AreIn, IsNoted, is_refused};

use crate::trail::reply_copies::copied_reply;
use cg_desk::Outgoing;
use cg_group::{Listed, Reply, Ticket};
use cg_names::Code;
use cg_trail::Trail;
use std::alloc::{AllocError, Global};

/// The answers to the calls of a pass, other than refusals with 14, 15, -1 and 42, each with the ticket of its call.
#[derive(Drop)]
pub enum Noted {
    /// The engine keeps no trail.
    Off,
    Kept(Listed<(Ticket, Reply)>),
    /// An allocation failed, so that an answer is missing.
    Lost,
}

// Returns whether a reply is a refusal that depends on no command.
fn is_refused(reply: &Reply) -> bool
    ensures { result ≡ is_refused reply.now }
{
    matches!(
        reply,
        Reply::Refused(
            Code::UnknownServerError
                | Code::CoordinatorLoadInProgress
                | Code::CoordinatorNotAvailable
                | Code::InvalidRequest
        )
    )
}

fn push_copy(
    alloc: Global,
    answers: &mut Listed<(Ticket, Reply)>,
    outgoing: &Outgoing,
) -> Result<(), AllocError>
    ensures { OnOk result (answers.new ≡ answers.old ++ (ticket_of outgoing.now, reply_of outgoing.now) ∷ []) }
{
    let copy = copied_reply(alloc, outgoing.reply())?;
    answers.push((outgoing.ticket(), copy))?;
    Ok(())
}

impl Noted {
    /// Notes the answer to a call.
    pub fn note(&mut self, alloc: Global, outgoing: &Outgoing)
        ensures { IsNoted self.old (ticket_of outgoing.now) (reply_of outgoing.now) self.new }
    {
        if is_refused(outgoing.reply()) {
            return;
        }
        let Noted::Kept(answers) = self else {
            return;
        };
        if push_copy(alloc, answers, outgoing).is_err() {
            *self = Noted::Lost;
        }
    }

    /// Returns whether an answer is missing.
    pub fn is_lost(&self) -> bool {
        matches!(self, Noted::Lost)
    }

    /// Returns whether the answers are replies of a trail, each a different one, in the order of the trail.
    pub fn are_in(&self, trail: &Trail) -> bool
        ensures { IsTrue result ↔ AreIn self.now trail.now }
    {
        match self {
            Noted::Kept(answers) => trail.has_answers(answers.as_slice()),
            Noted::Off | Noted::Lost => false,
        }
    }
}
