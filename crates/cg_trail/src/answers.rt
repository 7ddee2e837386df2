//! The answers of a session, against the replies of a trail.
ghost use Rattle.std.specs.Prelude.{◌↔◌, ◌++◌, ◌∷◌, [], IsTrue, List};
ghost use Rattle.cg_trail.specs.Entries.{Answer, all_recorded};
ghost use Rattle.cg_trail.specs.Trails.{AreAnswers, ArePicked};

use crate::same::Same;
use crate::trail::Trail;
use crate::trail_entry::TrailEntry;
use cg_group::{Reply, Ticket};

// Goes past the replies, and past each answer that is found among them in its turn. Returns the answers that are left.
fn past<'a>(answers: &'a [(Ticket, Reply)], replies: &[(Ticket, Reply)]) -> &'a [(Ticket, Reply)]
    ensures { (others : List Answer) → ArePicked answers.now (replies.now ++ others) ↔ ArePicked result.now others }
{
    let mut left = answers;
    for reply in replies {
        left = past_one(left, reply);
    }
    left
}

fn past_one<'a>(answers: &'a [(Ticket, Reply)], reply: &(Ticket, Reply)) -> &'a [(Ticket, Reply)]
    ensures { (others : List Answer) → ArePicked answers.now (reply.now ∷ others) ↔ ArePicked result.now others }
{
    match answers {
        [first, rest @ ..] if first.is_same(reply) => rest,
        _ => answers,
    }
}

fn past_entries<'a>(answers: &'a [(Ticket, Reply)], entries: &[TrailEntry]) -> &'a [(Ticket, Reply)]
    ensures { ArePicked answers.now (all_recorded entries.now) ↔ ArePicked result.now [] }
{
    let mut left = answers;
    for entry in entries {
        left = past(left, entry.replies());
    }
    left
}

fn are_none(answers: &[(Ticket, Reply)]) -> bool
    ensures { IsTrue result ↔ ArePicked answers.now [] }
{
    match answers {
        [] => true,
        _ => false,
    }
}

fn are_recorded(answers: &[(Ticket, Reply)], entries: &[TrailEntry]) -> bool
    ensures { IsTrue result ↔ ArePicked answers.now (all_recorded entries.now) }
{
    are_none(past_entries(answers, entries))
}

impl Trail {
    /// Returns whether the answers are replies of this trail, each a different one, in the order of the trail. For the
    /// answers of one session this compares only replies to its calls, since each answer has its ticket. Linear in the
    /// replies of the trail, no allocation.
    pub fn has_answers(&self, answers: &[(Ticket, Reply)]) -> bool
        ensures { IsTrue result ↔ AreAnswers answers.now self.now }
    {
        are_recorded(answers, self.entries.as_slice())
    }
}
