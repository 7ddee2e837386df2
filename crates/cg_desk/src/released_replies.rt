//! Releasing replies: each reply takes the token of its request when it is held, and leaves with it.
ghost use Rattle.std.specs.Prelude.{◌≡◌, ◌≤◌, ◌+◌, ◌++◌, false, true, map, vec_len, vec_capacity, length, option_to_list};
ghost use Rattle.std.specs.List.{position};
ghost use Rattle.std.specs.Option.{MatchOption};
ghost use Rattle.std.specs.VecDeque.{deque_capacity, deque_len};
ghost use Rattle.cg_desk.specs.Answering.{after_answering, answering, answering_one, refusal};
ghost use Rattle.cg_desk.specs.Held.{calls_of};
ghost use Rattle.cg_desk.specs.Origins.{sent};
ghost use Rattle.cg_desk.specs.Permits.{front_of};
ghost use Rattle.cg_desk.specs.Tokens.{call_of, has_token, is_for, tokens_for, without, without_all};

use crate::origin::Origin;
use crate::outgoing::Outgoing;
use crate::permit::Permit;
use crate::token::ReplyToken;
use cg_group::{Few, Items, Reply, Ticket};
use cg_names::Code;
use std::collections::VecDeque;

fn place_of(tokens: &VecDeque<ReplyToken>, ticket: Ticket) -> Option<usize>
    ensures { result ≡ position (is_for ticket) tokens.now.items }
{
    tokens.iter().position(|token| token.ticket() == ticket)
}

// Removes the first token with this ticket, if there is one. Searches from the front, then moves the tokens before or
// after it, whichever are fewer. Does not allocate.
#[tactic(auto, unfolding(crate::specs::Tokens::has_token, crate::specs::Tokens::without), using(crate::proofs::Found::for_call))]
fn take_token(tokens: &mut VecDeque<ReplyToken>, ticket: Ticket) -> Option<ReplyToken>
    ensures cases { MatchOption result
        (has_token ticket tokens.old.items ≡ false)
        (λ token. (call_of token ≡ ticket) × (has_token ticket tokens.old.items ≡ true)) }
    ensures tokens { tokens.new.items ≡ without ticket tokens.old.items }
    ensures len { deque_len tokens.new + length (option_to_list result) ≡ deque_len tokens.old }
{
    let at = place_of(tokens, ticket)?;
    tokens.remove(at)
}

/// Moves the tokens of the requests that these replies answer to those of the requests with a held reply, in the order of the
/// replies. Linear in the parked requests that came after them.
#[tactic(auto, unfolding(crate::specs::Tokens::tokens_for, crate::specs::Tokens::without_all))]
pub fn move_answered(
    parked: &mut VecDeque<ReplyToken>,
    replied: &mut VecDeque<ReplyToken>,
    replies: &[(Ticket, Reply)],
)
    requires room { deque_len replied.old + deque_len parked.old ≤ deque_capacity replied.old }
    ensures replied { replied.new.items ≡ replied.old.items ++ tokens_for (calls_of replies.now) parked.old.items }
    ensures parked { parked.new.items ≡ without_all (calls_of replies.now) parked.old.items }
    ensures sum { deque_len replied.new + deque_len parked.new ≡ deque_len replied.old + deque_len parked.old }
{
    for reply in replies {
        if let Some(token) = take_token(parked, reply.0) {
            replied.push_back_reserved(token);
        }
    }
}

/// Appends the reply to this ticket's request, if the request has a token. The reply was made by the step `origin`.
/// Linear in the tokens.
pub fn answer_call(
    tokens: &mut VecDeque<ReplyToken>,
    call: (Ticket, Reply),
    origin: &Origin,
    permit: &Permit,
    out: &mut Vec<Outgoing>,
)
    requires need { origin.now.need ≤ front_of permit.now }
    requires room { vec_len out.old + deque_len tokens.old ≤ vec_capacity out.old }
    ensures out { out.new.items ≡ out.old.items ++ answering_one (sent origin.now call) tokens.old.items }
    ensures tokens { tokens.new.items ≡ without call.0 tokens.old.items }
    ensures room { vec_len out.new + deque_len tokens.new ≤ vec_capacity out.new }
    ensures fewer { deque_len tokens.new ≤ deque_len tokens.old }
    ensures capacity { vec_capacity out.new ≡ vec_capacity out.old }
{
    let (ticket, reply) = call;
    match take_token(tokens, ticket) {
        Some(token) => {
            let made = origin.made_for(ticket);
            out.push_reserved(token.spend(reply, origin.need, made, permit));
        }
        None => {}
    }
}

fn answer_many(
    tokens: &mut VecDeque<ReplyToken>,
    replies: Vec<(Ticket, Reply)>,
    origin: &Origin,
    permit: &Permit,
    out: &mut Vec<Outgoing>,
)
    requires need { origin.now.need ≤ front_of permit.now }
    requires room { vec_len out.old + deque_len tokens.old ≤ vec_capacity out.old }
    ensures out { out.new.items ≡ out.old.items ++ answering (map (sent origin.now) replies.items) tokens.old.items }
    ensures tokens { tokens.new.items ≡ after_answering (map (sent origin.now) replies.items) tokens.old.items }
    ensures room { vec_len out.new + deque_len tokens.new ≤ vec_capacity out.new }
    ensures fewer { deque_len tokens.new ≤ deque_len tokens.old }
    ensures capacity { vec_capacity out.new ≡ vec_capacity out.old }
{
    for reply in replies {
        answer_call(tokens, reply, origin, permit, out);
    }
}

/// Appends the replies of the step `origin` in their order, each with the token of its request. Linear in the replies times the
/// tokens.
#[tactic(auto, unfolding(crate::specs::Answering::answering, crate::specs::Answering::after_answering))]
pub fn answer_calls(
    tokens: &mut VecDeque<ReplyToken>,
    replies: Few<(Ticket, Reply)>,
    origin: &Origin,
    permit: &Permit,
    out: &mut Vec<Outgoing>,
)
    requires need { origin.now.need ≤ front_of permit.now }
    requires room { vec_len out.old + deque_len tokens.old ≤ vec_capacity out.old }
    ensures out { out.new.items ≡ out.old.items ++ answering (map (sent origin.now) replies) tokens.old.items }
    ensures tokens { tokens.new.items ≡ after_answering (map (sent origin.now) replies) tokens.old.items }
    ensures room { vec_len out.new + deque_len tokens.new ≤ vec_capacity out.new }
    ensures fewer { deque_len tokens.new ≤ deque_len tokens.old }
    ensures capacity { vec_capacity out.new ≡ vec_capacity out.old }
{
    match replies.into_items() {
        Items::One([reply]) => answer_call(tokens, reply, origin, permit, out),
        Items::Many(replies) => answer_many(tokens, replies, origin, permit, out),
    }
}

/// Appends a refusal with code 15 to this ticket's request, if the request has a token. Linear in the tokens.
pub fn refuse_call(tokens: &mut VecDeque<ReplyToken>, ticket: Ticket, out: &mut Vec<Outgoing>)
    requires { vec_len out.old + deque_len tokens.old ≤ vec_capacity out.old }
    ensures out { out.new.items ≡ out.old.items ++ answering_one (refusal ticket) tokens.old.items }
    ensures tokens { tokens.new.items ≡ without ticket tokens.old.items }
    ensures room { vec_len out.new + deque_len tokens.new ≤ vec_capacity out.new }
    ensures sum { vec_len out.new + deque_len tokens.new ≡ vec_len out.old + deque_len tokens.old }
    ensures fewer { deque_len tokens.new ≤ deque_len tokens.old }
    ensures capacity { vec_capacity out.new ≡ vec_capacity out.old }
{
    match take_token(tokens, ticket) {
        Some(token) => out.push_reserved(token.refuse(Code::CoordinatorNotAvailable)),
        None => {}
    }
}
