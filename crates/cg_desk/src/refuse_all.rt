//! Refusing every pending request, after a device failure or when the desk closes.
ghost use Rattle.std.specs.Prelude.{◌≡◌, ◌≤◌, ◌+◌, ◌++◌, [], map, option_to_list, vec_len, vec_capacity};
ghost use Rattle.std.specs.List.{filter_map};
ghost use Rattle.std.specs.VecDeque.{deque_len};
ghost use Rattle.cg_desk.specs.Answering.{after_answering, answering, answering_one, refusal, refused};
ghost use Rattle.cg_desk.specs.Held.{calls_of, replies_of};
ghost use Rattle.cg_desk.specs.Tokens.{without};
ghost use Rattle.cg_group_state.specs.Waiting.{called, waiting_calls};
ghost use Rattle.cg_group_state.specs.declared.calls.Calls.TheVariants.{Any};

use crate::outgoing::Outgoing;
use crate::pending_replies::HeldStep;
use crate::released_replies::refuse_call;
use crate::token::ReplyToken;
use cg_group::{Few, Group, Groups, Items, Member, Reply, Ticket};
use cg_group_state::Calls;
use cg_names::Code;
use std::collections::VecDeque;

fn refuse_reply(tokens: &mut VecDeque<ReplyToken>, held: (Ticket, Reply), out: &mut Vec<Outgoing>)
    requires { vec_len out.old + deque_len tokens.old ≤ vec_capacity out.old }
    ensures out { out.new.items ≡ out.old.items ++ answering_one (refusal held.0) tokens.old.items }
    ensures tokens { tokens.new.items ≡ without held.0 tokens.old.items }
    ensures room { vec_len out.new + deque_len tokens.new ≤ vec_capacity out.new }
    ensures sum { vec_len out.new + deque_len tokens.new ≡ vec_len out.old + deque_len tokens.old }
    ensures capacity { vec_capacity out.new ≡ vec_capacity out.old }
{
    let (ticket, _reply) = held;
    refuse_call(tokens, ticket, out);
}

fn refuse_many(
    tokens: &mut VecDeque<ReplyToken>,
    replies: Vec<(Ticket, Reply)>,
    out: &mut Vec<Outgoing>,
)
    requires { vec_len out.old + deque_len tokens.old ≤ vec_capacity out.old }
    ensures out { out.new.items ≡ out.old.items ++ answering (map refusal (calls_of replies.items)) tokens.old.items }
    ensures tokens { tokens.new.items ≡ after_answering (map refusal (calls_of replies.items)) tokens.old.items }
    ensures room { vec_len out.new + deque_len tokens.new ≤ vec_capacity out.new }
    ensures sum { vec_len out.new + deque_len tokens.new ≡ vec_len out.old + deque_len tokens.old }
    ensures capacity { vec_capacity out.new ≡ vec_capacity out.old }
{
    for reply in replies {
        refuse_reply(tokens, reply, out);
    }
}

#[tactic(auto, unfolding(crate::specs::Answering::answering, crate::specs::Answering::after_answering))]
fn refuse_calls(
    tokens: &mut VecDeque<ReplyToken>,
    replies: Few<(Ticket, Reply)>,
    out: &mut Vec<Outgoing>,
)
    requires { vec_len out.old + deque_len tokens.old ≤ vec_capacity out.old }
    ensures out { out.new.items ≡ out.old.items ++ answering (map refusal (calls_of replies)) tokens.old.items }
    ensures tokens { tokens.new.items ≡ after_answering (map refusal (calls_of replies)) tokens.old.items }
    ensures room { vec_len out.new + deque_len tokens.new ≤ vec_capacity out.new }
    ensures sum { vec_len out.new + deque_len tokens.new ≡ vec_len out.old + deque_len tokens.old }
    ensures capacity { vec_capacity out.new ≡ vec_capacity out.old }
{
    match replies.into_items() {
        Items::One([reply]) => refuse_reply(tokens, reply, out),
        Items::Many(replies) => refuse_many(tokens, replies, out),
    }
}

/// Refuses the request of each held reply, in the order of the replies.
pub fn refuse_held(
    tokens: &mut VecDeque<ReplyToken>,
    held: &mut VecDeque<HeldStep>,
    out: &mut Vec<Outgoing>,
)
    requires { vec_len out.old + deque_len tokens.old ≤ vec_capacity out.old }
    ensures out { out.new.items ≡ out.old.items ++ answering (map refusal (calls_of (replies_of held.old.items))) tokens.old.items }
    ensures tokens { tokens.new.items ≡ after_answering (map refusal (calls_of (replies_of held.old.items))) tokens.old.items }
    ensures held { held.new.items ≡ [] }
    ensures room { vec_len out.new + deque_len tokens.new ≤ vec_capacity out.new }
    ensures sum { vec_len out.new + deque_len tokens.new ≡ vec_len out.old + deque_len tokens.old }
    ensures capacity { vec_capacity out.new ≡ vec_capacity out.old }
{
    while let Some(HeldStep { replies, .. }) = held.pop_front() {
        refuse_calls(tokens, replies, out);
    }
}

#[tactic(auto, unfolding(crate::specs::Answering::answering, crate::specs::Answering::after_answering))]
fn refuse_member(tokens: &mut VecDeque<ReplyToken>, member: &Member, out: &mut Vec<Outgoing>)
    requires { vec_len out.old + deque_len tokens.old ≤ vec_capacity out.old }
    ensures out { out.new.items ≡ out.old.items ++ answering (map refusal (option_to_list (called Any member.now.waits))) tokens.old.items }
    ensures tokens { tokens.new.items ≡ after_answering (map refusal (option_to_list (called Any member.now.waits))) tokens.old.items }
    ensures room { vec_len out.new + deque_len tokens.new ≤ vec_capacity out.new }
    ensures sum { vec_len out.new + deque_len tokens.new ≡ vec_len out.old + deque_len tokens.old }
    ensures capacity { vec_capacity out.new ≡ vec_capacity out.old }
{
    if let Some(ticket) = Calls::Any.called(member.waits) {
        refuse_call(tokens, ticket, out);
    }
}

fn refuse_members(tokens: &mut VecDeque<ReplyToken>, group: &Group, out: &mut Vec<Outgoing>)
    requires { vec_len out.old + deque_len tokens.old ≤ vec_capacity out.old }
    ensures out { out.new.items ≡ out.old.items ++ answering (map refusal (filter_map (λ m. called Any m.waits) group.now.members)) tokens.old.items }
    ensures tokens { tokens.new.items ≡ after_answering (map refusal (filter_map (λ m. called Any m.waits) group.now.members)) tokens.old.items }
    ensures room { vec_len out.new + deque_len tokens.new ≤ vec_capacity out.new }
    ensures sum { vec_len out.new + deque_len tokens.new ≡ vec_len out.old + deque_len tokens.old }
    ensures capacity { vec_capacity out.new ≡ vec_capacity out.old }
{
    for member in group.members.as_slice() {
        refuse_member(tokens, member, out);
    }
}

/// Refuses the requests that are parked in the machine, by group and joining order. One pass over the members of all
/// groups.
pub fn refuse_waiting(tokens: &mut VecDeque<ReplyToken>, groups: &Groups, out: &mut Vec<Outgoing>)
    requires { vec_len out.old + deque_len tokens.old ≤ vec_capacity out.old }
    ensures out { out.new.items ≡ out.old.items ++ answering (map refusal (waiting_calls groups.now.groups)) tokens.old.items }
    ensures tokens { tokens.new.items ≡ after_answering (map refusal (waiting_calls groups.now.groups)) tokens.old.items }
    ensures room { vec_len out.new + deque_len tokens.new ≤ vec_capacity out.new }
    ensures sum { vec_len out.new + deque_len tokens.new ≡ vec_len out.old + deque_len tokens.old }
    ensures capacity { vec_capacity out.new ≡ vec_capacity out.old }
{
    for group in groups.iter() {
        refuse_members(tokens, group, out);
    }
}

/// Refuses the requests of the remaining tokens, in their order.
pub fn refuse_rest(tokens: &mut VecDeque<ReplyToken>, out: &mut Vec<Outgoing>)
    requires { vec_len out.old + deque_len tokens.old ≤ vec_capacity out.old }
    ensures out { out.new.items ≡ out.old.items ++ map refused tokens.old.items }
    ensures tokens { tokens.new.items ≡ [] }
    ensures room { vec_len out.new ≤ vec_len out.old + deque_len tokens.old }
    ensures capacity { vec_capacity out.new ≡ vec_capacity out.old }
{
    while let Some(token) = tokens.pop_front() {
        out.push_reserved(token.refuse(Code::CoordinatorNotAvailable));
    }
}
