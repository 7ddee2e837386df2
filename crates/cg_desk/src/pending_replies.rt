//! Replies that are held until the commands they depend on are settled.
ghost use Rattle.std.specs.Prelude.{◌≡◌, ◌≤◌, ◌<◌, ◌+◌, ◌++◌, vec_len, vec_capacity};
ghost use Rattle.std.specs.VecDeque.{deque_capacity, deque_len};
ghost use Rattle.cg_desk.specs.Answering.{after_answering, answering};
ghost use Rattle.cg_desk.specs.Permits.{front_of};

use crate::origin::Origin;
use crate::outgoing::Outgoing;
use crate::permit::Permit;
use crate::released_replies::answer_calls;
use crate::token::ReplyToken;
use cg_group::{Few, Reply, Ticket};
use std::collections::VecDeque;

/// Replies of one step, in their order. They may leave once the command numbered `origin.need` is settled.
#[derive(Debug, Drop)]
pub struct HeldStep {
    pub origin: Origin,
    pub replies: Few<(Ticket, Reply)>,
}

impl HeldStep {
    ghost use Rattle.cg_desk.specs.Held.{holding, is_waiting, last_replies, released, still_held};

    /// Holds the replies of a step. A step without replies adds nothing.
    pub fn hold(held: &mut VecDeque<HeldStep>, origin: Origin, replies: Few<(Ticket, Reply)>)
        requires { deque_len held.old < deque_capacity held.old }
        ensures { held.new.items ≡ held.old.items ++ holding origin replies }
    {
        if replies.len() > 0 {
            held.push_back_reserved(HeldStep { origin, replies });
        }
    }

    /// Returns whether the first held replies depend on a command after number `settled`. If so, no reply may leave.
    #[tactic(auto, using(crate::proofs::Leaving::front_waits))]
    pub fn are_waiting(held: &VecDeque<HeldStep>, settled: u64) -> bool
        ensures { result ≡ is_waiting settled held.now.items }
    {
        match held.front() {
            Some(next) => next.origin.need > settled,
            None => false,
        }
    }

    /// Returns the replies of the step that was held last, or none if no step is held.
    #[tactic(auto, using(crate::proofs::Leaving::last_is, crate::proofs::Leaving::last_none))]
    pub fn last(held: &VecDeque<HeldStep>) -> &[(Ticket, Reply)]
        ensures { result.now ≡ last_replies held.now.items }
    {
        match held.back() {
            Some(last) => last.replies.as_slice(),
            None => &[],
        }
    }

    /// Releases the held replies whose commands are settled, in the order in which they were made, and stops at the
    /// first step that has to wait.
    pub fn release(
        held: &mut VecDeque<HeldStep>,
        tokens: &mut VecDeque<ReplyToken>,
        permit: &Permit,
        out: &mut Vec<Outgoing>,
    )
        requires { vec_len out.old + deque_len tokens.old ≤ vec_capacity out.old }
        ensures out { out.new.items ≡ out.old.items ++ answering (released (front_of permit.now) held.old.items) tokens.old.items }
        ensures tokens { tokens.new.items ≡ after_answering (released (front_of permit.now) held.old.items) tokens.old.items }
        ensures held { held.new.items ≡ still_held (front_of permit.now) held.old.items }
        ensures room { vec_len out.new + deque_len tokens.new ≤ vec_capacity out.new }
        ensures fewer { deque_len tokens.new ≤ deque_len tokens.old }
        ensures capacity { vec_capacity out.new ≡ vec_capacity out.old }
    {
        while let Some(next) = held.front() {
            if next.origin.need > permit.front() {
                break;
            }
            match held.pop_front() {
                Some(HeldStep { origin, replies }) => {
                    answer_calls(tokens, replies, &origin, permit, out);
                }
                None => unreachable!(),
            }
        }
    }
}
