//! Calls of the engine: a request on its way to the desk, and the wait for its answer.
ghost use Rattle.std.specs.Prelude.{◌≡◌, ◌+◌, ◌<◌, ◌∷◌, ◌++◌, [], IfErr, IfOk};
ghost use Rattle.cg_desk.specs.Outgoings.{made_of, reply_of, ticket_of};
ghost use Rattle.cg_request.specs.Request.{asked};
ghost use Rattle.cg_engine.specs.Noted.{IsNoted};
ghost use Rattle.cg_engine.specs.Passes.{IfEnded, IfWaits, MatchBegun, calls_after, calls_of, next_ticket, noted_of, number_of, pending_calls, pending_kind, pending_noted, pending_number, pending_ticket, pending_units, units_of};
ghost use Rattle.cg_engine.specs.Requests.{events_in};
ghost use Rattle.cg_engine.specs.Worth.{kind_of, worth};

use crate::answer::Answer;
use crate::engine::Engine;
use crate::engine_limits::CALLS_MAX;
use crate::kind::CallKind;
use crate::pass::SessionPass;
use crate::pending_call::{BegunCall, PendingCall};
use crate::requests::{Requests, Submission};
use cg_desk::{Outgoing, ReplyToken};
use cg_disk::SectorDisk;
use cg_group::{Reply, Request};
use cg_names::{Code, Moment};
use std::sync::Wait;
use std::sync::ledger::Ledger;
use uuid::Uuid;

impl<L: Ledger> Requests<L> {
    /// Begins a call: its request is added to the list. Once `Engine::hand_over` has handed it over, `Engine::end_call` ends the
    /// call or, when the answer has come, `Engine::try_end_call`. A call that ends here was refused, by 15 or -1 as
    /// `Engine::call` refuses it.
    pub fn begin_call(
        &mut self,
        pass: SessionPass<L>,
        request: Request,
        now: Moment,
        fresh: Uuid,
    ) -> BegunCall<L>
        ensures number { MatchBegun result (λ ended outgoing. number_of ended ≡ number_of pass) (λ call. pending_number call ≡ number_of pass) }
        ensures ticket { MatchBegun result (λ ended outgoing. ticket_of outgoing ≡ next_ticket pass) (λ call. pending_ticket call ≡ next_ticket pass) }
        ensures calls { MatchBegun result (λ ended outgoing. calls_of ended ≡ calls_after (calls_of pass)) (λ call. pending_calls call ≡ calls_of pass) }
        ensures limit { MatchBegun result (λ ended outgoing. calls_of pass ≡ CALLS_MAX → reply_of outgoing ≡ Reply.Refused Code.CoordinatorNotAvailable) (λ call. calls_of pass < CALLS_MAX) }
        ensures memory { IfEnded result (λ ended outgoing. calls_of pass < CALLS_MAX → reply_of outgoing ≡ Reply.Refused Code.UnknownServerError) }
        ensures noted { MatchBegun result (λ ended outgoing. IsNoted (noted_of pass) (ticket_of outgoing) (reply_of outgoing) (noted_of ended)) (λ call. pending_noted call ≡ noted_of pass) }
        ensures units { MatchBegun result (λ ended outgoing. units_of ended ≡ units_of pass + worth (kind_of request) (reply_of outgoing) (made_of outgoing)) (λ call. pending_units call ≡ units_of pass) }
        ensures added { MatchBegun result (λ ended outgoing. events_in self.new ≡ events_in self.old) (λ call. events_in self.new ≡ events_in self.old ++ (asked request (next_ticket pass) fresh, now) ∷ []) }
        ensures kind { IfWaits result (λ call. pending_kind call ≡ kind_of request) }
    {
        let ticket = pass.next_ticket();
        let kind = CallKind::of(&request);
        if pass.calls() >= CALLS_MAX {
            let token = ReplyToken::new(ticket);
            return BegunCall::Ended(pass, token.refuse(Code::CoordinatorNotAvailable));
        }
        let (caller, part) = pass.begin();
        let submission = Submission {
            ticket,
            part,
            request,
            now,
            fresh,
        };
        match self.add(submission) {
            Ok(()) => BegunCall::Waits(PendingCall {
                caller,
                ticket,
                kind,
            }),
            Err(Submission { part, .. }) => {
                let token = ReplyToken::new(ticket);
                BegunCall::Ended(caller.refused(part), token.refuse(Code::UnknownServerError))
            }
        }
    }
}

impl<D: SectorDisk + Drop, L: Ledger> Engine<D, L> {
    /// Calls the desk at the moment `now`, and waits for the answer to this call. From the UUID `fresh` the desk draws the id of
    /// a new member. The units of the pass grow by what the answer is worth: settled commands, of which no other answer has a
    /// unit. A pass that has made its last call is answered 15, which is not counted as a call. Where an allocation fails the
    /// answer is -1.
    pub fn call<R: Wait>(
        &self,
        rt: &R,
        pass: SessionPass<L>,
        request: Request,
        now: Moment,
        fresh: Uuid,
    ) -> (SessionPass<L>, Outgoing)
        ensures number { number_of result.0 ≡ number_of pass }
        ensures ticket { ticket_of result.1 ≡ next_ticket pass }
        ensures calls { calls_of result.0 ≡ calls_after (calls_of pass) }
        ensures limit { calls_of pass ≡ CALLS_MAX → reply_of result.1 ≡ Reply.Refused Code.CoordinatorNotAvailable }
        ensures noted { IsNoted (noted_of pass) (ticket_of result.1) (reply_of result.1) (noted_of result.0) }
        ensures units { units_of result.0 ≡ units_of pass + worth (kind_of request) (reply_of result.1) (made_of result.1) }
    {
        let mut requests = Requests::new(self.alloc);
        match requests.begin_call(pass, request, now, fresh) {
            BegunCall::Ended(pass, outgoing) => (pass, outgoing),
            BegunCall::Waits(call) => {
                if self.hand_over(rt, &mut requests) {
                    self.notify_flusher();
                }
                self.end_call(rt, call)
            }
        }
    }

    /// Waits for the answer to a call, which ends it. Its request has to be handed over before.
    pub fn end_call<R: Wait>(&self, rt: &R, call: PendingCall<L>) -> (SessionPass<L>, Outgoing)
        ensures number { number_of result.0 ≡ pending_number call }
        ensures ticket { ticket_of result.1 ≡ pending_ticket call }
        ensures calls { calls_of result.0 ≡ pending_calls call + 1 }
        ensures noted { IsNoted (pending_noted call) (ticket_of result.1) (reply_of result.1) (noted_of result.0) }
        ensures units { units_of result.0 ≡ pending_units call + worth (pending_kind call) (reply_of result.1) (made_of result.1) }
    {
        let answer = self.awaited(rt, &call);
        let PendingCall { caller, .. } = call;
        caller.answered(self.alloc, answer)
    }

    /// Ends a call if its answer has come, and does not wait for it. Otherwise returns the call.
    pub fn try_end_call<R: Wait>(
        &self,
        rt: &R,
        call: PendingCall<L>,
    ) -> Result<(SessionPass<L>, Outgoing), PendingCall<L>>
        ensures number { IfOk result (λ ended. number_of ended.0 ≡ pending_number call) }
        ensures ticket { IfOk result (λ ended. ticket_of ended.1 ≡ pending_ticket call) }
        ensures calls { IfOk result (λ ended. calls_of ended.0 ≡ pending_calls call + 1) }
        ensures noted { IfOk result (λ ended. IsNoted (pending_noted call) (ticket_of ended.1) (reply_of ended.1) (noted_of ended.0)) }
        ensures units { IfOk result (λ ended. units_of ended.0 ≡ pending_units call + worth (pending_kind call) (reply_of ended.1) (made_of ended.1)) }
        ensures back { IfErr result (λ back. back ≡ call) }
    {
        match call.caller.answers.try_recv(rt) {
            Ok(answer) if call.is_answered_by(&answer) => {
                let PendingCall { caller, .. } = call;
                Ok(caller.answered(self.alloc, answer))
            }
            _ => Err(call),
        }
    }

    /// Notifies a thread in `await_commands`, which returns if commands are pending.
    pub fn notify_flusher(&self) {
        self.pending.notify_one();
    }

    // Waits for the answer to a call.
    fn awaited<R: Wait>(&self, rt: &R, call: &PendingCall<L>) -> Answer<L>
        ensures ticket { ticket_of result.outgoing ≡ pending_ticket call.now }
        ensures kind { result.kind ≡ pending_kind call.now }
    {
        for _ in rt.forever() {
            if let Ok(answer) = call.caller.answers.recv(rt) {
                if call.is_answered_by(&answer) {
                    return answer;
                }
            }
        }
        unreachable!()
    }
}
