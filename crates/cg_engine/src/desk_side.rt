//! What the desk lock of an engine guards: the desk, the sessions, and the units that no answer has yet.
ghost use Rattle.std.specs.Prelude.{◌≡◌, ◌⊎◌, ◌↔◌, false, IfErr, IfOk, IsTrue, OnErr};
ghost use Rattle.cg_group_table.specs.Kept.{AreRecords};
ghost use Rattle.cg_desk.specs.Tokens.{call_of};
ghost use Rattle.cg_engine.specs.Left.{AreRefusals};
ghost use Rattle.cg_engine.specs.declared.engine_limits.TheConstants.{PARTS};

mod rounds;

use crate::booked::BookedReceipt;
use crate::delivery::Deliveries;
use crate::engine_limits::{PARTS, PARTS_FOR_PASS, PASSES_MAX};
use crate::fault::PassFault;
use crate::kind::CallKind;
use crate::pass::SessionPass;
use crate::pass_state::{Session, Waiting, delivers, refuse_all};
use crate::requests::Submission;
use crate::trail::{Begun, Recorder};
use crate::units::{Part, Pool};
use cg_desk::{Counts, Desk, Outgoing, ReplyToken};
use cg_fold::Durable;
use cg_group::{Request, Ticket};
use cg_names::{Code, Moment};
use cg_record::Command;
use cg_trail::Trail;
use crossbeam_channel::bounded;
use slab::Slab;
use std::alloc::{AllocError, Global};
use std::mem;
use std::sync::Wait;
use std::sync::ledger::{Ledger, Share};
use uuid::Uuid;

/// A desk, the sessions that call it, and the units of settled commands that no answer has.
pub struct DeskSide<L: Ledger> {
    alloc: Global,
    desk: Desk,
    has_failed: bool,
    // Number of commands that were loaded.
    opening: u64,
    sessions: Slab<Session<L>>,
    pool: Pool<L>,
    // The part for the next batch. It is away while a batch is in flight.
    courier: Option<Part<L>>,
    // A receipt that the desk could not settle for lack of memory. The next round settles it first.
    unsettled: Option<BookedReceipt<L>>,
    recorder: Recorder,
    // Whether the wait for commands was ended from outside.
    woken: bool,
}

impl<L: Ledger> DeskSide<L> {
    ghost use Rattle.cg_engine.specs.Recorders.{trail_of};
    ghost use Rattle.cg_desk.specs.Desks.{is_serving, request_on};
    ghost use Rattle.cg_request.specs.Request.{asked};
    ghost use Rattle.cg_engine.specs.Requests.{IsServed};
    ghost use Rattle.cg_engine.specs.Sides.{IsAtRest, desk_of, recorder_of, unpaid_in};

    /// Creates the side of a desk with nothing loaded.
    pub fn new(alloc: Global, share: Share<L>, trail: bool) -> Result<Self, AllocError>
        requires parts { share.parts ≡ PARTS }
        requires none { share.amount ≡ 0 }
    {
        let mut pool = Pool::new(share, PARTS);
        let courier = Some(pool.lend());
        let desk = Desk::loading(alloc)?;
        Ok(DeskSide {
            alloc,
            desk,
            has_failed: false,
            opening: 0,
            sessions: Slab::new(alloc),
            pool,
            courier,
            unsettled: None,
            recorder: Recorder::new(trail),
            woken: false,
        })
    }

    /// Refuses every pending call, and every later one: the disk failed, or the side met what the contracts of the desk exclude,
    /// such as a reply for which no call waits.
    pub fn fail<R: Wait>(&mut self, rt: &R, deliveries: &mut Deliveries<L>)
        ensures desk { is_serving (desk_of self.new) ≡ false }
        ensures calls { IsAtRest self.new }
    {
        self.has_failed = true;
        // The refusals of the calls that wait.
        drop(self.desk.fail());
        refuse_all(rt, &mut self.sessions, self.opening, deliveries);
    }

    // Delivers a reply. Fails if no call waits for it, or no command backs it.
    fn deliver<R: Wait>(&mut self, rt: &R, outgoing: Outgoing, deliveries: &mut Deliveries<L>)
        ensures { (desk_of self.new ≡ desk_of self.old) ⊎ (is_serving (desk_of self.new) ≡ false) }
    {
        if !delivers(
            rt,
            &mut self.sessions,
            &mut self.pool,
            self.opening,
            outgoing,
            deliveries,
        ) {
            self.fail(rt, deliveries);
        }
    }

    fn deliver_all<R: Wait>(&mut self, rt: &R, out: Vec<Outgoing>, deliveries: &mut Deliveries<L>)
        ensures { (desk_of self.new ≡ desk_of self.old) ⊎ (is_serving (desk_of self.new) ≡ false) }
    {
        for outgoing in out {
            self.deliver(rt, outgoing, deliveries);
        }
    }

    /// Returns whether a flush round has something to do: commands wait for a batch and none is in flight, or a receipt has
    /// to be settled.
    pub fn has_pending(&self) -> bool {
        let in_flight = self.courier.is_none();
        self.unsettled.is_some() || !in_flight && self.desk.settled() < self.desk.numbered()
    }

    /// Ends a wait for commands.
    pub fn wake(&mut self) {
        self.woken = true;
    }

    /// Returns whether the wait for commands is over.
    pub fn ends_wait(&self) -> bool {
        self.woken || self.has_pending()
    }

    /// Forgets that a wait was ended.
    pub fn clear_wake(&mut self) {
        self.woken = false;
    }

    /// Returns the number of the last command.
    pub fn numbered(&self) -> u64 {
        self.desk.numbered()
    }

    /// Returns what the desk has.
    pub fn counts(&self) -> Counts {
        self.desk.counts()
    }

    /// Begins to serve a state, and a trail where the commands of its snapshot are given. If an allocation fails,
    /// nothing changes.
    pub fn load(
        &mut self,
        number: u64,
        durable: Durable,
        now: Moment,
        loaded: Option<Vec<Command>>,
    ) -> Result<(), AllocError>
        requires { AreRecords durable }
    {
        if !self.desk.is_loading() {
            return Err(AllocError);
        }
        match self.desk.loaded(number, durable, now) {
            Ok(()) => {
                self.opening = number;
                if let Some(loaded) = loaded {
                    self.recorder.load(self.alloc, loaded, now);
                }
                Ok(())
            }
            Err((error, _durable)) => Err(error),
        }
    }

    /// Returns how many passes were made.
    pub fn passes(&self) -> usize {
        self.sessions.len()
    }

    /// Makes a pass.
    pub fn pass(&mut self) -> Result<SessionPass<L>, PassFault> {
        if self.sessions.len() >= PASSES_MAX || self.pool.parts() < PARTS_FOR_PASS {
            return Err(PassFault::Full);
        }
        let (answers, receiver) = bounded(self.alloc, 1)?;
        self.sessions.reserve(1)?;
        let units = self.pool.lend().without_units();
        let part = self.pool.lend();
        let session = Session {
            answers,
            waiting: None,
        };
        let key = self.sessions.insert_reserved(session);
        let noted = self.recorder.noted(self.alloc);
        Ok(SessionPass::new(key as u64, units, part, receiver, noted))
    }

    // Notes that a call waits for its answer. Returns whether its pass is known, and no other call of it waits.
    fn waits(&mut self, waiting: Waiting<L>) -> bool
        ensures { desk_of self.new ≡ desk_of self.old }
    {
        match self.sessions.get_mut(waiting.ticket.session as usize) {
            Some(session) => mem::replace(&mut session.waiting, Some(waiting)).is_none(),
            None => false,
        }
    }

    // Prepares to record a request that the desk will hand to its machine.
    fn begin(
        &mut self,
        ticket: Ticket,
        request: Request,
        now: Moment,
        fresh: Uuid,
    ) -> Result<(Request, Option<Begun>), AllocError>
        ensures request { IfOk result (λ begun. begun.0 ≡ request) }
        ensures desk { desk_of self.new ≡ desk_of self.old }
    {
        if self.has_failed {
            return Ok((request, None));
        }
        self.recorder
            .begin(self.alloc, &self.desk, ticket, request, now, fresh)
    }

    // Asks the desk, and records the request. If an allocation fails, returns the token.
    fn request(
        &mut self,
        token: ReplyToken,
        request: Request,
        now: Moment,
        fresh: Uuid,
    ) -> Result<Vec<Outgoing>, ReplyToken>
        ensures ok { IfOk result
            (λ out. request_on (desk_of self.old) token (asked request (call_of token) fresh) now ≡ record { after = desk_of self.new; out = out.items }) }
        ensures err { OnErr result (desk_of self.new ≡ desk_of self.old) }
        ensures back { IfErr result (λ back. call_of back ≡ call_of token) }
    {
        let Ok((request, begun)) = self.begin(token.ticket(), request, now, fresh) else {
            return Err(token);
        };
        match self.desk.request(token, request, now, fresh) {
            Ok(out) => {
                self.recorder
                    .end(self.alloc, &self.desk, begun, out.as_slice());
                Ok(out)
            }
            Err((_memory, token)) => Err(token),
        }
    }

    /// Hands a submitted request to the desk. If an allocation fails, the answer is -1.
    pub fn serve<R: Wait>(
        &mut self,
        rt: &R,
        submission: Submission<L>,
        deliveries: &mut Deliveries<L>,
    )
        ensures { IsServed (desk_of self.old) submission (desk_of self.new) }
    {
        let Submission {
            ticket,
            part,
            request,
            now,
            fresh,
        } = submission;
        let kind = CallKind::of(&request);
        if !self.waits(Waiting { ticket, kind, part }) {
            self.fail(rt, deliveries);
            return;
        }
        match self.request(ReplyToken::new(ticket), request, now, fresh) {
            Ok(out) => self.deliver_all(rt, out, deliveries),
            Err(token) => self.deliver(rt, token.refuse(Code::UnknownServerError), deliveries),
        }
    }

    /// Returns the trail, if one is kept.
    pub fn recorder(&self) -> &Recorder
        ensures { result.now ≡ recorder_of self.now }
    {
        &self.recorder
    }

    /// Returns whether this is the number of the units that no pass has.
    pub fn has_unpaid(&self, units: u64) -> bool
        ensures { IsTrue result ↔ (unpaid_in self.now ≡ units) }
    {
        let unsettled = match &self.unsettled {
            Some(booked) => booked.units.count(),
            None => 0,
        };
        self.pool.count().checked_add(unsettled) == Some(units)
    }

    /// Ends the side: refuses every pending call. Returns the refusals, and the trail, if one was kept.
    pub fn close(self) -> (Vec<Outgoing>, Option<Trail>)
        ensures refused { AreRefusals result.0.items }
        ensures trail { result.1 ≡ trail_of (recorder_of self) }
    {
        let DeskSide {
            alloc: _,
            desk,
            has_failed: _,
            opening: _,
            sessions: _,
            pool: _,
            courier: _,
            unsettled: _,
            recorder,
            woken: _,
        } = self;
        (desk.close(), recorder.into_trail())
    }
}
