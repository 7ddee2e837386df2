//! The steps of clients: requests, closed sessions, ticks.
ghost use Rattle.std.specs.Prelude.{◌≡◌, OnErr, IfOk, IfErr};
ghost use Rattle.cg_desk.specs.Desks.{gone_on, request_on, tick_on};
ghost use Rattle.cg_desk.specs.Outgoings.{answer};
ghost use Rattle.cg_request.specs.Request.{asked};
ghost use Rattle.cg_group_state.specs.declared.reply.Reply.TheVariants as reply;
ghost use Rattle.cg_names.specs.declared.code.Code.TheVariants as code;

use crate::world::World;
use cg_desk::{Outgoing, ReplyToken};
use cg_disk::SectorDisk;
use cg_group::{Request, Ticket};
use cg_names::{Code, Moment};
use std::alloc::AllocError;
use uuid::Uuid;

impl<D: SectorDisk> World<D> {
    ghost use Rattle.cg_world.specs.Sights.{opening_of, sight, store_of};

    /// Passes a request to the desk. If an allocation fails, returns its refusal with -1.
    pub(crate) fn ask(
        &mut self,
        ticket: Ticket,
        request: Request,
        now: Moment,
        fresh: Uuid,
    ) -> Result<Vec<Outgoing>, Outgoing>
        ensures ok { IfOk result
            (λ out. request_on (sight self.old).desk (record { ticket = ticket }) (asked request ticket fresh) now ≡ record { after = (sight self.new).desk; out = out.items }) }
        ensures err { OnErr result (sight self.new ≡ sight self.old) }
        ensures last { IfErr result (λ last. last ≡ answer ticket (reply.Refused code.UnknownServerError) 0) }
        ensures appended { (sight self.new).appended ≡ (sight self.old).appended }
        ensures store { store_of self.new ≡ store_of self.old }
        ensures opening { opening_of self.new ≡ opening_of self.old }
    {
        let token = ReplyToken::new(ticket);
        match self.desk.request(token, request, now, fresh) {
            Ok(out) => Ok(out),
            Err((_, token)) => Err(token.refuse(Code::UnknownServerError)),
        }
    }

    /// Passes a closed session to the desk. If an allocation fails, nothing has changed.
    pub(crate) fn hang_up(&mut self, session: u64, now: Moment) -> Result<Vec<Outgoing>, AllocError>
        ensures ok { IfOk result
            (λ out. gone_on (sight self.old).desk session now ≡ record { after = (sight self.new).desk; out = out.items }) }
        ensures err { OnErr result (sight self.new ≡ sight self.old) }
        ensures appended { (sight self.new).appended ≡ (sight self.old).appended }
        ensures store { store_of self.new ≡ store_of self.old }
        ensures opening { opening_of self.new ≡ opening_of self.old }
    {
        let out = self.desk.gone(session, now)?;
        Ok(out)
    }

    /// Runs the time-dependent rules of the desk. If an allocation fails, nothing has changed.
    pub(crate) fn tick(&mut self, now: Moment) -> Result<Vec<Outgoing>, AllocError>
        ensures ok { IfOk result
            (λ out. tick_on (sight self.old).desk now ≡ record { after = (sight self.new).desk; out = out.items }) }
        ensures err { OnErr result (sight self.new ≡ sight self.old) }
        ensures appended { (sight self.new).appended ≡ (sight self.old).appended }
        ensures store { store_of self.new ≡ store_of self.old }
        ensures opening { opening_of self.new ≡ opening_of self.old }
    {
        let out = self.desk.tick(now)?;
        Ok(out)
    }
}
