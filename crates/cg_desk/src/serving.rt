//! A desk that serves: steps of the machine, their commands and their replies.
ghost use Rattle.std.specs.Prelude.{◌≡◌, ◌≤◌, ◌<◌, ◌+◌, ◌^◌, ◌∷◌, [], false, length, vec_len, vec_capacity, IfOk, IfErr, OnErr};
ghost use Rattle.std.specs.VecDeque.{deque_len};
ghost use Rattle.cg_desk.specs.Flights.{course_of, first_of, unsettled};
ghost use Rattle.cg_desk.specs.Queues.{commands_of};

use crate::flight::Flight;
use crate::number_reserve::{SPARE_NUMBERS, SPARE_NUMBERS_PER_GROUP};
use crate::origin::Origin;
use crate::outgoing::Outgoing;
use crate::pending_replies::HeldStep;
use crate::permit::Permit;
use crate::queue::Queue;
use crate::refuse_all::{refuse_held, refuse_rest, refuse_waiting};
use crate::released_replies::move_answered;
use crate::token::ReplyToken;
use cg_group::{Effects, Event, Groups, Request, Ticket};
use cg_names::Moment;
use cg_store::COMMAND_NUMBER_MAX;
use std::alloc::{AllocError, Global};
use std::collections::VecDeque;
use uuid::Uuid;

/// A group machine, its unsettled commands, and the tokens of its pending requests.
pub struct Serving {
    pub alloc: Global,
    pub groups: Groups,
    /// Number of the last command.
    pub numbered: u64,
    /// Number of the last settled command.
    pub settled: u64,
    /// Commands that were never taken in a batch.
    pub queue: Queue,
    pub flight: Flight,
    /// Replies that wait for their commands.
    pub held: VecDeque<HeldStep>,
    /// Tokens of the requests with a held reply, in the order of the replies.
    pub replied: VecDeque<ReplyToken>,
    /// Tokens of the requests that are parked in the machine, the last one first.
    pub parked: VecDeque<ReplyToken>,
    /// Empty list with room for every token: a failure returns its refusals in it without allocating.
    pub leaving: Vec<Outgoing>,
    ghost counted: { settled + length (unsettled (course_of flight)) + length (commands_of queue) ≡ numbered },
    ghost first: { first_of flight (settled + 1) ≡ settled + 1 },
    ghost empty: { vec_len leaving ≡ 0 },
    ghost room: { deque_len replied + deque_len parked ≤ vec_capacity leaving },
}

impl Serving {
    ghost use Rattle.cg_request.specs.Request.{asked};
    ghost use Rattle.cg_request.specs.declared.event.Event.TheVariants as event;
    ghost use Rattle.cg_desk.specs.Owed.{IsOwed};
    ghost use Rattle.cg_desk.specs.Laws.{AreRefusedOnce, tokens_of};
    ghost use Rattle.cg_desk.specs.Books.{failing, is_short, letting_go, moving, numbering, served};
    ghost use Rattle.cg_desk.specs.Held.{calls_of, is_waiting};
    ghost use Rattle.cg_desk.specs.States as state;
    ghost use Rattle.cg_desk.specs.Serving.{HasRoom, books};
    ghost use Rattle.cg_desk.specs.Tokens.{call_of};

    /// Creates a desk after recovery, with `number` commands numbered and settled and no pending request. Does not
    /// allocate.
    pub fn new(alloc: Global, groups: Groups, number: u64) -> Self
        ensures { books result ≡ record { machine = groups; numbered = number; settled = number; queue = []; course = course_of Flight.Idle; held = []; replied = []; parked = [] } }
    {
        Serving {
            alloc,
            groups,
            numbered: number,
            settled: number,
            queue: Queue::new(alloc),
            flight: Flight::Idle,
            held: VecDeque::new(alloc),
            replied: VecDeque::new(alloc),
            parked: VecDeque::new(alloc),
            leaving: Vec::new(alloc),
        }
    }

    /// Returns whether fewer command numbers are left than a request may use.
    pub fn is_short(&self) -> bool
        ensures { result ≡ is_short (books self.now) }
    {
        let left = COMMAND_NUMBER_MAX.saturating_sub(self.numbered);
        let per_groups = self.groups.held().saturating_mul(SPARE_NUMBERS_PER_GROUP);
        left < per_groups.saturating_add(SPARE_NUMBERS)
    }

    // Reserves room for whatever a step makes, and returns the list for the replies that leave. The list has room for a
    // reply to every pending request, since how many leave is known only after the step. If held replies have to wait,
    // none leaves, and the list does not allocate.
    fn reserve(&mut self, more: usize) -> Result<Vec<Outgoing>, AllocError>
        requires { more ≤ 1 }
        ensures books { books self.new ≡ books self.old }
        ensures ok { IfOk result (λ out. HasRoom self.new more out) }
    {
        let pending = self.replied.len() + self.parked.len() + more;
        self.parked.reserve(more)?;
        self.replied.reserve(self.parked.len() + more)?;
        self.leaving.reserve(pending)?;
        self.held.reserve(1)?;
        self.queue.reserve()?;
        if HeldStep::are_waiting(&self.held, self.settled) {
            return Ok(Vec::new(self.alloc));
        }
        Vec::with_capacity(self.alloc, pending)
    }

    // Releases the replies whose commands are settled.
    #[tactic(auto, unfolding(crate::specs::Books::letting_go))]
    fn let_go(&mut self, out: Vec<Outgoing>) -> Vec<Outgoing>
        requires empty { out.items ≡ [] }
        requires room { is_waiting self.old.settled self.old.held.items ≡ false → vec_len out + deque_len self.old.replied ≤ vec_capacity out }
        ensures { letting_go (books self.old) ≡ record { books = books self.new; out = result.items } }
    {
        if HeldStep::are_waiting(&self.held, self.settled) {
            return out;
        }
        let mut out = out;
        let permit = Permit::new(self.settled);
        HeldStep::release(&mut self.held, &mut self.replied, &permit, &mut out);
        out
    }

    // Numbers the commands of a step of the request `own`, if it took one, holds its replies with the tokens of the requests that
    // they answer, and releases those whose commands are settled. The token of `own` is the first of `parked`.
    #[tactic(auto, using(crate::proofs::Leaving::was_waiting))]
    fn finish(&mut self, own: Option<Ticket>, effects: Effects, out: Vec<Outgoing>) -> Vec<Outgoing>
        requires room { HasRoom self.old 0 out }
        requires numbers { self.old.numbered + length effects.commands < 2 ^ 64 }
        ensures { letting_go (numbering (moving (books self.old) (calls_of effects.replies) (books self.old).parked) own effects) ≡ record { books = books self.new; out = result.items } }
    {
        let Effects { commands, replies } = effects;
        let made = commands.len() as u64;
        self.numbered += made;
        self.queue.put(commands);
        let origin = Origin {
            need: self.numbered,
            own,
            made,
        };
        move_answered(&mut self.parked, &mut self.replied, replies.as_slice());
        HeldStep::hold(&mut self.held, origin, replies);
        self.let_go(out)
    }

    /// Handles a request. If an allocation fails, returns the token, and nothing has changed.
    #[tactic(auto, unfolding(crate::specs::Books::served))]
    pub fn ask(
        &mut self,
        token: ReplyToken,
        request: Request,
        now: Moment,
        fresh: Uuid,
    ) -> Result<Vec<Outgoing>, (AllocError, ReplyToken)>
        requires { is_short (books self.old) ≡ false }
        ensures ok { IfOk result
            (λ out. served (books self.old) (token ∷ []) (asked request (call_of token) fresh) now ≡ record { books = books self.new; out = out.items }) }
        ensures err { OnErr result (books self.new ≡ books self.old) }
        ensures back { IfErr result (λ e. e.1 ≡ token) }
    {
        let out = match self.reserve(1) {
            Ok(out) => out,
            Err(error) => return Err((error, token)),
        };
        let ticket = token.ticket();
        let event = request.into_event(ticket, fresh);
        match self.groups.step(event, now) {
            Err(error) => Err((error, token)),
            Ok(effects) => {
                self.parked.push_front_reserved(token);
                Ok(self.finish(Some(ticket), effects, out))
            }
        }
    }

    /// Runs the time-dependent rules. If an allocation fails, nothing has changed.
    #[tactic(auto, unfolding(crate::specs::Books::served))]
    pub fn tick(&mut self, now: Moment) -> Result<Vec<Outgoing>, AllocError>
        requires { is_short (books self.old) ≡ false }
        ensures ok { IfOk result
            (λ out. served (books self.old) [] event.Tick now ≡ record { books = books self.new; out = out.items }) }
        ensures err { OnErr result (books self.new ≡ books self.old) }
    {
        let out = self.reserve(0)?;
        let effects = self.groups.step(Event::Tick, now)?;
        Ok(self.finish(None, effects, out))
    }

    /// Handles a closed session. If an allocation fails, nothing has changed.
    #[tactic(auto, unfolding(crate::specs::Books::served))]
    pub fn gone(&mut self, session: u64, now: Moment) -> Result<Vec<Outgoing>, AllocError>
        ensures ok { IfOk result
            (λ out. served (books self.old) [] (event.Gone session) now ≡ record { books = books self.new; out = out.items }) }
        ensures err { OnErr result (books self.new ≡ books self.old) }
    {
        let out = self.reserve(0)?;
        // Reads the number because the prover takes its range from the type.
        let _numbered = self.numbered;
        let effects = self.groups.step(Event::Gone(session), now)?;
        Ok(self.finish(None, effects, out))
    }

    /// Refuses every pending request: first those with a held reply, in the order of the replies, then the parked ones,
    /// by group and joining order. Does not allocate.
    pub fn fail(self) -> Vec<Outgoing>
        ensures once { AreRefusedOnce (tokens_of (state.Serving (books self))) result.items }
        ensures order { IsOwed (books self) → result.items ≡ failing (books self) }
    {
        let Serving {
            alloc: _alloc,
            groups,
            numbered: _numbered,
            settled: _settled,
            queue: _queue,
            flight: _flight,
            mut held,
            mut replied,
            mut parked,
            leaving,
        } = self;
        let mut out = leaving;
        refuse_held(&mut replied, &mut held, &mut out);
        refuse_waiting(&mut parked, &groups, &mut out);
        refuse_rest(&mut replied, &mut out);
        refuse_rest(&mut parked, &mut out);
        replied.destroy_empty();
        parked.destroy_empty();
        out
    }
}
