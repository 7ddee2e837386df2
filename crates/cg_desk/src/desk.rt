//! The desk by its phase: loading, serving, failed.
ghost use Rattle.std.specs.Prelude.{◌≡◌, ◌≢◌, ◌↔◌, ◌∷◌, [], true, false, length, IsTrue, IsOk, IfOk, IfErr, OnOk, OnErr, None, Ok};
ghost use Rattle.cg_desk.specs.Balanced.{IsBalancedAt};
ghost use Rattle.cg_desk.specs.Outgoings.{answer};
ghost use Rattle.cg_desk.specs.Refusals.{is_refusal};
ghost use Rattle.cg_desk.specs.States.{phase_state};
ghost use Rattle.cg_desk.specs.Tokens.{call_of};

use crate::fault::{SettleFault, TakeFault};
use crate::outgoing::Outgoing;
use crate::pending_replies::HeldStep;
use crate::serving::Serving;
use crate::token::ReplyToken;
use cg_fold::Durable;
use cg_group::{Groups, Reply, Request, Ticket};
use cg_names::{Code, Moment};
use cg_store::{Batch, Receipt};
use std::alloc::{AllocError, Global};
use std::mem;
use uuid::Uuid;

/// Phase of a desk.
pub enum Phase {
    /// Nothing is loaded yet.
    Loading,
    Serving(Serving),
    /// The disk failed. Holds the number of the last command and the number of the last settled command.
    Failed(u64, u64),
}

/// What a desk has.
#[derive(Clone, Copy, Debug, Drop, PartialEq, Eq)]
pub struct Counts {
    /// Loaded groups.
    pub groups: u64,
    /// Members of all loaded groups.
    pub members: u64,
    /// Committed offsets.
    pub offsets: u64,
    /// Requests that have no reply yet, parked ones among them.
    pub pending: u64,
    /// Number of the last settled command.
    pub settled: u64,
}

/// The desk: a group machine, the numbered commands that wait for the disk, and the replies that wait for these
/// commands.
pub struct Desk {
    pub(crate) alloc: Global,
    pub(crate) phase: Phase,
    // Each pending request has one token: its reply is held, or it is parked in the machine.
    pub ghost balanced: { ∥ IsBalancedAt (phase_state phase) ∥₁ },
}

// Returns the refusal of a request that never reaches the machine.
fn refused_at_once(
    alloc: Global,
    token: ReplyToken,
    request: Request,
    code: Code,
) -> Result<Vec<Outgoing>, (AllocError, ReplyToken)>
    requires { IsTrue (is_refusal code) }
    ensures ok { IfOk result (λ out. out.items ≡ answer (call_of token) (Reply.Refused code) 0 ∷ []) }
    ensures back { IfErr result (λ e. e.1 ≡ token) }
{
    drop(request);
    match Vec::with_capacity(alloc, 1) {
        Ok(mut out) => {
            out.push_reserved(token.refuse(code));
            Ok(out)
        }
        Err(error) => Err((error, token)),
    }
}

impl Desk {
    ghost use Rattle.cg_fold.specs.Durable.{State as DurableState};
    ghost use Rattle.cg_request.specs.Request.{asked};
    ghost use Rattle.cg_group_table.specs.Kept.{AreRecords};
    ghost use Rattle.cg_group_table.specs.Recovery.{revive};
    ghost use Rattle.cg_store.specs.Receipts.{batch_of};
    ghost use Rattle.cg_desk.specs.Desks.{HasNothing, IsOut, IsReasonAt, IsTakenFrom, counts_of, failing_on, gone_on, held_of, is_back, is_out, is_serving, is_short_at, numbered_of, opened, request_on, return_to, settle_on, settled_of, state_of, tick_on};
    ghost use Rattle.cg_desk.specs.Held.{last_replies};
    ghost use Rattle.cg_desk.specs.Laws.{AreRefusedOnce, tokens_of};
    ghost use Rattle.cg_desk.specs.Serving.{books};
    ghost use Rattle.cg_desk.specs.Desks as state;

    /// Creates a desk with nothing loaded, which refuses each request with 14. Does not allocate.
    pub fn loading(alloc: Global) -> Result<Self, AllocError>
        ensures ok { IsOk result }
        ensures state { IfOk result (λ desk. state_of desk ≡ state.Loading) }
    {
        Ok(Desk {
            alloc,
            phase: Phase::Loading,
        })
    }

    /// Begins to serve the state that the first `number` commands make. Its records must be lawful, as lawful commands make
    /// them (`commands_make_records`). If an allocation fails, returns the state.
    pub fn loaded(
        &mut self,
        number: u64,
        durable: Durable,
        now: Moment,
    ) -> Result<(), (AllocError, Durable)>
        requires loading { state_of self.old ≡ state.Loading }
        requires lawful { AreRecords durable }
        ensures ok { OnOk result (state_of self.new ≡ state.Serving (opened number (revive durable now))) }
        ensures err { OnErr result (state_of self.new ≡ state_of self.old) }
        ensures back { IfErr result (λ e. e.1 ≡ durable) }
    {
        let groups = Groups::revive(self.alloc, durable, now)?;
        let serving = Serving::new(self.alloc, groups, number);
        match mem::replace(&mut self.phase, Phase::Serving(serving)) {
            Phase::Loading => {}
            // The precondition rules out both phases. A serving desk has tokens, which cannot be dropped, so `fail`
            // spends them.
            Phase::Failed(_, _) => {}
            Phase::Serving(before) => {
                let _ = before.fail();
            }
        }
        Ok(())
    }

    /// Returns whether nothing is loaded yet: what `loaded` requires, for a caller that took the desk out of a lock.
    pub fn is_loading(&self) -> bool
        ensures { IsTrue result ↔ (state_of self.now ≡ state.Loading) }
    {
        matches!(&self.phase, Phase::Loading)
    }

    /// Returns the number of the last command.
    pub fn numbered(&self) -> u64
        ensures { result ≡ numbered_of (state_of self.now) }
    {
        match &self.phase {
            Phase::Loading => 0,
            Phase::Serving(serving) => serving.numbered,
            Phase::Failed(numbered, _) => *numbered,
        }
    }

    /// Returns the number of the last settled command.
    pub fn settled(&self) -> u64
        ensures { result ≡ settled_of (state_of self.now) }
    {
        match &self.phase {
            Phase::Loading => 0,
            Phase::Serving(serving) => serving.settled,
            Phase::Failed(_, settled) => *settled,
        }
    }

    /// Returns how many groups, members and offsets the machine has, how many requests are pending, and the number of the last
    /// settled command. Without a machine it has none. Linear in the groups, no allocation.
    pub fn counts(&self) -> Counts
        ensures { result ≡ counts_of (state_of self.now) }
    {
        match &self.phase {
            Phase::Loading => Counts {
                groups: 0,
                members: 0,
                offsets: 0,
                pending: 0,
                settled: 0,
            },
            Phase::Failed(_, settled) => Counts {
                groups: 0,
                members: 0,
                offsets: 0,
                pending: 0,
                settled: *settled,
            },
            Phase::Serving(serving) => Counts {
                groups: serving.groups.held(),
                members: serving.groups.member_count(),
                offsets: serving.groups.offset_count(),
                pending: (serving.replied.len() + serving.parked.len()) as u64,
                settled: serving.settled,
            },
        }
    }

    /// Returns the number of held steps. A step is held if it made replies that wait for a command to be settled.
    pub fn held(&self) -> u64
        ensures { result ≡ length (held_of (state_of self.now)) }
    {
        match &self.phase {
            Phase::Loading => 0,
            Phase::Failed(_, _) => 0,
            Phase::Serving(serving) => serving.held.len() as u64,
        }
    }

    /// Returns the replies of the held step that was made last, in their order, or none if no step is held. Does not
    /// allocate.
    #[tactic(auto, unfolding(crate::specs::Held::last_replies))]
    pub fn last_held(&self) -> &[(Ticket, Reply)]
        ensures { result.now ≡ last_replies (held_of (state_of self.now)) }
    {
        match &self.phase {
            Phase::Loading => &[],
            Phase::Failed(_, _) => &[],
            Phase::Serving(serving) => HeldStep::last(&serving.held),
        }
    }

    /// Handles a request at the moment `now`; from the UUID `fresh` the machine draws the id of a new member. Returns the
    /// replies that leave now, which may belong to other requests. Linear in the pending requests. A refusal at once, with 14
    /// or 15, allocates the list of its one reply. If an allocation fails, returns the token, and nothing has changed.
    #[tactic(auto, unfolding(crate::specs::Desks::request_on))]
    pub fn request(
        &mut self,
        token: ReplyToken,
        request: Request,
        now: Moment,
        fresh: Uuid,
    ) -> Result<Vec<Outgoing>, (AllocError, ReplyToken)>
        ensures ok { IfOk result
            (λ out. request_on (state_of self.old) token (asked request (call_of token) fresh) now ≡ record { after = state_of self.new; out = out.items }) }
        ensures err { OnErr result (state_of self.new ≡ state_of self.old) }
        ensures back { IfErr result (λ e. e.1 ≡ token) }
    {
        match &mut self.phase {
            Phase::Loading => {
                refused_at_once(self.alloc, token, request, Code::CoordinatorLoadInProgress)
            }
            Phase::Failed(_, _) => {
                refused_at_once(self.alloc, token, request, Code::CoordinatorNotAvailable)
            }
            Phase::Serving(serving) => {
                Desk::ask_serving(self.alloc, serving, token, request, now, fresh)
            }
        }
    }

    // Handles a request by the machine, or refuses it if command numbers are short.
    #[tactic(auto, unfolding(crate::specs::Desks::request_on))]
    fn ask_serving(
        alloc: Global,
        serving: &mut Serving,
        token: ReplyToken,
        request: Request,
        now: Moment,
        fresh: Uuid,
    ) -> Result<Vec<Outgoing>, (AllocError, ReplyToken)>
        ensures ok { IfOk result
            (λ out. request_on (state.Serving (books serving.old)) token (asked request (call_of token) fresh) now ≡ record { after = state.Serving (books serving.new); out = out.items }) }
        ensures err { OnErr result (books serving.new ≡ books serving.old) }
        ensures back { IfErr result (λ e. e.1 ≡ token) }
    {
        if serving.is_short() {
            return refused_at_once(alloc, token, request, Code::CoordinatorNotAvailable);
        }
        serving.ask(token, request, now, fresh)
    }

    /// Runs the time-dependent rules for the moment `now`. Returns the replies that leave now. Where it does nothing it does
    /// not allocate. If an allocation fails, nothing has changed.
    #[tactic(auto, unfolding(crate::specs::Desks::tick_on))]
    pub fn tick(&mut self, now: Moment) -> Result<Vec<Outgoing>, AllocError>
        ensures ok { IfOk result
            (λ out. tick_on (state_of self.old) now ≡ record { after = state_of self.new; out = out.items }) }
        ensures idle { is_serving (state_of self.old) ≡ false → IsOk result }
        ensures short { is_short_at (state_of self.old) ≡ true → IsOk result }
        ensures err { OnErr result (state_of self.new ≡ state_of self.old) }
    {
        let alloc = self.alloc;
        match &mut self.phase {
            Phase::Loading => Ok(Vec::new(alloc)),
            Phase::Failed(_, _) => Ok(Vec::new(alloc)),
            Phase::Serving(serving) => {
                if serving.is_short() {
                    return Ok(Vec::new(alloc));
                }
                serving.tick(now)
            }
        }
    }

    /// Handles a closed session. Returns the replies that leave now. On a desk that does not serve it does nothing, and does
    /// not allocate. If an allocation fails, nothing has changed.
    #[tactic(auto, unfolding(crate::specs::Desks::gone_on))]
    pub fn gone(&mut self, session: u64, now: Moment) -> Result<Vec<Outgoing>, AllocError>
        ensures ok { IfOk result
            (λ out. gone_on (state_of self.old) session now ≡ record { after = state_of self.new; out = out.items }) }
        ensures idle { is_serving (state_of self.old) ≡ false → IsOk result }
        ensures err { OnErr result (state_of self.new ≡ state_of self.old) }
    {
        match &mut self.phase {
            Phase::Loading => Ok(Vec::new(self.alloc)),
            Phase::Failed(_, _) => Ok(Vec::new(self.alloc)),
            Phase::Serving(serving) => serving.gone(session, now),
        }
    }

    /// Returns the next batch for the store: the one that was given back, or the longest prefix of the queue that fits
    /// one frame. Returns `None` if no command is queued or the desk is not serving, without an allocation. Linear in the
    /// bytes of the commands that are not yet encoded; only a new batch may need an allocation. After an error nothing has
    /// changed.
    pub fn take_batch(&mut self) -> Result<Option<Batch>, TakeFault>
        ensures ok { IfOk result (λ o. IsTakenFrom (state_of self.old) o (state_of self.new)) }
        ensures in_flight { is_out (state_of self.old) ≡ true → result ≡ Err TakeFault.InFlight }
        ensures memory { is_out (state_of self.old) ≡ false → IfErr result (λ fault. fault ≡ TakeFault.Memory) }
        ensures returned { OnErr result (is_back (state_of self.old) ≡ false) }
        ensures nothing { HasNothing (state_of self.old) → result ≡ Ok None }
        ensures err { OnErr result (state_of self.new ≡ state_of self.old) }
    {
        match &mut self.phase {
            Phase::Loading => Ok(None),
            Phase::Failed(_, _) => Ok(None),
            Phase::Serving(serving) => serving.take_batch(),
        }
    }

    /// Takes back the batch in flight that the store had no room for; the next take returns it again. Does not
    /// allocate. After an error nothing has changed.
    pub fn give_back(&mut self, batch: Batch) -> Result<(), (SettleFault, Batch)>
        ensures ok { OnOk result (IsOut (state_of self.old) batch) }
        ensures state { OnOk result (state_of self.new ≡ return_to (state_of self.old)) }
        ensures err { IfErr result (λ e. (e.1 ≡ batch) × (e.0 ≢ SettleFault.Memory) × IsReasonAt (state_of self.old) batch e.0) }
        ensures unchanged { OnErr result (state_of self.new ≡ state_of self.old) }
    {
        match &mut self.phase {
            Phase::Loading => Err((SettleFault::NotInFlight, batch)),
            Phase::Failed(_, _) => Err((SettleFault::NotInFlight, batch)),
            Phase::Serving(serving) => serving.give_back(batch),
        }
    }

    /// Counts the batch in flight as settled, since the receipt shows that it is durable. Returns the replies that
    /// leave now. Linear in the replies that leave times the pending requests before each. After an error nothing has
    /// changed.
    #[tactic(auto, unfolding(crate::specs::Desks::settle_on))]
    pub fn settle(&mut self, receipt: Receipt) -> Result<Vec<Outgoing>, (SettleFault, Receipt)>
        ensures ok { OnOk result (IsOut (state_of self.old) (batch_of receipt)) }
        ensures out { IfOk result
            (λ out. settle_on (state_of self.old) (length (batch_of receipt).commands) ≡ record { after = state_of self.new; out = out.items }) }
        ensures err { IfErr result (λ e. (e.1 ≡ receipt) × IsReasonAt (state_of self.old) (batch_of receipt) e.0) }
        ensures unchanged { OnErr result (state_of self.new ≡ state_of self.old) }
    {
        match &mut self.phase {
            Phase::Loading => Err((SettleFault::NotInFlight, receipt)),
            Phase::Failed(_, _) => Err((SettleFault::NotInFlight, receipt)),
            Phase::Serving(serving) => serving.settle(receipt),
        }
    }

    /// Handles a device failure. Refuses every pending request with 15, once: first those with a held reply, in the order
    /// of the replies, then the parked ones, by group and joining order. From then on the desk refuses every request with
    /// 15. Does not allocate. A second failure returns no replies.
    #[tactic(auto, using(crate::proofs::Failing::none_refused), unfolding(crate::specs::Desks::failing_on))]
    pub fn fail(&mut self) -> Vec<Outgoing>
        ensures once { AreRefusedOnce (tokens_of (state_of self.old)) result.items }
        ensures order { result.items ≡ failing_on (state_of self.old) }
        ensures state { state_of self.new ≡ state.Failed (numbered_of (state_of self.old)) (settled_of (state_of self.old)) }
    {
        let failed = Phase::Failed(self.numbered(), self.settled());
        match mem::replace(&mut self.phase, failed) {
            Phase::Loading => Vec::new(self.alloc),
            Phase::Failed(_, _) => Vec::new(self.alloc),
            Phase::Serving(serving) => serving.fail(),
        }
    }

    /// Ends the desk: refuses every pending request as `fail` does. Does not allocate.
    #[tactic(auto, using(crate::proofs::Failing::none_refused), unfolding(crate::specs::Desks::failing_on))]
    pub fn close(self) -> Vec<Outgoing>
        ensures once { AreRefusedOnce (tokens_of (state_of self)) result.items }
        ensures order { result.items ≡ failing_on (state_of self) }
    {
        let Desk { alloc, phase } = self;
        match phase {
            Phase::Loading => Vec::new(alloc),
            Phase::Failed(_, _) => Vec::new(alloc),
            Phase::Serving(last) => last.fail(),
        }
    }
}
