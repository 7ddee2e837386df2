//! Taking, giving back and settling batches.
ghost use Rattle.std.specs.Prelude.{◌≡◌, ◌≢◌, ◌<◌, ◌+◌, ◌^◌, ◌↔◌, ℕ, ⊤, [], true, false, length, take, drop, IfNone, IfOk, IfErr, IfSome, OnOk, OnErr, OnSome, IsTrue, MatchOption, MatchResult, None, Ok};
ghost use Rattle.cg_desk.specs.Flights.{Away, Idle, Returned, course_of, first_of, is_away, is_returned};
ghost use Rattle.cg_desk.specs.Fronts.{in_frame};
ghost use Rattle.cg_desk.specs.Books.{IsFlying, IsWhy};
ghost use Rattle.cg_desk.specs.Queues.{commands_of};

use crate::fault::{SettleFault, TakeFault};
use crate::flight::{Flight, ReturnedBatch};
use crate::outgoing::Outgoing;
use crate::pending_replies::HeldStep;
use crate::permit::Permit;
use crate::queue::Queue;
use crate::serving::Serving;
use cg_store::{Batch, Commands, Receipt};
use std::alloc::AllocError;
use std::mem;

// Removes the longest prefix of the queue that fits one frame. Returns it as a batch, and a clone of its commands that
// recognises the batch when it comes back. If an allocation fails, the queue is unchanged.
fn take_front(queue: &mut Queue, settled: u64) -> Result<Option<(Batch, Commands)>, AllocError>
    requires { settled + length (commands_of queue.old) < 2 ^ 64 }
    ensures none { IfOk result (λ o. MatchOption o (commands_of queue.old ≡ []) (λ t. ⊤)) }
    ensures batch { IfOk result (λ o. MatchOption o ⊤ (λ t. (t.0.first ≡ settled + 1) × (t.0.commands ≡ take (in_frame (commands_of queue.old)) (commands_of queue.old)) × (t.1 ≡ take (in_frame (commands_of queue.old)) (commands_of queue.old)))) }
    ensures rest { OnOk result (commands_of queue.new ≡ drop (in_frame (commands_of queue.old)) (commands_of queue.old)) }
    ensures err { OnErr result (commands_of queue.new ≡ commands_of queue.old) }
{
    match queue.take()? {
        None => Ok(None),
        Some((leaving, kept)) => match Batch::new(settled + 1, leaving) {
            Ok(batch) => Ok(Some((batch, kept))),
            Err(_) => unreachable!(),
        },
    }
}

fn is_next(before: u64, number: u64) -> bool
    ensures { IsTrue result ↔ (number ≡ before + 1) }
{
    before < number && number - before == 1
}

// Checks that the batch is the one in flight, and reports why it is not.
fn check(flight: &Flight, settled: u64, batch: &Batch) -> Result<(), SettleFault>
    ensures cases { MatchResult result
        (λ u. IsFlying (course_of flight.now) settled batch.now)
        (λ fault. IsWhy (course_of flight.now) settled batch.now fault) }
    ensures told { IfErr result (λ fault. fault ≢ SettleFault.Memory) }
{
    match flight {
        Flight::Away(commands) => {
            if is_next(settled, batch.first) && commands.is_same(&batch.commands) {
                Ok(())
            } else {
                Err(SettleFault::Foreign)
            }
        }
        _ => Err(SettleFault::NotInFlight),
    }
}

// Returns the batch that was given back, if there is one, and puts it in flight again.
fn leave_again(flight: &mut Flight) -> Option<Batch>
    ensures none { IfNone result ((is_returned (course_of flight.old) ≡ false) × (flight.new ≡ flight.old)) }
    ensures batch { IfSome result (λ batch. course_of flight.old ≡ Returned batch.commands) }
    ensures first { IfSome result (λ batch. (next : ℕ) → first_of flight.old next ≡ batch.first) }
    ensures flight { IfSome result (λ batch. course_of flight.new ≡ Away batch.commands) }
    ensures idle { OnSome result ((next : ℕ) → first_of flight.new next ≡ next) }
{
    match mem::replace(flight, Flight::Idle) {
        Flight::Returned(returned) => {
            let ReturnedBatch { batch, commands } = returned;
            *flight = Flight::Away(commands);
            Some(batch)
        }
        other => {
            *flight = other;
            None
        }
    }
}

// Notes that the batch in flight was given back, and keeps the clone of its commands with it.
fn come_back(flight: &mut Flight, batch: Batch)
    requires { course_of flight.old ≡ Away batch.commands }
    ensures flight { course_of flight.new ≡ Returned batch.commands }
    ensures first { (next : ℕ) → first_of flight.new next ≡ batch.first }
{
    match mem::replace(flight, Flight::Idle) {
        Flight::Away(commands) => {
            *flight = Flight::Returned(ReturnedBatch { batch, commands });
        }
        _ => unreachable!(),
    }
}

impl Serving {
    ghost use Rattle.cg_desk.specs.Books.{IsInFlight, IsReason, IsTake, returning, settling};
    ghost use Rattle.cg_desk.specs.Serving.{books};
    ghost use Rattle.cg_store.specs.Receipts.{batch_of as batch_in};

    #[tactic(auto, using(std::proofs::lemmas::List::nil_from_length))]
    fn take_next(&mut self) -> Result<Option<Batch>, AllocError>
        requires { is_away (books self.old).course ≡ false }
        ensures ok { IfOk result (λ o. IsTake (books self.old) o (books self.new)) }
        ensures err { OnErr result (books self.new ≡ books self.old) }
        ensures returned { OnErr result (is_returned (books self.old).course ≡ false) }
        ensures nothing { (books self.old).course ≡ Idle → (books self.old).queue ≡ [] → result ≡ Ok None }
    {
        if let Some(batch) = leave_again(&mut self.flight) {
            return Ok(Some(batch));
        }
        if self.numbered == self.settled {
            return Ok(None);
        }
        match take_front(&mut self.queue, self.settled)? {
            None => Ok(None),
            Some(taken) => {
                let (batch, commands) = taken;
                self.flight = Flight::Away(commands);
                Ok(Some(batch))
            }
        }
    }

    /// Returns the next batch: the one that was given back, or the longest prefix of the queue that fits one frame.
    /// Returns `None` if no command is queued, without an allocation. Linear in the bytes of the commands that are not yet
    /// encoded; only a new batch may need an allocation.
    pub fn take_batch(&mut self) -> Result<Option<Batch>, TakeFault>
        ensures ok { IfOk result (λ o. IsTake (books self.old) o (books self.new)) }
        ensures in_flight { is_away (books self.old).course ≡ true → result ≡ Err TakeFault.InFlight }
        ensures returned { OnErr result (is_returned (books self.old).course ≡ false) }
        ensures nothing { (books self.old).course ≡ Idle → (books self.old).queue ≡ [] → result ≡ Ok None }
        ensures err { OnErr result (books self.new ≡ books self.old) }
        ensures memory { is_away (books self.old).course ≡ false → IfErr result (λ fault. fault ≡ TakeFault.Memory) }
    {
        if let Flight::Away(_) = &self.flight {
            return Err(TakeFault::InFlight);
        }
        match self.take_next() {
            Ok(batch) => Ok(batch),
            Err(_) => Err(TakeFault::Memory),
        }
    }

    /// Takes the batch in flight back; the next take returns it again. Does not allocate.
    pub fn give_back(&mut self, batch: Batch) -> Result<(), (SettleFault, Batch)>
        ensures ok { OnOk result (IsInFlight (books self.old) batch × (books self.new ≡ returning (books self.old))) }
        ensures err { IfErr result (λ e. (e.1 ≡ batch) × (e.0 ≢ SettleFault.Memory) × IsReason (books self.old) batch e.0) }
        ensures unchanged { OnErr result (books self.new ≡ books self.old) }
    {
        match check(&self.flight, self.settled, &batch) {
            Err(fault) => Err((fault, batch)),
            Ok(()) => {
                come_back(&mut self.flight, batch);
                Ok(())
            }
        }
    }

    /// Counts the commands of the batch in flight as settled, and returns the replies that waited for them. After an
    /// error nothing has changed.
    #[tactic(auto, unfolding(crate::specs::Books::letting_go, crate::specs::Books::settling))]
    pub fn settle(&mut self, receipt: Receipt) -> Result<Vec<Outgoing>, (SettleFault, Receipt)>
        ensures ok { IfOk result (λ out. IsInFlight (books self.old) (batch_in receipt)
            × (settling (books self.old) (length (batch_in receipt).commands) ≡ record { books = books self.new; out = out.items })) }
        ensures err { IfErr result (λ e. (e.1 ≡ receipt) × IsReason (books self.old) (batch_in receipt) e.0) }
        ensures unchanged { OnErr result (books self.new ≡ books self.old) }
    {
        if let Err(fault) = check(&self.flight, self.settled, receipt.batch()) {
            return Err((fault, receipt));
        }
        let Ok(out) = Vec::with_capacity(self.alloc, self.replied.len()) else {
            return Err((SettleFault::Memory, receipt));
        };
        let mut out = out;
        self.settled += receipt.batch().commands.len() as u64;
        self.flight = Flight::Idle;
        self.queue.reuse(receipt.into_commands());
        let permit = Permit::new(self.settled);
        HeldStep::release(&mut self.held, &mut self.replied, &permit, &mut out);
        Ok(out)
    }
}
