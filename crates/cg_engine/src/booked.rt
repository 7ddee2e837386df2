//! A store with the book of its ledger: an append books a unit for each command.
ghost use Rattle.std.specs.Prelude.{◌≡◌, ◌+◌, length, IfOk, IsTrue, ◌↔◌, MatchResult, OnErr, OnOk};
ghost use Rattle.cg_fold.specs.Durable.{State, after};
ghost use Rattle.cg_engine.specs.Appended.{AreAsMany, BearsIfNoted, appended_in, state_in};
ghost use Rattle.cg_engine.specs.Left.{HasLeft};
ghost use Rattle.cg_engine.specs.Wanted.{is_wanted};
ghost use Rattle.cg_engine.specs.Stored.{IsKept, Stores};
ghost use Rattle.cg_store.specs.Receipts.{batch_of};
ghost use Rattle.cg_store.specs.Store.{front_of, has_failed, phase_of, room_of};
ghost use Rattle.cg_engine.specs.Units.{count_of};

use crate::trail::Appended;
use crate::units::{Part, Units};
use cg_disk::SectorDisk;
use cg_record::Command;
use cg_store::{Batch, CompactFault, Phase, Progress, Receipt, Store, StoreFault};
use cg_trail::Trail;
use std::alloc::{AllocError, Global};
use std::sync::ledger::{Book, Ledger};

/// The receipt for a batch, with a unit for each of its commands.
#[derive(Drop)]
pub struct BookedReceipt<L: Ledger> {
    pub receipt: Receipt,
    pub units: Units<L>,
    ghost booked: { count_of units ≡ length (batch_of receipt).commands },
}

/// A store that was loaded. The book of its ledger has a unit for each command since then.
#[derive(Drop)]
pub struct BookedStore<D: SectorDisk, L: Ledger> {
    store: Store<D>,
    /// Number of commands that the loading found.
    opening: u64,
    book: Book<L>,
    appended: Option<Appended>,
    ghost booked: { opening + book.total ≡ front_of store },
    ghost counted: { AreAsMany appended book.total },
    ghost kept: { ∥ IsKept D.is_honest D.history store appended ∥₁ },
}

impl<L: Ledger> BookedReceipt<L> {
    // Puts a receipt and its units together.
    fn new(receipt: Receipt, units: Units<L>) -> Self
        requires { count_of units ≡ length (batch_of receipt).commands }
        ensures receipt { batch_of result.receipt ≡ batch_of receipt }
    {
        BookedReceipt { receipt, units }
    }
}

// Appends a batch to a store, and books a unit for each of its commands.
fn append_to<D: SectorDisk, L: Ledger>(
    store: &mut Store<D>,
    book: &mut Book<L>,
    batch: Batch,
    part: Part<L>,
) -> Result<BookedReceipt<L>, (StoreFault, Batch, Part<L>)>
    ensures batch { MatchResult result
        (λ booked. batch_of booked.receipt ≡ batch)
        (λ refused. refused.1 ≡ batch) }
    ensures booked { MatchResult result
        (λ _. (front_of store.new ≡ front_of store.old + length batch.commands) × (book.new.total ≡ book.old.total + length batch.commands))
        (λ _. (front_of store.new ≡ front_of store.old) × (book.new.total ≡ book.old.total)) }
    ensures ok { (state : State) → Stores D.is_honest D.history store.old state → OnOk result (Stores D.is_honest D.history store.new (after state batch.commands)) }
    ensures err { (state : State) → Stores D.is_honest D.history store.old state → OnErr result (Stores D.is_honest D.history store.new state) }
{
    let count = batch.commands.len() as u64;
    match store.append(batch) {
        Ok(receipt) => Ok(BookedReceipt::new(receipt, part.book(book, count))),
        Err((fault, batch)) => Err((fault, batch, part)),
    }
}

// Does the next step of a compaction: it begins one where none is under way.
fn compact_step<D: SectorDisk>(store: &mut Store<D>) -> Result<Progress, CompactFault>
    ensures number { front_of store.new ≡ front_of store.old }
    ensures kept { (state : State) → Stores D.is_honest D.history store.old state → Stores D.is_honest D.history store.new state }
{
    match store.phase() {
        Phase::Idle => store.compact_start(),
        Phase::Reading => store.compact_read(),
        Phase::Writing => store.compact_write(),
        Phase::Ready => store.compact_switch(),
    }
}

// Appends a batch to a store whose batches are noted.
fn append_noted<D: SectorDisk, L: Ledger>(
    store: &mut Store<D>,
    book: &mut Book<L>,
    appended: &mut Appended,
    batch: Batch,
    part: Part<L>,
) -> Result<BookedReceipt<L>, (StoreFault, Batch, Part<L>)>
    ensures batch { MatchResult result
        (λ booked. batch_of booked.receipt ≡ batch)
        (λ refused. refused.1 ≡ batch) }
    ensures booked { MatchResult result
        (λ _. (front_of store.new ≡ front_of store.old + length batch.commands) × (book.new.total ≡ book.old.total + length batch.commands))
        (λ _. (front_of store.new ≡ front_of store.old) × (book.new.total ≡ book.old.total)) }
    ensures noted { MatchResult result
        (λ _. state_in appended.new ≡ after (state_in appended.old) batch.commands)
        (λ _. state_in appended.new ≡ state_in appended.old) }
    ensures counted { MatchResult result
        (λ _. length (appended_in appended.new) ≡ length (appended_in appended.old) + length batch.commands)
        (λ _. length (appended_in appended.new) ≡ length (appended_in appended.old)) }
    ensures ok { (state : State) → Stores D.is_honest D.history store.old state → OnOk result (Stores D.is_honest D.history store.new (after state batch.commands)) }
    ensures err { (state : State) → Stores D.is_honest D.history store.old state → OnErr result (Stores D.is_honest D.history store.new state) }
{
    let Ok(copy) = appended.reserve(&batch.commands) else {
        return Err((StoreFault::Memory, batch, part));
    };
    match append_to(store, book, batch, part) {
        Ok(booked) => {
            appended.push(copy);
            Ok(booked)
        }
        Err(refused) => Err(refused),
    }
}

impl<D: SectorDisk, L: Ledger> BookedStore<D, L> {
    ghost use Rattle.cg_engine.specs.Booked.{store_in, opening_in, since_in, appended_of};

    /// Begins to book what a store appends, with an empty book.
    pub fn new(store: Store<D>, book: Book<L>, appended: Option<Appended>) -> Self
        requires none { book.total ≡ 0 }
        requires counted { AreAsMany appended 0 }
        requires kept { ∥ IsKept D.is_honest D.history store appended ∥₁ }
        ensures store { store_in result ≡ store }
        ensures opening { opening_in result ≡ front_of store }
    {
        let opening = store.front();
        BookedStore {
            store,
            opening,
            book,
            appended,
        }
    }

    /// Returns the number of the last command.
    pub fn front(&self) -> u64
        ensures { result ≡ front_of (store_in self.now) }
    {
        self.store.front()
    }

    /// Returns how many commands were appended since loading.
    pub fn since_loading(&self) -> u64
        ensures { result ≡ since_in self.now }
    {
        self.store.front() - self.opening
    }

    /// Appends a batch and books a unit for each of its commands.
    pub fn append(
        &mut self,
        batch: Batch,
        part: Part<L>,
    ) -> Result<BookedReceipt<L>, (StoreFault, Batch, Part<L>)>
        ensures { MatchResult result
            (λ booked. batch_of booked.receipt ≡ batch)
            (λ refused. refused.1 ≡ batch) }
    {
        let BookedStore {
            store,
            opening: _,
            book,
            appended,
        } = self;
        match appended {
            None => append_to(store, book, batch, part),
            Some(appended) => append_noted(store, book, appended, batch, part),
        }
    }

    /// Does the next step of a compaction: it begins one where none is under way.
    pub fn compact(&mut self) -> Result<Progress, CompactFault> {
        compact_step(&mut self.store)
    }

    /// Returns how many segments are free.
    pub fn free_count(&self) -> u64
        ensures { result ≡ (room_of (store_in self.now)).segments }
    {
        self.store.free_count()
    }

    /// Returns whether a compaction is under way, or fewer segments than `least` are free. A store that has failed wants
    /// no compaction.
    pub fn compact_wanted(&self, least: u64) -> bool
        ensures { result ≡ is_wanted (has_failed (store_in self.now)) (phase_of (store_in self.now)) (room_of (store_in self.now)).segments least }
    {
        if self.store.has_failed() {
            return false;
        }
        match self.store.phase() {
            Phase::Idle => self.store.free_count() < least,
            Phase::Reading | Phase::Writing | Phase::Ready => true,
        }
    }

    /// Returns whether the commands appended since loading are noted, and bear a trail out that made these commands.
    pub fn bears(&self, alloc: Global, trail: &Trail, made: &[Command]) -> Result<bool, AllocError>
        ensures { IfOk result (λ bears. IsTrue bears ↔ BearsIfNoted (appended_of self.now) trail.now made.now) }
    {
        match &self.appended {
            None => Ok(false),
            Some(appended) => appended.bears(alloc, trail, made),
        }
    }

    /// Ends the store. Returns the number of its last command and the disk, without a disk call.
    pub fn close(self) -> (u64, D)
        ensures front { result.0 ≡ opening_in self + since_in self }
        ensures counted { AreAsMany (appended_of self) (since_in self) }
        ensures left { ∥ HasLeft D.is_honest D.history D.size (appended_of self) result.1 result.0 ∥₁ }
    {
        let BookedStore {
            store,
            opening: _,
            book: _,
            appended: _,
        } = self;
        let front = store.front();
        (front, store.into_disk())
    }
}
