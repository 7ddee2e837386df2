//! The store's side of an engine: what the store lock guards.
ghost use Rattle.std.specs.Prelude.{◌≡◌, ◌+◌, ◌↔◌, IfOk, IsTrue};
ghost use Rattle.cg_engine.specs.Appended.{AreAsMany, BearsIfNoted};
ghost use Rattle.cg_engine.specs.Left.{Leaves};
ghost use Rattle.cg_engine.specs.Stored.{IsKept};

use crate::booked::{BookedReceipt, BookedStore};
use crate::trail::Appended;
use crate::units::Part;
use cg_disk::SectorDisk;
use cg_record::Command;
use cg_store::{Batch, CompactFault, Progress, Store, StoreFault};
use cg_trail::Trail;
use std::alloc::{AllocError, Global};
use std::mem;
use std::sync::ledger::{Book, Ledger};

/// A book without units, for the store to come.
#[derive(Drop)]
pub struct BlankBook<L: Ledger> {
    pub book: Book<L>,
    ghost none: { book.total ≡ 0 },
}

/// What the store lock guards.
#[derive(Drop)]
pub enum StoreSide<D: SectorDisk, L: Ledger> {
    /// Nothing is loaded.
    Empty(BlankBook<L>),
    /// A thread loads a disk.
    Loading,
    Loaded(BookedStore<D, L>),
}

impl<L: Ledger> BlankBook<L> {
    /// Puts the book beside a store that was just opened.
    pub fn with_store<D: SectorDisk>(
        self,
        store: Store<D>,
        appended: Option<Appended>,
    ) -> BookedStore<D, L>
        requires counted { AreAsMany appended 0 }
        requires kept { ∥ IsKept D.is_honest D.history store appended ∥₁ }
    {
        let BlankBook { book } = self;
        BookedStore::new(store, book, appended)
    }
}

impl<D: SectorDisk + Drop, L: Ledger> StoreSide<D, L> {
    ghost use Rattle.cg_engine.specs.Sides.{noted_by, opening_by, since_by};

    /// Begins a loading: returns the book if nothing is loaded.
    pub fn begin(&mut self) -> Option<BlankBook<L>> {
        match mem::replace(self, StoreSide::Loading) {
            StoreSide::Empty(book) => Some(book),
            other => {
                *self = other;
                None
            }
        }
    }

    /// Returns the number of the last command; 0 where nothing is loaded.
    pub fn front(&self) -> u64 {
        match self {
            StoreSide::Loaded(store) => store.front(),
            StoreSide::Empty(_) | StoreSide::Loading => 0,
        }
    }

    /// Returns how many commands were appended since loading; 0 where nothing is loaded.
    pub fn since_loading(&self) -> u64
        ensures { result ≡ since_by self.now }
    {
        match self {
            StoreSide::Loaded(store) => store.since_loading(),
            StoreSide::Empty(_) | StoreSide::Loading => 0,
        }
    }

    /// Appends a batch. The fault is `None` where nothing is loaded.
    pub fn append(
        &mut self,
        batch: Batch,
        part: Part<L>,
    ) -> Result<BookedReceipt<L>, (Option<StoreFault>, Batch, Part<L>)> {
        match self {
            StoreSide::Loaded(store) => match store.append(batch, part) {
                Ok(booked) => Ok(booked),
                Err((fault, batch, part)) => Err((Some(fault), batch, part)),
            },
            StoreSide::Empty(_) | StoreSide::Loading => Err((None, batch, part)),
        }
    }

    /// Does the next step of a compaction. Returns `None` where nothing is loaded.
    pub fn compact(&mut self) -> Option<Result<Progress, CompactFault>> {
        match self {
            StoreSide::Loaded(store) => Some(store.compact()),
            StoreSide::Empty(_) | StoreSide::Loading => None,
        }
    }

    /// Returns how many segments are free; 0 where nothing is loaded.
    pub fn free_count(&self) -> u64 {
        match self {
            StoreSide::Loaded(store) => store.free_count(),
            StoreSide::Empty(_) | StoreSide::Loading => 0,
        }
    }

    /// Returns whether a compaction is under way, or fewer segments than `least` are free: of a store that has not
    /// failed.
    pub fn compact_wanted(&self, least: u64) -> bool {
        match self {
            StoreSide::Loaded(store) => store.compact_wanted(least),
            StoreSide::Empty(_) | StoreSide::Loading => false,
        }
    }

    /// Returns whether the commands appended since loading are noted, and bear a trail out that made these commands.
    pub fn bears(&self, alloc: Global, trail: &Trail, made: &[Command]) -> Result<bool, AllocError>
        ensures { IfOk result (λ bears. IsTrue bears ↔ BearsIfNoted (noted_by self.now) trail.now made.now) }
    {
        match self {
            StoreSide::Loaded(store) => store.bears(alloc, trail, made),
            StoreSide::Empty(_) | StoreSide::Loading => Ok(false),
        }
    }

    /// Ends the side. Returns the number of the last command, 0 where nothing is loaded, and the disk.
    pub fn close(self) -> (u64, Option<D>)
        ensures front { result.0 ≡ opening_by self + since_by self }
        ensures counted { AreAsMany (noted_by self) (since_by self) }
        ensures left { ∥ Leaves D.is_honest D.history D.size (noted_by self) result.1 result.0 ∥₁ }
    {
        match self {
            StoreSide::Loaded(store) => {
                let (front, disk) = store.close();
                (front, Some(disk))
            }
            StoreSide::Empty(_) | StoreSide::Loading => (0, None),
        }
    }
}
