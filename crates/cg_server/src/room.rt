//! The room of the log: what the threads that store batches and the compactor report to each other.
use crate::bell::Bell;
use cg_disk::SectorDisk;
use cg_engine::Engine;
use std::sync::Wait;
use std::sync::atomic::{AtomicBool, Ordering};
use std::sync::ledger::Ledger;

/// Fewest segments that are kept free for the snapshot of a compaction under way.
const KEPT_MIN: u64 = 1;

/// What the threads share about the room of the log.
#[derive(Drop)]
pub struct Room {
    /// Wakes the compactor.
    pub compactor: Bell,
    // A compaction begins where fewer segments than this are free.
    least: u64,
    // Whether the log has no room for the next batch.
    full: AtomicBool,
    // Whether batches wait for the compaction under way.
    held: AtomicBool,
    // Whether the last compaction was given up.
    given_up: AtomicBool,
}

/// Returns whether a compaction is under way: only then is one wanted where no free segment is asked for.
pub fn is_under_way<D: SectorDisk + Drop, L: Ledger, R: Wait>(
    rt: &R,
    engine: &Engine<D, L>,
) -> bool {
    engine.compact_wanted(rt, 0)
}

impl Room {
    /// Creates the room of a log that is compacted where fewer segments than this are free.
    pub fn new(least: u64) -> Room {
        Room {
            compactor: Bell::new(),
            least,
            full: AtomicBool::new(false),
            held: AtomicBool::new(false),
            given_up: AtomicBool::new(false),
        }
    }

    /// Returns whether a compaction is under way, or fewer segments are free than those below which one begins.
    pub fn is_low<D: SectorDisk + Drop, L: Ledger, R: Wait>(
        &self,
        rt: &R,
        engine: &Engine<D, L>,
    ) -> bool {
        engine.compact_wanted(rt, self.least)
    }

    /// Wakes the compactor after a batch that leaves fewer segments free than those below which a compaction begins, unless one
    /// is under way: within a tick batches might take the last ones, and no compaction can begin without any. After a compaction
    /// that was given up the next one is left to the compactor's tick, since each takes a segment for its cut.
    pub fn watch<D: SectorDisk + Drop, L: Ledger, R: Wait>(&self, rt: &R, engine: &Engine<D, L>) {
        if !self.has_given_up() && self.is_low(rt, engine) && !is_under_way(rt, engine) {
            self.compactor.ring(rt);
        }
    }

    // Returns whether the last compaction was given up, for lack of room or memory.
    fn has_given_up(&self) -> bool {
        self.given_up.load(Ordering::SeqCst)
    }

    /// Notes whether the compaction was given up.
    pub fn note_given_up(&self, given_up: bool) {
        self.given_up.store(given_up, Ordering::SeqCst);
    }

    /// Returns whether the next batch has to wait for the compaction under way: fewer segments are free than half of those
    /// below which one begins, and what is free is for its snapshot.
    pub fn is_tight<D: SectorDisk + Drop, L: Ledger, R: Wait>(
        &self,
        rt: &R,
        engine: &Engine<D, L>,
    ) -> bool {
        let kept = (self.least / 2).max(KEPT_MIN);
        is_under_way(rt, engine) && engine.free_count(rt) < kept
    }

    /// Returns whether batches wait for the compaction under way.
    pub fn is_held(&self) -> bool {
        self.held.load(Ordering::SeqCst)
    }

    /// Notes that batches wait for the compaction under way, and wakes the compactor.
    pub fn begin_hold<R: Wait>(&self, rt: &R) {
        if !self.held.swap(true, Ordering::SeqCst) {
            self.compactor.ring(rt);
        }
    }

    /// Notes that batches wait for no compaction.
    pub fn end_hold(&self) {
        self.held.store(false, Ordering::SeqCst);
    }

    /// Returns whether the log has no room for the next batch.
    pub fn is_full(&self) -> bool {
        self.full.load(Ordering::SeqCst)
    }

    /// Notes that the log has no room for the next batch, and wakes the compactor.
    pub fn begin_full<R: Wait>(&self, rt: &R) {
        self.full.store(true, Ordering::SeqCst);
        self.compactor.ring(rt);
    }

    /// Notes that the log has room again.
    pub fn end_full(&self) {
        self.full.store(false, Ordering::SeqCst);
    }
}
