//! The passes that no connection has.
use cg_disk::SectorDisk;
use cg_engine::{Engine, PASSES_MAX, SessionPass};
use std::alloc::Global;
use std::sync::atomic::{AtomicUsize, Ordering};
use std::sync::ledger::Ledger;
use std::sync::{Mutex, Wait};

/// Most passes that connections have beyond the first of each: half of all, so that new connections find some.
const EXTRA_MAX: usize = PASSES_MAX / 2;

/// The passes of an engine that no connection has. Each is used again, since an engine makes `PASSES_MAX` at most.
#[derive(Drop)]
pub struct Passes<L: Ledger> {
    idle: Mutex<Vec<SessionPass<L>>>,
    // How often the engine was asked for one.
    asked: AtomicUsize,
    // How many connections have beyond the first of each.
    extra: AtomicUsize,
}

impl<L: Ledger> Passes<L> {
    /// Creates an empty pool, without an allocation.
    pub fn new(alloc: Global) -> Self {
        Passes {
            idle: Mutex::new(Vec::new(alloc)),
            asked: AtomicUsize::new(0),
            extra: AtomicUsize::new(0),
        }
    }

    /// Returns a pass that was given back, or else a new one. Returns `None` if there is none to be had.
    pub fn take<D: SectorDisk + Drop, R: Wait>(
        &self,
        rt: &R,
        engine: &Engine<D, L>,
    ) -> Option<SessionPass<L>> {
        let mut idle = self.idle.lock(rt);
        if let Some(pass) = idle.pop() {
            return Some(pass);
        }
        // Room for all that were made, so that each can be given back. An engine makes no more than this, however often it
        // is asked.
        let asked = self.asked.fetch_add(1, Ordering::SeqCst);
        idle.reserve(asked.saturating_add(1).min(PASSES_MAX)).ok()?;
        drop(idle);
        engine.pass(rt).ok()
    }

    /// Gives a pass back.
    pub fn give<R: Wait>(&self, rt: &R, pass: SessionPass<L>) {
        let _ = self.idle.lock(rt).push(pass);
    }

    /// Returns a pass for a connection that has one, as `take` does, while at most half of all are such.
    pub fn take_extra<D: SectorDisk + Drop, R: Wait>(
        &self,
        rt: &R,
        engine: &Engine<D, L>,
    ) -> Option<SessionPass<L>> {
        let taken = self.extra.fetch_add(1, Ordering::SeqCst);
        let pass = if taken < EXTRA_MAX {
            self.take(rt, engine)
        } else {
            None
        };
        if pass.is_none() {
            self.extra.fetch_sub(1, Ordering::SeqCst);
        }
        pass
    }

    /// Gives a pass back for which the connection has another one.
    pub fn give_extra<R: Wait>(&self, rt: &R, pass: SessionPass<L>) {
        self.extra.fetch_sub(1, Ordering::SeqCst);
        self.give(rt, pass);
    }

    /// Returns the passes that were given back.
    pub fn into_idle(self) -> Vec<SessionPass<L>> {
        let Passes { idle, .. } = self;
        idle.into_inner()
    }
}
