//! What the threads of a server share.
use crate::bell::Bell;
use crate::inbox::Inbox;
use crate::options::Options;
use crate::passes::Passes;
use crate::room::Room;
use crate::tally::Tally;
use crate::wall_clock::Moments;
use cg_disk::SectorDisk;
use cg_engine::{Engine, Requests, RoundEnd, RoundFault, SessionPass, Taken};
use std::alloc::Global;
use std::net::{Net, SocketAddr, TcpStream};
use std::sync::Wait;
use std::sync::atomic::{AtomicBool, Ordering};
use std::sync::ledger::Ledger;
use std::thread;
use std::time::{Clock, Duration};

/// Number of times that a server which closes tries to connect to itself.
const CONNECTS_MAX: u32 = 1_000;

/// Pause between two of them, in milliseconds.
const CONNECT_PAUSE_MS: u64 = 10;

/// What the threads of a server share.
#[derive(Drop)]
pub struct Server<'a, D: SectorDisk, L: Ledger> {
    pub alloc: Global,
    pub engine: &'a Engine<D, L>,
    pub options: Options,
    pub moments: Moments,
    /// What is handed to each worker.
    pub inboxes: Vec<Inbox>,
    /// Wakes the flusher while the log is full or an allocation failed.
    pub flush: Bell,
    /// Wakes the reporter.
    pub report: Bell,
    /// Wakes the ticker.
    pub tick: Bell,
    /// The room of the log.
    pub room: Room,
    /// The passes that no connection has.
    pub passes: Passes<L>,
    /// What is counted for a status.
    pub tally: Tally,
    /// The address that the server listens on.
    address: SocketAddr,
    // Whether the thread that accepts connections runs.
    begun: AtomicBool,
    // Whether the server closes.
    closing: AtomicBool,
    // Whether no stream is handed to a worker any more.
    done: AtomicBool,
    // Whether the last worker has ended.
    over: AtomicBool,
    // Whether the flusher is awake.
    flushing: AtomicBool,
    // Whether the disk has failed.
    failed: AtomicBool,
}

impl<'a, D: SectorDisk + Drop, L: Ledger> Server<'a, D, L> {
    /// Creates the shared part of a server that listens on this address.
    pub fn new(
        alloc: Global,
        engine: &'a Engine<D, L>,
        options: Options,
        address: SocketAddr,
        inboxes: Vec<Inbox>,
        tally: Tally,
        moments: Moments,
    ) -> Self {
        Server {
            alloc,
            engine,
            options,
            moments,
            inboxes,
            flush: Bell::new(),
            report: Bell::new(),
            tick: Bell::new(),
            room: Room::new(options.compact_free),
            passes: Passes::new(alloc),
            tally,
            address,
            begun: AtomicBool::new(false),
            closing: AtomicBool::new(false),
            done: AtomicBool::new(false),
            over: AtomicBool::new(false),
            flushing: AtomicBool::new(false),
            failed: AtomicBool::new(false),
        }
    }

    /// Notes that the thread that accepts connections runs.
    pub fn begin(&self) {
        self.begun.store(true, Ordering::SeqCst);
    }

    /// Returns whether the thread that accepts connections runs.
    pub fn has_begun(&self) -> bool {
        self.begun.load(Ordering::SeqCst)
    }

    /// Returns whether the server closes: the open connections end.
    pub fn is_closing(&self) -> bool {
        self.closing.load(Ordering::SeqCst)
    }

    /// Returns whether no stream is handed to a worker any more.
    pub fn is_done(&self) -> bool {
        self.done.load(Ordering::SeqCst)
    }

    /// Notes that no stream is handed to a worker any more. The workers end with their last connections.
    pub fn finish_accepting(&self) {
        self.done.store(true, Ordering::SeqCst);
        self.wake_workers();
    }

    /// Wakes the workers that wait.
    pub fn wake_workers(&self) {
        for inbox in self.inboxes.as_slice() {
            inbox.wake();
        }
    }

    /// Wakes the workers that wait for answers.
    pub fn wake_callers(&self) {
        for inbox in self.inboxes.as_slice() {
            inbox.wake_caller();
        }
    }

    // Wakes the workers that wait for answers, if some were sent since the count of `Engine::answered` was this.
    fn wake_callers_since(&self, answered: u64) {
        if self.engine.answered() != answered {
            self.wake_callers();
        }
    }

    /// Hands requests to the desk, and wakes the workers that wait for the answers that it makes. Returns what
    /// `Engine::hand_over` does.
    pub fn hand_over<R: Wait>(&self, rt: &R, requests: &mut Requests<L>) -> bool {
        let answered = self.engine.answered();
        let has_pending = self.engine.hand_over(rt, requests);
        self.wake_callers_since(answered);
        has_pending
    }

    // Takes a batch from the desk, and wakes the workers that wait for the answers that it makes: these are not to wait for the
    // disk.
    fn take_batch<R: Wait>(&self, rt: &R) -> Result<Taken<L>, RoundFault> {
        let answered = self.engine.answered();
        let taken = self.engine.take_batch(rt);
        self.wake_callers_since(answered);
        taken
    }

    /// Runs a flush round, and wakes the workers that wait for its answers.
    pub fn flush_round<R: Wait>(&self, rt: &R) -> Result<RoundEnd, RoundFault> {
        match self.take_batch(rt)? {
            Taken::Batch(batch) => {
                let end = self.engine.store_batch(rt, batch);
                self.wake_callers();
                end
            }
            Taken::End(end) => Ok(end),
        }
    }

    /// Returns whether the flusher is awake. Then it takes the commands that wait for a batch, or looks for them once more
    /// before it sleeps: no other thread has to take or to report them.
    pub fn is_flushing(&self) -> bool {
        self.flushing.load(Ordering::SeqCst)
    }

    /// Notes whether the flusher is awake. It notes that it is not before its last look for commands.
    pub fn note_flushing(&self, flushing: bool) {
        self.flushing.store(flushing, Ordering::SeqCst);
    }

    /// Notes that the disk has failed, and wakes the reporter.
    pub fn note_failed<R: Wait>(&self, rt: &R) {
        self.failed.store(true, Ordering::SeqCst);
        self.report.ring(rt);
    }

    /// Returns whether the disk has failed.
    pub fn has_failed(&self) -> bool {
        self.failed.load(Ordering::SeqCst)
    }

    /// Returns whether the last worker has ended.
    pub fn is_over(&self) -> bool {
        self.over.load(Ordering::SeqCst)
    }

    /// Accepts no more connections, and has the workers shut down the open ones.
    pub fn refuse(&self) {
        self.closing.store(true, Ordering::SeqCst);
        self.wake_workers();
    }

    /// Accepts no more connections, and has the workers shut down the open ones. Connects to the server, so that the thread
    /// that waits for a connection wakes up; without a free descriptor it tries again, up to `CONNECTS_MAX` times.
    pub fn close<R: Wait + Clock + Net>(&self, rt: &R) {
        self.refuse();
        for _ in 0..CONNECTS_MAX {
            if TcpStream::connect(rt, self.address).is_ok() {
                return;
            }
            // No descriptor is free until a connection has ended.
            thread::sleep(rt, Duration::from_millis(CONNECT_PAUSE_MS));
        }
    }

    /// Wakes the flusher, whatever it waits for.
    pub fn wake_flusher<R: Wait>(&self, rt: &R) {
        self.engine.wake(rt);
        self.flush.ring(rt);
    }

    /// Tells the other threads that the last worker has ended.
    pub fn end<R: Wait>(&self, rt: &R) {
        self.over.store(true, Ordering::SeqCst);
        self.wake_flusher(rt);
        self.room.compactor.ring(rt);
        self.tick.ring(rt);
        self.report.ring(rt);
    }

    /// Returns the passes, once no worker is left.
    pub fn into_passes(self) -> Vec<SessionPass<L>> {
        let Server { passes, .. } = self;
        passes.into_idle()
    }
}
