//! The engine: a desk and a store behind two locks.
ghost use Rattle.std.specs.Prelude.{◌≡◌, ◌⊎◌, ◌+◌, ◌≤◌, ℕ, true, IfErr, IfOk, MatchResult};
ghost use Rattle.cg_disk.specs.Disk.{Stays, present};
ghost use Rattle.cg_fold.specs.Durable.{State};
ghost use Rattle.cg_store.specs.Carried.{Carries};
ghost use Rattle.cg_engine.specs.Loads.{IsFound, IsPassing, Tells, found};
ghost use Rattle.cg_engine.specs.Passes.{opening_of, units_of};

use crate::delivery::Deliveries;
use crate::desk_side::DeskSide;
use crate::engine_limits::PARTS;
use crate::fault::{LoadFault, PassFault, RoundEnd, RoundFault, Skip};
use crate::pass::SessionPass;
use crate::store_load::opened;
use crate::store_side::{BlankBook, StoreSide};
use crate::trail::snapshots;
use cg_desk::Counts;
use cg_disk::SectorDisk;
use cg_names::Moment;
use cg_store::CompactFault;
use std::alloc::{AllocError, Global};
use std::sync::atomic::{AtomicU64, Ordering};
use std::sync::ledger::{Blank, Ledger};
use std::sync::{Condvar, Mutex, MutexGuard, Wait};
use std::thread;
use std::time::{Clock, Duration};

/// A desk and a store behind two locks, for any number of threads. No thread holds both locks. An engine loads one disk,
/// once. It has no thread of its own: its callers flush, tick and compact.
pub struct Engine<D: SectorDisk, L: Ledger> {
    pub(crate) alloc: Global,
    /// Whether a trail is kept.
    pub(crate) trail: bool,
    pub(crate) desk: Mutex<DeskSide<L>>,
    pub(crate) store: Mutex<StoreSide<D, L>>,
    /// Notified where commands are pending.
    pub(crate) pending: Condvar,
    /// How many times answers were sent.
    pub(crate) answered: AtomicU64,
}

impl<D: SectorDisk + Drop, L: Ledger> Engine<D, L> {
    /// Creates an engine with nothing loaded. With a trail it records each step of its desk, and `finish` tests the record:
    /// every request, reply and batch then stays in memory.
    pub fn new(alloc: Global, blank: Blank, trail: bool) -> Result<Self, AllocError>
        requires name { blank.name ≡ L.name }
        requires parts { blank.parts ≡ L.parts }
        requires enough { PARTS ≤ blank.parts }
    {
        let (book, mut all) = blank.open::<L>();
        let share = all.split_off(PARTS, 0);
        let side = DeskSide::new(alloc, share, trail)?;
        Ok(Engine {
            alloc,
            trail,
            desk: Mutex::new(side),
            store: Mutex::new(StoreSide::Empty(BlankBook { book })),
            pending: Condvar::new(),
            answered: AtomicU64::new(0),
        })
    }

    /// Makes a pass. An engine makes at most 65,536 of them (`PASSES_MAX`); one that is dropped is not replaced.
    pub fn pass<R: Wait>(&self, rt: &R) -> Result<SessionPass<L>, PassFault> {
        self.desk.lock(rt).pass()
    }

    /// Returns the number of the last command that the desk numbered, for a request or a tick, or that was loaded. It may not
    /// be stored yet. With nothing loaded it is 0.
    pub fn numbered<R: Wait>(&self, rt: &R) -> u64 {
        self.desk.lock(rt).numbered()
    }

    /// Returns how many groups, members and offsets there are, how many requests are pending, and the number of the last settled
    /// command. Linear in the groups, under the desk lock.
    pub fn counts<R: Wait>(&self, rt: &R) -> Counts {
        self.desk.lock(rt).counts()
    }

    /// Returns the number of the last command that is stored: at least the number of the loaded commands and the units of the
    /// pass. While the store is behind that, the call looks again.
    pub fn front<R: Wait>(&self, rt: &R, pass: &SessionPass<L>) -> u64
        ensures { opening_of pass.now + units_of pass.now ≤ result }
    {
        for _ in rt.forever() {
            let front = self.store.lock(rt).front();
            if pass.is_backed_by(front) {
                return front;
            }
            thread::yield_now();
        }
        unreachable!()
    }

    // Ends a loading that found nothing to serve.
    fn give_up<R: Wait>(&self, rt: &R, book: BlankBook<L>) {
        *self.store.lock(rt) = StoreSide::Empty(book);
    }

    /// Opens the store of a disk and serves its groups from the moment `now`, which counts as the last heartbeat of every
    /// member (KIP-62). Returns the numbers of commands, group records and offsets. After an error, returns the disk.
    /// `Loaded` is reported where a disk is loaded already, or another thread loads one.
    pub fn load<R: Wait>(
        &self,
        rt: &R,
        disk: D,
        now: Moment,
    ) -> Result<(u64, u64, u64), (LoadFault, D)>
        ensures carried { D.is_honest disk ≡ true → (n : ℕ) (state : State) → Carries (present (D.history disk)).content (D.size disk) n state
            → MatchResult result (λ numbers. numbers ≡ found n state) (λ refused. IsPassing refused.0 ⊎ (refused.0 ≡ LoadFault.Loaded)) }
        ensures found { D.is_honest disk ≡ true → IfOk result (IsFound (present (D.history disk)).content (D.size disk)) }
        ensures tells { D.is_honest disk ≡ true → IfErr result (λ refused. Tells (present (D.history disk)).content (D.size disk) refused.0) }
        ensures stays { D.is_honest disk ≡ true → IfErr result (λ refused. Stays (D.history disk) (D.history refused.1)) }
        ensures loaded { IfErr result (λ refused. refused.0 ≡ LoadFault.Loaded → refused.1 ≡ disk) }
    {
        let Some(book) = self.store.lock(rt).begin() else {
            return Err((LoadFault::Loaded, disk));
        };
        let (store, number, durable) = match opened(self.alloc, disk) {
            Ok(opened) => opened,
            Err(refused) => {
                self.give_up(rt, book);
                return Err(refused);
            }
        };
        let (records, offsets) = durable.counts();
        let Ok((loaded, appended)) = snapshots(self.alloc, self.trail, &durable) else {
            self.give_up(rt, book);
            return Err((LoadFault::Memory, store.into_disk()));
        };
        let served = self.desk.lock(rt).load(number, durable, now, loaded);
        if served.is_err() {
            self.give_up(rt, book);
            return Err((LoadFault::Memory, store.into_disk()));
        }
        *self.store.lock(rt) = StoreSide::Loaded(book.with_store(store, appended));
        Ok((number, records, offsets))
    }

    /// Returns how many times answers were sent: it changes at each step that sends one, before that step returns.
    pub fn answered(&self) -> u64 {
        self.answered.load(Ordering::SeqCst)
    }

    // Sends answers, and counts that it did.
    pub(crate) fn send_all<R: Wait>(&self, rt: &R, deliveries: Deliveries<L>) {
        if deliveries.send_all(rt) {
            self.answered.fetch_add(1, Ordering::SeqCst);
        }
    }

    // Frees the desk lock, notifies a thread in `await_commands` if commands are pending, and sends the answers.
    pub(crate) fn unlock<R: Wait>(
        &self,
        rt: &R,
        desk: MutexGuard<'_, DeskSide<L>>,
        deliveries: Deliveries<L>,
    ) {
        let has_pending = desk.has_pending();
        drop(desk);
        if has_pending {
            self.pending.notify_one();
        }
        self.send_all(rt, deliveries);
    }

    /// Runs the time-dependent rules.
    pub fn tick<R: Wait>(&self, rt: &R, now: Moment) -> Result<RoundEnd, RoundFault> {
        let mut deliveries = Deliveries::new(self.alloc);
        let mut desk = self.desk.lock(rt);
        let end = desk.tick(rt, now, &mut deliveries);
        self.unlock(rt, desk, deliveries);
        end
    }

    /// Waits until a flush round has something to do, until `wake` is called, or for this time.
    pub fn await_commands<R: Wait + Clock>(&self, rt: &R, most: Duration) {
        let (mut desk, _) = self
            .pending
            .wait_timeout_while(rt, self.desk.lock(rt), most, |desk| !desk.ends_wait());
        desk.clear_wake();
    }

    /// Ends the wait of whoever waits for commands, or else the next one.
    pub fn wake<R: Wait>(&self, rt: &R) {
        self.desk.lock(rt).wake();
        self.pending.notify_one();
    }

    // Refuses every pending call, since the disk failed.
    fn fail<R: Wait>(&self, rt: &R) {
        let mut deliveries = Deliveries::new(self.alloc);
        self.desk.lock(rt).fail(rt, &mut deliveries);
        self.send_all(rt, deliveries);
    }

    /// Does the next step of the compaction under way, or begins one if there is none: for a caller that looked at
    /// `compact_wanted`.
    pub fn compact_round<R: Wait>(&self, rt: &R) -> Result<RoundEnd, RoundFault> {
        let compacted = self.store.lock(rt).compact();
        match compacted {
            None => Ok(RoundEnd::Nothing),
            Some(Ok(_)) => Ok(RoundEnd::Done),
            Some(Err(CompactFault::Memory)) => Err(RoundFault::Memory),
            Some(Err(CompactFault::NoRoom)) => Ok(RoundEnd::Skipped(Skip::NoRoom)),
            Some(Err(CompactFault::Device)) => {
                self.fail(rt);
                Err(RoundFault::Device)
            }
            // The step of the phase is never in the wrong phase.
            Some(Err(CompactFault::WrongPhase | CompactFault::Failed)) => Err(RoundFault::Failed),
        }
    }

    /// Returns whether a compaction is under way, or fewer segments than `least` are free. A store that has failed wants none.
    pub fn compact_wanted<R: Wait>(&self, rt: &R, least: u64) -> bool {
        self.store.lock(rt).compact_wanted(least)
    }

    /// Returns how many segments of the log are free; 0 where nothing is loaded.
    pub fn free_count<R: Wait>(&self, rt: &R) -> u64 {
        self.store.lock(rt).free_count()
    }
}
