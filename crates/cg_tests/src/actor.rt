//! Actors over one engine on a disk in memory: each plays a script in a thread of its own. A turn of one that waits is a look
//! and a pause of a millisecond.
ghost use Rattle.std.specs.Prelude.{◌≡◌, ◌≤◌};
ghost use Rattle.cg_engine.specs.declared.engine_limits.TheConstants.{PARTS};

use super::storm::call_at_random;
use cg_disk::{Gate, GateDisk, MemDisk, SectorDisk};
use cg_engine::{Closed, Engine, PARTS, RoundEnd, RoundFault, SessionPass};
use cg_names::Moment;
use std::alloc::Global;
use std::process::Abort;
use std::sync::Wait;
use std::sync::atomic::{AtomicU64, Ordering};
use std::sync::ledger::{Blank, Ledger};
use std::thread::{self, Threads};
use std::time::{Clock, Duration};
use uuid::Uuid;

// Sectors of a disk with four segments, enough for a compaction.
const DISK_SECTORS: u64 = 4 + 4 * 2048;

// Most turns of an actor that waits.
const TURNS: u32 = 20_000;

// What an actor decided about the gated sync: it may go, or it fails.
const SYNC_GOES: u64 = 1;

const SYNC_FAILS: u64 = 2;

/// What a round does.
#[derive(Clone, Copy)]
pub(super) enum Round {
    Flush,
    /// Moves the time by this many milliseconds, and ticks.
    Tick(u64),
    Compact,
}

/// A step of a script. Only the first four are counted as steps that have ended.
#[derive(Clone, Copy)]
pub(super) enum Step {
    /// Makes a call, and notes its answer.
    Call(&'static str),
    /// Makes many calls, drawn at random.
    CallAtRandom,
    /// Does one round.
    Once(Round),
    /// Does one round, which reports this fault.
    Fails(Round, RoundFault),
    /// Makes a call until the answer is 27.
    CallUntilRebalance(&'static str),
    /// Does rounds until this many steps have ended.
    Until(u64, Round),
    /// Waits until this many steps have ended.
    WaitEnded(u64),
    /// Waits until the gated sync has begun.
    WaitSyncing,
    /// Waits until the engine has numbered this many commands.
    WaitNumbered(u64),
    /// Lets the gated sync go.
    OpenSync,
    /// Lets the gated sync fail.
    FailSync,
}

/// What the actors share.
#[derive(Drop)]
struct Shared {
    /// Milliseconds of the time at which calls are made.
    now: AtomicU64,
    /// Number of steps that have ended.
    ended: AtomicU64,
    /// 1 once the gated sync has begun.
    syncing: AtomicU64,
    /// What was decided about the gated sync; 0 before.
    decision: AtomicU64,
}

fn pause(rt: &impl Clock) {
    thread::sleep(rt, Duration::from_millis(1));
}

// Waits until a number is at least `wanted`. Returns whether it is.
fn reaches(rt: &impl Clock, number: &AtomicU64, wanted: u64) -> bool {
    for _ in 0..TURNS {
        if number.load(Ordering::SeqCst) >= wanted {
            return true;
        }
        pause(rt);
    }
    false
}

// The gate of the gated sync.
struct Signal<'a, R: Clock> {
    rt: &'a R,
    shared: &'a Shared,
}

impl<R: Clock> Gate for Signal<'_, R> {
    fn opened(&mut self) -> bool {
        self.shared.syncing.store(1, Ordering::SeqCst);
        let decision = &self.shared.decision;
        reaches(self.rt, decision, SYNC_GOES) && decision.load(Ordering::SeqCst) == SYNC_GOES
    }
}

impl<R: Clock> Drop for Signal<'_, R> {
    fn drop(self) {
        let Signal { rt: _, shared: _ } = self;
    }
}

type Gated<'a, L, R> = Engine<GateDisk<MemDisk, Signal<'a, R>>, L>;

/// What an actor was answered.
#[derive(Drop)]
pub(super) struct Notes {
    /// Answers as lines, but those of random calls.
    pub said: Vec<u8>,
    /// The last acknowledged offsets of random calls in groups g0 and g1, or 0.
    pub acknowledged: [u64; 2],
}

/// A session with its script.
#[derive(Drop)]
struct Actor<L: Ledger> {
    pass: SessionPass<L>,
    script: &'static [Step],
    notes: Notes,
}

/// Where actors play.
#[derive(Drop)]
pub(super) struct Stage<'a, D: SectorDisk, L: Ledger, R: Clock> {
    pub rt: &'a R,
    pub alloc: Global,
    engine: &'a Engine<D, L>,
    shared: &'a Shared,
}

impl<D: SectorDisk + Drop, L: Ledger, R: Wait + Clock + Abort> Stage<'_, D, L, R> {
    /// Makes one call, from which a JOIN may draw the number of the pass, counted from 1. Returns the answer as a line.
    pub(super) fn call(&self, pass: SessionPass<L>, line: &[u8]) -> (SessionPass<L>, Vec<u8>) {
        let request = cg_line::parse(self.alloc, line).expect(self.rt, "a request");
        let now = Moment::from_millis(self.shared.now.load(Ordering::SeqCst));
        let fresh = Uuid::from_u128(u128::from(pass.number()) + 1);
        let (pass, outgoing) = self.engine.call(self.rt, pass, request, now, fresh);
        let answer = cg_line::print(self.alloc, outgoing.reply()).expect(self.rt, "a line");
        (pass, answer)
    }

    fn note(&self, pass: SessionPass<L>, notes: &mut Notes, line: &str) -> SessionPass<L> {
        let (pass, mut answer) = self.call(pass, line.as_bytes());
        answer.push(b'\n').expect(self.rt, "memory");
        notes.said.append(&mut answer).expect(self.rt, "memory");
        pass
    }

    fn call_until_rebalance(&self, pass: SessionPass<L>, line: &str) -> SessionPass<L> {
        let mut pass = pass;
        for _ in 0..TURNS {
            let (back, answer) = self.call(pass, line.as_bytes());
            pass = back;
            if answer.as_slice() == b"ERR 27 REBALANCE_IN_PROGRESS".as_slice() {
                return pass;
            }
            pause(self.rt);
        }
        panic!(self.rt; "no rebalance begins");
    }

    fn do_round(&self, round: Round) -> Result<RoundEnd, RoundFault> {
        match round {
            Round::Flush => self.engine.flush_round(self.rt),
            Round::Tick(millis) => {
                let before = self.shared.now.fetch_add(millis, Ordering::SeqCst);
                let now = Moment::from_millis(before.saturating_add(millis));
                self.engine.tick(self.rt, now)
            }
            Round::Compact => self.engine.compact_round(self.rt),
        }
    }

    fn do_rounds(&self, steps: u64, round: Round) {
        for _ in self.rt.forever() {
            if self.shared.ended.load(Ordering::SeqCst) >= steps {
                return;
            }
            assert!(self.rt; self.do_round(round).is_ok());
            pause(self.rt);
        }
    }

    fn wait(&self, number: &AtomicU64, wanted: u64) {
        assert!(self.rt;
            reaches(self.rt, number, wanted),
            "an actor waits for too long"
        );
    }

    fn wait_numbered(&self, wanted: u64) {
        for _ in 0..TURNS {
            if self.engine.numbered(self.rt) >= wanted {
                return;
            }
            pause(self.rt);
        }
        panic!(self.rt; "a command has no number");
    }

    fn end_step(&self) {
        self.shared.ended.fetch_add(1, Ordering::SeqCst);
    }

    // Does one round, which has to end so.
    fn do_once(&self, round: Round, end: Result<RoundEnd, RoundFault>) {
        assert_eq!(self.rt; self.do_round(round), end);
        self.end_step();
    }

    // Does a step that makes no call.
    fn act_alone(&self, step: Step) {
        match step {
            Step::Once(round) => self.do_once(round, Ok(RoundEnd::Done)),
            Step::Fails(round, fault) => self.do_once(round, Err(fault)),
            Step::Until(steps, round) => self.do_rounds(steps, round),
            Step::WaitEnded(steps) => self.wait(&self.shared.ended, steps),
            Step::WaitSyncing => self.wait(&self.shared.syncing, 1),
            Step::WaitNumbered(wanted) => self.wait_numbered(wanted),
            Step::OpenSync => self.shared.decision.store(SYNC_GOES, Ordering::SeqCst),
            Step::FailSync => self.shared.decision.store(SYNC_FAILS, Ordering::SeqCst),
            _ => {}
        }
    }

    fn act(&self, pass: SessionPass<L>, notes: &mut Notes, step: Step) -> SessionPass<L> {
        match step {
            Step::Call(line) => {
                let pass = self.note(pass, notes, line);
                self.end_step();
                pass
            }
            Step::CallAtRandom => {
                let pass = call_at_random(self, pass, &mut notes.acknowledged);
                self.end_step();
                pass
            }
            Step::CallUntilRebalance(line) => self.call_until_rebalance(pass, line),
            other => {
                self.act_alone(other);
                pass
            }
        }
    }

    fn play(&self, actor: Actor<L>) -> Actor<L> {
        let Actor {
            mut pass,
            script,
            mut notes,
        } = actor;
        for step in script {
            pass = self.act(pass, &mut notes, *step);
        }
        Actor {
            pass,
            script,
            notes,
        }
    }

    fn actor(&self, script: &'static [Step]) -> Actor<L> {
        Actor {
            pass: self.engine.pass(self.rt).expect(self.rt, "a pass"),
            script,
            notes: Notes {
                said: Vec::new(self.alloc),
                acknowledged: [0, 0],
            },
        }
    }

    fn actors(&self, scripts: &[&'static [Step]]) -> Vec<Actor<L>> {
        let mut actors = Vec::new(self.alloc);
        for script in scripts {
            actors.push(self.actor(*script)).expect(self.rt, "memory");
        }
        actors
    }
}

// Lets an actor play each script, in a thread of its own. Returns them once all have.
fn played<D: SectorDisk + Drop + Send, L: Ledger + Send, R: Threads + Wait + Clock + Abort + Sync>(
    stage: Stage<'_, D, L, R>,
    scripts: &[&'static [Step]],
) -> Vec<Actor<L>> {
    let actors = stage.actors(scripts);
    thread::map_vec(stage.rt, actors, &|actor| stage.play(actor)).expect(stage.rt, "memory")
}

/// What the actors were answered, and what the engine left.
#[derive(Drop)]
pub(super) struct Outcome {
    /// Notes of each actor.
    pub notes: Vec<Notes>,
    /// Units of all passes.
    pub units: u64,
    /// Number of the last stored command at the end.
    pub number: u64,
}

// Takes passes from actors, and adds their units and notes to an outcome.
fn passes_of<L: Ledger>(
    rt: &impl Abort,
    alloc: Global,
    actors: Vec<Actor<L>>,
    outcome: &mut Outcome,
) -> Vec<SessionPass<L>> {
    let mut passes = Vec::new(alloc);
    for actor in actors {
        outcome.units = outcome.units.saturating_add(actor.pass.units());
        outcome.notes.push(actor.notes).expect(rt, "memory");
        passes.push(actor.pass).expect(rt, "memory");
    }
    passes
}

/// Makes a formatted disk.
pub(super) fn formatted(rt: &impl Abort, alloc: Global) -> MemDisk {
    let mut disk = MemDisk::new(alloc, DISK_SECTORS).expect(rt, "a disk");
    cg_store::format(alloc, &mut disk).expect(rt, "a log");
    disk
}

// Creates an engine that serves a formatted disk, whose sync after this many others is gated. It keeps a trail.
fn opened<'a, L: Ledger, R: Wait + Clock + Abort>(
    rt: &'a R,
    alloc: Global,
    blank: Blank,
    syncs: u64,
    shared: &'a Shared,
) -> Gated<'a, L, R>
    requires { (blank.name ≡ L.name) × (blank.parts ≡ L.parts) × (PARTS ≤ blank.parts) }
{
    let engine = Engine::new(alloc, blank, true).expect(rt, "an engine");
    let disk = GateDisk::new(formatted(rt, alloc), syncs, Signal { rt, shared });
    let loaded = engine.load(rt, disk, Moment::from_millis(0));
    assert!(rt; loaded.is_ok());
    engine
}

fn finished<D: SectorDisk + Drop, L: Ledger>(
    rt: &impl Abort,
    engine: Engine<D, L>,
    passes: Vec<SessionPass<L>>,
) -> Closed<D> {
    match engine.finish(passes) {
        Ok(closed) => closed,
        Err((fault, engine, _passes)) => {
            let _ = engine.abandon();
            panic!(rt; "{fault}");
        }
    }
}

/// Plays scripts over a formatted disk, whose sync after this many others is gated. The engine keeps a trail, and finishes.
/// Returns the disk too.
pub(super) fn outcome_of<L: Ledger + Send, R: Threads + Wait + Clock + Abort + Sync>(
    rt: &R,
    alloc: Global,
    blank: Blank,
    syncs: u64,
    scripts: &[&'static [Step]],
) -> (Outcome, MemDisk)
    requires { (blank.name ≡ L.name) × (blank.parts ≡ L.parts) × (PARTS ≤ blank.parts) }
{
    let shared = Shared {
        now: AtomicU64::new(0),
        ended: AtomicU64::new(0),
        syncing: AtomicU64::new(0),
        decision: AtomicU64::new(0),
    };
    let engine: Gated<'_, L, R> = opened(rt, alloc, blank, syncs, &shared);
    let stage = Stage {
        rt,
        alloc,
        engine: &engine,
        shared: &shared,
    };
    let mut outcome = Outcome {
        notes: Vec::new(alloc),
        units: 0,
        number: 0,
    };
    let passes = passes_of(rt, alloc, played(stage, scripts), &mut outcome);
    let closed = finished(rt, engine, passes);
    outcome.number = closed.front;
    (outcome, closed.disk.expect(rt, "a disk").into_inner())
}
