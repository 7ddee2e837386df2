//! The compactor.
use crate::room::is_under_way;
use crate::server::Server;
use cg_disk::SectorDisk;
use cg_engine::{RoundEnd, RoundFault, Skip};
use std::io::{self, Eprint};
use std::sync::Wait;
use std::sync::ledger::Ledger;
use std::time::{Clock, Duration, Instant};

/// A round of at least this many microseconds is followed by a pause. Shorter ones read small frames, of which a log has up
/// to a thousand a segment.
const LONG_ROUND_US: u64 = 250;

/// Fewest free segments with which a compaction of a log with some state can end well: one for its cut, one for its snapshot.
const ROOM_MIN: u64 = 2;

// What a round of a compaction asks for.
#[derive(Clone, Copy, Debug, Drop, PartialEq, Eq)]
enum After {
    /// The next round, soon: the compaction is under way.
    Again,
    /// A pause of one tick.
    Pause,
    /// The same, and a look of the flusher: there may be room now, or the disk failed.
    Notify,
    /// The same, and a line on standard error: the compaction found no room for its snapshot.
    Cramped,
}

// What the compactor knows from one round to the next.
#[derive(Clone, Copy, Drop)]
struct CompactorState {
    /// Whether a compaction is under way.
    goes_on: bool,
    /// How many segments were free after the last compaction, if it found no room for its snapshot.
    cramped: Option<u64>,
}

// Returns whether a compaction is to begin. Each try takes a segment for its cut, and after one that found no room the next one
// finds some only if the state became smaller. So it begins once batches have taken a further segment, or the log is full.
fn is_wanted<D: SectorDisk + Drop, L: Ledger, R: Wait>(
    rt: &R,
    server: &Server<'_, D, L>,
    cramped: Option<u64>,
) -> bool {
    if server.room.is_full() {
        return true;
    }
    let may_find_room = match cramped {
        None => true,
        Some(before) => {
            let free = server.engine.free_count(rt);
            ROOM_MIN <= free && free < before
        }
    };
    may_find_room && server.room.is_low(rt, server.engine)
}

// Returns what a round asks for that ended in vain. What a compaction that was under way had taken is free again.
fn after_none(was_under_way: bool) -> After {
    if was_under_way {
        After::Notify
    } else {
        After::Pause
    }
}

// Returns whether a round gave the compaction up, for lack of room or memory.
fn gives_up(ended: Result<RoundEnd, RoundFault>) -> bool {
    matches!(ended, Ok(RoundEnd::Skipped(_)) | Err(RoundFault::Memory))
}

// Does one round of a compaction if one is wanted, or goes on with the one under way. A switch, a round that was skipped and
// a fault are followed by a pause. Each look at the store may have to wait for a batch.
fn compact_once<D: SectorDisk + Drop, L: Ledger, R: Wait>(
    rt: &R,
    server: &Server<'_, D, L>,
    state: &mut CompactorState,
) -> After {
    if !state.goes_on && !is_wanted(rt, server, state.cramped) {
        return After::Pause;
    }
    let was_under_way = state.goes_on || is_under_way(rt, server.engine);
    let ended = server.engine.compact_round(rt);
    server.room.note_given_up(gives_up(ended));
    match ended {
        Ok(RoundEnd::Done) if is_under_way(rt, server.engine) => After::Again,
        Ok(RoundEnd::Done) => {
            server.tally.add_compaction();
            state.cramped = None;
            After::Notify
        }
        Err(RoundFault::Device | RoundFault::Failed) => After::Notify,
        Ok(RoundEnd::Skipped(Skip::NoRoom)) if state.cramped.is_none() => {
            state.cramped = Some(server.engine.free_count(rt));
            After::Cramped
        }
        Ok(RoundEnd::Skipped(skip)) => {
            if skip == Skip::NoRoom {
                state.cramped = Some(server.engine.free_count(rt));
            }
            after_none(was_under_way)
        }
        Err(RoundFault::Memory) => after_none(was_under_way),
        Ok(RoundEnd::Nothing) => After::Pause,
    }
}

// Says on standard error that a compaction found no room, unless the log is full, which was said already.
fn say_cramped<D: SectorDisk + Drop, L: Ledger, R: Wait + Eprint>(
    rt: &R,
    server: &Server<'_, D, L>,
) {
    if !server.room.is_full() {
        let free = server.engine.free_count(rt);
        let _ = eprintln!(rt;
            "cg_server: no room for a snapshot, {free} segments free: make the log longer before it is full"
        );
    }
}

// Returns how long a round took that began then; no time if the clock cannot be read.
fn time_since<R: Clock>(rt: &R, began: io::Result<Instant>) -> Duration {
    match began {
        Ok(began) => began.elapsed(rt).unwrap_or(Duration::ZERO),
        Err(_) => Duration::ZERO,
    }
}

// Returns for how long a round of this length leaves the store to commits: with the pauses, long rounds have it at most
// two fifths of the time.
fn pause_after(round: Duration) -> Duration {
    if round < Duration::from_micros(LONG_ROUND_US) {
        return Duration::ZERO;
    }
    round.saturating_mul(3) / 2
}

// Leaves the store to commits after a long round, unless they wait for the compaction.
fn leave_to_commits<D: SectorDisk + Drop, L: Ledger, R: Wait + Clock>(
    rt: &R,
    server: &Server<'_, D, L>,
    began: io::Result<Instant>,
) {
    let pause = pause_after(time_since(rt, began));
    if !pause.is_zero() && !server.room.is_full() && !server.room.is_held() {
        server.room.compactor.wait(rt, pause);
    }
}

/// Compacts the log until the server is over, whenever too few segments are free or the log is full; after a compaction that
/// found no room, once batches have taken a further segment or the log is full. The bell rings after a batch that leaves too few
/// free, and when the log becomes full: then the next compaction begins without a pause. A long round leaves the store to commits
/// for a while.
pub fn compact_until_over<D: SectorDisk + Drop, L: Ledger, R: Wait + Clock + Eprint>(
    rt: &R,
    server: &Server<'_, D, L>,
) {
    let pause = Duration::from_millis(server.options.tick_ms);
    let bell = &server.room.compactor;
    let mut state = CompactorState {
        goes_on: false,
        cramped: None,
    };
    for _ in rt.forever() {
        // A ring from before this round is met by this round. The end of the server is noted before its ring.
        bell.hush(rt);
        if server.is_over() {
            return;
        }
        let began = Instant::now(rt);
        let after = compact_once(rt, server, &mut state);
        state.goes_on = after == After::Again;
        match after {
            After::Again => leave_to_commits(rt, server, began),
            After::Pause => {
                bell.wait(rt, pause);
            }
            After::Notify | After::Cramped => {
                server.wake_flusher(rt);
                server.wake_callers();
                // A line on standard error may wait for its reader.
                if after == After::Cramped {
                    say_cramped(rt, server);
                }
                bell.wait(rt, pause);
            }
        }
    }
}
