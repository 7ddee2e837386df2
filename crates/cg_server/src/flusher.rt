//! The flusher.
use crate::server::Server;
use cg_disk::SectorDisk;
use cg_engine::{RoundEnd, RoundFault, Skip};
use std::io::Eprint;
use std::sync::Wait;
use std::sync::ledger::Ledger;
use std::time::{Clock, Duration};

// What a flush round asks for.
#[derive(Clone, Copy, Drop, PartialEq, Eq)]
enum After {
    /// The next round at once.
    Again,
    /// A sleep until commands wait for the disk: none does now.
    Sleep,
    /// The same while another thread stores a batch.
    InFlight,
    /// A pause of one tick: the log is full.
    Full,
    /// A pause of one tick: an allocation failed.
    Tick,
    /// The end: the disk failed.
    End,
}

fn next_after(ended: Result<RoundEnd, RoundFault>) -> After {
    match ended {
        Ok(RoundEnd::Done) => After::Again,
        Ok(RoundEnd::Skipped(Skip::Full)) => After::Full,
        Ok(RoundEnd::Nothing | RoundEnd::Skipped(Skip::NoRoom)) => After::Sleep,
        Ok(RoundEnd::Skipped(Skip::InFlight)) => After::InFlight,
        Err(RoundFault::Memory) => After::Tick,
        Err(RoundFault::Device | RoundFault::Failed) => After::End,
    }
}

// Says once, to the compactor and then on standard error, that the log is full. A line on standard error may wait for its reader.
fn begin_full<D: SectorDisk + Drop, L: Ledger, R: Wait + Eprint>(
    rt: &R,
    server: &Server<'_, D, L>,
) {
    if !server.room.is_full() {
        server.room.begin_full(rt);
        let free = server.engine.free_count(rt);
        let _ = eprintln!(rt;
            "cg_server: the log is full, {free} segments free: no reply leaves before it has room"
        );
    }
}

// Says once, to the workers and then on standard error, that the log has room again.
fn end_full<D: SectorDisk + Drop, L: Ledger, R: Wait + Eprint>(rt: &R, server: &Server<'_, D, L>) {
    if server.room.is_full() {
        server.room.end_full();
        let free = server.engine.free_count(rt);
        let _ = eprintln!(rt; "cg_server: the log has room again, {free} segments free");
    }
}

/// Stores what waits for the disk until the server is over, or the disk fails, which it notes. Goes to the next batch at once
/// while commands wait, and sleeps where none does. Waits for a compaction that needs the last free segments.
pub fn flush_until_over<D: SectorDisk + Drop, L: Ledger, R: Wait + Clock + Eprint>(
    rt: &R,
    server: &Server<'_, D, L>,
) {
    let tick = Duration::from_millis(server.options.tick_ms);
    for _ in rt.forever() {
        if server.is_over() {
            return;
        }
        if server.room.is_tight(rt, server.engine) {
            server.note_flushing(false);
            server.room.begin_hold(rt);
            server.flush.wait(rt, tick);
            continue;
        }
        server.room.end_hold();
        server.note_flushing(true);
        let after = next_after(server.flush_round(rt));
        if after == After::Again {
            server.room.watch(rt, server.engine);
        }
        // A line on standard error may wait for its reader.
        server.note_flushing(after == After::Again && !server.room.is_full());
        match after {
            After::Again => end_full(rt, server),
            After::Sleep => {
                end_full(rt, server);
                server.engine.await_commands(rt, tick);
            }
            After::InFlight => server.engine.await_commands(rt, tick),
            After::Full => {
                begin_full(rt, server);
                server.flush.wait(rt, tick);
            }
            After::Tick => {
                server.flush.wait(rt, tick);
            }
            After::End => {
                server.note_failed(rt);
                return;
            }
        }
    }
}
