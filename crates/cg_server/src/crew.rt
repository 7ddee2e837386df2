//! The threads beside the reporter.
use crate::acceptor::accept_all;
use crate::compactor::compact_until_over;
use crate::flusher::flush_until_over;
use crate::inbox::Inbox;
use crate::server::Server;
use crate::stop::Stop;
use crate::ticker::tick_until_over;
use crate::worker::serve_inbox;
use cg_disk::SectorDisk;
use std::io::Eprint;
use std::net::TcpListener;
use std::random::RandomSource;
use std::sync::Wait;
use std::sync::ledger::Ledger;
use std::thread::{self, Scope, Threads};
use std::time::Clock;

/// Flushes, ticks, compacts, accepts connections and serves them in workers. Returns once all these threads have ended: after as
/// many connections as the options say, or once the server closes.
pub fn run_crew<
    D: SectorDisk + Drop + Send,
    L: Ledger + Send,
    R: Threads + Wait + Clock + RandomSource + Eprint + Sync,
>(rt: &R, server: &Server<'_, D, L>, listener: &TcpListener) -> Result<(), Stop> {
    server.begin();
    thread::scope(thread::scope_env(), rt, |scope| {
        run_in(rt, server, scope, listener)
    })
}

/// What a thread beside the workers does until the server is over.
#[derive(Clone, Copy)]
enum Task {
    Flush,
    Tick,
    Compact,
}

fn run_task<D: SectorDisk + Drop, L: Ledger, R: Wait + Clock + Eprint>(
    rt: &R,
    server: &Server<'_, D, L>,
    task: Task,
) {
    match task {
        Task::Flush => flush_until_over(rt, server),
        Task::Tick => tick_until_over(rt, server),
        Task::Compact => compact_until_over(rt, server),
    }
}

// Starts a task in the scope. Returns whether there was a thread for it.
fn start_task<
    's,
    'e: 's,
    D: SectorDisk + Drop + Send,
    L: Ledger + Send,
    R: Threads + Wait + Clock + RandomSource + Eprint + Sync,
>(rt: &'e R, server: &'e Server<'e, D, L>, scope: &'s Scope<'s, &'e ()>, task: Task) -> bool {
    scope.spawn(move || run_task(rt, server, task)).is_ok()
}

// Starts the worker of an inbox in the scope. Returns whether there was a thread for it.
fn start_worker<
    's,
    'e: 's,
    D: SectorDisk + Drop + Send,
    L: Ledger + Send,
    R: Threads + Wait + Clock + RandomSource + Sync,
>(rt: &'e R, server: &'e Server<'e, D, L>, scope: &'s Scope<'s, &'e ()>, inbox: &'e Inbox) -> bool {
    scope.spawn(move || serve_inbox(rt, server, inbox)).is_ok()
}

// Starts workers in the scope. Returns for how many of the inboxes, from the first on, there was a thread.
fn start_workers<
    's,
    'e: 's,
    D: SectorDisk + Drop + Send,
    L: Ledger + Send,
    R: Threads + Wait + Clock + RandomSource + Sync,
>(rt: &'e R, server: &'e Server<'e, D, L>, scope: &'s Scope<'s, &'e ()>) -> usize {
    let mut started = 0usize;
    for inbox in server.inboxes.as_slice() {
        if !start_worker(rt, server, scope, inbox) {
            return started;
        }
        started = started.wrapping_add(1);
    }
    started
}

// Starts workers in the scope, and accepts their connections.
fn accept_in<
    's,
    'e: 's,
    D: SectorDisk + Drop + Send,
    L: Ledger + Send,
    R: Threads + Wait + Clock + RandomSource + Eprint + Sync,
>(
    rt: &'e R,
    server: &'e Server<'e, D, L>,
    scope: &'s Scope<'s, &'e ()>,
    listener: &TcpListener,
) -> Result<(), Stop> {
    let workers = start_workers(rt, server, scope);
    let accepted = if workers > 0 {
        accept_all(rt, server, listener, workers)
    } else {
        Err(Stop::Memory)
    };
    server.finish_accepting();
    accepted
}

// Accepts connections and serves them in workers. Returns once the last worker has ended.
fn serve_connections<
    D: SectorDisk + Drop + Send,
    L: Ledger + Send,
    R: Threads + Wait + Clock + RandomSource + Eprint + Sync,
>(rt: &R, server: &Server<'_, D, L>, listener: &TcpListener) -> Result<(), Stop> {
    thread::scope(thread::scope_env(), rt, |scope| {
        accept_in(rt, server, scope, listener)
    })
}

// Starts the flusher, the ticker and the compactor in the scope, serves connections, and ends the three at the end.
fn run_in<
    's,
    'e: 's,
    D: SectorDisk + Drop + Send,
    L: Ledger + Send,
    R: Threads + Wait + Clock + RandomSource + Eprint + Sync,
>(
    rt: &'e R,
    server: &'e Server<'e, D, L>,
    scope: &'s Scope<'s, &'e ()>,
    listener: &TcpListener,
) -> Result<(), Stop> {
    let started = start_task(rt, server, scope, Task::Flush)
        && start_task(rt, server, scope, Task::Tick)
        && start_task(rt, server, scope, Task::Compact);
    let served = if started {
        serve_connections(rt, server, listener)
    } else {
        server.refuse();
        Err(Stop::Memory)
    };
    server.end(rt);
    served
}
