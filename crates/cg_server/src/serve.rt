//! Serving a disk from its loading to its end.
ghost use Rattle.std.specs.Prelude.{◌≡◌, ◌≤◌, true, false, is_some, IfErr, IfOk};
ghost use Rattle.std.specs.Io.KnownBytes.{Appends};
ghost use Rattle.std.specs.Net.Text.{socket_text};
ghost use Rattle.std.specs.Thread.{IsSend, IsSync};
ghost use Rattle.cg_engine.specs.declared.engine_limits.TheConstants.{PARTS};
ghost use Rattle.cg_server.specs.Ending.{Broke, Closes, Ends, Refuses, Reports, Serves, listening_text};

use crate::crew::run_crew;
use crate::inbox::Inbox;
use crate::options::Options;
use crate::output::{print_closed, print_listening, print_stop};
use crate::reporter::{load_and_print, run_reports};
use crate::server::Server;
use crate::stop::{STATUS_CLOSED, STATUS_DISK, STATUS_NET, ServerEnd, Stop, say_cause};
use crate::tally::Tally;
use crate::wall_clock::{Moments, present};
use cg_disk::SectorDisk;
use cg_engine::{Engine, PARTS, SessionPass};
use cg_gate::segment_count;
use std::alloc::Global;
use std::io::{self, Eprint, ErrorKind, Write};
use std::marker::Brand;
use std::net::{Net, SocketAddr, TcpListener};
use std::random::RandomSource;
use std::sync::Wait;
use std::sync::ledger::{Blank, Ledger};
use std::thread::{Threads, available_parallelism, join_mut};
use std::time::Clock;

/// Fewest workers: while one stores a batch, another serves its connections.
const WORKERS_MIN: usize = 2;

/// Most workers.
const WORKERS_MAX: usize = 8;

/// Prints why the server ends early, and says more of it on standard error, where `log` is what the log is called. Returns the
/// exit status.
pub fn refuse<R: Eprint, W: Write>(rt: &R, writer: &mut W, log: &str, stop: Stop) -> u8
    ensures { Refuses stop result (W.contents writer.old) (W.contents writer.new) }
{
    say_cause(rt, log, stop);
    match print_stop(writer, stop) {
        Ok(()) => stop.status(),
        Err(_) => STATUS_NET,
    }
}

// Says on standard error what the system said.
fn say<R: Eprint>(rt: &R, error: &io::Error) {
    let _ = eprintln!(rt; "cg_server: {error}");
}

// Prints the address of a listener.
#[tactic(auto, using(crate::proofs::Written::appends_nothing))]
fn print_address<R: Eprint, W: Write>(
    rt: &R,
    alloc: Global,
    listener: &TcpListener,
    writer: &mut W,
) -> Result<SocketAddr, Stop>
    ensures ok { IfOk result (λ address. Appends (W.contents writer.old) (W.contents writer.new) (listening_text (socket_text address))) }
    ensures err { IfErr result (λ cause. Broke cause (W.contents writer.old) (W.contents writer.new)) }
{
    match listener.local_addr() {
        Ok(address) => {
            print_listening(alloc, writer, address)?;
            Ok(address)
        }
        Err(error) => {
            say(rt, &error);
            Err(Stop::Net)
        }
    }
}

// Returns how many workers serve the connections: half as many as there are processors, which batches and clients use too.
fn worker_count<R: Threads>(rt: &R) -> usize {
    match available_parallelism(rt) {
        Ok(processors) => (processors.get() / 2).clamp(WORKERS_MIN, WORKERS_MAX),
        Err(_) => WORKERS_MIN,
    }
}

// Returns why a worker has nothing to wait with, and says on standard error what the system said.
fn cause<R: Eprint>(rt: &R, error: &io::Error) -> Stop {
    say(rt, error);
    match error.kind() {
        ErrorKind::OutOfMemory => Stop::Memory,
        _ => Stop::Net,
    }
}

// Makes an inbox for each worker.
fn inboxes<R: Threads + Net + Eprint>(rt: &R, alloc: Global) -> Result<Vec<Inbox>, Stop> {
    let mut inboxes = Vec::new(alloc);
    for _ in 0..worker_count(rt) {
        let inbox = Inbox::new(rt, alloc).map_err(|error| cause(rt, &error))?;
        if inboxes.push(inbox).is_err() {
            return Err(Stop::Memory);
        }
    }
    Ok(inboxes)
}

// Runs the threads of a server until it is over. Returns how it came to its end.
fn run_threads<
    D: SectorDisk + Drop + Send,
    L: Ledger + Send,
    R: Threads + Wait + Clock + RandomSource + Net + Eprint + Sync,
    W: Write,
>(
    rt: &R,
    server: &Server<'_, D, L>,
    listener: &TcpListener,
    disk: D,
    writer: &mut W,
) -> Result<ServerEnd, Stop>
    ensures { Reports result (W.contents writer.old) (W.contents writer.new) }
{
    let mut disk = Some(disk);
    let (accepted, reported) = join_mut(
        rt,
        &mut move || -> Result<(), Stop>
            requires { IsSync R.row × IsSend D.row × IsSend L.row }
        { run_crew(rt, server, listener) },
        &mut || run_reports(rt, server, &mut disk, writer),
    );
    let end = reported?;
    accepted?;
    Ok(end)
}

// Ends an engine. Returns the number of its last command.
fn close<D: SectorDisk + Drop, L: Ledger>(
    engine: Engine<D, L>,
    passes: Vec<SessionPass<L>>,
) -> u64 {
    match engine.finish(passes) {
        Ok(closed) => closed.front,
        Err((_, engine, _)) => engine.abandon().front,
    }
}

// Serves connections. Returns the number of the last command, and how the server came to its end.
fn serve_connections<
    D: SectorDisk + Drop + Send,
    L: Ledger + Send,
    R: Threads + Wait + Clock + RandomSource + Net + Eprint + Sync,
    W: Write,
>(
    rt: &R,
    alloc: Global,
    listener: &TcpListener,
    disk: D,
    options: Options,
    writer: &mut W,
    blank: Blank,
) -> Result<(u64, ServerEnd), Stop>
    requires { (blank.name ≡ L.name) × (blank.parts ≡ L.parts) × (PARTS ≤ blank.parts) }
    ensures { Serves true result (W.contents writer.old) (W.contents writer.new) }
{
    let moments = Moments::new(rt)?;
    let address = print_address(rt, alloc, listener, writer)?;
    let inboxes = inboxes(rt, alloc)?;
    let engine: Engine<D, L> = Engine::new(alloc, blank, false)?;
    let tally = Tally::new(segment_count(disk.sectors()));
    let server = Server::new(alloc, &engine, options, address, inboxes, tally, moments);
    let ran = run_threads(rt, &server, listener, disk, writer);
    let passes = server.into_passes();
    let front = close(engine, passes);
    match ran {
        Ok(end) => Ok((front, end)),
        Err(stop) => Err(stop),
    }
}

// Loads a disk and serves no connection. Returns the number of the last command, and that the server is over.
fn load_alone<D: SectorDisk + Drop, L: Ledger, R: Wait + Clock, W: Write>(
    rt: &R,
    alloc: Global,
    disk: D,
    writer: &mut W,
    blank: Blank,
) -> Result<(u64, ServerEnd), Stop>
    requires { (blank.name ≡ L.name) × (blank.parts ≡ L.parts) × (PARTS ≤ blank.parts) }
    ensures { Serves false result (W.contents writer.old) (W.contents writer.new) }
{
    let moment = present(rt)?;
    let engine: Engine<D, L> = Engine::new(alloc, blank, false)?;
    let loaded = load_and_print(rt, alloc, &engine, moment, &mut Some(disk), writer);
    let front = close(engine, Vec::new(alloc));
    loaded?;
    Ok((front, ServerEnd::Over))
}

// Serves connections, or only loads the disk where there is no listener. Returns the number of the last command, and how the
// server came to its end.
fn serve_or_load<
    D: SectorDisk + Drop + Send,
    L: Ledger + Send,
    R: Alloc<A = Global> + Threads + Wait + Clock + RandomSource + Net + Eprint + Sync,
    W: Write,
>(
    rt: &R,
    listener: Option<TcpListener>,
    disk: D,
    options: Options,
    writer: &mut W,
    blank: Blank,
) -> Result<(u64, ServerEnd), Stop>
    requires { (blank.name ≡ L.name) × (blank.parts ≡ L.parts) × (PARTS ≤ blank.parts) }
    ensures { Serves (is_some listener) result (W.contents writer.old) (W.contents writer.new) }
{
    let alloc = rt.alloc();
    match listener {
        Some(listener) => {
            let served = serve_connections::<D, L, R, W>(
                rt, alloc, &listener, disk, options, writer, blank,
            )?;
            Ok(served)
        }
        None => {
            let served = load_alone::<D, L, R, W>(rt, alloc, disk, writer, blank)?;
            Ok(served)
        }
    }
}

// Serves a disk, and prints the number of the last command, unless the disk failed and the server was to end then. Returns how it
// came to its end.
fn run<
    D: SectorDisk + Drop + Send,
    L: Ledger + Send,
    R: Alloc<A = Global> + Threads + Wait + Clock + RandomSource + Net + Eprint + Sync,
    W: Write,
>(
    rt: &R,
    listener: Option<TcpListener>,
    disk: D,
    options: Options,
    writer: &mut W,
    blank: Blank,
) -> Result<ServerEnd, Stop>
    requires { (blank.name ≡ L.name) × (blank.parts ≡ L.parts) × (PARTS ≤ blank.parts) }
    ensures { Closes (is_some listener) result (W.contents writer.old) (W.contents writer.new) }
{
    let (front, end) = serve_or_load::<D, L, R, W>(rt, listener, disk, options, writer, blank)?;
    match end {
        ServerEnd::Over => print_closed(rt.alloc(), writer, front)?,
        ServerEnd::Failed => {}
    }
    Ok(end)
}

/// Serves a disk to the connections of a listener, and returns the exit status. Prints `LISTENING`, then `LOADED` once
/// the disk is loaded, `STATUS` as often as the options say, and `CLOSED` after as many connections as they say; or `FAULT` and
/// why it ends early, of which standard error has more, with `log` as the name of the log. A disk that fails later is reported by
/// `FAULT Device`, and every request gets 15 then; where the options say so the server ends then. Without a listener it only
/// loads the disk.
pub fn serve<
    D: SectorDisk + Drop + Send,
    R: Alloc<A = Global> + Threads + Wait + Clock + RandomSource + Net + Eprint + Sync,
    W: Write,
>(rt: &R, listener: Option<TcpListener>, disk: D, log: &str, options: Options, writer: &mut W) -> u8
    ensures { Ends (is_some listener) result (W.contents writer.old) (W.contents writer.new) }
{
    match run::<D, Brand, R, W>(rt, listener, disk, options, writer, Blank::new(PARTS)) {
        Ok(ServerEnd::Over) => STATUS_CLOSED,
        Ok(ServerEnd::Failed) => STATUS_DISK,
        Err(stop) => refuse(rt, writer, log, stop),
    }
}
