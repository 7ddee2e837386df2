//! The thread that has the writer: it loads the disk, and prints what the others report.
ghost use Rattle.std.specs.Prelude.{◌≡◌, true, OnOk, IfErr, IfSome};
ghost use Rattle.cg_disk.specs.Disk.{present};
ghost use Rattle.cg_server.specs.Ending.{Alarms, Loads, LoadsFrom, Reports, TellsFailure, TellsStatuses};
ghost use Rattle.cg_server.specs.declared.stop.Stop.TheVariants as stop;

use crate::output::{print_loaded, print_status, print_stop};
use crate::server::Server;
use crate::status::Status;
use crate::stop::{ServerEnd, Stop, say_page};
use cg_disk::SectorDisk;
use cg_engine::Engine;
use cg_names::Moment;
use std::alloc::Global;
use std::io::{Eprint, Write};
use std::net::Net;
use std::sync::Wait;
use std::sync::ledger::Ledger;
use std::thread;
use std::time::{Clock, Duration};

/// Looks for the thread that accepts connections, before the server gives up.
const LOOKS_MAX: u32 = 1_000;

/// Pause between two looks, in milliseconds.
const LOOK_MS: u64 = 10;

/// Longest wait for a report where no status is asked for, in seconds.
const QUIET_SECONDS: u64 = 3_600;

/// Loads the disk at this moment, and prints what was found.
#[tactic(auto, using(crate::proofs::Written::appends_nothing))]
pub fn load_and_print<D: SectorDisk + Drop, L: Ledger, R: Wait, W: Write>(
    rt: &R,
    alloc: Global,
    engine: &Engine<D, L>,
    moment: Moment,
    disk: &mut Option<D>,
    writer: &mut W,
) -> Result<(), Stop>
    ensures loads { Loads result (W.contents writer.old) (W.contents writer.new) }
    ensures found { IfSome disk.old (λ from. D.is_honest from ≡ true → LoadsFrom (present (D.history from)).content (D.size from) result (W.contents writer.old) (W.contents writer.new)) }
{
    let Some(disk) = disk.take() else {
        return Err(Stop::Loaded);
    };
    match engine.load(rt, disk, moment) {
        Ok(found) => {
            print_loaded(alloc, writer, found)?;
            Ok(())
        }
        Err((fault, _disk)) => Err(Stop::from(fault)),
    }
}

// Returns whether the thread that accepts connections runs. Where the system gives no thread it never does.
fn has_crew<D: SectorDisk + Drop, L: Ledger, R: Clock>(rt: &R, server: &Server<'_, D, L>) -> bool {
    for _ in 0..LOOKS_MAX {
        if server.has_begun() {
            return true;
        }
        thread::sleep(rt, Duration::from_millis(LOOK_MS));
    }
    false
}

// Loads the disk, prints what was found, and begins the clock. Closes the server if the disk is not loaded, or what was
// found cannot be printed.
fn load_or_close<D: SectorDisk + Drop, L: Ledger, R: Wait + Clock + Net, W: Write>(
    rt: &R,
    server: &Server<'_, D, L>,
    disk: &mut Option<D>,
    writer: &mut W,
) -> Result<(), Stop>
    ensures loads { Loads result (W.contents writer.old) (W.contents writer.new) }
    ensures found { IfSome disk.old (λ from. D.is_honest from ≡ true → LoadsFrom (present (D.history from)).content (D.size from) result (W.contents writer.old) (W.contents writer.new)) }
{
    let loading = server.moments.loading();
    match load_and_print(rt, server.alloc, server.engine, loading, disk, writer) {
        Ok(()) => {
            server.moments.begin(rt);
            Ok(())
        }
        Err(stop) => {
            server.close(rt);
            Err(stop)
        }
    }
}

// Returns for how long the reporter waits for a report.
fn wait_of(status_seconds: u64) -> Duration {
    match status_seconds {
        0 => Duration::from_secs(QUIET_SECONDS),
        seconds => Duration::from_secs(seconds),
    }
}

// Prints the status, unless none is asked for or there is no memory for it.
fn report_status<D: SectorDisk + Drop, L: Ledger, R: Wait + Clock, W: Write>(
    rt: &R,
    server: &Server<'_, D, L>,
    writer: &mut W,
) -> Result<(), Stop>
    ensures { TellsStatuses result (W.contents writer.old) (W.contents writer.new) }
{
    if server.options.status_seconds == 0 {
        return Ok(());
    }
    print_status(server.alloc, writer, &Status::of(rt, server))?;
    Ok(())
}

// Prints the status as often as the options say, until the server is over or, unless that is known, the disk has failed. After a
// line that could not be written it prints no other.
fn watch<D: SectorDisk + Drop, L: Ledger, R: Wait + Clock, W: Write>(
    rt: &R,
    server: &Server<'_, D, L>,
    writer: &mut W,
    is_known: bool,
) -> Result<(), Stop>
    ensures { TellsStatuses result (W.contents writer.old) (W.contents writer.new) }
{
    let most = wait_of(server.options.status_seconds);
    let mut printed = Ok(());
    for _ in rt.forever() {
        if server.is_over() || !is_known && server.has_failed() {
            return printed;
        }
        if !server.report.wait(rt, most) && printed.is_ok() {
            printed = report_status(rt, server, writer);
        }
    }
    unreachable!()
}

// Says that the disk has failed, and closes the server if the options say so. Then prints the status until the server is over.
#[tactic(auto, using(crate::proofs::Written::appends_nothing))]
fn report_failure<D: SectorDisk + Drop, L: Ledger, R: Wait + Clock + Eprint + Net, W: Write>(
    rt: &R,
    server: &Server<'_, D, L>,
    writer: &mut W,
) -> Result<(), Stop>
    ensures { TellsFailure result (W.contents writer.old) (W.contents writer.new) }
{
    let alarmed = print_stop(writer, Stop::Device);
    say_page(rt);
    if server.options.exit_on_fault {
        server.close(rt);
    }
    let watched = watch(rt, server, writer, true);
    alarmed?;
    watched?;
    Ok(())
}

// Prints the status as often as the options say, and a fault if the disk fails, until the server is over. Returns how it came to
// its end.
fn report_until_over<D: SectorDisk + Drop, L: Ledger, R: Wait + Clock + Eprint + Net, W: Write>(
    rt: &R,
    server: &Server<'_, D, L>,
    writer: &mut W,
) -> Result<ServerEnd, Stop>
    ensures { Alarms result (W.contents writer.old) (W.contents writer.new) }
{
    let watched = watch(rt, server, writer, false);
    if !server.has_failed() {
        watched?;
        return Ok(ServerEnd::Over);
    }
    let failed = report_failure(rt, server, writer);
    watched?;
    failed?;
    if server.options.exit_on_fault {
        Ok(ServerEnd::Failed)
    } else {
        Ok(ServerEnd::Over)
    }
}

/// Loads the disk, prints what was found, and prints what the other threads report until the server is over. Closes the server if
/// the disk is not loaded, or the thread that accepts connections does not run. Returns how the server came to its end.
pub fn run_reports<D: SectorDisk + Drop, L: Ledger, R: Wait + Clock + Eprint + Net, W: Write>(
    rt: &R,
    server: &Server<'_, D, L>,
    disk: &mut Option<D>,
    writer: &mut W,
) -> Result<ServerEnd, Stop>
    ensures { Reports result (W.contents writer.old) (W.contents writer.new) }
{
    load_or_close(rt, server, disk, writer)?;
    if !has_crew(rt, server) {
        server.close(rt);
        return Err(Stop::Memory);
    }
    let end = report_until_over(rt, server, writer)?;
    Ok(end)
}
