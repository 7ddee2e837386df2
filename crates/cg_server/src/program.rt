//! The whole program, from the words of its command line to its exit status.
ghost use Rattle.std.specs.Prelude.{◌≡◌, ◌≢◌, ◌⊎◌, None, map, [], IfOk};
ghost use Rattle.clap.specs.Words.{kind_of};
ghost use Rattle.cg_server.specs.Address.{IsOnLoopback};
ghost use Rattle.cg_server.specs.CommandLine.{faults_of, port_in};
ghost use Rattle.cg_server.specs.Ending.{EndsSomehow, IsRefused, RefusesWords, ShowsVersion};
ghost use Rattle.cg_server.specs.Places.{IsOpenedFor};

use crate::address::listen_address;
use crate::command_line::{Arguments, LogPlace, Refusal, parse_words};
use crate::disks::{new_log, new_memory};
use crate::log_file::{LogFile, found_file};
use crate::output::print_version;
use crate::serve::{refuse, serve};
use crate::stop::{STATUS_CLOSED, STATUS_NET, STATUS_USAGE, Stop};
use cg_disk::SectorDisk;
use clap::Error;
use clap::error::ErrorKind;
use std::alloc::Global;
use std::convert::AsStr;
use std::fs::File;
use std::io::{self, Eprint, Write};
use std::net::{Net, SocketAddr, TcpListener, TcpStream};
use std::random::RandomSource;
use std::rt::Files;
use std::sync::Wait;
use std::thread::Threads;
use std::time::Clock;

/// What standard error calls a log in memory, or one of which nothing is known.
pub const NO_LOG: &str = "the log in memory";

/// What standard error has of an address that is not on loopback.
const BAD_ADDRESS: &[u8] = b"\
error: invalid value for '--listen <ADDR>': an address is 127.0.0.1: and a port from 0 to 65535

For more information, try '--help'.
";

/// Runs the server as the words ask for it, which are those of the command line without the program's name. Returns the
/// exit status. Prints what is wrong with the words, and help, to `faults`.
pub fn command<
    E: Alloc<A = Global>
        + Files<File = File>
        + Threads
        + Wait
        + Clock
        + RandomSource
        + Net<Listener = TcpListener, Stream = TcpStream>
        + Eprint
        + Sync,
    S: AsStr,
    W: Write,
    F: Write,
>(rt: &E, words: &[S], writer: &mut W, faults: &mut F) -> u8
    ensures serves { faults_of (map S.text words.now) ≡ [] → port_in (map S.text words.now) ≢ None → EndsSomehow result (W.contents writer.old) (W.contents writer.new) }
    ensures address { port_in (map S.text words.now) ≡ None → IsRefused (faults_of (map S.text words.now)) result (W.contents writer.old) (W.contents writer.new) }
    ensures refuses { faults_of (map S.text words.now) ≢ [] → IsRefused (faults_of (map S.text words.now)) result (W.contents writer.old) (W.contents writer.new) }
{
    match parse_words(rt.alloc(), words) {
        Ok(arguments) => serve_place(rt, &arguments, writer),
        Err(Refusal::Words(error)) => refuse_words(rt, &error, writer, faults),
        Err(Refusal::Address) => refuse_address(faults),
    }
}

// Serves the log where the words say that it is.
fn serve_place<
    E: Alloc<A = Global>
        + Files<File = File>
        + Threads
        + Wait
        + Clock
        + RandomSource
        + Net<Listener = TcpListener, Stream = TcpStream>
        + Eprint
        + Sync,
    W: Write,
>(rt: &E, arguments: &Arguments<'_>, writer: &mut W) -> u8
    ensures { EndsSomehow result (W.contents writer.old) (W.contents writer.new) }
{
    let segments = arguments.segments;
    match arguments.place {
        LogPlace::Memory => {
            serve_made(
                rt,
                new_memory(rt.alloc(), segments),
                NO_LOG,
                arguments,
                writer,
            )
        }
        LogPlace::NewFile(path, overwrite) => {
            let made = new_log(rt, rt.alloc(), path, segments, overwrite);
            serve_file(rt, made, path, arguments, writer)
        }
        LogPlace::File(path) => serve_file(rt, found_file(rt, path), path, arguments, writer),
    }
}

// Serves the log in the file at `path`, which was opened for the place that the words say.
fn serve_file<
    E: Alloc<A = Global>
        + Files<File = File>
        + Threads
        + Wait
        + Clock
        + RandomSource
        + Net<Listener = TcpListener, Stream = TcpStream>
        + Eprint
        + Sync,
    W: Write,
>(
    rt: &E,
    opened: Result<LogFile<'_, E>, Stop>,
    path: &str,
    arguments: &Arguments<'_>,
    writer: &mut W,
) -> u8
    requires { IfOk opened (λ log. IsOpenedFor arguments.now.place log.origin) }
    ensures { EndsSomehow result (W.contents writer.old) (W.contents writer.new) }
{
    serve_made(rt, opened, path, arguments, writer)
}

// Serves a disk, unless it was not made. Its log is called `log` on standard error.
fn serve_made<
    D: SectorDisk + Drop + Send,
    E: Alloc<A = Global>
        + Threads
        + Wait
        + Clock
        + RandomSource
        + Net<Listener = TcpListener, Stream = TcpStream>
        + Eprint
        + Sync,
    W: Write,
>(rt: &E, made: Result<D, Stop>, log: &str, arguments: &Arguments<'_>, writer: &mut W) -> u8
    ensures { EndsSomehow result (W.contents writer.old) (W.contents writer.new) }
{
    let disk = match made {
        Ok(disk) => disk,
        Err(stop) => return refuse_start(rt, writer, log, stop),
    };
    match bound(rt, arguments) {
        Ok(listener) => serve(rt, listener, disk, log, arguments.options, writer),
        Err(stop) => refuse_start(rt, writer, log, stop),
    }
}

// Prints why the server does not begin. Returns the exit status.
fn refuse_start<R: Eprint, W: Write>(rt: &R, writer: &mut W, log: &str, stop: Stop) -> u8
    ensures { EndsSomehow result (W.contents writer.old) (W.contents writer.new) }
{
    refuse(rt, writer, log, stop)
}

// Binds an address, which is on loopback.
fn bind<E: Net<Listener = TcpListener, Stream = TcpStream>>(
    rt: &E,
    address: SocketAddr,
) -> io::Result<TcpListener>
    requires { IsOnLoopback address }
{
    TcpListener::bind(rt, address)
}

// Binds the address, unless no connection is to be served. What the system says of an address that it refuses comes on standard
// error.
fn bound<E: Net<Listener = TcpListener, Stream = TcpStream> + Eprint>(
    rt: &E,
    arguments: &Arguments<'_>,
) -> Result<Option<TcpListener>, Stop> {
    if arguments.options.connections == Some(0) {
        return Ok(None);
    }
    let port = arguments.port;
    match bind(rt, listen_address(port)) {
        Ok(listener) => Ok(Some(listener)),
        Err(error) => {
            let _ = eprintln!(rt; "cg_server: 127.0.0.1:{port}: {error}");
            Err(Stop::Net)
        }
    }
}

// Prints the version. Returns the exit status.
fn show_version<R: Alloc<A = Global> + Eprint, W: Write>(rt: &R, writer: &mut W) -> u8
    ensures { ShowsVersion result (W.contents writer.old) (W.contents writer.new) }
{
    match print_version(rt.alloc(), writer) {
        Ok(()) => STATUS_CLOSED,
        Err(Stop::Memory) => refuse(rt, writer, NO_LOG, Stop::Memory),
        Err(_) => STATUS_NET,
    }
}

// Prints the version where it was asked for, and else the text of `clap` for words that it refused, unless it ran out of memory.
fn refuse_words<R: Alloc<A = Global> + Eprint, W: Write, F: Write>(
    rt: &R,
    error: &Error,
    writer: &mut W,
    faults: &mut F,
) -> u8
    ensures { RefusesWords (kind_of error.now) result (W.contents writer.old) (W.contents writer.new) }
{
    match error.kind() {
        ErrorKind::OutOfMemory => refuse(rt, writer, NO_LOG, Stop::Memory),
        ErrorKind::DisplayVersion => show_version(rt, writer),
        _ => {
            let _unwritten = write!(faults, "{error}");
            STATUS_USAGE
        }
    }
}

// Says what an address is.
fn refuse_address<F: Write>(faults: &mut F) -> u8
    ensures { result ≡ STATUS_USAGE }
{
    let _unwritten = faults.write_all(BAD_ADDRESS);
    STATUS_USAGE
}
