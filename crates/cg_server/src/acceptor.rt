//! Accepting connections.
use crate::server::Server;
use crate::stop::Stop;
use cg_disk::SectorDisk;
use std::io::{self, Eprint, ErrorKind};
use std::net::{TcpListener, TcpStream};
use std::sync::Wait;
use std::sync::ledger::Ledger;
use std::thread;
use std::time::{Clock, Duration};

/// Pause after an accept for which the system had no file descriptor or no memory left, in milliseconds.
const PAUSE_MS: u64 = 10;

/// `errno` of a process without a free file descriptor (Linux, EMFILE).
const PROCESS_FILES_FULL: i32 = 24;

/// `errno` of a system without a free file descriptor (Linux, ENFILE).
const SYSTEM_FILES_FULL: i32 = 23;

/// `errno` of a system without memory for a socket (Linux, ENOBUFS).
const NO_BUFFERS: i32 = 105;

// What a failed accept asks for.
enum AfterFailure {
    /// The next accept at once: this connection is gone.
    Again,
    /// A pause: the system is out of descriptors or memory until other connections end.
    Pause,
    /// The end of the server.
    End,
}

fn after_failure(error: &io::Error) -> AfterFailure {
    match error.kind() {
        ErrorKind::Interrupted | ErrorKind::ConnectionAborted => AfterFailure::Again,
        ErrorKind::OutOfMemory => AfterFailure::Pause,
        _ => match error.raw_os_error() {
            Some(PROCESS_FILES_FULL | SYSTEM_FILES_FULL | NO_BUFFERS) => AfterFailure::Pause,
            _ => AfterFailure::End,
        },
    }
}

// Hands a stream to one of the workers, in turn.
fn hand_over<D: SectorDisk, L: Ledger, R: Wait>(
    rt: &R,
    server: &Server<'_, D, L>,
    workers: usize,
    turn: usize,
    stream: TcpStream,
) {
    let Some(at) = turn.checked_rem(workers) else {
        return;
    };
    if let Some(inbox) = server.inboxes.get(at) {
        inbox.put(rt, stream);
    }
}

/// Accepts connections, and hands them to this many workers in turn, until the server closes or as many were accepted as
/// the options say. After an accept that failed for good the server closes, and says on standard error what the system said.
pub fn accept_all<D: SectorDisk + Drop, L: Ledger, R: Wait + Clock + Eprint>(
    rt: &R,
    server: &Server<'_, D, L>,
    listener: &TcpListener,
    workers: usize,
) -> Result<(), Stop> {
    let mut accepted = 0u32;
    let mut turn = 0usize;
    for _ in rt.forever() {
        if server.is_closing() || server.options.connections == Some(accepted) {
            return Ok(());
        }
        match listener.accept() {
            Ok((stream, _)) => {
                hand_over(rt, server, workers, turn, stream);
                turn = turn.wrapping_add(1);
                accepted = accepted.saturating_add(1);
            }
            Err(error) => match after_failure(&error) {
                AfterFailure::Again => {}
                AfterFailure::Pause => thread::sleep(rt, Duration::from_millis(PAUSE_MS)),
                AfterFailure::End => {
                    let _ = eprintln!(rt; "cg_server: no connection is accepted: {error}");
                    server.refuse();
                    return Err(Stop::Net);
                }
            },
        }
    }
    unreachable!()
}
