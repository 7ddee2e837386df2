//! Serves consumer groups on the loopback address (docs/PROTOCOL.md): a listener, an engine over a disk in a file or in
//! memory, and a few workers that share the connections.
#![tactic(auto)]

mod acceptor;
mod address;
mod bell;
mod command_line;
mod compactor;
mod connection;
mod crew;
mod disks;
mod flusher;
mod inbox;
mod log_file;
mod options;
mod output;
mod passes;
mod program;
mod reporter;
mod room;
mod serve;
mod server;
mod session;
mod status;
mod stop;
mod tally;
mod ticker;
mod unsent;
mod version;
mod wall_clock;
mod worker;

pub use options::Options;
pub use program::{NO_LOG, command};
pub use serve::serve;
pub use status::Status;
use std::env;
use std::io::{self, Eprint, ErrorKind, Write};
use std::process::ExitCode;
pub use stop::{STATUS_CLOSED, STATUS_DISK, STATUS_NET, STATUS_USAGE, Stop};

fn main(rt: HostRuntime) -> ExitCode {
    let mut writer = io::writer(&rt);
    let stderr = rt.stderr();
    let mut faults = &stderr;
    match words(&rt) {
        Ok(words) => {
            let words = after_name(words.as_slice());
            ExitCode::from(command(&rt, words, &mut writer, &mut faults))
        }
        Err(error) => ExitCode::from(refuse_encoding(&rt, &error, &mut writer, &mut faults)),
    }
}

// Copies the words of the command line.
fn words(rt: &HostRuntime) -> io::Result<Vec<String>> {
    Ok(env::args(rt)?.collect(rt.alloc())?)
}

// Returns the words after the program's name.
fn after_name(words: &[String]) -> &[String] {
    match words {
        [_, rest @ ..] => rest,
        [] => words,
    }
}

// Reports why the words could not be copied: one is not text, or an allocation failed.
fn refuse_encoding<R: Eprint, W: Write, F: Write>(
    rt: &R,
    error: &io::Error,
    writer: &mut W,
    faults: &mut F,
) -> u8 {
    match error.kind() {
        ErrorKind::OutOfMemory => serve::refuse(rt, writer, NO_LOG, Stop::Memory),
        _ => {
            let _unwritten = faults.write_all(b"error: a word on the command line is not UTF-8\n");
            STATUS_USAGE
        }
    }
}
