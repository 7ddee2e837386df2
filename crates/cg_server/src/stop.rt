//! Why the server ends early.
ghost use Rattle.std.specs.Prelude.{◌≡◌};
ghost use Rattle.cg_server.specs.Ending.{status_of};
ghost use Rattle.cg_server.specs.declared.stop.Stop.TheVariants as stop;

use cg_engine::LoadFault;
use std::alloc::AllocError;
use std::io::Eprint;

/// Exit status of a server that has served its connections and closed.
pub const STATUS_CLOSED: u8 = 0;

/// Exit status if the disk was not opened, formatted or loaded, it failed and the server was to end then, an allocation failed,
/// no thread could be started, or the system's clock could not be read.
pub const STATUS_DISK: u8 = 1;

/// Exit status after words on the command line that are not understood, and after a call for help.
pub const STATUS_USAGE: u8 = 2;

/// Exit status if the address was not bound, a worker had nothing to wait with, no connection could be accepted, or a line
/// could not be written.
pub const STATUS_NET: u8 = 3;

/// Cause that ends a server early.
#[derive(Clone, Copy, Debug, Drop, PartialEq, Eq)]
pub enum Stop {
    /// The file was not opened, made or locked, is not empty where a new one is to be made, or its zeros could not be written.
    File,
    /// An allocation failed, or no thread could be started.
    Memory,
    /// A read, a write or a sync failed.
    Device,
    /// The disk has fewer than four sectors, or both root gates are closed.
    NoRoot,
    /// A root breaks a rule.
    BadRoot,
    /// A frame is damaged.
    BadFrame,
    /// A record is damaged.
    BadRecord,
    /// The engine has a disk already.
    Loaded,
    /// The system's clock could not be read. A log that is used with a wrong moment would lose groups and offsets later.
    Clock,
    /// The address was not bound, a worker had nothing to wait with (no file descriptor, or no memory for it), or no connection
    /// could be accepted.
    Net,
    /// A line could not be written.
    Write,
}

/// How a server that has loaded its log comes to its end.
#[derive(Clone, Copy, Debug, Drop, PartialEq, Eq)]
pub enum ServerEnd {
    /// The connections were served.
    Over,
    /// The disk failed, and the server was to end then.
    Failed,
}

impl Stop {
    /// Returns the exit status.
    pub fn status(self) -> u8
        ensures { result ≡ status_of self }
    {
        match self {
            Stop::Net | Stop::Write => STATUS_NET,
            _ => STATUS_DISK,
        }
    }
}

impl From<AllocError> for Stop {
    ghost from_gives = { λ _ s. s ≡ stop.Memory };

    fn from(_: AllocError) -> Self {
        Stop::Memory
    }
}

impl From<LoadFault> for Stop {
    fn from(fault: LoadFault) -> Self {
        match fault {
            LoadFault::Memory => Stop::Memory,
            LoadFault::Device => Stop::Device,
            LoadFault::NoRoot => Stop::NoRoot,
            LoadFault::BadRoot => Stop::BadRoot,
            LoadFault::BadFrame => Stop::BadFrame,
            LoadFault::BadRecord => Stop::BadRecord,
            LoadFault::Loaded => Stop::Loaded,
        }
    }
}

/// Says on standard error which page says what to do.
pub fn say_page<R: Eprint>(rt: &R) {
    let _ = eprintln!(rt; "cg_server: what to do is in OPERATING.md, \"Faults\"");
}

/// Says on standard error what was found, and which page says what to do. What the system said of a file, of the device and of an
/// address was said where it came up.
pub fn say_cause<R: Eprint>(rt: &R, log: &str, stop: Stop) {
    let _ = match stop {
        Stop::File | Stop::Net => Ok(()),
        Stop::Memory => eprintln!(rt; "cg_server: no memory, or no thread, was to be had"),
        Stop::Device => eprintln!(rt; "cg_server: {log}: the disk failed"),
        Stop::NoRoot => eprintln!(rt; "cg_server: {log} has no Berymohi log"),
        Stop::BadRoot => eprintln!(rt; "cg_server: {log}: the root of the log is damaged"),
        Stop::BadFrame => eprintln!(rt; "cg_server: {log}: a frame of the log is damaged"),
        Stop::BadRecord => eprintln!(rt; "cg_server: {log}: a record of the log is damaged"),
        Stop::Loaded => eprintln!(rt; "cg_server: a log is loaded already"),
        Stop::Clock => eprintln!(rt; "cg_server: the system's clock cannot be read"),
        Stop::Write => eprintln!(rt; "cg_server: a line could not be written to standard output"),
    };
    say_page(rt);
}
