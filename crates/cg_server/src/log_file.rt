//! The log in a file, which one server has.
ghost use Rattle.std.specs.Prelude.{◌≡◌, false, IfOk};

use crate::stop::Stop;
use cg_disk::{DiskFault, FileDisk, SECTOR_BYTES, SectorDisk};
use std::fs::{File, OpenOptions, TryLockError};
use std::io::{self, Eprint, ErrorKind};
use std::rt::Files;

/// Where the log in a file comes from.
#[derive(Clone, Copy, Debug, Drop, PartialEq, Eq)]
pub enum Origin {
    /// From the file as it was opened: it was not formatted since.
    Found,
    /// From this server, which formatted it.
    Formatted,
}

/// A disk in a file. Says on standard error what the system says of a call that fails.
#[derive(Drop)]
pub struct LogFile<'a, R> {
    rt: &'a R,
    path: &'a str,
    disk: FileDisk<File>,
    pub origin: Origin,
}

impl<R> LogFile<'_, R> {
    /// Notes that the log was formatted.
    pub fn into_formatted(self) -> Self
        ensures { result.origin ≡ Origin.Formatted }
    {
        LogFile {
            origin: Origin::Formatted,
            ..self
        }
    }
}

impl<R: Eprint> LogFile<'_, R> {
    // Says what the system said of the last call, if it failed.
    fn told(&self, call: &str, outcome: Result<(), DiskFault>) -> Result<(), DiskFault>
        ensures { result ≡ outcome }
    {
        if outcome.is_err() {
            if let Some(error) = self.disk.last_error() {
                say(self.rt, self.path, call, error);
            }
        }
        outcome
    }
}

// Says on standard error what the system said.
fn say<R: Eprint>(rt: &R, path: &str, call: &str, error: &io::Error) {
    let _ = eprintln!(rt; "cg_server: {path}: {call}: {error}");
}

impl<R: Eprint> SectorDisk for LogFile<'_, R> {
    ghost use Rattle.cg_disk.specs.Disk.{unknown_history};
    ghost use Rattle.cg_disk.specs.File.{file_failures, file_size};

    ghost size = { λ log. file_size log.disk };

    ghost is_honest = { λ _. false };

    ghost history = { λ _. unknown_history };

    ghost failures = { λ log. file_failures log.disk };

    fn sectors(&self) -> u64 {
        self.disk.sectors()
    }

    fn read(&mut self, at: u64, bytes: &mut [u8]) -> Result<(), DiskFault> {
        let outcome = self.disk.read(at, bytes);
        self.told("read", outcome)
    }

    fn write(&mut self, at: u64, bytes: &[u8]) -> Result<(), DiskFault> {
        let outcome = self.disk.write(at, bytes);
        self.told("write", outcome)
    }

    fn sync(&mut self) -> Result<(), DiskFault> {
        let outcome = self.disk.sync();
        self.told("sync", outcome)
    }
}

// Opens a file, and locks it for as long as it is open. Says on standard error why it is not to be had.
fn locked<R: Files<File = File> + Eprint>(
    rt: &R,
    path: &str,
    how: &OpenOptions,
) -> Result<File, Stop> {
    let file = how
        .open(rt, path)
        .map_err(|error| refused(rt, path, &error))?;
    match file.try_lock() {
        Ok(()) => Ok(file),
        Err(TryLockError::WouldBlock) => {
            let _ = eprintln!(rt; "cg_server: {path} is in use by another server");
            Err(Stop::File)
        }
        Err(TryLockError::Error(error)) => Err(refused(rt, path, &error)),
    }
}

// Says on standard error what the system said of a file.
fn refused<R: Eprint>(rt: &R, path: &str, error: &io::Error) -> Stop {
    let _ = eprintln!(rt; "cg_server: {path}: {error}");
    Stop::File
}

// Syncs the folder of a new file, so that the file is found there after power loss. A file system that does not sync folders
// keeps them by itself.
fn sync_folder<R: Files<File = File>>(rt: &R, path: &str) -> io::Result<()> {
    let folder = match path.rsplit_once('/') {
        Some(("", _)) => "/",
        Some((folder, _)) => folder,
        None => ".",
    };
    let synced = File::open(rt, folder)?.sync_all();
    match synced {
        Err(error) if error.kind() != ErrorKind::InvalidInput => Err(error),
        _ => Ok(()),
    }
}

/// Opens the file at `path` as it is: no log is formatted.
pub fn found_file<'a, R: Files<File = File> + Eprint>(
    rt: &'a R,
    path: &'a str,
) -> Result<LogFile<'a, R>, Stop>
    ensures { IfOk result (λ log. log.origin ≡ Origin.Found) }
{
    let file = locked(rt, path, OpenOptions::new().read(true).write(true))?;
    match FileDisk::whole(file) {
        Ok(disk) => Ok(LogFile {
            rt,
            path,
            disk,
            origin: Origin::Found,
        }),
        Err(error) => Err(refused(rt, path, &error)),
    }
}

/// Makes the file at `path` with this many sectors of zeros, in its room of the file system. A file that is not empty is refused,
/// unless it is to be overwritten.
pub fn new_file<'a, R: Files<File = File> + Eprint>(
    rt: &'a R,
    path: &'a str,
    sectors: u64,
    overwrite: bool,
) -> Result<LogFile<'a, R>, Stop> {
    let file = locked(
        rt,
        path,
        OpenOptions::new().read(true).write(true).create(true),
    )?;
    let length = match file.metadata() {
        Ok(metadata) => metadata.len(),
        Err(error) => return Err(refused(rt, path, &error)),
    };
    if length > 0 && !overwrite {
        let _ = eprintln!(rt; "cg_server: {path} exists: remove it, or give --overwrite");
        return Err(Stop::File);
    }
    let zeroed = FileDisk::zeroed(file, sectors).and_then(|disk| {
        sync_folder(rt, path)?;
        Ok(disk)
    });
    match zeroed {
        Ok(disk) => {
            let mut log = LogFile {
                rt,
                path,
                disk,
                origin: Origin::Found,
            };
            clear_all(&mut log).map_err(|_| Stop::File)?;
            Ok(log)
        }
        Err(error) => Err(refused(rt, path, &error)),
    }
}

// Writes zeros to a sector.
fn clear<D: SectorDisk>(disk: &mut D, at: u64) -> Result<(), DiskFault> {
    if at >= disk.sectors() {
        return Ok(());
    }
    disk.write(at, &[0; SECTOR_BYTES])
}

// Writes zeros to all sectors. The file system gives a file its blocks when they are first written, and a sync after that
// also stores where they are, which takes several times as long. So no batch is the first to write its sectors, and a file system
// that is full says so now.
fn clear_all<D: SectorDisk>(disk: &mut D) -> Result<(), DiskFault> {
    for at in 0..disk.sectors() {
        clear(disk, at)?;
    }
    disk.sync()
}
