//! New disks, formatted.
ghost use Rattle.std.specs.Prelude.{◌≡◌, true, IfOk};
ghost use Rattle.cg_disk.specs.Mem.{mem_history, mem_size};
ghost use Rattle.cg_fold.specs.Durable.{empty};
ghost use Rattle.cg_store.specs.Carried.{AllCarry};
ghost use Rattle.cg_server.specs.declared.log_file.Origin.TheVariants as origin;

use crate::log_file::{LogFile, new_file};
use crate::stop::Stop;
use cg_disk::{MemDisk, SectorDisk};
use cg_gate::{FIRST_SEGMENT_SECTOR, SEGMENT_SECTORS};
use cg_store::LogFault;
use std::alloc::Global;
use std::fs::File;
use std::io::Eprint;
use std::rt::Files;

// Returns the number of sectors of a disk with this many segments, if it is a number of sectors.
fn sectors_of(segments: u64) -> Option<u64> {
    SEGMENT_SECTORS
        .checked_mul(segments)?
        .checked_add(FIRST_SEGMENT_SECTOR)
}

// Formats a disk.
fn formatted<D: SectorDisk + Drop>(alloc: Global, mut disk: D) -> Result<D, Stop>
    ensures { IfOk result (λ formatted. D.is_honest formatted ≡ true → AllCarry (D.history formatted) (D.size formatted) 0 empty) }
{
    match cg_store::format(alloc, &mut disk) {
        Ok(()) => Ok(disk),
        Err(LogFault::Memory) => Err(Stop::Memory),
        Err(_) => Err(Stop::Device),
    }
}

/// Creates a disk in memory with this many segments, and formats it: no crash image of it has a command.
pub fn new_memory(alloc: Global, segments: u64) -> Result<MemDisk, Stop>
    ensures { IfOk result (λ disk. AllCarry (mem_history disk) (mem_size disk) 0 empty) }
{
    let sectors = sectors_of(segments).ok_or(Stop::Memory)?;
    let disk = MemDisk::new(alloc, sectors)?;
    formatted(alloc, disk)
}

/// Makes the file at `path` with this many segments, and formats it. A file that is not empty is refused, unless it is to be
/// overwritten. Says on standard error what the system says, or why the file is refused.
pub fn new_log<'a, R: Files<File = File> + Eprint>(
    rt: &'a R,
    alloc: Global,
    path: &'a str,
    segments: u64,
    overwrite: bool,
) -> Result<LogFile<'a, R>, Stop>
    ensures { IfOk result (λ log. log.origin ≡ origin.Formatted) }
{
    let sectors = sectors_of(segments).ok_or(Stop::File)?;
    let log = formatted(alloc, new_file(rt, path, sectors, overwrite)?)?;
    Ok(log.into_formatted())
}
