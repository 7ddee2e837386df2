//! A disk in a file.
ghost use Rattle.cg_disk.specs.declared.disk.TheConstants.{SECTOR_BYTES};
ghost use Rattle.std.specs.Prelude.{◌≡◌, ◌*◌, ◌^◌, ◌<◌, false, IfOk, IfErr, IfSome, OnOk, is_err, Some};
ghost use Rattle.std.specs.Option.{option_copied};
ghost use Rattle.cg_disk.specs.Disk.{Counts, unknown_history};

use crate::{DiskFault, SECTOR_BYTES, SectorDisk};
use std::fs::{OpenFile, OpenOptions};
use std::io::{self, ErrorKind, Read, Seek, SeekFrom, Write};
use std::rt::Files;

const SECTOR_BYTES_U64: u64 = SECTOR_BYTES as u64;

/// A disk in a file of consecutive sectors. The contracts promise no durability: a file is not known to be honest.
#[derive(Drop)]
pub struct FileDisk<F> {
    file: F,
    sectors: u64,
    failures: u64,
    /// What the system said of the last call that failed.
    error: Option<io::Error>,
    ghost fits: { SECTOR_BYTES * sectors < 2 ^ 64 },
}

impl<F: Read + Write + Seek + OpenFile + Drop> FileDisk<F> {
    ghost use Rattle.cg_disk.specs.File.{file_size, file_failures};

    /// Opens the disk in the file at `path`. With a number of sectors, creates or overwrites the file with that many
    /// sectors of zeros. Without, the file has to exist, and the disk has the whole sectors within its length.
    pub fn open<R: Files<File = F>>(
        rt: &R,
        path: &str,
        sectors: Option<u64>,
    ) -> io::Result<FileDisk<F>>
        ensures made { IfOk result (λ disk. IfSome sectors (λ n. file_size disk ≡ n)) }
        ensures failures { IfOk result (λ disk. file_failures disk ≡ 0) }
    {
        let is_new = sectors.is_some();
        let file = OpenOptions::new()
            .read(true)
            .write(true)
            .create(is_new)
            .truncate(is_new)
            .open(rt, path)?;
        match sectors {
            Some(sectors) => FileDisk::zeroed(file, sectors),
            None => FileDisk::whole(file),
        }
    }

    /// Makes a disk of a file that is open for reading and writing: of the whole sectors within its length.
    pub fn whole(file: F) -> io::Result<FileDisk<F>>
        ensures failures { IfOk result (λ disk. file_failures disk ≡ 0) }
    {
        let sectors = file.metadata()?.len() / SECTOR_BYTES_U64;
        Ok(FileDisk {
            file,
            sectors,
            failures: 0,
            error: None,
        })
    }

    /// Makes a disk of this many sectors of a file that is open for reading and writing. What the file had is gone, and reads
    /// give zeros. The file system may give the file its room only when the sectors are written.
    pub fn zeroed(file: F, sectors: u64) -> io::Result<FileDisk<F>>
        ensures sectors { IfOk result (λ disk. file_size disk ≡ sectors) }
        ensures failures { IfOk result (λ disk. file_failures disk ≡ 0) }
    {
        let Some(length) = sectors.checked_mul(SECTOR_BYTES_U64) else {
            return Err(ErrorKind::InvalidInput.into());
        };
        file.set_len(0)?;
        file.set_len(length)?;
        file.sync_all()?;
        Ok(FileDisk {
            file,
            sectors,
            failures: 0,
            error: None,
        })
    }

    /// Returns what the system said of the last call that failed.
    pub fn last_error(&self) -> Option<&io::Error>
        ensures { option_copied result ≡ self.now.error }
    {
        self.error.as_ref()
    }

    // Counts the call if it failed, and keeps what the system said. The count stops at `u64::MAX`.
    fn note(&mut self, outcome: io::Result<()>) -> Result<(), DiskFault>
        ensures same { is_err result ≡ is_err outcome }
        ensures size { file_size self.new ≡ file_size self.old }
        ensures counts { Counts (file_failures self.old) (file_failures self.new) (is_err outcome) }
        ensures kept { OnOk outcome (self.new.error ≡ self.old.error) }
        ensures error { IfErr outcome (λ error. self.new.error ≡ Some error) }
    {
        let Err(error) = outcome else {
            return Ok(());
        };
        self.failures = self.failures.saturating_add(1);
        self.error = Some(error);
        Err(DiskFault::Device)
    }
}

impl<F: Read + Write + Seek + OpenFile + Drop> SectorDisk for FileDisk<F> {
    ghost use Rattle.cg_disk.specs.File.{file_size, file_failures};

    ghost size = { file_size };

    ghost is_honest = { λ _. false };

    ghost history = { λ _. unknown_history };

    ghost failures = { file_failures };

    fn sectors(&self) -> u64 {
        self.sectors
    }

    fn read(&mut self, at: u64, bytes: &mut [u8]) -> Result<(), DiskFault> {
        let outcome = read_at(&mut self.file, at, bytes);
        self.note(outcome)
    }

    fn write(&mut self, at: u64, bytes: &[u8]) -> Result<(), DiskFault> {
        let outcome = write_at(&mut self.file, at, bytes);
        self.note(outcome)
    }

    fn sync(&mut self) -> Result<(), DiskFault> {
        let outcome = self.file.sync_data();
        self.note(outcome)
    }
}

fn read_at<F: Read + Seek>(file: &mut F, at: u64, bytes: &mut [u8]) -> io::Result<()>
    requires { SECTOR_BYTES * at < 2 ^ 64 }
{
    file.seek(SeekFrom::Start(at * SECTOR_BYTES_U64))?;
    file.read_exact(bytes)
}

fn write_at<F: Write + Seek>(file: &mut F, at: u64, bytes: &[u8]) -> io::Result<()>
    requires { SECTOR_BYTES * at < 2 ^ 64 }
{
    file.seek(SeekFrom::Start(at * SECTOR_BYTES_U64))?;
    file.write_all(bytes)
}
