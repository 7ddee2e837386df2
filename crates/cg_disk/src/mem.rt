//! A disk in memory.
ghost use Rattle.std.specs.Prelude.{◌≡◌, ℕ, ◌+◌, ◌*◌, ◌/◌, ◌<◌, true, IfOk, length, slice_index};
ghost use Rattle.std.specs.List.{list_all};
ghost use Rattle.cg_disk.specs.Disk.{present, IsWhole, IsImage, IsSynced};
ghost use Rattle.cg_disk.specs.Record.{is_within};
ghost use Rattle.cg_disk.specs.Crash.{IsLastSynced};

use crate::fault::count;
use crate::record::{Call, replace, undo_unsynced};
use crate::{DiskFault, SECTOR_BYTES, SectorDisk};
use std::alloc::{AllocError, Global};

/// The effect of a crash on sectors that were written and not synced.
#[derive(Clone, Copy, Debug, PartialEq, Eq)]
pub enum Crash {
    /// They hold what was written.
    Keep,
    /// They hold what they held at the last sync.
    Lose,
}

/// An honest disk in memory, which can crash. It records all its calls: a call fails if the allocation for its record
/// fails, and then changes no content. Each write stores a copy of the bytes that it replaces, until a crash.
#[derive(Drop)]
pub struct MemDisk {
    alloc: Global,
    bytes: Vec<u8>,
    calls: Vec<Call>,
    failures: u64,
    ghost whole: { IsWhole bytes.items },
    ghost within: { list_all (is_within (length bytes.items)) calls.items ≡ true },
}

impl MemDisk {
    ghost use Rattle.cg_disk.specs.Mem.{mem_size, mem_history, mem_failures};

    /// Creates a synced disk of zeros.
    pub fn new(alloc: Global, sectors: u64) -> Result<MemDisk, AllocError>
        ensures size { IfOk result (λ disk. mem_size disk ≡ sectors) }
        ensures zeros { IfOk result (λ disk.
            (s i : ℕ) → slice_index ((present (mem_history disk)).content s) i ≡ 0) }
        ensures synced { IfOk result (λ disk. IsSynced (present (mem_history disk))) }
        ensures failures { IfOk result (λ disk. mem_failures disk ≡ 0) }
    {
        let size = (sectors as usize)
            .checked_mul(SECTOR_BYTES)
            .ok_or(AllocError)?;
        Ok(MemDisk {
            alloc,
            bytes: vec![in alloc; 0; size]?,
            calls: Vec::new(alloc),
            failures: 0,
        })
    }

    /// Returns the disk after a crash: it is synced, and its record is empty. Linear in the recorded calls; `Lose` also
    /// puts back the bytes that were overwritten since the last sync.
    pub fn crash(self, kind: Crash) -> MemDisk
        ensures size { mem_size result ≡ mem_size self }
        ensures image { IsImage (present (mem_history self)) (present (mem_history result)).content }
        ensures kept { kind ≡ Crash.Keep → (s : ℕ) →
            (present (mem_history result)).content s ≡ (present (mem_history self)).content s }
        ensures lost { kind ≡ Crash.Lose →
            IsLastSynced (mem_history self) (present (mem_history result)).content }
        ensures synced { IsSynced (present (mem_history result)) }
        ensures failures { mem_failures result ≡ mem_failures self }
    {
        let MemDisk {
            alloc,
            mut bytes,
            mut calls,
            failures,
        } = self;
        match kind {
            Crash::Keep => {}
            Crash::Lose => undo_unsynced(&mut bytes, &mut calls),
        }
        calls.clear();
        MemDisk {
            alloc,
            bytes,
            calls,
            failures,
        }
    }
}

impl SectorDisk for MemDisk {
    ghost use Rattle.cg_disk.specs.Mem.{mem_size, mem_history, mem_failures};

    ghost size = { mem_size };

    ghost is_honest = { λ _. true };

    ghost history = { mem_history };

    ghost failures = { mem_failures };

    fn sectors(&self) -> u64 {
        (self.bytes.len() / SECTOR_BYTES) as u64
    }

    fn read(&mut self, at: u64, bytes: &mut [u8]) -> Result<(), DiskFault> {
        let noted = self.calls.push(Call::Read);
        count(&mut self.failures, noted)?;
        let start = at as usize * SECTOR_BYTES;
        bytes.copy_from_slice(&self.bytes[start..start + bytes.len()]);
        Ok(())
    }

    fn write(&mut self, at: u64, bytes: &[u8]) -> Result<(), DiskFault> {
        let noted = replace(self.alloc, &mut self.bytes, &mut self.calls, at, bytes);
        count(&mut self.failures, noted)
    }

    fn sync(&mut self) -> Result<(), DiskFault> {
        let noted = self.calls.push(Call::Sync);
        count(&mut self.failures, noted)
    }
}
