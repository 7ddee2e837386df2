//! The record of calls of a disk in memory.
ghost use Rattle.cg_disk.specs.declared.disk.TheConstants.{SECTOR_BYTES};
ghost use Rattle.std.specs.Prelude.{◌≡◌, ◌+◌, ◌*◌, ◌<◌, ◌≤◌, [], ◌∷◌, ◌++◌, true, length, take, drop, OnOk, OnErr};
ghost use Rattle.std.specs.List.{list_all};
ghost use Rattle.cg_disk.specs.Record.{overwritten, is_within, GoesBackToSync};

use crate::SECTOR_BYTES;
use std::alloc::{AllocError, Global};

/// A successful call of a disk in memory, with the bytes that undo it.
#[derive(Drop)]
pub(crate) enum Call {
    Read,
    /// A write of the sectors from position `at`, and the bytes that it replaced.
    Write { at: u64, replaced: Vec<u8> },
    Sync,
}

/// Writes whole sectors, and records the bytes that they replaced. Copies the old and the new bytes once. If an
/// allocation fails, nothing changes.
pub(crate) fn replace(
    alloc: Global,
    disk: &mut Vec<u8>,
    calls: &mut Vec<Call>,
    at: u64,
    bytes: &[u8],
) -> Result<(), AllocError>
    requires { SECTOR_BYTES * at + length bytes.now ≤ length disk.old.items }
    ensures length { length disk.new.items ≡ length disk.old.items }
    ensures written { OnOk result (disk.new.items ≡ overwritten disk.old.items (SECTOR_BYTES * at) bytes.now) }
    ensures noted { OnOk result ((replaced : _)
        × (replaced.items ≡ take (length bytes.now) (drop (SECTOR_BYTES * at) disk.old.items))
        × (calls.new.items ≡ calls.old.items ++ Call.Write at replaced ∷ [])) }
    ensures same { OnErr result (disk.new.items ≡ disk.old.items) }
    ensures same_calls { OnErr result (calls.new.items ≡ calls.old.items) }
{
    let start = at as usize * SECTOR_BYTES;
    let end = start + bytes.len();
    let replaced = disk[start..end].to_vec(alloc)?;
    calls.push(Call::Write { at, replaced })?;
    disk[start..end].copy_from_slice(bytes);
    Ok(())
}

/// Puts back the bytes that a write replaced.
pub(crate) fn restore(disk: &mut Vec<u8>, at: u64, replaced: &[u8])
    requires { SECTOR_BYTES * at + length replaced.now ≤ length disk.old.items }
    ensures length { length disk.new.items ≡ length disk.old.items }
    ensures restored { disk.new.items ≡ overwritten disk.old.items (SECTOR_BYTES * at) replaced.now }
{
    let start = at as usize * SECTOR_BYTES;
    disk[start..start + replaced.len()].copy_from_slice(replaced);
}

/// Undoes the calls since the last sync, the last one first.
pub(crate) fn undo_unsynced(disk: &mut Vec<u8>, calls: &mut Vec<Call>)
    requires { list_all (is_within (length disk.old.items)) calls.old.items ≡ true }
    ensures length { length disk.new.items ≡ length disk.old.items }
    ensures back { GoesBackToSync disk.old.items calls.old.items disk.new.items }
{
    while let Some(call) = calls.pop() {
        match call {
            Call::Read => {}
            Call::Write { at, replaced } => restore(disk, at, &replaced),
            Call::Sync => break,
        }
    }
}
