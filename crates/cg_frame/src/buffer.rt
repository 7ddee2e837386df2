//! The sectors of a frame while it is encoded, and numbers of eight bytes.
ghost use Rattle.cg_frame.specs.declared.segment.TheConstants.{HEAD_BYTES};
ghost use Rattle.cg_disk.specs.declared.disk.TheConstants.{SECTOR_BYTES};
ghost use Rattle.std.specs.Prelude.{◌≡◌, ◌+◌, ◌-◌, ◌*◌, ◌^◌, ◌<◌, ◌≤◌, ◌++◌, OnOk, OnErr, length, take, drop};
ghost use Rattle.cg_frame.specs.Frames.{body_sectors, word};
ghost use Rattle.cg_frame.specs.Staged.{IsStagedFrame, behind_head};

use crate::segment::{HEAD_BYTES, sectors_of};
use cg_disk::SECTOR_BYTES;
use std::alloc::AllocError;

/// A number in 8 bytes.
#[tactic(auto, unfolding(crate::specs::Frames::word))]
fn bytes_of(number: u64) -> [u8; 8]
    ensures { result ≡ word number }
{
    number.to_be_bytes()
}

/// The number in the 8 bytes from `at` on.
pub(crate) fn number(bytes: &[u8], at: usize) -> u64
    requires { at + 8 ≤ length bytes.now }
    ensures { word result ≡ take 8 (drop at bytes.now) }
{
    let mut eight = [0; 8];
    eight.copy_from_slice(&bytes[at..at + 8]);
    u64::from_be_bytes(eight)
}

/// Returns how many bytes a frame takes: the sectors of its body, and the sector of the gate after it.
pub(crate) fn frame_bytes(payload_bytes: u64) -> usize
    requires { payload_bytes ≤ 2 ^ 63 }
    ensures { result ≡ SECTOR_BYTES * (body_sectors payload_bytes + 1) }
{
    (sectors_of(payload_bytes) as usize + 1) * SECTOR_BYTES
}

/// Leaves the room for a head and the first `bytes` bytes after it.
pub(crate) fn cut(buffer: &mut Vec<u8>, bytes: u64) -> Result<(), AllocError>
    requires { bytes ≤ length buffer.old.items - HEAD_BYTES }
    ensures long { OnOk result (length buffer.new.items ≡ HEAD_BYTES + bytes) }
    ensures payload { OnOk result (behind_head buffer.new.items ≡ take bytes (behind_head buffer.old.items)) }
    ensures err { OnErr result (buffer.new.items ≡ buffer.old.items) }
{
    buffer.resize((HEAD_BYTES + bytes) as usize, 0)?;
    Ok(())
}

// Fills in the count and the length before a payload.
fn put_head(sectors: &mut [u8], count: u64, bytes: u64)
    requires { HEAD_BYTES ≤ length sectors.old }
    ensures { sectors.new ≡ word count ++ word bytes ++ behind_head sectors.old }
{
    sectors[0..8].copy_from_slice(&bytes_of(count));
    sectors[8..16].copy_from_slice(&bytes_of(bytes));
}

/// Fills in the head before a payload, and adds the zeros after it and the closed gate.
pub(crate) fn complete(buffer: &mut Vec<u8>, count: u64) -> Result<(), AllocError>
    requires { HEAD_BYTES ≤ length buffer.old.items }
    ensures frame { OnOk result (IsStagedFrame buffer.new.items count (length buffer.old.items - HEAD_BYTES)) }
    ensures payload { OnOk result (take (length buffer.old.items - HEAD_BYTES) (behind_head buffer.new.items) ≡ behind_head buffer.old.items) }
    ensures err { OnErr result (buffer.new.items ≡ buffer.old.items) }
{
    let bytes = buffer.len() as u64 - HEAD_BYTES;
    buffer.resize(frame_bytes(bytes), 0)?;
    put_head(buffer.as_mut_slice(), count, bytes);
    Ok(())
}
