//! Decoding and checking the body of a root.
ghost use Rattle.cg_disk.specs.declared.disk.TheConstants.{SECTOR_BYTES};
ghost use Rattle.std.specs.Prelude.{◌≡◌, ◌↔◌, ◌+◌, ◌*◌, ◌≤◌, ◌==◌, IfOk, IsTrue, length};
ghost use Rattle.std.specs.Int.{w16, w32, w64};
ghost use Rattle.std.specs.List.{list_any};
ghost use Rattle.cg_gate.specs.Layout.{segment_count};
ghost use Rattle.cg_root.specs.Roots.{AreSegments};
ghost use Rattle.cg_root.specs.Decoding.{number_at, head_in, ids_in, root_in, IsApart, IsLawfulHead, IsRootBody};

use crate::root_layout::{
    BASE_COUNT_AT, BASE_NUMBER_AT, EPOCH_AT, ID_BYTES, IDS_AT, TAIL_COUNT_AT,
};
use crate::{BASE_NUMBER_MAX, EPOCH_MAX, Root, SegmentId, SegmentIds, Slot, VERSION};
use cg_disk::SECTOR_BYTES;
use cg_gate::segment_count;
use std::alloc::{AllocError, Global};

/// What a body says before its ids.
#[derive(Clone, Copy)]
pub(crate) struct Head {
    pub(crate) version: u32,
    pub(crate) epoch: u64,
    pub(crate) base_number: u64,
    pub(crate) base: u16,
    pub(crate) tail: u16,
}

// The number in two bytes at an offset, and likewise in four and in eight.
#[tactic(auto, unfolding(crate::specs::Decoding::number_at))]
fn two_at(bytes: &[u8], at: usize) -> u16
    requires { at + 2 ≤ length bytes.now }
    ensures { result ≡ number_at w16 at bytes.now }
{
    let mut two = [0; 2];
    two.copy_from_slice(&bytes[at..at + 2]);
    u16::from_be_bytes(two)
}

#[tactic(auto, unfolding(crate::specs::Decoding::number_at))]
fn four_at(bytes: &[u8], at: usize) -> u32
    requires { at + 4 ≤ length bytes.now }
    ensures { result ≡ number_at w32 at bytes.now }
{
    let mut four = [0; 4];
    four.copy_from_slice(&bytes[at..at + 4]);
    u32::from_be_bytes(four)
}

#[tactic(auto, unfolding(crate::specs::Decoding::number_at))]
fn eight_at(bytes: &[u8], at: usize) -> u64
    requires { at + 8 ≤ length bytes.now }
    ensures { result ≡ number_at w64 at bytes.now }
{
    let mut eight = [0; 8];
    eight.copy_from_slice(&bytes[at..at + 8]);
    u64::from_be_bytes(eight)
}

/// Reads what a body says before its ids.
pub(crate) fn head_of(body: &[u8]) -> Head
    requires { length body.now ≡ SECTOR_BYTES }
    ensures { result ≡ head_in body.now }
{
    Head {
        version: four_at(body, 0),
        epoch: eight_at(body, EPOCH_AT),
        base_number: eight_at(body, BASE_NUMBER_AT),
        base: two_at(body, BASE_COUNT_AT),
        tail: two_at(body, TAIL_COUNT_AT),
    }
}

fn is_lawful_head(head: Head) -> bool
    ensures { IsTrue result ↔ IsLawfulHead head }
{
    head.version == VERSION
        && 1 <= head.epoch
        && head.epoch <= EPOCH_MAX
        && head.base_number <= BASE_NUMBER_MAX
        && 1 <= head.tail
        && ids_end(head) <= SECTOR_BYTES
}

// Where the ids of a body end.
fn ids_end(head: Head) -> usize
    ensures { result ≡ 24 + 2 * (head.base + head.tail) }
{
    IDS_AT + ID_BYTES * (head.base as usize + head.tail as usize)
}

fn is_among(id: u16, bytes: &[u8]) -> bool
    ensures { result ≡ list_any (λ other. id == other) (ids_in bytes.now) }
{
    match bytes {
        [high, low, rest @ ..] => id == u16::from_be_bytes([*high, *low]) || is_among(id, rest),
        _ => false,
    }
}

// Whether there is such a segment, and none of these ids is its own.
fn is_apart(id: u16, bytes: &[u8], segments: u64) -> bool
    ensures { IsTrue result ↔ IsApart segments id (ids_in bytes.now) }
{
    (id as u64) < segments && !is_among(id, bytes)
}

// Whether these are ids of segments, where there are that many, and no two are equal. Compares each id with each.
fn are_segments(bytes: &[u8], segments: u64) -> bool
    ensures { IsTrue result ↔ AreSegments segments (ids_in bytes.now) }
{
    match bytes {
        [high, low, rest @ ..] => {
            let id = u16::from_be_bytes([*high, *low]);
            is_apart(id, rest, segments) && are_segments(rest, segments)
        }
        _ => true,
    }
}

/// Returns whether a body, of which this is the head, is that of a root on a disk of that many sectors.
pub(crate) fn is_root_body(body: &[u8], head: Head, sectors: u64) -> bool
    requires long { length body.now ≡ SECTOR_BYTES }
    requires head { head ≡ head_in body.now }
    ensures { IsTrue result ↔ IsRootBody sectors body.now }
{
    is_lawful_head(head) && are_segments(&body[IDS_AT..ids_end(head)], segment_count(sectors))
}

// Reads ids, two bytes each.
fn ids_of(alloc: Global, bytes: &[u8]) -> Result<SegmentIds, AllocError>
    ensures { IfOk result (λ ids. ids ≡ ids_in bytes.now) }
{
    let mut ids = Vec::with_capacity(alloc, bytes.len() / ID_BYTES)?;
    let mut rest = bytes;
    while let [high, low, others @ ..] = rest {
        ids.push(SegmentId::new(u16::from_be_bytes([*high, *low])))?;
        rest = others;
    }
    Ok(SegmentIds::from_vec(ids))
}

/// Reads the root of a body.
pub(crate) fn root_of(alloc: Global, slot: Slot, body: &[u8]) -> Result<Root, AllocError>
    requires long { length body.now ≡ SECTOR_BYTES }
    requires head { IsLawfulHead (head_in body.now) }
    ensures { IfOk result (λ root. root ≡ root_in slot body.now) }
{
    let head = head_of(body);
    let tail_at = IDS_AT + ID_BYTES * head.base as usize;
    let base = ids_of(alloc, &body[IDS_AT..tail_at])?;
    let tail = ids_of(alloc, &body[tail_at..ids_end(head)])?;
    Ok(Root {
        slot,
        epoch: head.epoch,
        base_number: head.base_number,
        base,
        tail,
    })
}
