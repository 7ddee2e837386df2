//! Encoding a root as the sector of its body.
ghost use Rattle.cg_disk.specs.declared.disk.TheConstants.{SECTOR_BYTES};
ghost use Rattle.std.specs.Prelude.{◌≡◌, ℕ, ◌+◌, ◌*◌, ◌^◌, ◌<◌, ◌≤◌, ◌++◌, length, take, slice_index};
ghost use Rattle.std.specs.List.{flat_map};
ghost use Rattle.cg_root.specs.Roots.{two_bytes, four_bytes, eight_bytes, root_ids, root_head, root_body};

use crate::sector_builder::SectorBuilder;
use crate::{Root, SegmentId, VERSION};
use cg_disk::SECTOR_BYTES;

// Puts a number at the end in two bytes, and likewise in four and in eight.
#[tactic(auto, unfolding(crate::specs::Roots::two_bytes))]
fn push_two(sector: &mut SectorBuilder, number: u16)
    requires { length sector.old + 2 ≤ SECTOR_BYTES }
    ensures bytes { sector.new ≡ sector.old ++ two_bytes number }
    ensures longer { length sector.new ≡ length sector.old + 2 }
{
    sector.push(&number.to_be_bytes());
}

#[tactic(auto, unfolding(crate::specs::Roots::four_bytes))]
fn push_four(sector: &mut SectorBuilder, number: u32)
    requires { length sector.old + 4 ≤ SECTOR_BYTES }
    ensures bytes { sector.new ≡ sector.old ++ four_bytes number }
    ensures longer { length sector.new ≡ length sector.old + 4 }
{
    sector.push(&number.to_be_bytes());
}

#[tactic(auto, unfolding(crate::specs::Roots::eight_bytes))]
fn push_eight(sector: &mut SectorBuilder, number: u64)
    requires { length sector.old + 8 ≤ SECTOR_BYTES }
    ensures bytes { sector.new ≡ sector.old ++ eight_bytes number }
    ensures longer { length sector.new ≡ length sector.old + 8 }
{
    sector.push(&number.to_be_bytes());
}

// A body up to its ids.
fn head_of_root(root: &Root) -> SectorBuilder
    requires base { length root.now.base < 2 ^ 16 }
    requires tail { length root.now.tail < 2 ^ 16 }
    ensures long { length result ≡ 24 }
    ensures bytes { result ≡ root_head 1 root.now.epoch root.now.base_number (length root.now.base) (length root.now.tail) }
{
    let mut sector = SectorBuilder::new();
    push_four(&mut sector, VERSION);
    push_eight(&mut sector, root.epoch);
    push_eight(&mut sector, root.base_number);
    push_two(&mut sector, root.base.len() as u16);
    push_two(&mut sector, root.tail.len() as u16);
    sector
}

fn push_ids(sector: &mut SectorBuilder, ids: &[SegmentId])
    requires { length sector.old + 2 * length ids.now ≤ SECTOR_BYTES }
    ensures bytes { sector.new ≡ sector.old ++ flat_map two_bytes ids.now }
    ensures longer { length sector.new ≡ length sector.old + 2 * length ids.now }
{
    for id in ids {
        push_two(sector, id.get());
    }
}

/// Returns the sector of a root's body: its bytes, and zeros. It takes no memory.
pub(crate) fn body_of(root: &Root) -> [u8; SECTOR_BYTES]
    requires { 24 + 2 * length (root_ids root.now) ≤ SECTOR_BYTES }
    ensures long { length result ≡ SECTOR_BYTES }
    ensures begins { take (length (root_body root.now)) result ≡ root_body root.now }
    ensures zeros { (i : ℕ) → length (root_body root.now) ≤ i → slice_index result i ≡ 0 }
{
    let mut sector = head_of_root(root);
    push_ids(&mut sector, root.base.as_slice());
    push_ids(&mut sector, root.tail.as_slice());
    sector.finish()
}
