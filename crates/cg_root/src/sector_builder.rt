//! A sector that is filled from its front.
ghost use Rattle.cg_disk.specs.declared.disk.TheConstants.{SECTOR_BYTES};
ghost use Rattle.std.specs.Prelude.{◌≡◌, ℕ, ◌+◌, ◌≤◌, List, [], ◌++◌, length, take, slice_index};

use cg_disk::SECTOR_BYTES;
use std::marker::Model;

/// Bytes that are put one after another into a sector of zeros, without memory. Contracts see the bytes so far.
#[derive(Drop)]
pub(crate) struct SectorBuilder {
    sector: [u8; SECTOR_BYTES],
    used: usize,
}

impl Model for SectorBuilder {
    ghost use Rattle.std.specs.Prelude.{ℕ, List, take};
    ghost use Rattle.cg_root.specs.Building.{IsBuilt};

    ghost Value = { List ℕ };

    ghost view = { λ b. take b.used b.sector };

    ghost invariant = { λ b. IsBuilt b.sector b.used };
}

impl SectorBuilder {
    pub(crate) fn new() -> Self
        ensures { result ≡ [] }
    {
        SectorBuilder {
            sector: [0; SECTOR_BYTES],
            used: 0,
        }
    }

    /// Puts bytes at the end.
    pub(crate) fn push(&mut self, bytes: &[u8])
        requires { length self.old + length bytes.now ≤ SECTOR_BYTES }
        ensures { self.new ≡ self.old ++ bytes.now }
    {
        let end = self.used + bytes.len();
        self.sector[self.used..end].copy_from_slice(bytes);
        self.used = end;
    }

    /// Returns the whole sector.
    pub(crate) fn finish(self) -> [u8; SECTOR_BYTES]
        ensures long { length result ≡ SECTOR_BYTES }
        ensures fits { length self ≤ SECTOR_BYTES }
        ensures begins { take (length self) result ≡ self }
        ensures zeros { (i : ℕ) → length self ≤ i → slice_index result i ≡ 0 }
    {
        let SectorBuilder { sector, .. } = self;
        sector
    }
}
