//! Pokes: bytes that a script puts on the disk.
ghost use Rattle.std.specs.Prelude.{◌≡◌, ◌<◌, ◌∷◌, [], length, true, IfOk, OnOk, is_err};
ghost use Rattle.cg_disk.specs.Disk.{Counts, IsSynced, present};
ghost use Rattle.cg_disk.specs.declared.disk.TheConstants.{SECTOR_BYTES};
ghost use Rattle.cg_line.specs.Fields.{bytes_in};

use crate::sector_text::SectorText;
use cg_disk::{DiskFault, SectorDisk};
use std::alloc::{AllocError, Global};

/// New content of one sector.
#[derive(Drop)]
pub struct Poke {
    sector: u64,
    content: Vec<u8>,
    ghost whole: { length content.items ≡ SECTOR_BYTES },
}

impl Poke {
    ghost use Rattle.cg_sim.specs.Poking.{are_within, IsPoked, content_of, filled, sector_of};

    /// Creates the poke of a script line: the bytes of the text, and zeros after them.
    pub fn new(alloc: Global, sector: u64, text: &SectorText<'_>) -> Result<Self, AllocError>
        ensures sector { IfOk result (λ poke. sector_of poke ≡ sector) }
        ensures content { IfOk result (λ poke. content_of poke ≡ filled (bytes_in text.now)) }
    {
        let content = text.sector(alloc)?;
        Ok(Poke { sector, content })
    }

    /// Writes the sector and syncs the disk.
    pub fn put<D: SectorDisk>(&self, disk: &mut D) -> Result<(), DiskFault>
        requires { sector_of self.now < D.size disk.old }
        ensures put { D.is_honest disk.old ≡ true → OnOk result (IsPoked (self.now ∷ []) (present (D.history disk.old)).content (present (D.history disk.new))) }
        ensures same_size { D.size disk.new ≡ D.size disk.old }
        ensures same_honesty { D.is_honest disk.new ≡ D.is_honest disk.old }
        ensures cause { Counts (D.failures disk.old) (D.failures disk.new) (is_err result) }
    {
        disk.write(self.sector, self.content.as_slice())?;
        disk.sync()?;
        Ok(())
    }

    /// Writes the sectors of the pokes, in their order, and syncs the disk after each.
    pub fn put_all<D: SectorDisk>(pokes: &[Poke], disk: &mut D) -> Result<(), DiskFault>
        requires { are_within (D.size disk.old) pokes.now ≡ true }
        ensures put { D.is_honest disk.old ≡ true → IsSynced (present (D.history disk.old)) → OnOk result (IsPoked pokes.now (present (D.history disk.old)).content (present (D.history disk.new))) }
        ensures same_size { D.size disk.new ≡ D.size disk.old }
        ensures same_honesty { D.is_honest disk.new ≡ D.is_honest disk.old }
        ensures cause { Counts (D.failures disk.old) (D.failures disk.new) (is_err result) }
    {
        for poke in pokes {
            poke.put(disk)?;
        }
        Ok(())
    }
}
