//! The bytes of a `poke` line.
ghost use Rattle.std.specs.Prelude.{◌≡◌, List, ℕ, IsTrue, length, IfOk};
ghost use Rattle.cg_disk.specs.declared.disk.TheConstants.{SECTOR_BYTES};
ghost use Rattle.cg_line.specs.Fields.{bytes_in, is_opaque};
ghost use Rattle.cg_sim.specs.Poking.{filled};
ghost use Rattle.cg_sim.specs.SectorText.{sector_text_of};

use cg_disk::SECTOR_BYTES;
use std::alloc::{AllocError, Global};
use std::marker::Model;

/// Bytes of a `poke` line, as text: `x` and lower-case hexadecimal digits, two for each byte, and at most a sector of
/// them. Contracts see the text.
#[derive(Drop)]
pub struct SectorText<'a> {
    word: &'a [u8],
}

impl<'a> Model for SectorText<'a> {
    ghost use Rattle.std.specs.Prelude.{List, ℕ, IsTrue};
    ghost use Rattle.cg_disk.specs.declared.disk.TheConstants.{SECTOR_BYTES};
    ghost use Rattle.cg_line.specs.Fields.{is_opaque};

    ghost Value = { List ℕ };

    ghost view = { λ t. t.word.now };

    ghost invariant = { λ t. IsTrue (is_opaque SECTOR_BYTES t.word.now) };
}

impl<'a> SectorText<'a> {
    /// Returns the text of a word, or `None` if it is no bytes or has more than a sector of them.
    #[tactic(auto, unfolding(crate::specs::SectorText::sector_text_of))]
    pub fn read(word: &'a [u8]) -> Option<Self>
        ensures { result ≡ sector_text_of word.now }
    {
        if cg_line::is_opaque(word, SECTOR_BYTES) {
            Some(SectorText { word })
        } else {
            None
        }
    }

    /// Returns the sector that begins with these bytes. Zeros follow them.
    pub fn sector(&self, alloc: Global) -> Result<Vec<u8>, AllocError>
        ensures filled { IfOk result (λ sector. sector.items ≡ filled (bytes_in self.now)) }
        ensures whole { IfOk result (λ sector. length sector.items ≡ SECTOR_BYTES) }
    {
        let mut sector = cg_line::bytes_in(alloc, self.word)?;
        sector.resize(SECTOR_BYTES, 0)?;
        Ok(sector)
    }
}
