//! Gates, and sectors that count only behind an open gate: what frames and roots share, with the layout of the disk.
//! A guarded write stopped at any moment leaves its gate closed or all of its sectors.
//! It stands on `cg_disk`.
#![tactic(auto)]

mod gate;
mod guarded;
mod layout;
#[cfg(test)]
mod tests;

pub use gate::{OPEN, is_open};
pub use guarded::{close_gate, write_guarded};
pub use layout::{
    FIRST_SEGMENT_SECTOR, ROOT_SLOT_SECTORS, SEGMENT_SECTORS, SEGMENTS_MAX, first_sector,
    layout_numbers, segment_count,
};
