//! Disks of sectors: the model of a disk, and five implementations. `MemDisk` meets the model and records its whole
//! history, `FuseDisk` and `OnceDisk` inject faults, `GateDisk` lets a test hold up or fail one sync, and `FileDisk` is a
//! file, for which only safety is proved.
#![tactic(auto)]

mod countdown;
mod disk;
mod fault;
mod file;
mod fuse;
mod gate_disk;
mod mem;
mod once;
mod record;
#[cfg(test)]
mod tests;

pub use disk::{SECTOR_BYTES, SectorDisk};
pub use fault::DiskFault;
pub use file::FileDisk;
pub use fuse::FuseDisk;
pub use gate_disk::{Gate, GateDisk};
pub use mem::{Crash, MemDisk};
pub use once::OnceDisk;
