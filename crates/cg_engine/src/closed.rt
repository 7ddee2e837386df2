//! What is left of an engine.
use cg_desk::Outgoing;
use cg_disk::SectorDisk;
use cg_trail::Trail;

/// What an engine leaves when it is finished.
#[derive(Drop)]
pub struct Closed<D: SectorDisk + Drop> {
    /// Number of the last stored command; 0 where nothing was loaded.
    pub front: u64,
    /// The disk, where one was loaded.
    pub disk: Option<D>,
    /// Refusals of the calls that were pending.
    pub refused: Vec<Outgoing>,
    /// What the desk did since loading, where a trail was kept.
    pub trail: Option<Trail>,
}
