//! What a status line says.
use crate::server::Server;
use cg_desk::Counts;
use cg_disk::SectorDisk;
use std::sync::Wait;
use std::sync::ledger::Ledger;
use std::time::Clock;

/// What a status line says.
#[derive(Clone, Copy, Debug, Drop, PartialEq, Eq)]
pub struct Status {
    /// Loaded groups.
    pub groups: u64,
    /// Members of all loaded groups.
    pub members: u64,
    /// Committed offsets.
    pub offsets: u64,
    /// Open connections.
    pub connections: u64,
    /// Requests without a reply, parked ones among them.
    pub pending: u64,
    /// Number of the last settled command.
    pub settled: u64,
    /// Free segments of the log.
    pub free: u64,
    /// Segments of the log.
    pub of: u64,
    /// Compactions that ended with a new base since the log was loaded.
    pub compactions: u64,
    /// COMMITs that were answered by OK since the log was loaded.
    pub commits: u64,
    /// Whole seconds since the log was loaded.
    pub seconds: u64,
}

impl Status {
    /// Returns the status of a server.
    pub fn of<D: SectorDisk + Drop, L: Ledger, R: Wait + Clock>(
        rt: &R,
        server: &Server<'_, D, L>,
    ) -> Status {
        let Counts {
            groups,
            members,
            offsets,
            pending,
            settled,
        } = server.engine.counts(rt);
        let tally = &server.tally;
        Status {
            groups,
            members,
            offsets,
            connections: tally.connections(),
            pending,
            settled,
            free: server.engine.free_count(rt),
            of: tally.segments,
            compactions: tally.compactions(),
            commits: tally.commits(),
            seconds: server.moments.seconds(rt),
        }
    }
}
