//! What the threads of a server count for its status.
use std::sync::atomic::{AtomicU64, Ordering};

/// What the threads of a server count.
#[derive(Drop)]
pub struct Tally {
    /// Segments of the log.
    pub segments: u64,
    // Open connections.
    connections: AtomicU64,
    // COMMITs that were answered by OK.
    commits: AtomicU64,
    // Compactions that ended with a new base.
    compactions: AtomicU64,
}

impl Tally {
    /// Creates the tally of a server with a log of this many segments.
    pub fn new(segments: u64) -> Tally {
        Tally {
            segments,
            connections: AtomicU64::new(0),
            commits: AtomicU64::new(0),
            compactions: AtomicU64::new(0),
        }
    }

    /// Counts a connection that begins.
    pub fn begin_connection(&self) {
        self.connections.fetch_add(1, Ordering::Relaxed);
    }

    /// Counts a connection that ends.
    pub fn end_connection(&self) {
        self.connections.fetch_sub(1, Ordering::Relaxed);
    }

    /// Counts COMMITs that were answered by OK.
    pub fn add_commits(&self, count: u64) {
        if count > 0 {
            self.commits.fetch_add(count, Ordering::Relaxed);
        }
    }

    /// Counts a compaction that ended with a new base.
    pub fn add_compaction(&self) {
        self.compactions.fetch_add(1, Ordering::Relaxed);
    }

    /// Returns how many connections are open.
    pub fn connections(&self) -> u64 {
        self.connections.load(Ordering::Relaxed)
    }

    /// Returns how many COMMITs were answered by OK.
    pub fn commits(&self) -> u64 {
        self.commits.load(Ordering::Relaxed)
    }

    /// Returns how many compactions ended with a new base.
    pub fn compactions(&self) -> u64 {
        self.compactions.load(Ordering::Relaxed)
    }
}
