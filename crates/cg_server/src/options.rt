//! How a server runs.

/// Options of a server.
#[derive(Clone, Copy, Debug, PartialEq, Eq)]
pub struct Options {
    /// Milliseconds from one run of the timeouts to the next.
    pub tick_ms: u64,
    /// The log is compacted where fewer segments than this are free.
    pub compact_free: u64,
    /// The server ends after this many connections. `None`: it goes on.
    pub connections: Option<u32>,
    /// The server ends after the disk has failed.
    pub exit_on_fault: bool,
    /// Seconds from one status line to the next; 0: there is none.
    pub status_seconds: u64,
}
