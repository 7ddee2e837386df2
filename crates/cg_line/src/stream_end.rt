//! How serving a stream of lines ends.
use thiserror::Error;

/// End of a stream that could be read and answered.
#[derive(Clone, Copy, Debug, PartialEq, Eq)]
pub enum RunEnd {
    /// The stream ended. A last line without its line feed was dropped.
    End,
    /// A line was too long; it was refused, and nothing after it was served.
    TooLong,
}

/// Error that ends a stream early.
#[derive(Clone, Copy, Debug, PartialEq, Eq, Error)]
pub enum RunFault {
    /// An allocation failed at the start. Later, a failed allocation refuses one line only.
    #[error("no memory to serve lines")]
    Memory,
    /// A read failed, or the stream did not end within `READS_MAX` reads.
    #[error("a read failed")]
    Read,
    /// A write failed.
    #[error("a write failed")]
    Write,
}
