//! The limit of a line.

/// Greatest length of a request line that is served, in bytes without its line feed.
pub const LINE_BYTES_MAX: usize = 1_048_576;
