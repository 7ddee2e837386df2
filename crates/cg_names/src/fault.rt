//! The faults of a name.
use thiserror::Error;

/// The reason why a text is not a name. The first fault in this order is reported, except that `Memory` comes last.
#[derive(Clone, Copy, Debug, PartialEq, Eq, Error)]
pub enum NameFault {
    /// An allocation failed, and the text is a name.
    #[error("no memory for a name")]
    Memory,
    /// The text is empty.
    #[error("a name is empty")]
    Empty,
    /// The text is longer than a name of its type may be.
    #[error("a name is too long")]
    TooLong,
    /// A byte is not an ASCII letter, a digit, `.`, `_` or `-`.
    #[error("a name has a byte that names do not have")]
    BadByte,
    /// The text is `-`, which means that no name is given.
    #[error("a dash alone stands for no name")]
    Reserved,
}
