//! Errors of a transport.
use thiserror::Error;

/// Error of one call on a transport. After it, no byte of that call was read or written.
#[derive(Clone, Copy, Debug, PartialEq, Eq, Error)]
pub enum TransportFault {
    /// The call was interrupted, and may be made again.
    #[error("a call was interrupted")]
    Interrupted,
    /// The call failed.
    #[error("a call failed")]
    Failed,
}
