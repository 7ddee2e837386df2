//! Errors of taking, giving back and settling a batch.
use thiserror::Error;

/// Error of a take.
#[derive(Clone, Copy, Debug, Drop, PartialEq, Eq, Error)]
pub enum TakeFault {
    /// An allocation failed; nothing has changed.
    #[error("out of memory")]
    Memory,
    /// The last batch is neither settled nor given back.
    #[error("a batch is in flight")]
    InFlight,
}

/// Error of a settle or of a give-back.
#[derive(Clone, Copy, Debug, Drop, PartialEq, Eq, Error)]
pub enum SettleFault {
    /// An allocation failed; nothing has changed.
    #[error("out of memory")]
    Memory,
    /// No batch is in flight.
    #[error("no batch is in flight")]
    NotInFlight,
    /// The batch has other commands than the one in flight, or the same commands under other numbers.
    #[error("it is another batch than the one in flight")]
    Foreign,
}
