//! The state of the batch that was taken last.
ghost use Rattle.std.specs.Prelude.{◌≡◌};

use cg_store::{Batch, Commands};

/// A batch that was given back, and the clone of its commands that recognises it once it is in flight again.
#[derive(Debug, Drop)]
pub struct ReturnedBatch {
    pub batch: Batch,
    pub commands: Commands,
    ghost same: { commands ≡ batch.commands },
}

/// State of the batch that was taken last.
#[derive(Debug, Drop)]
pub enum Flight {
    /// No batch is unsettled.
    Idle,
    /// The batch is in flight. Holds a clone of its commands, which recognises the batch when it comes back.
    Away(Commands),
    /// The batch was given back.
    Returned(ReturnedBatch),
}
