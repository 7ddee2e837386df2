//! Batches of commands.
ghost use Rattle.std.specs.Prelude.{◌≡◌, MatchResult};
ghost use Rattle.cg_store.specs.Batches.{IsBatch};

use crate::commands::Commands;

/// Commands that are appended together: at least one, and at most as many as fit one frame.
#[derive(Debug, Drop)]
pub struct Batch {
    /// Number of the first command; the others have the numbers after it.
    pub first: u64,
    pub commands: Commands,
    ghost whole: { IsBatch commands },
}

impl Batch {
    /// Builds a batch. Returns the commands unchanged if there are none. No allocation.
    pub fn new(first: u64, commands: Commands) -> Result<Self, Commands>
        ensures { MatchResult result
            (λ batch. (batch.first ≡ first) × (batch.commands ≡ commands))
            (λ back. (¬ IsBatch commands) × (back ≡ commands)) }
    {
        if commands.len() > 0 {
            Ok(Batch { first, commands })
        } else {
            Err(commands)
        }
    }
}
