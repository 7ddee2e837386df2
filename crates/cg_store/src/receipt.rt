//! The receipt for a durable batch.
ghost use Rattle.std.specs.Prelude.{◌≡◌};

use crate::batch::Batch;
use crate::commands::Commands;

/// The receipt for a batch that was appended. Only a store creates it, once every crash image has the batch.
#[derive(Debug, Drop)]
pub struct Receipt {
    batch: Batch,
}

impl Receipt {
    ghost use Rattle.cg_store.specs.Receipts.{batch_of};

    /// Wraps an appended batch; `append` is the only caller.
    pub(crate) fn new(batch: Batch) -> Self
        ensures { batch_of result ≡ batch }
    {
        Receipt { batch }
    }

    /// Returns the appended batch.
    pub fn batch(&self) -> &Batch
        ensures { result.now ≡ batch_of self.now }
    {
        &self.batch
    }

    /// Returns the commands of the appended batch.
    pub fn into_commands(self) -> Commands
        ensures { result ≡ (batch_of self).commands }
    {
        self.batch.commands
    }
}
