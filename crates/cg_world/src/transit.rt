//! The batch between the desk and the store.
ghost use Rattle.std.specs.Prelude.{◌≡◌};

use cg_store::{Batch, Receipt};
use std::mem;

/// Batch on its way from the desk to the store and back.
#[derive(Debug, Drop)]
pub enum Transit {
    Empty,
    /// The desk handed it out.
    Taken(Batch),
    /// The store appended it.
    Appended(Receipt),
}

impl Transit {
    ghost use Rattle.cg_world.specs.Transits.{batch_in, receipt_in, without_batch, without_receipt};

    /// Removes the batch that waits for the store.
    pub fn take_batch(&mut self) -> Option<Batch>
        ensures value { result ≡ batch_in self.old }
        ensures rest { self.new ≡ without_batch self.old }
    {
        match mem::replace(self, Transit::Empty) {
            Transit::Taken(batch) => Some(batch),
            other => {
                *self = other;
                None
            }
        }
    }

    /// Removes the receipt that waits for the desk.
    pub fn take_receipt(&mut self) -> Option<Receipt>
        ensures value { result ≡ receipt_in self.old }
        ensures rest { self.new ≡ without_receipt self.old }
    {
        match mem::replace(self, Transit::Empty) {
            Transit::Appended(receipt) => Some(receipt),
            other => {
                *self = other;
                None
            }
        }
    }
}
