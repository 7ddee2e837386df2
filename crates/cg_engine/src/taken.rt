//! What a flush round takes from the desk.
use crate::fault::RoundEnd;
use crate::units::Part;
use cg_store::Batch;
use std::sync::ledger::Ledger;

/// A batch that a flush round took from the desk, and the part on which its units come back. It cannot be dropped:
/// `Engine::store_batch` takes it, and until then the desk gives out no other.
pub struct TakenBatch<L: Ledger> {
    pub(crate) batch: Batch,
    pub(crate) part: Part<L>,
}

/// What a flush round took from the desk.
pub enum Taken<L: Ledger> {
    /// A batch for the store.
    Batch(TakenBatch<L>),
    /// Nothing: the round is over.
    End(RoundEnd),
}
