//! Steps of a run, and what is noted of each.
ghost use Rattle.std.specs.Prelude.{◌≡◌};
ghost use Rattle.cg_world.specs.Faults.{is_failure};

use cg_group::{Request, Ticket};
use cg_names::Moment;
use uuid::Uuid;

/// One call of the desk or of the store.
#[derive(Debug, Drop)]
pub enum Step {
    /// A request with its ticket and moment. A JOIN without a member id draws its id from the UUID.
    Request(Ticket, Request, Moment, Uuid),
    /// The session with this number is closed, at this moment.
    Gone(u64, Moment),
    /// Time-dependent rules run for this moment.
    Tick(Moment),
    /// The desk hands out the next batch.
    Take,
    /// The store appends the batch that was taken.
    Append,
    /// The desk settles the batch that was appended.
    Settle,
    /// The store begins a compaction.
    CompactStart,
    /// The store reads the next frame for its compaction.
    CompactRead,
    /// The store writes the next frame of the snapshot.
    CompactWrite,
    /// The store publishes the root that names the snapshot.
    CompactSwitch,
}

/// Outcome of a step that was taken.
#[derive(Clone, Copy, Debug, Drop, PartialEq, Eq)]
pub enum StepNote {
    /// The step was done. A step of a compaction ended its phase.
    Done,
    /// The compaction read or wrote a frame, and stays in its phase.
    More,
    /// There was nothing to take, to append or to settle.
    Nothing,
    /// No batch is taken, since the last one is not settled.
    InFlight,
    /// The store has no room for the batch, and the desk took it back.
    Full,
    /// The store has no room for its compaction, which has ended.
    NoRoom,
    /// The compaction is in another phase, and stays there.
    WrongPhase,
    /// The disk failed in an earlier step.
    Failed,
    /// The disk failed, and the desk failed with it.
    Device,
}

impl StepNote {
    /// Returns whether the disk failed in the step.
    pub fn is_failure(self) -> bool
        ensures { result ≡ is_failure self }
    {
        match self {
            StepNote::Device => true,
            _ => false,
        }
    }
}

/// Reason why a run ended before its last step.
#[derive(Clone, Copy, Debug, Drop, PartialEq, Eq)]
pub enum StopCause {
    /// An allocation failed for a step, which was not taken; a step of a compaction ended the compaction.
    Memory,
    /// The disk failed in a step.
    Device,
}
