//! The trace of a run.
ghost use Rattle.std.specs.Prelude.{◌≡◌, []};

use crate::step::{StepNote, StopCause};
use cg_desk::Outgoing;
use cg_group::Listed;
use std::alloc::Global;

/// Replies that left in each step that was taken, and the outcome of each, in their order.
#[derive(Debug, Drop)]
pub struct Trace {
    /// Replies that left, step by step.
    pub out: Listed<Listed<Outgoing>>,
    pub notes: Listed<StepNote>,
    /// Refusal with -1 of the request for which an allocation failed, if there is one.
    pub last: Option<Outgoing>,
    /// Reason why the run ended before its last step, or `None` if it took every step.
    pub stopped: Option<StopCause>,
}

impl Trace {
    /// Creates the trace of a run that took no step. Does not allocate.
    pub(crate) fn of_none(alloc: Global, last: Option<Outgoing>, stopped: Option<StopCause>) -> Self
        ensures { result ≡ record { out = []; notes = []; last = last; stopped = stopped } }
    {
        Trace {
            out: Listed::new(alloc),
            notes: Listed::new(alloc),
            last,
            stopped,
        }
    }
}
