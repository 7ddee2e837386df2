//! A trace during its run.
ghost use Rattle.std.specs.Prelude.{◌≡◌, ◌≤◌, ◌<◌, ◌+◌, ◌++◌, ◌∷◌, [], IfOk, vec_len, vec_capacity};
ghost use Rattle.cg_world.specs.Faults.{is_failure};

use crate::step::{StepNote, StopCause};
use crate::step_effect::Taken;
use crate::trace::Trace;
use cg_desk::Outgoing;
use cg_group::Listed;
use std::alloc::{AllocError, Global};

/// Lists of a trace, with room for every step of a run.
#[derive(Debug, Drop)]
pub struct Recording {
    pub out: Vec<Listed<Outgoing>>,
    pub notes: Vec<StepNote>,
}

impl Recording {
    /// Reserves room for the trace of a run of this many steps.
    pub fn with_room(alloc: Global, steps: usize) -> Result<Self, AllocError>
        ensures out { IfOk result (λ r. (r.out.items ≡ []) × (vec_len r.out + steps ≤ vec_capacity r.out)) }
        ensures notes { IfOk result (λ r. (r.notes.items ≡ []) × (vec_len r.notes + steps ≤ vec_capacity r.notes)) }
    {
        let out = Vec::with_capacity(alloc, steps)?;
        let notes = Vec::with_capacity(alloc, steps)?;
        Ok(Recording { out, notes })
    }

    /// Appends a step. Returns whether the disk failed in it.
    pub fn put(&mut self, taken: Taken) -> bool
        requires out { vec_len self.old.out < vec_capacity self.old.out }
        requires notes { vec_len self.old.notes < vec_capacity self.old.notes }
        ensures failed { result ≡ is_failure taken.note }
        ensures out { self.new.out.items ≡ self.old.out.items ++ taken.out ∷ [] }
        ensures notes { self.new.notes.items ≡ self.old.notes.items ++ taken.note ∷ [] }
        ensures room { (vec_len self.new.out ≡ vec_len self.old.out + 1) × (vec_capacity self.new.out ≡ vec_capacity self.old.out) }
        ensures room_for_notes { (vec_len self.new.notes ≡ vec_len self.old.notes + 1) × (vec_capacity self.new.notes ≡ vec_capacity self.old.notes) }
    {
        let Taken { note, out } = taken;
        let failed = note.is_failure();
        self.notes.push_reserved(note);
        self.out.push_reserved(out);
        failed
    }

    /// Returns the trace of a run that ended with this refusal and cause.
    pub fn ended(self, last: Option<Outgoing>, stopped: Option<StopCause>) -> Trace
        ensures { result ≡ record { out = self.out.items; notes = self.notes.items; last = last; stopped = stopped } }
    {
        Trace {
            out: Listed::from_vec(self.out),
            notes: Listed::from_vec(self.notes),
            last,
            stopped,
        }
    }
}
