//! The pass of a session: the right to call the engine, and the units of the answers so far.
ghost use Rattle.std.specs.Prelude.{◌≡◌, ◌+◌, ◌<◌, ◌≤◌, ◌↔◌, IsTrue};
ghost use Rattle.cg_engine.specs.Units.{count_of};
ghost use Rattle.cg_engine.specs.declared.engine_limits.TheConstants.{CALLS_MAX};

use crate::answer::Answer;
use crate::caller::Caller;
use crate::engine_limits::CALLS_MAX;
use crate::trail::Noted;
use crate::units::{Part, Units};
use cg_group::Ticket;
use crossbeam_channel::Receiver;
use std::sync::ledger::Ledger;

/// The pass of one session of an engine. A call takes it and gives it back, so a session has one call at a time.
#[derive(Drop)]
pub struct SessionPass<L: Ledger> {
    pub(crate) number: u64,
    pub(crate) calls: u64,
    /// Number of commands that were loaded, as the last answer said.
    pub(crate) opening: u64,
    pub(crate) units: Units<L>,
    pub(crate) part: Part<L>,
    pub(crate) answers: Receiver<Answer<L>>,
    /// The answers so far, for the test of a trail.
    pub(crate) noted: Noted,
    ghost few: { count_of units ≤ calls },
    ghost counted: { calls ≤ CALLS_MAX },
}

impl<L: Ledger> SessionPass<L> {
    ghost use Rattle.cg_engine.specs.Passes.{calls_of, next_ticket, noted_of, number_of, opening_of, units_of};

    // Creates a pass that has made no call.
    pub(crate) fn new(
        number: u64,
        units: Units<L>,
        part: Part<L>,
        answers: Receiver<Answer<L>>,
        noted: Noted,
    ) -> Self
        requires { count_of units ≡ 0 }
        ensures number { number_of result ≡ number }
        ensures calls { calls_of result ≡ 0 }
        ensures units { units_of result ≡ 0 }
    {
        SessionPass {
            number,
            calls: 0,
            opening: 0,
            units,
            part,
            answers,
            noted,
        }
    }

    /// Returns the number of the pass: the session in the tickets of its calls.
    pub fn number(&self) -> u64
        ensures { result ≡ number_of self.now }
    {
        self.number
    }

    /// Returns how many calls were made.
    pub fn calls(&self) -> u64
        ensures { result ≡ calls_of self.now }
    {
        self.calls
    }

    /// Returns the units of the pass: how many settled commands its answers are worth.
    pub fn units(&self) -> u64
        ensures { result ≡ units_of self.now }
    {
        self.units.count()
    }

    /// Returns the ticket of the next call.
    pub fn next_ticket(&self) -> Ticket
        ensures { result ≡ next_ticket self.now }
    {
        Ticket {
            session: self.number,
            number: self.calls + 1,
        }
    }

    /// Returns whether this many stored commands back the units of the pass.
    pub(crate) fn is_backed_by(&self, front: u64) -> bool
        ensures { IsTrue result ↔ (opening_of self.now + units_of self.now ≤ front) }
    {
        front >= self.opening && front - self.opening >= self.units.count()
    }

    // Begins a call: the part goes with it.
    pub(crate) fn begin(self) -> (Caller<L>, Part<L>)
        requires { calls_of self < CALLS_MAX }
        ensures number { result.0.number ≡ number_of self }
        ensures calls { result.0.calls ≡ calls_of self }
        ensures units { count_of result.0.units ≡ units_of self }
        ensures noted { result.0.noted ≡ noted_of self }
    {
        let SessionPass {
            number,
            calls,
            opening,
            units,
            part,
            answers,
            noted,
        } = self;
        let caller = Caller {
            number,
            calls,
            opening,
            units,
            answers,
            noted,
        };
        (caller, part)
    }
}
