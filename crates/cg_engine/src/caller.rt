//! A pass whose call waits for its answer.
ghost use Rattle.std.specs.Prelude.{◌≡◌, ◌+◌, ◌<◌, ◌≤◌};
ghost use Rattle.cg_desk.specs.Outgoings.{made_of, reply_of, ticket_of};
ghost use Rattle.cg_engine.specs.Noted.{IsNoted};
ghost use Rattle.cg_engine.specs.Units.{count_of};
ghost use Rattle.cg_engine.specs.Worth.{worth};
ghost use Rattle.cg_engine.specs.declared.engine_limits.TheConstants.{CALLS_MAX};

use crate::answer::Answer;
use crate::pass::SessionPass;
use crate::trail::Noted;
use crate::units::{Part, Units};
use cg_desk::Outgoing;
use crossbeam_channel::Receiver;
use std::alloc::Global;
use std::sync::ledger::Ledger;

/// A pass without its part, which is away with the call.
#[derive(Drop)]
pub struct Caller<L: Ledger> {
    pub number: u64,
    pub calls: u64,
    pub opening: u64,
    pub units: Units<L>,
    pub answers: Receiver<Answer<L>>,
    pub noted: Noted,
    ghost few: { count_of units ≤ calls },
    ghost counted: { calls < CALLS_MAX },
}

impl<L: Ledger> Caller<L> {
    ghost use Rattle.cg_engine.specs.Passes.{calls_of, noted_of, number_of, units_of};

    /// Ends a call that was refused before the desk met it. The call is counted.
    pub fn refused(self, part: Part<L>) -> SessionPass<L>
        ensures number { number_of result ≡ self.number }
        ensures calls { calls_of result ≡ self.calls + 1 }
        ensures units { units_of result ≡ count_of self.units }
        ensures noted { noted_of result ≡ self.noted }
    {
        let Caller {
            number,
            calls,
            opening,
            units,
            answers,
            noted,
        } = self;
        SessionPass {
            number,
            calls: calls + 1,
            opening,
            units,
            part,
            answers,
            noted,
        }
    }

    /// Ends a call with its answer.
    pub fn answered(self, alloc: Global, answer: Answer<L>) -> (SessionPass<L>, Outgoing)
        ensures number { number_of result.0 ≡ self.number }
        ensures calls { calls_of result.0 ≡ self.calls + 1 }
        ensures units { units_of result.0 ≡ count_of self.units + worth answer.kind (reply_of result.1) (made_of result.1) }
        ensures outgoing { result.1 ≡ answer.outgoing }
        ensures noted { IsNoted self.noted (ticket_of result.1) (reply_of result.1) (noted_of result.0) }
    {
        let Caller {
            number,
            calls,
            opening: _,
            mut units,
            answers,
            mut noted,
        } = self;
        let Answer {
            kind: _,
            outgoing,
            units: more,
            opening,
        } = answer;
        let part = units.take_over(more);
        noted.note(alloc, &outgoing);
        let pass = SessionPass {
            number,
            calls: calls + 1,
            opening,
            units,
            part,
            answers,
            noted,
        };
        (pass, outgoing)
    }
}
