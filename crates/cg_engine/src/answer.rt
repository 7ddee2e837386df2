//! The answer to a call, on its way from the desk to the pass that waits for it.
ghost use Rattle.std.specs.Prelude.{◌≡◌};
ghost use Rattle.cg_desk.specs.Outgoings.{made_of, reply_of};
ghost use Rattle.cg_engine.specs.Units.{count_of};
ghost use Rattle.cg_engine.specs.Worth.{worth};

use crate::kind::CallKind;
use crate::units::Units;
use cg_desk::Outgoing;
use std::sync::ledger::Ledger;

/// The answer to a call of this kind, with the units that it is worth.
#[derive(Drop)]
pub struct Answer<L: Ledger> {
    pub kind: CallKind,
    pub outgoing: Outgoing,
    pub units: Units<L>,
    /// Number of commands that were loaded.
    pub opening: u64,
    ghost backed: { count_of units ≡ worth kind (reply_of outgoing) (made_of outgoing) },
}
