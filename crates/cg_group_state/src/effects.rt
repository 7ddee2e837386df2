//! The effects of one event.
ghost use Rattle.std.specs.Prelude.{◌≡◌, []};

use crate::few::Few;
use crate::reply::Reply;
use cg_record::Command;
use cg_request::Ticket;
use std::alloc::Global;

/// The commands and the replies of an event, each in its order.
#[derive(Debug, Drop)]
pub struct Effects {
    pub commands: Few<Command>,
    pub replies: Few<(Ticket, Reply)>,
}

impl Effects {
    /// Creates the effects of an event that has not done anything yet, without an allocation.
    pub fn new(alloc: Global) -> Self
        ensures { result ≡ record { commands = []; replies = [] } }
    {
        Effects {
            commands: Few::new(alloc),
            replies: Few::new(alloc),
        }
    }
}
