//! The state of an event within one group.
use crate::few::Few;
use crate::group::Group;
use crate::reply::Reply;
use cg_record::Command;
use cg_request::Ticket;

/// What an event has done so far in one group: the changed group, and the replies and commands in their order.
#[derive(Debug, Drop)]
pub struct Turn {
    pub group: Group,
    pub replies: Few<(Ticket, Reply)>,
    pub commands: Few<Command>,
}
