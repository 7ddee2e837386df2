//! What a rule needs to know of the request beside its fields.
use cg_names::Moment;
use cg_request::Ticket;
use std::alloc::Global;

/// The context of a request: its ticket, the moment at which it came, and the allocator for what its processing makes.
#[derive(Clone, Copy)]
pub struct RequestContext {
    pub alloc: Global,
    pub now: Moment,
    pub ticket: Ticket,
}
