//! A request of a session.
use cg_group::{Request, Ticket};
use cg_names::Moment;
use uuid::Uuid;

/// Request of a session, with its moment. A JOIN without a member id draws its id from the UUID.
#[derive(Drop)]
pub struct Call {
    pub ticket: Ticket,
    pub request: Request,
    pub now: Moment,
    pub fresh: Uuid,
}
