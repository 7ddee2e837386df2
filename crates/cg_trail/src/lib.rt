//! The record of what a coordinator was asked and what it replied, and the test of it: the machine runs again over the
//! recorded events, from the recorded state, and must reply the same. Uses the machine of `cg_group` and the durable
//! state of `cg_fold`.
#![tactic(auto)]

mod answers;
mod replay;
mod request_copies;
mod same;
mod same_command;
mod same_reply;
mod trail;
mod trail_entry;

pub use replay::begins_with;
pub use request_copies::copied_request;
pub use trail::Trail;
pub use trail_entry::{Replies, RequestEntry, TickEntry, TrailEntry};
