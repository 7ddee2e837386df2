//! The loaded groups by their ids, with the session index of parked calls and the index of deadlines; recovery from the
//! durable state, expiry, and events that concern many groups.
#![tactic(auto)]

mod due_groups;
mod expiry;
mod group_change;
mod group_description;
mod group_list;
mod group_recovery;
mod group_table;
mod index_cleanup;
mod loaded_groups;
mod parked;
mod session_closed;
mod session_index;

pub use due_groups::{Due, Sweep, plan_due, plan_sweep};
pub use expiry::{Clock, RETENTION_MS, expires, fresh_until};
pub use group_change::GroupChange;
pub use group_description::description;
pub use group_list::listings;
pub use group_recovery::revived_all;
pub use group_table::GroupTable;
pub use index_cleanup::{settle, settle_request};
pub use parked::parked_calls;
pub use session_closed::end_session;
pub use session_index::{SessionIndex, forget, note};
