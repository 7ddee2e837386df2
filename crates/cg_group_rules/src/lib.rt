//! What each request does to one group, in a file of its name. What several of them share (the rebalance, the reply to a JOIN, a
//! static member) has a file of its own. A function changes the group in place and returns the replies and commands, or returns
//! what is to change. `specs/` has the rules in the order of the protocol guide.
#![tactic(auto)]

mod group_limit;
mod heartbeat;
mod join;
mod join_reply;
mod join_way;
mod leave;
mod member_join;
mod offset_commit;
mod offset_fetch;
mod rebalance;
mod request_context;
mod static_member;
mod sync;
mod tick;
mod tick_deadline;

pub use group_limit::GROUPS_MAX;
pub use heartbeat::beat_in;
pub use join::{join_placed, join_unheld, unheld_refusal};
pub use join_reply::subscription_for;
pub use join_way::{JoinWay, way_of_join};
pub use leave::{departing, leave_in, leave_refusal, remove_member};
pub use member_join::{new_group, new_member, update_member_and_rebalance};
pub use offset_commit::{commit_at, hear_committer, kept, new_group_commit_refusal};
pub use offset_fetch::fetched;
pub use request_context::RequestContext;
pub use sync::{SyncCase, case_of, distribute_in, syncer};
pub use tick::{TickPlan, carry_out_tick, plan_tick};
pub use tick_deadline::{next_deadline, tick_touches};
