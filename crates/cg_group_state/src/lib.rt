//! A group and its members: ids, the member check, the vote, parked calls; and the replies and effects of events.
//! `cg_group_rules` says what each request does to a group.
#![tactic(auto)]

mod assignments;
mod boxed;
mod calls;
mod checked_join;
mod effects;
mod few;
mod group;
mod member;
mod member_check;
mod member_id;
mod member_map;
mod members;
mod name_copy;
mod parked_replies;
mod protocol_vote;
mod reply;
mod shared_protocols;
mod turn;
mod who_stays;

pub use assignments::handed_out;
pub use boxed::Boxed;
pub use calls::{Calls, is_waiting};
pub use checked_join::CheckedJoin;
pub use effects::Effects;
pub use few::{Few, Items};
pub use group::{Group, Phase};
pub use member::{Member, Waits};
pub use member_check::{checked_member, fenced_caller};
pub use member_id::{drawn, is_drawn_held};
pub use members::{Members, Seat, has_instance};
pub use name_copy::copied_name;
pub use parked_replies::{Refusing, Telling, answer_all, answer_one, answer_staying};
pub use protocol_vote::{is_common, select_protocol};
pub use reply::{
    Described, DescribedMember, FetchedPartition, Joined, JoinedMember, Listing, Reply,
};
pub use shared_protocols::sharing;
pub use turn::Turn;
pub use who_stays::Staying;
