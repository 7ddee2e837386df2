//! The desk numbers the commands of the group machine (`cg_group`), hands them to the store (`cg_store`) in batches,
//! and holds each reply until all commands that were numbered before it are settled. Every pending request has a token,
//! which cannot be dropped and can be spent once.
#![tactic(auto)]

mod batch_builder;
mod batches;
mod desk;
mod fault;
mod flight;
mod laws;
mod number_reserve;
mod origin;
mod outgoing;
mod pending_replies;
mod permit;
mod queue;
mod refuse_all;
mod released_replies;
mod serving;
mod token;

pub use desk::{Counts, Desk};
pub use fault::{SettleFault, TakeFault};
pub use laws::{
    batches_are_longest, commands_are_counted_once, commands_make_records, desks_are_balanced,
    desks_have_distinct_members, desks_stay_balanced, events_keep_calls, replies_find_their_calls,
    tickets_are_kept, turns_keep_their_calls,
};
pub use number_reserve::{SPARE_NUMBERS, SPARE_NUMBERS_PER_GROUP};
pub use outgoing::Outgoing;
pub use permit::Permit;
pub use token::ReplyToken;
