//! The durable state of a coordinator: the effect of all commands so far. Contracts see finite maps; a command changes
//! these, and a snapshot is a list of commands that builds them from the empty state.
#![tactic(auto)]

mod durable;
mod either;
mod first_group;
mod group_record;
mod grouped;
mod law;
mod moves;
mod offsets;
mod owned_commands;
mod records;
mod renewals;
mod rows;
mod runs;
mod shelves;
mod snapshot;
mod snapshots;
mod stored_offset;

pub use durable::Durable;
pub use group_record::{GroupRecord, RecordedMembers};
pub use law::{any_runs_make_the_state_anew, snapshots_make_the_state_anew};
pub use offsets::Offsets;
pub use rows::Row;
pub use snapshot::Snapshot;
pub use stored_offset::StoredOffset;
