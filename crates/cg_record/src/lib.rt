//! The commands that change the durable state of a coordinator, and their encoding (docs/FORMATS.md). A command is
//! lawful by its type: its numbers are in range, and its lists have no duplicates and fit their limits.
#![tactic(auto)]

mod assigned;
mod command;
mod command_check;
mod command_decoder;
mod commit;
mod committed;
mod completed_generation;
mod counts;
mod decoder;
mod deleted;
mod distinct;
mod dropped;
mod emptied;
mod encoder;
mod entries;
mod entry;
mod expired;
mod fault;
mod fields;
mod format;
mod group_check;
mod group_decoder;
mod group_fields;
mod member_encoder;
mod member_record;
mod metadata;
mod millis;
mod moment_field;
mod offset;
mod opaque;
mod owned_fields;
mod partition;
mod partitions;
mod payload;
mod profile;
mod removal;
mod removed;
mod replaced;
mod roster;
mod sizes;
mod topic_partition;

pub use assigned::Assigned;
pub use command::Command;
pub use committed::Committed;
pub use completed_generation::CompletedGeneration;
pub use decoder::Decoder;
pub use deleted::Deleted;
pub use distinct::{Distinct, Keyed};
pub use dropped::Dropped;
pub use emptied::Emptied;
pub use encoder::{append_command, append_version, write};
pub use entries::{COMMIT_METADATA_BYTES_MAX, ENTRIES_MAX, Entries, SHORT_COUNT_MAX};
pub use entry::Entry;
pub use expired::Expired;
pub use fault::RecordFault;
pub use format::format_has_these_bytes;
pub use member_record::MemberRecord;
pub use metadata::{METADATA_BYTES_MAX, METADATA_ROOM, Metadata};
pub use millis::{
    Millis, REBALANCE_MS_MAX, RebalanceTimeout, SESSION_MS_MAX, SESSION_MS_MIN, SessionTimeout,
};
pub use offset::{OFFSET_MAX, Offset};
pub use opaque::{ASSIGNMENT_BYTES_MAX, Assignment, Opaque, SUBSCRIPTION_BYTES_MAX, Subscription};
pub use partition::{PARTITION_MAX, Partition};
pub use partitions::Partitions;
pub use payload::{payload_is_cut_short, read, spelling_of};
pub use replaced::{Replaced, StaticMember};
pub use roster::{MEMBERS_MAX, Roster};
pub use sizes::{COMMAND_BYTES_MAX, size};
pub use topic_partition::TopicPartition;
