//! The small values that every layer uses: names of groups, members, instances, clients, topics and protocols; moments,
//! generations and error codes. A name is checked once, when it is parsed, and every value of its type is lawful.
#![tactic(auto)]

mod code;
mod fault;
mod generation;
mod moment;
mod name;
mod short_name;
mod small_bytes;
#[cfg(test)]
mod tests;

pub use code::Code;
pub use fault::NameFault;
pub use generation::{GENERATION_MAX, Generation};
pub use moment::Moment;
pub use name::{
    GroupId, InstanceId, MEMBER_ID_BYTES_MAX, MemberId, NAME_BYTES_MAX, Name, ProtocolName,
};
pub use short_name::{ClientId, SHORT_NAME_ROOM, ShortName, Topic};
pub use small_bytes::SmallBytes;
