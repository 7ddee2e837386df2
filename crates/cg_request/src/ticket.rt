//! The ticket of a call.
/// The identity of a call: its session, and its number in that session. The caller of the machine picks both.
#[derive(Clone, Copy, Debug, PartialEq, Eq)]
pub struct Ticket {
    pub session: u64,
    pub number: u64,
}
