//! What an engine keeps for the test of a trail, where one is kept.
mod appended;
mod noted;
mod recorder;
mod reply_copies;

pub use appended::{Appended, snapshots};
pub use noted::Noted;
pub use recorder::{Begun, Recorder};
