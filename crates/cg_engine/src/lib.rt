//! The engine: a desk (`cg_desk`) and a store (`cg_store`) behind two locks, for any number of threads. Each thread keeps the
//! requests of the calls that it began in a list of its own (`Requests`), until it hands them to the desk. An answer that
//! acknowledges a write carries a unit of a ledger. Only an append makes units, one for each stored command, so there are never
//! more acknowledgements than stored commands.
#![tactic(auto)]

mod answer;
mod booked;
mod call;
mod caller;
mod closed;
mod delivery;
mod desk_side;
mod engine;
mod engine_limits;
mod fault;
mod finish;
mod flush_round;
mod hand_over;
mod kind;
mod pass;
mod pass_state;
mod pending_call;
mod requests;
mod store_load;
mod store_side;
mod taken;
mod trail;
mod units;

pub use closed::Closed;
pub use engine::Engine;
pub use engine_limits::{CALLS_MAX, PARTS, PASSES_MAX};
pub use fault::{FinishFault, LoadFault, PassFault, RoundEnd, RoundFault, Skip};
pub use kind::CallKind;
pub use pass::SessionPass;
pub use pending_call::{BegunCall, PendingCall};
pub use requests::Requests;
pub use taken::{Taken, TakenBatch};
