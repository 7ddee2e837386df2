//! The world: a desk (`cg_desk`) and its store (`cg_store`), driven by a list of steps. For every list of steps, each
//! crash image has a prefix of the commands that the desk numbered, and that prefix has every command on which a
//! reply that left depends.
#![tactic(auto)]

mod client_steps;
mod compaction_steps;
mod fused_world;
mod laws;
mod running_trace;
mod schedule;
mod step;
mod step_effect;
mod step_fault;
mod storage_steps;
mod trace;
mod transit;
mod world;

pub use laws::{
    loadings_are_lawful, nothing_settled_is_lost, replies_leave_when_settled, runs_make_histories,
};
pub use schedule::run;
pub use step::{Step, StepNote, StopCause};
pub use trace::Trace;
pub use world::World;
