//! The lines of a compaction.
ghost use Rattle.std.specs.Prelude.{◌≡◌};

use cg_world::Step;

/// What a `compact` line asks for.
#[derive(Clone, Copy, Debug, Drop, PartialEq, Eq)]
pub enum Compaction {
    /// `compact`: a whole compaction, up to the first step that is refused.
    Whole,
    /// `compact start`, `read`, `write` or `switch`: one step.
    Step(CompactStep),
    /// `compact abort`: the compaction is given up.
    Abort,
}

/// A step of a compaction.
#[derive(Clone, Copy, Debug, Drop, PartialEq, Eq)]
pub enum CompactStep {
    Start,
    Read,
    Write,
    Switch,
}

impl CompactStep {
    /// Steps of a compaction in their order; a read and a write are repeated until they return Done.
    pub const ALL: [CompactStep; 4] = [
        CompactStep::Start,
        CompactStep::Read,
        CompactStep::Write,
        CompactStep::Switch,
    ];

    ghost use Rattle.cg_sim.specs.Compacting.{step_of};

    /// Returns the step of a world.
    pub fn step(self) -> Step
        ensures { result ≡ step_of self }
    {
        match self {
            CompactStep::Start => Step::CompactStart,
            CompactStep::Read => Step::CompactRead,
            CompactStep::Write => Step::CompactWrite,
            CompactStep::Switch => Step::CompactSwitch,
        }
    }
}
