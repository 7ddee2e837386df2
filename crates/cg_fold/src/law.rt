//! The law of snapshots.
ghost use Rattle.std.specs.Prelude.{◌≡◌, ℕ, List};
ghost use Rattle.cg_fold.specs.Durable.{State, folded};
ghost use Rattle.cg_fold.specs.Key.{KeptRow};
ghost use Rattle.cg_fold.specs.Snapshot.{CutsRuns, snapshot_by, snapshot_of};

/// States that the commands of a snapshot build the state that it was taken of.
#[tactic(auto, using(crate::proofs::Rebuilding::folded_snapshot))]
pub fn snapshots_make_the_state_anew()
    ensures { (state : State) → folded (snapshot_of state) ≡ state }
{}

/// States that they do so by any rule for the runs into which offsets are cut.
#[tactic(auto, using(crate::proofs::Rebuilding::folded_by))]
pub fn any_runs_make_the_state_anew()
    ensures { (run : List KeptRow → ℕ) → CutsRuns run → (state : State) → folded (snapshot_by run state) ≡ state }
{}
