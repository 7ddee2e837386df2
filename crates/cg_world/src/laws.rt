//! Laws of worlds. They relate definitions of `specs/`, so the bodies are empty; the contract of `run` carries them
//! over to every world.
ghost use Rattle.cg_world.specs.Lives.{NothingSettledIsLost};
ghost use Rattle.cg_world.specs.Opening.{LoadingsAreLawful};
ghost use Rattle.cg_world.specs.Replying.{RepliesLeaveWhenSettled, RunsMakeHistories};

use crate::world::World;
use cg_disk::SectorDisk;

/// In every run of every world, whatever its disk, up to a failure of the disk: each reply leaves in the first step after
/// which its need is settled, and replies leave in the order in which they were made.
pub fn replies_leave_when_settled()
    ensures { RepliesLeaveWhenSettled }
{}

/// The commands of a run are those that its events make. So are, as long as the desk serves, the machine and the number of
/// commands after it.
pub fn runs_make_histories()
    ensures { RunsMakeHistories }
{}

/// Lawful commands make lawful records, none of generation 0, which is what the laws of groups and of the desk require of
/// recovery. An opening finds such commands whatever the disk gives.
pub fn loadings_are_lawful()
    ensures { LoadingsAreLawful }
{}

/// Over any number of runs and lives of a disk (open, runs, a crash at any moment, open again): within a life the number of
/// settled commands never falls from run to run, and every life loads all commands on which a reply rests that left in a
/// complete run of an earlier life.
pub fn nothing_settled_is_lost<D: SectorDisk>(_world: &World<D>)
    ensures { NothingSettledIsLost D.is_honest D.history _world.now }
{}
