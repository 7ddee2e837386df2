//! Running a list of steps.
ghost use Rattle.std.specs.Prelude.{◌≡◌};
ghost use Rattle.cg_disk.specs.Disk.{Counts};
ghost use Rattle.cg_store.specs.Store.{disk_of};
ghost use Rattle.cg_world.specs.Faults.{stopped_by_device};
ghost use Rattle.cg_world.specs.Running.{IsRun, refusal_of_first};
ghost use Rattle.cg_world.specs.Sights.{opening_of, store_of};

use crate::running_trace::Recording;
use crate::step::{Step, StopCause};
use crate::trace::Trace;
use crate::world::World;
use cg_desk::{Outgoing, ReplyToken};
use cg_disk::SectorDisk;
use cg_names::Code;
use std::alloc::Global;

// Returns the refusal of the first step, if it is a request that runs out of memory.
fn refused_first(steps: &[Step]) -> Option<Outgoing>
    ensures { result ≡ refusal_of_first steps.now }
{
    match steps {
        [Step::Request(ticket, _, _, _), ..] => {
            Some(ReplyToken::new(*ticket).refuse(Code::UnknownServerError))
        }
        _ => None,
    }
}

/// Takes the steps in their order, and ends at the first for which an allocation fails or in which the disk fails. A
/// step for which an allocation fails changes nothing, except that a step of a compaction ends the compaction; a batch
/// or a receipt stays in transit for the next step of its kind. Reserves room for the trace before the first step.
/// Costs the calls of the desk and of the store.
pub fn run<D: SectorDisk>(alloc: Global, world: World<D>, steps: Vec<Step>) -> (World<D>, Trace)
    ensures run { IsRun D.is_honest D.history steps.items world result.0 result.1 }
    ensures device { Counts (D.failures (disk_of (store_of world))) (D.failures (disk_of (store_of result.0))) (stopped_by_device result.1.stopped) }
    ensures same_size { D.size (disk_of (store_of result.0)) ≡ D.size (disk_of (store_of world)) }
    ensures same_honesty { D.is_honest (disk_of (store_of result.0)) ≡ D.is_honest (disk_of (store_of world)) }
    ensures opening { opening_of result.0 ≡ opening_of world }
{
    if steps.is_empty() {
        return (world, Trace::of_none(alloc, None, None));
    }
    let mut recording = match Recording::with_room(alloc, steps.len()) {
        Ok(recording) => recording,
        Err(_) => {
            let last = refused_first(steps.as_slice());
            let stopped = Some(StopCause::Memory);
            return (world, Trace::of_none(alloc, last, stopped));
        }
    };
    let mut world = world;
    for step in steps {
        match world.take_step(step) {
            Ok(taken) => {
                if recording.put(taken) {
                    return (world, recording.ended(None, Some(StopCause::Device)));
                }
            }
            Err(wanting) => {
                return (
                    world,
                    recording.ended(wanting.last, Some(StopCause::Memory)),
                );
            }
        }
    }
    (world, recording.ended(None, None))
}
