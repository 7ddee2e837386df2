//! A desk and its store, after a load.
ghost use Rattle.std.specs.Prelude.{◌≡◌, IfErr, Some};
ghost use Rattle.cg_disk.specs.Fuse.{fuse_of};
ghost use Rattle.cg_disk.specs.Injected.{below_both, once_within};
ghost use Rattle.cg_store.specs.Store.{disk_of};
ghost use Rattle.cg_world.specs.Sights.{store_of};
ghost use Rattle.cg_sim.specs.Disk.{IsInjected, sectors_of};

use crate::compaction::{CompactStep, Compaction};
use crate::output_lines;
use crate::session_request::Call;
use crate::stage::Disk;
use crate::stop::Stop;
use cg_desk::Outgoing;
use cg_disk::MemDisk;
use cg_world::{Step, StepNote, World};
use std::alloc::Global;

/// A desk and its store, after a load.
pub struct Loaded {
    world: World<Disk>,
    sectors: u64,
    ghost sized: { sectors ≡ sectors_of (disk_of (store_of world)) },
}

impl Loaded {
    ghost use Rattle.cg_sim.specs.LoadedDisk.{loaded_disk};

    /// Takes a world over a disk with this many sectors.
    pub fn new(world: World<Disk>, sectors: u64) -> Self
        requires sized { sectors ≡ sectors_of (disk_of (store_of world)) }
        ensures { loaded_disk result ≡ disk_of (store_of world) }
    {
        Loaded { world, sectors }
    }

    /// Returns the number of sectors of the disk.
    pub fn sectors(&self) -> u64
        ensures { result ≡ sectors_of (loaded_disk self.now) }
    {
        self.sectors
    }

    // Takes the steps, and prints their trace.
    fn run(self, alloc: Global, steps: Vec<Step>, out: &mut Vec<u8>) -> (Self, Result<(), Stop>)
        ensures err { IfErr result.1 (λ stop. stop ≡ Stop.Memory) }
        ensures same_size { sectors_of (loaded_disk result.0) ≡ sectors_of (loaded_disk self) }
    {
        let Loaded { world, sectors } = self;
        let (world, trace) = cg_world::run(alloc, world, steps);
        (
            Loaded { world, sectors },
            output_lines::put_trace(&trace, out),
        )
    }

    /// Takes a step that is not a request, and prints its trace.
    pub fn take_step(self, alloc: Global, step: Step, out: &mut Vec<u8>) -> (Self, Result<(), Stop>)
        ensures err { IfErr result.1 (λ stop. stop ≡ Stop.Memory) }
        ensures same_size { sectors_of (loaded_disk result.0) ≡ sectors_of (loaded_disk self) }
    {
        match vec![in alloc; step] {
            Ok(steps) => self.run(alloc, steps, out),
            Err(_) => (self, Err(Stop::Memory)),
        }
    }

    /// Takes a batch, appends it and settles it, and prints the trace of the three steps. A refused step does not stop
    /// the next one.
    pub fn flush(self, alloc: Global, out: &mut Vec<u8>) -> (Self, Result<(), Stop>)
        ensures err { IfErr result.1 (λ stop. stop ≡ Stop.Memory) }
        ensures same_size { sectors_of (loaded_disk result.0) ≡ sectors_of (loaded_disk self) }
    {
        let Ok(steps) = vec![in alloc; Step::Take, Step::Append, Step::Settle] else {
            return (self, Err(Stop::Memory));
        };
        self.run(alloc, steps, out)
    }

    /// Takes a whole compaction, one step of it or its end, and prints what was refused.
    pub fn compact(
        self,
        alloc: Global,
        compaction: Compaction,
        out: &mut Vec<u8>,
    ) -> (Self, Result<(), Stop>)
        ensures err { IfErr result.1 (λ stop. stop ≡ Stop.Memory) }
        ensures same_size { sectors_of (loaded_disk result.0) ≡ sectors_of (loaded_disk self) }
    {
        match compaction {
            Compaction::Whole => self.compact_whole(alloc, out),
            Compaction::Step(step) => self.take_step(alloc, step.step(), out),
            Compaction::Abort => self.abort_compaction(out),
        }
    }

    // Takes a step of a compaction. Returns its note, or `None` if an allocation failed for it.
    fn take_noted(
        self,
        alloc: Global,
        step: CompactStep,
        out: &mut Vec<u8>,
    ) -> (Self, Result<Option<StepNote>, Stop>)
        ensures err { IfErr result.1 (λ stop. stop ≡ Stop.Memory) }
        ensures same_size { sectors_of (loaded_disk result.0) ≡ sectors_of (loaded_disk self) }
    {
        let Ok(steps) = vec![in alloc; step.step()] else {
            return (self, Err(Stop::Memory));
        };
        let Loaded { world, sectors } = self;
        let (world, trace) = cg_world::run(alloc, world, steps);
        let note = trace.notes.as_slice().last().copied();
        let loaded = Loaded { world, sectors };
        match output_lines::put_trace(&trace, out) {
            Ok(()) => (loaded, Ok(note)),
            Err(stop) => (loaded, Err(stop)),
        }
    }

    // Repeats a step of a compaction as long as it says that there is more. Returns whether it is done, and was not refused.
    fn end_phase(
        self,
        alloc: Global,
        step: CompactStep,
        out: &mut Vec<u8>,
    ) -> (Self, Result<bool, Stop>)
        ensures err { IfErr result.1 (λ stop. stop ≡ Stop.Memory) }
        ensures same_size { sectors_of (loaded_disk result.0) ≡ sectors_of (loaded_disk self) }
    {
        let mut loaded = self;
        for _ in 0..u64::MAX {
            let (next, taken) = loaded.take_noted(alloc, step, out);
            loaded = next;
            match taken {
                Ok(Some(StepNote::More)) => {}
                Ok(note) => return (loaded, Ok(note == Some(StepNote::Done))),
                Err(stop) => return (loaded, Err(stop)),
            }
        }
        (loaded, Ok(false))
    }

    // Takes the steps of a compaction up to the first that is refused.
    fn compact_whole(self, alloc: Global, out: &mut Vec<u8>) -> (Self, Result<(), Stop>)
        ensures err { IfErr result.1 (λ stop. stop ≡ Stop.Memory) }
        ensures same_size { sectors_of (loaded_disk result.0) ≡ sectors_of (loaded_disk self) }
    {
        let mut loaded = self;
        for step in CompactStep::ALL {
            let (next, ended) = loaded.end_phase(alloc, step, out);
            loaded = next;
            match ended {
                Ok(true) => {}
                Ok(false) => return (loaded, Ok(())),
                Err(stop) => return (loaded, Err(stop)),
            }
        }
        (loaded, Ok(()))
    }

    // Gives the compaction up, or prints why that was refused.
    fn abort_compaction(mut self, out: &mut Vec<u8>) -> (Self, Result<(), Stop>)
        ensures err { IfErr result.1 (λ stop. stop ≡ Stop.Memory) }
        ensures same_size { sectors_of (loaded_disk result.0) ≡ sectors_of (loaded_disk self) }
    {
        let aborted = self.world.compact_abort();
        (self, output_lines::put_abort(aborted, out))
    }

    /// Serves a request, or refuses it if an allocation fails.
    pub fn ask(self, alloc: Global, call: Call, out: &mut Vec<u8>) -> (Self, Result<(), Stop>)
        ensures err { IfErr result.1 (λ stop. stop ≡ Stop.Memory) }
        ensures same_size { sectors_of (loaded_disk result.0) ≡ sectors_of (loaded_disk self) }
    {
        let Call {
            ticket,
            request,
            now,
            fresh,
        } = call;
        match vec![in alloc; Step::Request(ticket, request, now, fresh)] {
            Ok(steps) => self.run(alloc, steps, out),
            Err(_) => (self, output_lines::put_refusal(ticket, out)),
        }
    }

    /// Sets how many calls of the disk pass from now on before each fails.
    pub fn set_fuse(&mut self, calls: u64)
        ensures { IsInjected (Some calls) (once_within (loaded_disk self.old)) (loaded_disk self.old) (loaded_disk self.new) }
    {
        self.world.set_fuse(Some(calls));
    }

    /// Sets how many of the calls that the fuse passes pass from now on before one fails.
    pub fn set_once(&mut self, calls: u64)
        ensures { IsInjected (fuse_of (loaded_disk self.old)) (Some calls) (loaded_disk self.old) (loaded_disk self.new) }
    {
        self.world.set_once(Some(calls));
    }

    /// Refuses every pending request. Returns the refusals, and the disk without its fault injections.
    pub fn close(self) -> (Vec<Outgoing>, MemDisk)
        ensures disk { result.1 ≡ below_both (loaded_disk self) }
    {
        let Loaded {
            world,
            sectors: _sectors,
        } = self;
        let (refused, disk) = world.close();
        (refused, disk.into_inner().into_inner())
    }
}
