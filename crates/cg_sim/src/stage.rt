//! The state of a script: its disk, with or without something loaded.
ghost use Rattle.std.specs.Prelude.{◌≡◌, ◌⊎◌, ◌<◌, ◌++◌, ◌∷◌, [], true, false, IfErr, OnErr, OnOk, Some};
ghost use Rattle.cg_disk.specs.Crash.{IsLastSynced};
ghost use Rattle.cg_disk.specs.Disk.{Image};
ghost use Rattle.cg_disk.specs.Fuse.{fuse_of};
ghost use Rattle.cg_disk.specs.Injected.{below_both, once_within};
ghost use Rattle.cg_disk.specs.Mem.{mem_history, mem_size};
ghost use Rattle.cg_sim.specs.Disk.{IsInjected, moment_of, sectors_of};
ghost use Rattle.cg_sim.specs.Poking.{IsPoked, sector_of};
ghost use Rattle.cg_sim.specs.Stages.{injected_disk, is_loaded, is_poked, is_refused, poked_disk, pokes_waiting, size_of, stage_disk, stage_pokes, taken_disk, taken_pokes, unloaded_disk};

use crate::compaction::Compaction;
use crate::line::Line;
use crate::loaded::Loaded;
use crate::output_lines;
use crate::poke::Poke;
use crate::poked::Poked;
use crate::poked_disk::PokedDisk;
use crate::session_request::Call;
use crate::stop::Stop;
use crate::unloaded::Unloaded;
use cg_desk::Outgoing;
use cg_disk::{Crash, FuseDisk, MemDisk, OnceDisk};
use cg_world::Step;
use std::alloc::Global;

/// Disk in memory with fault injection.
pub type Disk = FuseDisk<OnceDisk<MemDisk>>;

/// Disk of a script, and what is loaded from it.
pub enum Stage {
    Unloaded(Unloaded),
    Loaded(Loaded),
    /// Something is loaded, and pokes wait for the next stop, reload or close.
    Poked(Poked),
}

impl Stage {
    /// Returns whether pokes wait, and the line is not one of the few that may follow them.
    pub fn refuses(&self, line: &Line<'_>) -> bool
        ensures { result ≡ is_refused self.now line.now }
    {
        matches!(self, Stage::Poked(_)) && !line.may_follow_poke()
    }

    /// Takes a step that is not a request, if something is loaded and no poke waits, and prints its trace.
    pub fn take_step(self, alloc: Global, step: Step, out: &mut Vec<u8>) -> (Self, Result<(), Stop>)
        ensures err { IfErr result.1 (λ stop. stop ≡ Stop.Memory) }
        ensures same_size { size_of result.0 ≡ size_of self }
    {
        match self {
            Stage::Loaded(loaded) => {
                let (loaded, printed) = loaded.take_step(alloc, step, out);
                (Stage::Loaded(loaded), printed)
            }
            stage => (stage, Ok(())),
        }
    }

    /// Takes the steps that make queued commands durable, if something is loaded and no poke waits, and prints their
    /// trace.
    pub fn flush(self, alloc: Global, out: &mut Vec<u8>) -> (Self, Result<(), Stop>)
        ensures err { IfErr result.1 (λ stop. stop ≡ Stop.Memory) }
        ensures same_size { size_of result.0 ≡ size_of self }
    {
        match self {
            Stage::Loaded(loaded) => {
                let (loaded, printed) = loaded.flush(alloc, out);
                (Stage::Loaded(loaded), printed)
            }
            stage => (stage, Ok(())),
        }
    }

    /// Takes a compaction or a part of one, if something is loaded and no poke waits, and prints what was refused.
    pub fn compact(
        self,
        alloc: Global,
        compaction: Compaction,
        out: &mut Vec<u8>,
    ) -> (Self, Result<(), Stop>)
        ensures err { IfErr result.1 (λ stop. stop ≡ Stop.Memory) }
        ensures same_size { size_of result.0 ≡ size_of self }
    {
        match self {
            Stage::Loaded(loaded) => {
                let (loaded, printed) = loaded.compact(alloc, compaction, out);
                (Stage::Loaded(loaded), printed)
            }
            stage => (stage, Ok(())),
        }
    }

    /// Serves a request, or refuses it if nothing is loaded or an allocation fails.
    pub fn ask(self, alloc: Global, call: Call, out: &mut Vec<u8>) -> (Self, Result<(), Stop>)
        ensures err { IfErr result.1 (λ stop. stop ≡ Stop.Memory) }
        ensures same_size { size_of result.0 ≡ size_of self }
    {
        match self {
            Stage::Unloaded(mut unloaded) => {
                let printed = unloaded.ask(call, out);
                (Stage::Unloaded(unloaded), printed)
            }
            Stage::Loaded(loaded) => {
                let (loaded, printed) = loaded.ask(alloc, call, out);
                (Stage::Loaded(loaded), printed)
            }
            Stage::Poked(poked) => (Stage::Poked(poked), Ok(())),
        }
    }

    /// Sets how many calls of the disk pass from now on before each fails, unless a poke waits.
    pub fn with_fuse(self, calls: u64) -> Self
        ensures set { is_poked self ≡ false →
            IsInjected (Some calls) (once_within (injected_disk self)) (injected_disk self) (injected_disk result) }
        ensures poked { is_poked self ≡ true → result ≡ self }
        ensures same_size { size_of result ≡ size_of self }
    {
        match self {
            Stage::Unloaded(mut unloaded) => {
                unloaded.set_fuse(calls);
                Stage::Unloaded(unloaded)
            }
            Stage::Loaded(mut loaded) => {
                loaded.set_fuse(calls);
                Stage::Loaded(loaded)
            }
            poked => poked,
        }
    }

    /// Sets how many of the calls that the fuse passes pass from now on before one fails, unless a poke waits.
    pub fn with_once(self, calls: u64) -> Self
        ensures set { is_poked self ≡ false →
            IsInjected (fuse_of (injected_disk self)) (Some calls) (injected_disk self) (injected_disk result) }
        ensures poked { is_poked self ≡ true → result ≡ self }
        ensures same_size { size_of result ≡ size_of self }
    {
        match self {
            Stage::Unloaded(mut unloaded) => {
                unloaded.set_once(calls);
                Stage::Unloaded(unloaded)
            }
            Stage::Loaded(mut loaded) => {
                loaded.set_once(calls);
                Stage::Loaded(loaded)
            }
            poked => poked,
        }
    }

    /// Puts a poke down, or lets it wait if something is loaded.
    pub fn poke(self, alloc: Global, poke: Poke) -> (Self, Result<(), Stop>)
        requires { sector_of poke < mem_size (stage_disk self) }
        ensures waits { is_loaded self ≡ true → OnOk result.1 ((stage_pokes result.0 ≡ stage_pokes self ++ poke ∷ []) × (stage_disk result.0 ≡ stage_disk self)) }
        ensures put { is_loaded self ≡ false → OnOk result.1 (IsPoked (poke ∷ []) (moment_of (stage_disk self)).content (moment_of (stage_disk result.0))) }
        ensures err { IfErr result.1 (λ stop. (stop ≡ Stop.Memory) ⊎ (stop ≡ Stop.Device)) }
        ensures same_size { size_of result.0 ≡ size_of self }
    {
        match self {
            Stage::Unloaded(unloaded) => {
                let (unloaded, put) = unloaded.poke(alloc, &poke);
                (Stage::Unloaded(unloaded), put)
            }
            Stage::Loaded(loaded) => Stage::wait(Poked::new(alloc, loaded), poke),
            Stage::Poked(poked) => Stage::wait(poked, poke),
        }
    }

    // Lets one more poke wait.
    fn wait(mut poked: Poked, poke: Poke) -> (Self, Result<(), Stop>)
        requires { sector_of poke < sectors_of (poked_disk poked) }
        ensures err { IfErr result.1 (λ stop. stop ≡ Stop.Memory) }
        ensures waits { OnOk result.1 ((stage_pokes result.0 ≡ pokes_waiting poked ++ poke ∷ []) × (stage_disk result.0 ≡ below_both (poked_disk poked))) }
        ensures same_size { size_of result.0 ≡ sectors_of (poked_disk poked) }
    {
        match poked.add(poke) {
            Ok(()) => (Stage::Poked(poked), Ok(())),
            Err(_) => (Stage::Poked(poked), Err(Stop::Memory)),
        }
    }

    /// Returns the number of sectors of the disk.
    pub fn sectors(&self) -> u64
        ensures { result ≡ mem_size (stage_disk self.now) }
    {
        match self {
            Stage::Unloaded(unloaded) => unloaded.sectors(),
            Stage::Loaded(loaded) => loaded.sectors(),
            Stage::Poked(poked) => poked.sectors(),
        }
    }

    /// Refuses every pending request of what was loaded. Returns the refusals, and the disk without its fault injections.
    pub fn end(self, alloc: Global) -> (Vec<Outgoing>, PokedDisk)
        ensures disk { taken_disk result.1 ≡ stage_disk self }
        ensures pokes { taken_pokes result.1 ≡ stage_pokes self }
    {
        match self {
            Stage::Unloaded(unloaded) => {
                let disk = PokedDisk::unpoked(alloc, unloaded.into_disk());
                (Vec::new(alloc), disk)
            }
            Stage::Loaded(loaded) => {
                let (refused, disk) = loaded.close();
                (refused, PokedDisk::unpoked(alloc, disk))
            }
            Stage::Poked(poked) => poked.close(),
        }
    }

    /// Simulates power loss: the disk crashes, the pokes that wait are put down, its fault injections are lifted, and replies that had
    /// not left are lost.
    pub fn stop(self, alloc: Global, crash: Crash) -> (Unloaded, Result<(), Stop>)
        ensures kept { crash ≡ Crash.Keep → OnOk result.1 (IsPoked (stage_pokes self) (moment_of (stage_disk self)).content (moment_of (below_both (unloaded_disk result.0)))) }
        ensures lost { crash ≡ Crash.Lose → OnOk result.1 ((image : Image) × IsLastSynced (mem_history (stage_disk self)) image × IsPoked (stage_pokes self) image (moment_of (below_both (unloaded_disk result.0)))) }
        ensures err { IfErr result.1 (λ stop. stop ≡ Stop.Device) }
        ensures same_size { sectors_of (unloaded_disk result.0) ≡ size_of self }
    {
        let (_, disk) = self.end(alloc);
        let (disk, put) = disk.crash(crash);
        (Unloaded::new(alloc, disk), put)
    }

    /// Prints the refusals of a closing desk, then acts as a power loss that keeps what was written.
    pub fn close(self, alloc: Global, out: &mut Vec<u8>) -> (Self, Result<(), Stop>)
        ensures err { IfErr result.1 (λ stop. (stop ≡ Stop.Memory) ⊎ (stop ≡ Stop.Device)) }
        ensures same_size { size_of result.0 ≡ size_of self }
    {
        let (refused, disk) = self.end(alloc);
        let printed = output_lines::put_all(refused.as_slice(), out);
        let (disk, put) = disk.crash(Crash::Keep);
        let unloaded = Unloaded::new(alloc, disk);
        (Stage::Unloaded(unloaded), first_stop(printed, put))
    }
}

// Returns the first of two causes.
fn first_stop(first: Result<(), Stop>, second: Result<(), Stop>) -> Result<(), Stop>
    ensures first { OnErr first (result ≡ first) }
    ensures second { OnOk first (result ≡ second) }
{
    first?;
    second?;
    Ok(())
}
