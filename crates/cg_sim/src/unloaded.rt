//! A disk from which nothing is loaded.
ghost use Rattle.std.specs.Prelude.{◌≡◌, ◌<◌, ◌∷◌, [], IfErr, None, OnOk, Some, is_err};
ghost use Rattle.cg_disk.specs.Disk.{Counts};
ghost use Rattle.cg_disk.specs.Fuse.{fuse_of};
ghost use Rattle.cg_disk.specs.Injected.{below_both, once_within};
ghost use Rattle.cg_disk.specs.Mem.{mem_failures};
ghost use Rattle.cg_sim.specs.Disk.{IsInjected, moment_of, sectors_of};
ghost use Rattle.cg_sim.specs.Poking.{IsPoked, sector_of};

use crate::loaded::Loaded;
use crate::output_lines;
use crate::poke::Poke;
use crate::session_request::Call;
use crate::stage::{Disk, Stage};
use crate::stop::Stop;
use cg_desk::{Desk, ReplyToken};
use cg_disk::{FuseDisk, MemDisk, OnceDisk, SectorDisk};
use cg_names::{Code, Moment};
use cg_world::World;
use std::alloc::Global;

/// Disk from which nothing is loaded, and a loading desk, which refuses requests with 14.
pub struct Unloaded {
    desk: Desk,
    disk: Disk,
}

impl Unloaded {
    ghost use Rattle.cg_sim.specs.Stages.{size_of, unloaded_disk};

    /// Creates a disk without fault injections, from which nothing is loaded.
    pub fn new(alloc: Global, disk: MemDisk) -> Self
        ensures disk { below_both (unloaded_disk result) ≡ disk }
        ensures fuse { fuse_of (unloaded_disk result) ≡ None }
        ensures once { once_within (unloaded_disk result) ≡ None }
    {
        let disk = inject(alloc, disk, None, None);
        match Desk::loading(alloc) {
            Ok(desk) => Unloaded { desk, disk },
            Err(_) => unreachable!(),
        }
    }

    /// Loads what the disk has, and prints what was found or why the load failed. A failed load may be tried again.
    pub fn load(self, alloc: Global, now: Moment, out: &mut Vec<u8>) -> (Stage, Result<(), Stop>)
        ensures err { IfErr result.1 (λ stop. stop ≡ Stop.Memory) }
        ensures same_size { size_of result.0 ≡ sectors_of (unloaded_disk self) }
    {
        let Unloaded { desk, disk } = self;
        let sectors = disk.sectors();
        match World::open(alloc, disk, now) {
            Ok(world) => {
                let _ = desk.close();
                let printed = output_lines::put_opening(alloc, world.opening(), out);
                (Stage::Loaded(Loaded::new(world, sectors)), printed)
            }
            Err((fault, disk)) => {
                let printed = output_lines::put_open_fault(fault, out);
                (Stage::Unloaded(Unloaded { desk, disk }), printed)
            }
        }
    }

    /// Refuses a request with 14, since nothing is loaded.
    pub fn ask(&mut self, call: Call, out: &mut Vec<u8>) -> Result<(), Stop>
        ensures err { IfErr result (λ stop. stop ≡ Stop.Memory) }
        ensures same_disk { unloaded_disk self.new ≡ unloaded_disk self.old }
    {
        let Call {
            ticket,
            request,
            now,
            fresh,
        } = call;
        let token = ReplyToken::new(ticket);
        match self.desk.request(token, request, now, fresh) {
            Ok(replies) => output_lines::put_all(replies.as_slice(), out)?,
            Err((_, token)) => output_lines::put_reply(
                &token.refuse(Code::UnknownServerError),
                out,
            )?,
        }
        Ok(())
    }

    /// Sets how many calls of the disk pass from now on before each fails.
    pub fn set_fuse(&mut self, calls: u64)
        ensures { IsInjected (Some calls) (once_within (unloaded_disk self.old)) (unloaded_disk self.old) (unloaded_disk self.new) }
    {
        self.disk.set(Some(calls));
    }

    /// Sets how many of the calls that the fuse passes pass from now on before one fails.
    pub fn set_once(&mut self, calls: u64)
        ensures { IsInjected (fuse_of (unloaded_disk self.old)) (Some calls) (unloaded_disk self.old) (unloaded_disk self.new) }
    {
        self.disk.set_once(Some(calls));
    }

    /// Returns the number of sectors of the disk.
    pub fn sectors(&self) -> u64
        ensures { result ≡ sectors_of (unloaded_disk self.now) }
    {
        self.disk.sectors()
    }

    /// Puts a poke down. The fault injections neither count its calls nor fail them.
    pub fn poke(self, alloc: Global, poke: &Poke) -> (Self, Result<(), Stop>)
        requires { sector_of poke.now < sectors_of (unloaded_disk self) }
        ensures put { OnOk result.1 (IsPoked (poke.now ∷ []) (moment_of (below_both (unloaded_disk self))).content (moment_of (below_both (unloaded_disk result.0)))) }
        ensures same_size { sectors_of (unloaded_disk result.0) ≡ sectors_of (unloaded_disk self) }
        ensures fuse { fuse_of (unloaded_disk result.0) ≡ fuse_of (unloaded_disk self) }
        ensures once { once_within (unloaded_disk result.0) ≡ once_within (unloaded_disk self) }
        ensures cause { Counts (mem_failures (below_both (unloaded_disk self))) (mem_failures (below_both (unloaded_disk result.0))) (is_err result.1) }
        ensures err { IfErr result.1 (λ stop. stop ≡ Stop.Device) }
    {
        let Unloaded { desk, disk } = self;
        let fuse = disk.calls_left();
        let disk = disk.into_inner();
        let once = disk.calls_left();
        let mut disk = disk.into_inner();
        let put = poke.put(&mut disk);
        let unloaded = Unloaded {
            desk,
            disk: inject(alloc, disk, fuse, once),
        };
        match put {
            Ok(()) => (unloaded, Ok(())),
            Err(_) => (unloaded, Err(Stop::Device)),
        }
    }

    /// Returns the disk without its fault injections.
    pub fn into_disk(self) -> MemDisk
        ensures disk { result ≡ below_both (unloaded_disk self) }
    {
        let Unloaded { desk, disk } = self;
        let _ = desk.close();
        disk.into_inner().into_inner()
    }
}

// Returns the disk with these fault injections.
fn inject(alloc: Global, disk: MemDisk, fuse: Option<u64>, once: Option<u64>) -> Disk
    ensures disk { below_both result ≡ disk }
    ensures fuse { fuse_of result ≡ fuse }
    ensures once { once_within result ≡ once }
{
    let mut disk = FuseDisk::new(OnceDisk::new(alloc, disk, 0), 0);
    disk.set(fuse);
    disk.set_once(once);
    disk
}
