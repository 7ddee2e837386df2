//! One step of a run.
ghost use Rattle.std.specs.Prelude.{◌≡◌, false, OnErr, IfOk, IfErr};
ghost use Rattle.cg_disk.specs.Disk.{Counts};
ghost use Rattle.cg_store.specs.Store.{disk_of};
ghost use Rattle.cg_world.specs.Agreeing.{is_serving};
ghost use Rattle.cg_world.specs.Faults.{failed_step, refusal_of};
ghost use Rattle.cg_world.specs.Steps.{IsOutOfMemory, IsTaken};

use crate::step::{Step, StepNote};
use crate::step_fault::Wanting;
use crate::world::World;
use cg_desk::Outgoing;
use cg_disk::SectorDisk;
use cg_group::Listed;

/// Outcome of a step that was taken, with the replies that left.
#[derive(Debug, Drop)]
pub struct Taken {
    pub note: StepNote,
    pub out: Listed<Outgoing>,
}

impl<D: SectorDisk> World<D> {
    ghost use Rattle.cg_world.specs.Sights.{opening_of, sight, store_of};

    /// Takes a step. If an allocation fails, a compaction whose step it is has ended, nothing else has changed, and a request
    /// is refused with -1.
    pub(crate) fn take_step(&mut self, step: Step) -> Result<Taken, Wanting>
        ensures ok { IfOk result (λ taken. IsTaken D.is_honest D.history step taken.note taken.out self.old self.new) }
        ensures err { OnErr result (IsOutOfMemory D.is_honest D.history step self.old self.new) }
        ensures last { IfErr result (λ wanting. wanting.last ≡ refusal_of step) }
        ensures rests { is_serving (sight self.old).desk ≡ false → disk_of (store_of self.new) ≡ disk_of (store_of self.old) }
        ensures device { Counts (D.failures (disk_of (store_of self.old))) (D.failures (disk_of (store_of self.new))) (failed_step result) }
        ensures same_size { D.size (disk_of (store_of self.new)) ≡ D.size (disk_of (store_of self.old)) }
        ensures same_honesty { D.is_honest (disk_of (store_of self.new)) ≡ D.is_honest (disk_of (store_of self.old)) }
        ensures opening { opening_of self.new ≡ opening_of self.old }
    {
        match step {
            Step::Request(ticket, request, now, fresh) => {
                let out = self.ask(ticket, request, now, fresh)?;
                Ok(Taken {
                    note: StepNote::Done,
                    out: Listed::from_vec(out),
                })
            }
            Step::Gone(session, now) => {
                let out = self.hang_up(session, now)?;
                Ok(Taken {
                    note: StepNote::Done,
                    out: Listed::from_vec(out),
                })
            }
            Step::Tick(now) => {
                let out = self.tick(now)?;
                Ok(Taken {
                    note: StepNote::Done,
                    out: Listed::from_vec(out),
                })
            }
            Step::Take => {
                let note = self.take()?;
                Ok(Taken {
                    note,
                    out: Listed::new(self.alloc),
                })
            }
            Step::Append => {
                let (note, out) = self.append()?;
                Ok(Taken {
                    note,
                    out: Listed::from_vec(out),
                })
            }
            Step::Settle => {
                let (note, out) = self.settle()?;
                Ok(Taken {
                    note,
                    out: Listed::from_vec(out),
                })
            }
            Step::CompactStart => {
                let (note, out) = self.compact_start()?;
                Ok(Taken {
                    note,
                    out: Listed::from_vec(out),
                })
            }
            Step::CompactRead => {
                let (note, out) = self.compact_read()?;
                Ok(Taken {
                    note,
                    out: Listed::from_vec(out),
                })
            }
            Step::CompactWrite => {
                let (note, out) = self.compact_write()?;
                Ok(Taken {
                    note,
                    out: Listed::from_vec(out),
                })
            }
            Step::CompactSwitch => {
                let (note, out) = self.compact_switch()?;
                Ok(Taken {
                    note,
                    out: Listed::from_vec(out),
                })
            }
        }
    }
}
