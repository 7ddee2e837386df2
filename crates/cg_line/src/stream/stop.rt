//! Why serving lines stops.
ghost use Rattle.std.specs.Prelude.{◌≡◌};

use crate::stream::begun::TooLong;
use crate::stream_end::RunFault;
use std::alloc::AllocError;

/// Reason why no further lines are served.
#[derive(Clone, Copy)]
pub enum Stop {
    /// A line is too long. Its refusal is not written yet.
    TooLong,
    /// The run ends with this error.
    Fault(RunFault),
}

impl From<TooLong> for Stop {
    ghost use Rattle.cg_line.specs.declared.stream.stop.Stop.TheVariants as stops;

    ghost from_gives = { λ _ stop. stop ≡ stops.TooLong };

    fn from(_: TooLong) -> Self {
        Stop::TooLong
    }
}

impl From<RunFault> for Stop {
    ghost use Rattle.cg_line.specs.declared.stream.stop.Stop.TheVariants as stops;

    ghost from_gives = { λ fault stop. stop ≡ stops.Fault fault };

    fn from(fault: RunFault) -> Self {
        Stop::Fault(fault)
    }
}

impl From<AllocError> for Stop {
    ghost use Rattle.cg_line.specs.declared.stream.stop.Stop.TheVariants as stops;
    ghost use Rattle.cg_line.specs.declared.stream_end.RunFault.TheVariants.{Memory};

    ghost from_gives = { λ _ stop. stop ≡ stops.Fault Memory };

    fn from(_: AllocError) -> Self {
        Stop::Fault(RunFault::Memory)
    }
}
