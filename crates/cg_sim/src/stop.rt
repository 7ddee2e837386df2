//! Why a script ends early.
use std::alloc::AllocError;
use std::io::{self, ErrorKind};

/// Cause that ends a script early.
#[derive(Clone, Copy, Debug, Drop, PartialEq, Eq)]
pub enum Stop {
    /// The line with this number is bad, or may not come where it stands.
    BadLine(u64),
    /// A read or a write failed.
    Io,
    /// An allocation failed outside a request.
    Memory,
    /// The disk failed in a format or a `poke`.
    Device,
}

impl From<AllocError> for Stop {
    ghost use Rattle.std.specs.Prelude.{◌≡◌};
    ghost use Rattle.cg_sim.specs.declared.stop.Stop.TheVariants.{Memory};

    ghost from_gives = { λ _ e. e ≡ Memory };

    fn from(_: AllocError) -> Self {
        Stop::Memory
    }
}

impl From<io::Error> for Stop {
    fn from(error: io::Error) -> Self {
        match error.kind() {
            ErrorKind::OutOfMemory => Stop::Memory,
            _ => Stop::Io,
        }
    }
}
