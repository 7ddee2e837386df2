//! What a whole line asks for.
ghost use Rattle.std.specs.Prelude.{◌≡◌};
ghost use Rattle.cg_line.specs.Lines.{Asks};
ghost use Rattle.cg_line.specs.Running.{IsLine, ended};
ghost use Rattle.cg_line.specs.Stream.{refusal_line};

use crate::{LineFault, parse};
use cg_group::Request;
use std::alloc::Global;

/// Refusal of a line without a reply of the backend.
#[derive(Clone, Copy)]
pub enum Refusal {
    /// The line is malformed.
    Malformed,
    /// An allocation for the line failed.
    Memory,
}

impl Refusal {
    /// Returns the reply line, with its line feed. Does not allocate.
    pub fn line(self) -> &'static [u8]
        ensures { result.now ≡ ended (refusal_line self) }
    {
        match self {
            Refusal::Malformed => b"ERR 42 INVALID_REQUEST\n",
            Refusal::Memory => b"ERR -1 UNKNOWN_SERVER_ERROR\n",
        }
    }
}

/// What a whole line asks for.
#[derive(Drop)]
pub enum Asked {
    /// The reply to a request.
    Request(Request),
    /// A refusal: the line is malformed, or an allocation for it failed.
    Refusal(Refusal),
}

/// Returns what a line asks for, without its line feed.
pub fn asked_by(alloc: Global, line: &[u8]) -> Asked
    ensures { IsLine line.now → Asks line.now result }
{
    match parse(alloc, line) {
        Ok(request) => Asked::Request(request),
        Err(LineFault::Memory) => Asked::Refusal(Refusal::Memory),
        Err(_) => Asked::Refusal(Refusal::Malformed),
    }
}
