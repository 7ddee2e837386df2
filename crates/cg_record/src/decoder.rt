//! The decoder that hands out one command at a time.

ghost use Rattle.std.specs.Prelude.{◌≡◌, ◌∷◌, [], Ok, Err, IfOk, IfErr, OnErr, MatchResult};
ghost use Rattle.std.specs.Option.{MatchOption};
ghost use Rattle.cg_record.specs.Decoding.{after_front};
ghost use Rattle.cg_record.specs.Lawful.{IsCommand};
ghost use Rattle.cg_record.specs.Reading.{Fails, commands_of};

use crate::command::Command;
use crate::command_decoder::command_at;
use crate::fault::RecordFault;
use crate::fields::byte_at;
use crate::format::Version;
use crate::metadata::Metadata;
use std::alloc::Global;
use std::marker::Model;

/// The commands of a payload that are not decoded yet. It borrows the payload, so that a caller who needs one command
/// after the other has no more than one in memory. Contracts see the commands that are left, or the first fault.
#[derive(Drop)]
pub struct Decoder<'a> {
    version: Version,
    rest: &'a [u8],
}

impl<'a> Model for Decoder<'a> {
    ghost use Rattle.std.specs.Prelude.{List, Result};
    ghost use Rattle.cg_record.specs.declared.command.Command.{Command};
    ghost use Rattle.cg_record.specs.declared.fault.RecordFault.{RecordFault};
    ghost use Rattle.cg_record.specs.Decoding.{left_in};

    ghost Value = { Result (List Command) RecordFault };

    ghost view = { λ d. left_in d.version d.rest.now };
}

impl<'a> Decoder<'a> {
    /// Starts before the first command of a payload. Reports `Short` if the payload has no version byte, and `BadKind`
    /// for an unknown version.
    #[tactic(auto, unfolding(crate::specs::Reading::commands_of))]
    pub fn new(payload: &'a [u8]) -> Result<Self, RecordFault>
        ensures { MatchResult result
            (λ decoder. commands_of payload.now ≡ decoder)
            (λ fault. commands_of payload.now ≡ Err fault) }
    {
        let (first, rest) = byte_at(payload)?;
        let version = Version::of(first)?;
        Ok(Decoder { version, rest })
    }

    /// Decodes the next command. Returns `None` at the end of the payload. Reports the first fault of this command, or
    /// `Memory` if an allocation fails, even if a later byte has a fault; nothing is passed over then.
    pub fn next(&mut self, alloc: Global) -> Result<Option<Command>, RecordFault>
        ensures ok { IfOk result (λ o. MatchOption o
            (self.old ≡ Ok [])
            (λ command. IsCommand command × (self.old ≡ after_front (command ∷ []) self.new))) }
        ensures fault { IfErr result (λ fault. Fails fault self.old) }
        ensures err { OnErr result (self.new ≡ self.old) }
    {
        let mut room = Vec::new(alloc);
        self.next_in(alloc, &mut room)
    }

    /// Does what `next` does. The metadata of a commit take the memory of those in `room`, which are no longer needed, one by
    /// one: a caller that gives the metadata of replaced offsets back allocates only for longer ones.
    pub fn next_in(
        &mut self,
        alloc: Global,
        room: &mut Vec<Metadata>,
    ) -> Result<Option<Command>, RecordFault>
        ensures ok { IfOk result (λ o. MatchOption o
            (self.old ≡ Ok [])
            (λ command. IsCommand command × (self.old ≡ after_front (command ∷ []) self.new))) }
        ensures fault { IfErr result (λ fault. Fails fault self.old) }
        ensures err { OnErr result (self.new ≡ self.old) }
    {
        if self.rest.is_empty() {
            return Ok(None);
        }
        let (command, rest) = command_at(alloc, room, self.version, self.rest)?;
        self.rest = rest;
        Ok(Some(command))
    }
}
