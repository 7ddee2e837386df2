//! Commands in the frame that is written to disk.
ghost use Rattle.std.specs.Prelude.{◌≡◌, ◌≤◌, ◌↔◌, length, IfSome, IsTrue, Ok, []};
ghost use Rattle.cg_frame.specs.declared.segment.TheConstants.{LARGEST_PAYLOAD_BYTES};
ghost use Rattle.cg_record.specs.Lawful.{AreCommands};
ghost use Rattle.cg_record.specs.Reading.{commands_of};
ghost use Rattle.cg_record.specs.Spelling.{spelling};
ghost use Rattle.cg_record.specs.Payloads.{IsText, told};

use crate::draft::CommandsDraft;
use cg_frame::StagedFrame;
use cg_record::spelling_of;
use std::alloc::AllocError;
use std::marker::Model;
use std::sync::Arc;

/// Commands in their order, encoded in the sealed frame of a batch. Contracts see the commands. A clone shares the frame.
#[derive(Debug, Drop)]
pub struct Commands {
    pub(crate) frame: Arc<StagedFrame>,
    ghost whole: { IsText frame.value.1 },
    ghost counted: { frame.value.0 ≡ length (told frame.value.1) },
    ghost small: { length frame.value.1 ≤ LARGEST_PAYLOAD_BYTES },
}

impl Model for Commands {
    ghost use Rattle.std.specs.Prelude.{List};
    ghost use Rattle.cg_record.specs.declared.command.Command.{Command};
    ghost use Rattle.cg_record.specs.Payloads.{told};

    ghost Value = { List Command };

    ghost view = { λ c. told c.frame.value.1 };
}

impl Commands {
    /// Returns the number of commands, in constant time.
    pub fn len(&self) -> usize
        ensures len { result ≡ length self.now }
        ensures small { length (spelling self.now) ≤ LARGEST_PAYLOAD_BYTES }
    {
        self.frame.count() as usize
    }

    /// Returns the payload of the frame: the encoding of the commands.
    pub fn as_bytes(&self) -> &[u8]
        ensures decoded { commands_of result.now ≡ Ok self.now }
        ensures spelled { result.now ≡ spelling self.now }
        ensures lawful { AreCommands self.now }
    {
        spelling_of(self.frame.payload())
    }

    /// Returns the frame.
    pub(crate) fn frame(&self) -> &StagedFrame
        ensures count { result.now.0 ≡ length self.now }
        ensures decoded { commands_of result.now.1 ≡ Ok self.now }
        ensures spelled { result.now.1 ≡ spelling self.now }
        ensures lawful { AreCommands self.now }
        ensures small { length result.now.1 ≤ LARGEST_PAYLOAD_BYTES }
    {
        // The call only brings the contract of `as_bytes` into scope.
        let _payload = self.as_bytes();
        &self.frame
    }

    /// Returns whether both are the same commands. Compares the payloads, without an allocation.
    pub fn is_same(&self, other: &Commands) -> bool
        ensures { IsTrue result ↔ (self.now ≡ other.now) }
    {
        self.as_bytes() == other.as_bytes()
    }

    /// Returns an empty draft in the memory of these commands, unless a clone shares it. Does not allocate.
    pub fn into_draft(self) -> Option<CommandsDraft>
        ensures { IfSome result (λ draft. draft ≡ []) }
    {
        let Commands { frame } = self;
        CommandsDraft::reusing(frame)
    }
}

impl Clone for Commands {
    ghost is_clone = { λ commands copy. copy ≡ commands };

    fn clone(&self) -> Result<Self, AllocError> {
        Ok(Commands {
            frame: self.frame.clone()?,
        })
    }
}
