//! Commands while they are encoded into a frame.
ghost use Rattle.std.specs.Prelude.{◌≡◌, ◌≤◌, ◌<◌, ◌+◌, ◌++◌, ◌∷◌, [], false, true, length, if◌then◌else◌, IfOk, IfSome, OnOk, OnErr};
ghost use Rattle.cg_frame.specs.declared.segment.TheConstants.{LARGEST_PAYLOAD_BYTES};
ghost use Rattle.cg_record.specs.Spelling.{command_text, spelling};
ghost use Rattle.cg_record.specs.Payloads.{IsText, told};

use crate::commands::Commands;
use cg_frame::{LARGEST_PAYLOAD_BYTES, StagedFrame};
use cg_record::{Command, append_command, append_version, size, spelling_of};
use std::alloc::{AllocError, Global};
use std::marker::Model;
use std::sync::Arc;

/// Commands in their order, at most as many as fit one frame. Each is encoded once, at the place in the frame from which it is
/// written to the disk. Contracts see the commands. The frame is shared from `share` on until what that returned is dropped;
/// meanwhile the draft takes no command.
#[derive(Debug, Drop)]
pub struct CommandsDraft {
    len: u64,
    frame: Arc<StagedFrame>,
    ghost whole: { IsText frame.value.1 },
    ghost counted: { len ≡ length (told frame.value.1) },
    ghost small: { length frame.value.1 ≤ LARGEST_PAYLOAD_BYTES },
}

impl Model for CommandsDraft {
    ghost use Rattle.std.specs.Prelude.{List};
    ghost use Rattle.cg_record.specs.declared.command.Command.{Command};
    ghost use Rattle.cg_record.specs.Payloads.{told};

    ghost Value = { List Command };

    ghost view = { λ c. told c.frame.value.1 };
}

// Begins a frame with the payload of no command.
fn begun(alloc: Global) -> Result<StagedFrame, AllocError>
    ensures text { IfOk result (λ frame. IsText frame.1) }
    ensures told { IfOk result (λ frame. told frame.1 ≡ []) }
    ensures small { IfOk result (λ frame. length frame.1 ≤ LARGEST_PAYLOAD_BYTES) }
{
    let mut frame = StagedFrame::new(alloc);
    let mut buffer = frame.open(1)?;
    append_version(&mut buffer)?;
    frame.close(buffer);
    Ok(frame)
}

// Appends the encoding of a command, of `bytes` bytes, to the payload of a frame. Reports out of memory if the frame is shared.
fn put(frame: &mut Arc<StagedFrame>, command: &Command, bytes: u64) -> Result<(), AllocError>
    requires text { IsText frame.old.value.1 }
    requires size { bytes ≡ length (command_text command.now) }
    requires fits { length frame.old.value.1 + bytes ≤ LARGEST_PAYLOAD_BYTES }
    ensures text { IsText frame.new.value.1 }
    ensures told { OnOk result (told frame.new.value.1 ≡ told frame.old.value.1 ++ command.now ∷ []) }
    ensures small { length frame.new.value.1 ≤ LARGEST_PAYLOAD_BYTES }
    ensures err { OnErr result (frame.new.value.1 ≡ frame.old.value.1) }
{
    // The call only brings the contract of `spelling_of` into scope.
    let _payload = spelling_of(frame.payload());
    let Some(own) = Arc::get_mut(frame) else {
        return Err(AllocError);
    };
    let mut buffer = own.open(bytes)?;
    let outcome = append_command(&mut buffer, command);
    own.close(buffer);
    outcome?;
    Ok(())
}

// Removes the commands of a frame: the version of the payload is left. Reports out of memory if the frame is shared.
fn clear(frame: &mut Arc<StagedFrame>) -> Result<(), AllocError>
    requires { IsText frame.old.value.1 }
    ensures text { OnOk result (IsText frame.new.value.1) }
    ensures told { OnOk result (told frame.new.value.1 ≡ []) }
    ensures small { OnOk result (length frame.new.value.1 ≤ LARGEST_PAYLOAD_BYTES) }
    ensures err { OnErr result (frame.new.value ≡ frame.old.value) }
{
    // The call only brings the contract of `spelling_of` into scope.
    let _payload = spelling_of(frame.payload());
    let Some(own) = Arc::get_mut(frame) else {
        return Err(AllocError);
    };
    own.truncate(1);
    Ok(())
}

// Seals a frame. Reports out of memory if it is shared.
fn seal(frame: &mut Arc<StagedFrame>, count: u64) -> Result<(), AllocError>
    ensures ok { OnOk result (frame.new.value.0 ≡ count) }
    ensures payload { frame.new.value.1 ≡ frame.old.value.1 }
{
    let Some(own) = Arc::get_mut(frame) else {
        return Err(AllocError);
    };
    own.seal(count)?;
    Ok(())
}

impl CommandsDraft {
    /// Begins a draft, without a command. Allocates room for a small frame, and the block of the `Arc` that shares it.
    pub fn new(alloc: Global) -> Result<Self, AllocError>
        ensures { IfOk result (λ draft. draft ≡ []) }
    {
        let frame = begun(alloc)?;
        let frame = Arc::new(alloc, frame)?;
        Ok(CommandsDraft { len: 0, frame })
    }

    /// Begins a draft in the memory of commands, unless a clone shares it.
    pub(crate) fn reusing(frame: Arc<StagedFrame>) -> Option<Self>
        requires { IsText frame.value.1 }
        ensures { IfSome result (λ draft. draft ≡ []) }
    {
        let mut frame = frame;
        match clear(&mut frame) {
            Ok(()) => Some(CommandsDraft { len: 0, frame }),
            Err(_) => None,
        }
    }

    /// Appends a command if one frame holds all of them; one command fits alone. Returns whether it did. If an allocation
    /// fails, the commands are unchanged. Computes the size of the command once.
    pub fn push_if_fits(&mut self, command: &Command) -> Result<bool, AllocError>
        ensures put { IfOk result (λ is_put. self.new ≡ self.old ++ (if is_put then command.now ∷ [] else [])) }
        ensures full { IfOk result (λ is_put. is_put ≡ false → LARGEST_PAYLOAD_BYTES < length (spelling self.old) + length (command_text command.now)) }
        ensures first { IfOk result (λ is_put. self.old ≡ [] → is_put ≡ true) }
        ensures err { OnErr result (self.new ≡ self.old) }
    {
        let bytes = size(command);
        let payload = spelling_of(self.frame.payload());
        if bytes > LARGEST_PAYLOAD_BYTES - payload.len() as u64 {
            return Ok(false);
        }
        put(&mut self.frame, command, bytes)?;
        self.len += 1;
        Ok(true)
    }

    /// Removes all commands. The memory stays for the next ones. If an allocation fails, the commands are unchanged.
    pub(crate) fn clear(&mut self) -> Result<(), AllocError>
        ensures ok { OnOk result (self.new ≡ []) }
        ensures err { OnErr result (self.new ≡ self.old) }
    {
        clear(&mut self.frame)?;
        self.len = 0;
        Ok(())
    }

    /// Returns the number of commands, in constant time.
    pub fn len(&self) -> u64
        ensures len { result ≡ length self.now }
        ensures small { length (spelling self.now) ≤ LARGEST_PAYLOAD_BYTES }
    {
        self.len
    }

    /// Seals the frame, and returns the commands with it. The draft shares the frame, and keeps the commands. If an allocation
    /// fails, nothing has changed.
    pub fn share(&mut self) -> Result<Commands, AllocError>
        ensures shared { IfOk result (λ commands. commands ≡ self.old) }
        ensures same { self.new ≡ self.old }
    {
        seal(&mut self.frame, self.len)?;
        let frame = self.frame.clone()?;
        Ok(Commands { frame })
    }
}
