//! The draft of the next batch: the longest prefix of the queue that fits one frame.
ghost use Rattle.std.specs.Prelude.{◌≡◌, ◌<◌, ◌+◌, ◌++◌, ◌∷◌, [], true, false, length, if◌then◌else◌, IfOk, IfSome, MatchOption, OnOk, OnErr};
ghost use Rattle.cg_frame.specs.declared.segment.TheConstants.{LARGEST_PAYLOAD_BYTES};
ghost use Rattle.cg_record.specs.Spelling.{command_text, spelling};
ghost use Rattle.cg_store.specs.Batches.{IsBatch};
ghost use Rattle.cg_desk.specs.Fronts.{IsFull, spelled};

use cg_record::Command;
use cg_store::{Commands, CommandsDraft};
use std::alloc::{AllocError, Global};
use std::collections::VecDeque;
use std::mem;

// Begins a draft, in the memory of a settled batch if there is some.
fn begin(alloc: Global, spare: &mut Option<CommandsDraft>) -> Result<CommandsDraft, AllocError>
    requires { spelled spare.old ≡ [] }
    ensures begun { IfOk result (λ draft. draft ≡ []) }
    ensures spare { spelled spare.new ≡ [] }
{
    match mem::replace(spare, None) {
        Some(draft) => Ok(draft),
        None => {
            let draft = CommandsDraft::new(alloc)?;
            Ok(draft)
        }
    }
}

/// Encodes a command into the draft if one frame holds all; without a draft, begins one, in the memory of `spare` if it has
/// some. Returns whether it did. If an allocation fails, the draft has the same commands as before.
pub fn spell(
    alloc: Global,
    spare: &mut Option<CommandsDraft>,
    draft: &mut Option<CommandsDraft>,
    command: &Command,
) -> Result<bool, AllocError>
    requires { spelled spare.old ≡ [] }
    ensures put { IfOk result (λ is_put. spelled draft.new ≡ spelled draft.old ++ (if is_put then command.now ∷ [] else [])) }
    ensures full { IfOk result (λ is_put. is_put ≡ false → LARGEST_PAYLOAD_BYTES < length (spelling (spelled draft.old)) + length (command_text command.now)) }
    ensures first { IfOk result (λ is_put. spelled draft.old ≡ [] → is_put ≡ true) }
    ensures err { OnErr result (spelled draft.new ≡ spelled draft.old) }
    ensures spare { spelled spare.new ≡ [] }
{
    match draft {
        Some(draft) => draft.push_if_fits(command),
        None => {
            let mut begun = begin(alloc, spare)?;
            let is_put = begun.push_if_fits(command)?;
            *draft = Some(begun);
            Ok(is_put)
        }
    }
}

/// Moves commands from the queue into the draft until the next one does not fit the frame. If an allocation fails, the
/// remaining commands stay queued.
pub fn spell_front(
    alloc: Global,
    spare: &mut Option<CommandsDraft>,
    draft: &mut Option<CommandsDraft>,
    front: &mut VecDeque<Command>,
) -> Result<(), AllocError>
    requires { spelled spare.old ≡ [] }
    ensures commands { spelled draft.new ++ front.new.items ≡ spelled draft.old ++ front.old.items }
    ensures full { OnOk result (IsFull draft.new front.new.items) }
    ensures first { OnOk result (spelled draft.new ≡ [] → front.new.items ≡ []) }
    ensures spare { spelled spare.new ≡ [] }
{
    while let Some(next) = front.front() {
        let is_put = spell(alloc, spare, draft, next)?;
        if !is_put {
            break;
        }
        let _ = front.pop_front();
    }
    Ok(())
}

/// Returns the commands of the draft in their sealed frame, which the draft shares then, or `None` if it has none. If an
/// allocation fails, the draft has the same commands as before.
pub fn share(draft: &mut Option<CommandsDraft>) -> Result<Option<Commands>, AllocError>
    ensures shared { IfOk result (λ o. MatchOption o (spelled draft.old ≡ []) (λ commands. commands ≡ spelled draft.old)) }
    ensures batch { IfOk result (λ o. IfSome o IsBatch) }
    ensures same { spelled draft.new ≡ spelled draft.old }
{
    match draft {
        None => Ok(None),
        Some(draft) => {
            if draft.len() == 0 {
                return Ok(None);
            }
            let commands = draft.share()?;
            Ok(Some(commands))
        }
    }
}
