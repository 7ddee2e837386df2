//! The commands of a snapshot, cut into frames.
ghost use Rattle.std.specs.Prelude.{◌≡◌, ◌<◌, ◌++◌, ◌≢◌, [], None, true, false, length, IfOk, OnOk};
ghost use Rattle.std.specs.Option.{option_to_list};
ghost use Rattle.cg_fold.specs.Snapshot.{snapshot_of};
ghost use Rattle.cg_store.specs.Compacting.{IsFull, IsNextFrame};

use crate::draft::CommandsDraft;
use cg_fold::{Durable, Snapshot};
use cg_record::Command;
use std::alloc::{AllocError, Global};
use std::marker::Model;

// Takes the next command of the snapshot ahead, unless one is.
fn look_ahead(ahead: &mut Option<Command>, snapshot: &mut Snapshot) -> Result<(), AllocError>
    ensures order { OnOk result (option_to_list ahead.new ++ snapshot.new ≡ option_to_list ahead.old ++ snapshot.old) }
    ensures none { OnOk result (ahead.new ≡ None → snapshot.new ≡ []) }
{
    if ahead.is_none() {
        *ahead = snapshot.next()?;
    }
    Ok(())
}

// Appends the command ahead to the draft. Returns `false` if there is none, or it does not fit.
fn put_ahead(draft: &mut CommandsDraft, ahead: &Option<Command>) -> Result<bool, AllocError>
    ensures put { IfOk result (λ is. is ≡ true → draft.new ≡ draft.old ++ option_to_list ahead.now) }
    ensures same { IfOk result (λ is. is ≡ false → draft.new ≡ draft.old) }
    ensures some { IfOk result (λ is. is ≡ true → ahead.now ≢ None) }
    ensures full { IfOk result (λ is. is ≡ false → IsFull draft.new (option_to_list ahead.now)) }
    ensures holds_one { IfOk result (λ is. is ≡ false → draft.new ≡ [] → ahead.now ≡ None) }
{
    match ahead {
        Some(command) => {
            let is_put = draft.push_if_fits(command)?;
            Ok(is_put)
        }
        None => Ok(false),
    }
}

// Moves the next command to the draft. Returns `false` if there is none, or it does not fit: then it is the one ahead.
fn move_one(
    draft: &mut CommandsDraft,
    ahead: &mut Option<Command>,
    snapshot: &mut Snapshot,
) -> Result<bool, AllocError>
    ensures order { OnOk result (draft.new ++ (option_to_list ahead.new ++ snapshot.new) ≡ draft.old ++ (option_to_list ahead.old ++ snapshot.old)) }
    ensures moved { IfOk result (λ is. is ≡ true → length (option_to_list ahead.new ++ snapshot.new) < length (option_to_list ahead.old ++ snapshot.old)) }
    ensures full { IfOk result (λ is. is ≡ false → IsFull draft.new (option_to_list ahead.new ++ snapshot.new)) }
    ensures some { IfOk result (λ is. is ≡ false → draft.new ≡ [] → option_to_list ahead.new ++ snapshot.new ≡ []) }
{
    look_ahead(ahead, snapshot)?;
    let is_put = put_ahead(draft, ahead)?;
    if is_put {
        *ahead = None;
    }
    Ok(is_put)
}

// Moves commands to the draft until the next does not fit, which is the one ahead then.
fn fill(
    draft: &mut CommandsDraft,
    ahead: &mut Option<Command>,
    snapshot: &mut Snapshot,
) -> Result<(), AllocError>
    ensures order { OnOk result (draft.new ++ (option_to_list ahead.new ++ snapshot.new) ≡ draft.old ++ (option_to_list ahead.old ++ snapshot.old)) }
    ensures full { OnOk result (IsFull draft.new (option_to_list ahead.new ++ snapshot.new)) }
    ensures some { OnOk result (draft.new ≡ [] → option_to_list ahead.new ++ snapshot.new ≡ []) }
{
    while move_one(draft, ahead, snapshot)? {}
    Ok(())
}

/// The commands of a snapshot that are left. Contracts see them in order.
#[derive(Drop)]
pub(crate) struct SnapshotFrames {
    snapshot: Snapshot,
    // The command that did not fit the last frame.
    ahead: Option<Command>,
}

impl Model for SnapshotFrames {
    ghost use Rattle.std.specs.Prelude.{List, ◌++◌};
    ghost use Rattle.std.specs.Option.{option_to_list};
    ghost use Rattle.cg_record.specs.declared.command.Command.{Command};

    ghost Value = { List Command };

    ghost view = { λ s. option_to_list s.ahead ++ s.snapshot };
}

impl SnapshotFrames {
    /// Begins with the commands that make a state, without an allocation.
    pub(crate) fn new(alloc: Global, durable: Durable) -> Self
        ensures { result ≡ snapshot_of durable }
    {
        SnapshotFrames {
            snapshot: Snapshot::new(alloc, durable),
            ahead: None,
        }
    }

    /// Moves as many commands as fit one frame to a draft, in place of what that has. Returns `false` if there are no
    /// more. If an allocation fails, some of them may be gone.
    pub(crate) fn next(&mut self, draft: &mut CommandsDraft) -> Result<bool, AllocError>
        ensures next { IfOk result (λ is. is ≡ true → IsNextFrame draft.new self.old self.new) }
        ensures none { IfOk result (λ is. is ≡ false → (self.old ≡ []) × (self.new ≡ [])) }
    {
        draft.clear()?;
        fill(draft, &mut self.ahead, &mut self.snapshot)?;
        Ok(draft.len() > 0)
    }
}
