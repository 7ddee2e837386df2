//! Numbered commands that wait for the disk.
ghost use Rattle.std.specs.Prelude.{◌≡◌, ◌≤◌, ◌<◌, ◌+◌, ◌++◌, ⊤, [], true, false, length, take, drop, IfOk, OnOk, OnErr, MatchOption};
ghost use Rattle.std.specs.List.{flat_map};
ghost use Rattle.std.specs.VecDeque.{deque_capacity, deque_len};
ghost use Rattle.cg_store.specs.Batches.{IsBatch};
ghost use Rattle.cg_desk.specs.Fronts.{IsFull, in_frame, spelled};

use crate::batch_builder::{share, spell, spell_front};
use cg_group::{Few, Items};
use cg_record::Command;
use cg_store::{Commands, CommandsDraft};
use std::alloc::{AllocError, Global};
use std::collections::VecDeque;

/// Queued commands in the order of their numbers: the draft of the next batch, then single commands, then the lists that
/// steps made. If only the draft is queued, a command that a step made alone is encoded at once and dropped. A list waits as a
/// whole until a batch is taken, so a step needs room for one list only, whatever its length.
#[derive(Debug, Drop)]
pub struct Queue {
    alloc: Global,
    pub draft: Option<CommandsDraft>,
    pub front: VecDeque<Command>,
    pub lists: VecDeque<Few<Command>>,
    // The memory of a settled batch, for the next draft.
    spare: Option<CommandsDraft>,
    ghost empty: { spelled spare ≡ [] },
}

// Appends commands in reserved room.
fn put_last(front: &mut VecDeque<Command>, commands: Few<Command>)
    requires { deque_len front.old + length commands ≤ deque_capacity front.old }
    ensures { front.new.items ≡ front.old.items ++ commands }
{
    match commands.into_items() {
        Items::One([command]) => front.push_back_reserved(command),
        Items::Many(commands) => {
            let mut last = VecDeque::from_vec(commands);
            let _ = front.append(&mut last);
        }
    }
}

// Appends a list in reserved room, unless it is empty.
fn put_list(lists: &mut VecDeque<Few<Command>>, commands: Few<Command>)
    requires { deque_len lists.old < deque_capacity lists.old }
    ensures { flat_map (λ l. l) lists.new.items ≡ flat_map (λ l. l) lists.old.items ++ commands }
{
    if commands.len() > 0 {
        lists.push_back_reserved(commands);
    }
}

impl Queue {
    ghost use Rattle.cg_desk.specs.Queues.{commands_of, has_room};

    /// Creates an empty queue. Does not allocate.
    pub fn new(alloc: Global) -> Self
        ensures { commands_of result ≡ [] }
    {
        Queue {
            alloc,
            draft: None,
            front: VecDeque::new(alloc),
            lists: VecDeque::new(alloc),
            spare: None,
        }
    }

    /// Reserves room for the commands of one more step.
    pub fn reserve(&mut self) -> Result<(), AllocError>
        ensures commands { commands_of self.new ≡ commands_of self.old }
        ensures ok { OnOk result (has_room self.new) }
    {
        self.lists.reserve(1)?;
        Ok(())
    }

    // Encodes the only command of a step into the draft if nothing else is queued after the draft. Returns whether it did.
    fn spell_alone(&mut self, commands: &Few<Command>) -> bool
        ensures spelled { result ≡ true → commands_of self.new ≡ commands_of self.old ++ commands.now }
        ensures kept { result ≡ false → commands_of self.new ≡ commands_of self.old }
        ensures room { has_room self.old → has_room self.new }
    {
        if !self.front.is_empty() || !self.lists.is_empty() {
            return false;
        }
        match commands.as_slice() {
            [command] => {
                match spell(self.alloc, &mut self.spare, &mut self.draft, command) {
                    Ok(is_put) => is_put,
                    Err(_) => false,
                }
            }
            _ => false,
        }
    }

    /// Appends the commands of a step, in reserved room. Does not fail: a command that cannot be encoded stays queued
    /// as it is.
    pub fn put(&mut self, commands: Few<Command>)
        requires { has_room self.old }
        ensures { commands_of self.new ≡ commands_of self.old ++ commands }
    {
        if !self.spell_alone(&commands) {
            put_list(&mut self.lists, commands);
        }
    }

    // Moves the commands out of their lists into `front`. If an allocation fails, the remaining lists stay queued.
    fn gather(&mut self) -> Result<(), AllocError>
        ensures commands { commands_of self.new ≡ commands_of self.old }
        ensures ok { OnOk result (self.new.lists.items ≡ []) }
    {
        while let Some(next) = self.lists.front() {
            self.front.reserve(next.len())?;
            match self.lists.pop_front() {
                Some(next) => put_last(&mut self.front, next),
                None => unreachable!(),
            }
        }
        Ok(())
    }

    // Fills the draft until the next command does not fit the frame. If an allocation fails, the remaining commands
    // stay queued.
    fn fill(&mut self) -> Result<(), AllocError>
        ensures commands { commands_of self.new ≡ commands_of self.old }
        ensures lists { OnOk result (self.new.lists.items ≡ []) }
        ensures full { OnOk result (IsFull self.new.draft self.new.front.items) }
        ensures first { OnOk result (spelled self.new.draft ≡ [] → self.new.front.items ≡ []) }
    {
        self.gather()?;
        spell_front(
            self.alloc,
            &mut self.spare,
            &mut self.draft,
            &mut self.front,
        )
    }

    /// Removes the longest prefix that fits one frame. Returns it as two `Commands` that share its sealed frame, or `None`
    /// if nothing is queued. If an allocation fails, the queue has the same commands as before. Linear in the bytes of
    /// the commands that are not yet encoded.
    pub fn take(&mut self) -> Result<Option<(Commands, Commands)>, AllocError>
        ensures none { IfOk result (λ o. MatchOption o (commands_of self.old ≡ []) (λ t. IsBatch t.0)) }
        ensures taken { IfOk result (λ o. MatchOption o ⊤ (λ t. (t.0 ≡ take (in_frame (commands_of self.old)) (commands_of self.old)) × (t.1 ≡ t.0))) }
        ensures rest { OnOk result (commands_of self.new ≡ drop (in_frame (commands_of self.old)) (commands_of self.old)) }
        ensures err { OnErr result (commands_of self.new ≡ commands_of self.old) }
    {
        self.fill()?;
        match share(&mut self.draft)? {
            None => Ok(None),
            Some(kept) => {
                let leaving = kept.clone()?;
                self.draft = None;
                Ok(Some((leaving, kept)))
            }
        }
    }

    /// Keeps the memory of a settled batch for the next draft, unless a clone shares it or there is such memory already.
    pub fn reuse(&mut self, settled: Commands)
        ensures { commands_of self.new ≡ commands_of self.old }
    {
        if self.spare.is_none() {
            self.spare = settled.into_draft();
        }
    }
}
