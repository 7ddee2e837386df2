//! A snapshot that is made as it is read.
ghost use Rattle.std.specs.Prelude.{◌≡◌, ◌∷◌, [], IfOk};
ghost use Rattle.std.specs.Option.{MatchOption};
ghost use Rattle.std.specs.Vec.Iter.{into_iter_items};
ghost use Rattle.cg_fold.specs.Snapshot.{AreListed, left_of, snapshot_of};

use crate::durable::Durable;
use crate::first_group::pop_first;
use crate::owned_commands::commands_from;
use crate::records::Records;
use crate::shelves::Shelves;
use cg_record::Command;
use std::alloc::{AllocError, Global};
use std::marker::Model;
use std::vec::IntoIter;

/// The commands of a snapshot that are left. Contracts see them in order. It takes the state apart, group by group:
/// topics, rosters and metadata are moved into the commands, and their memory is free once the commands are dropped.
#[derive(Drop)]
pub struct Snapshot {
    alloc: Global,
    // The groups whose commands were not made yet.
    records: Records,
    shelves: Shelves,
    // The commands of the last group that are left.
    commands: IntoIter<Command>,
}

impl Model for Snapshot {
    ghost use Rattle.std.specs.Prelude.{List};
    ghost use Rattle.std.specs.Vec.Iter.{into_iter_items};
    ghost use Rattle.cg_record.specs.declared.command.Command.{Command};
    ghost use Rattle.cg_fold.specs.Snapshot.{AreListed, left_of};

    ghost Value = { List Command };

    ghost view = { λ s. left_of (into_iter_items s.commands) s.records.entries s.shelves.entries };

    ghost invariant = { λ s. AreListed s.records.entries s.shelves.entries };
}

// Removes the next command and returns it: of the last group, or else of the first group that is left.
fn next_of(
    alloc: Global,
    commands: &mut IntoIter<Command>,
    records: &mut Records,
    shelves: &mut Shelves,
) -> Result<Option<Command>, AllocError>
    requires { AreListed records.old.entries shelves.old.entries }
    ensures next { IfOk result (λ o. MatchOption o
        ((left_of (into_iter_items commands.old) records.old.entries shelves.old.entries ≡ []) × (left_of (into_iter_items commands.new) records.new.entries shelves.new.entries ≡ []))
        (λ command. left_of (into_iter_items commands.old) records.old.entries shelves.old.entries ≡ command ∷ left_of (into_iter_items commands.new) records.new.entries shelves.new.entries)) }
    ensures listed { AreListed records.new.entries shelves.new.entries }
{
    loop {
        if let Some(command) = commands.next() {
            return Ok(Some(command));
        }
        let Some(first) = pop_first(records, shelves) else {
            return Ok(None);
        };
        *commands = commands_from(alloc, first)?;
    }
}

impl Snapshot {
    /// Takes a state whose commands are to be read, without an allocation.
    pub fn new(alloc: Global, durable: Durable) -> Self
        ensures { result ≡ snapshot_of durable }
    {
        let (records, shelves) = durable.into_maps();
        Snapshot {
            alloc,
            records,
            shelves,
            commands: Vec::new(alloc).into_iter(),
        }
    }

    /// Removes the next command and returns it; `None` if there are no more. If an allocation fails, the commands of a
    /// group may be lost.
    pub fn next(&mut self) -> Result<Option<Command>, AllocError>
        ensures { IfOk result (λ o. MatchOption o
            ((self.old ≡ []) × (self.new ≡ []))
            (λ command. self.old ≡ command ∷ self.new)) }
    {
        let next = next_of(
            self.alloc,
            &mut self.commands,
            &mut self.records,
            &mut self.shelves,
        )?;
        Ok(next)
    }
}
