//! The test of a trail: the machine runs again over its events.
ghost use Rattle.std.specs.Prelude.{◌≡◌, ◌↔◌, ◌++◌, IsTrue, IfOk, OnOk, MatchOption};
ghost use Rattle.cg_fold.specs.Durable.{folded};
ghost use Rattle.cg_group.specs.Laws.{commands_of};
ghost use Rattle.cg_group_table.specs.Recovery.{revive};
ghost use Rattle.cg_trail.specs.Entries.{events_of, recorded, step_of};
ghost use Rattle.cg_trail.specs.Trails.{AreLawful, BeginsWith, IsLawful, made_by};

use crate::same::are_same;
use crate::trail::Trail;
use crate::trail_entry::TrailEntry;
use cg_fold::Durable;
use cg_group::{Few, Groups};
use cg_names::Moment;
use cg_record::Command;
use std::alloc::{AllocError, Global};

// Builds the state of these commands from the empty one.
fn folded(alloc: Global, commands: &[Command]) -> Result<Durable, AllocError>
    ensures { IfOk result (λ durable. durable ≡ folded commands.now) }
{
    let mut durable = Durable::new(alloc);
    let mut rest = commands;
    while let [command, others @ ..] = rest {
        durable.apply(command)?;
        rest = others;
    }
    Ok(durable)
}

fn revived(alloc: Global, loaded: &[Command], moment: Moment) -> Result<Groups, AllocError>
    ensures { IfOk result (λ groups. groups ≡ revive (folded loaded.now) moment) }
{
    let durable = folded(alloc, loaded)?;
    match Groups::revive(alloc, durable, moment) {
        Ok(groups) => Ok(groups),
        Err((error, _durable)) => Err(error),
    }
}

// Runs the event of an entry, and appends its commands. Returns whether the entry records the replies of its event.
fn replay_entry(
    alloc: Global,
    groups: &mut Groups,
    made: &mut Few<Command>,
    entry: &TrailEntry,
) -> Result<bool, AllocError>
    ensures same { IfOk result (λ is_same. IsTrue is_same ↔ (recorded entry.now ≡ (step_of groups.old entry.now).effects.replies)) }
    ensures after { OnOk result (groups.new ≡ (step_of groups.old entry.now).after) }
    ensures made { OnOk result (made.new ≡ made.old ++ (step_of groups.old entry.now).effects.commands) }
{
    let event = entry.event(alloc)?;
    let effects = groups.step(event, entry.now())?;
    let is_same = are_same(entry.replies(), effects.replies.as_slice());
    made.append(effects.commands)?;
    Ok(is_same)
}

// Runs the events of these entries from a state of the machine. Returns their commands, or `None` if an entry records
// other replies than its event makes.
fn replay_all(
    alloc: Global,
    mut groups: Groups,
    entries: &[TrailEntry],
) -> Result<Option<Few<Command>>, AllocError>
    ensures { IfOk result (λ o. MatchOption o
        (¬ AreLawful entries.now groups)
        (λ made. AreLawful entries.now groups × (made ≡ commands_of (events_of entries.now) groups))) }
{
    let mut made = Few::new(alloc);
    let mut rest = entries;
    while let [entry, others @ ..] = rest {
        if !replay_entry(alloc, &mut groups, &mut made, entry)? {
            return Ok(None);
        }
        rest = others;
    }
    Ok(Some(made))
}

impl Trail {
    /// Tests the trail: the machine runs again over its events, from the loaded state, and its replies are compared
    /// with the recorded ones, entry by entry. Returns the commands that the events make if the trail is lawful, and
    /// `None` if it is not. Copies the loaded state and one request at a time.
    pub fn replay(&self) -> Result<Option<Few<Command>>, AllocError>
        ensures { IfOk result (λ o. MatchOption o
            (¬ IsLawful self.now)
            (λ made. IsLawful self.now × (made ≡ made_by self.now))) }
    {
        let groups = revived(self.alloc, self.loaded.as_slice(), self.moment)?;
        let made = replay_all(self.alloc, groups, self.entries.as_slice())?;
        Ok(made)
    }
}

/// Returns whether the appended commands are the first of those that a trail makes. No allocation.
pub fn begins_with(made: &[Command], appended: &[Command]) -> bool
    ensures { IsTrue result ↔ BeginsWith made.now appended.now }
{
    if made.len() < appended.len() {
        return false;
    }
    let (first, _others) = made.split_at(appended.len());
    are_same(first, appended)
}
