//! Laws of the machine, for every list of events after recovery from any durable state. They are statements about the
//! definitions; the contracts of `revive` and `step` make them laws of `Groups`. Where a law needs what the types of
//! requests give, the events are an argument.
ghost use Rattle.std.specs.Prelude.{◌≡◌, true};
ghost use Rattle.std.specs.List.{list_any};
ghost use Rattle.cg_group.specs.Laws.{AreRequests, ExpiryIsLawful, MembersStayDistinct, RoundsAreOne, CommitsAreLawful, AssignmentsAreEarned, MachineAndCommandsAgree, is_request};

use cg_names::Moment;
use cg_request::{Commits, Event, Protocols};

/// States that no two members of a group share an id or an instance.
pub fn members_stay_distinct()
    ensures { MembersStayDistinct }
{}

/// States that the JOIN replies of one completed rebalance name the same leader, protocol and generation.
pub fn rounds_are_one()
    ensures { RoundsAreOne }
{}

fn has_protocol(protocols: &Protocols)
    ensures { list_any (λ p. true) protocols.now ≡ true }
{
    let _protocols = protocols.as_slice();
}

fn has_entry(entries: &Commits)
    ensures { list_any (λ e. true) entries.now ≡ true }
{
    let _entries = entries.as_slice();
}

fn is_request(event: &Event)
    ensures { is_request event.now ≡ true }
{
    match event {
        Event::Join(_, r, _) => has_protocol(&r.protocols),
        Event::Commit(_, r) => has_entry(&r.entries),
        Event::Sync(..)
        | Event::Beat(..)
        | Event::Leave(..)
        | Event::Fetch(..)
        | Event::Delete(..)
        | Event::Drop(..)
        | Event::Describe(..)
        | Event::List(_)
        | Event::Gone(_)
        | Event::Tick => {}
    }
}

/// States what the types of requests give for each event of a list: a JOIN lists a protocol, and a COMMIT has an entry.
pub fn events_are_requests(events: &[(Event, Moment)])
    ensures { AreRequests events.now }
{
    match events {
        [] => {}
        [(event, _), others @ ..] => {
            is_request(event);
            events_are_requests(others);
        }
    }
}

/// States that a COMMIT is refused, or has a negative generation and a group without members, or comes from a member
/// that is not fenced and gave the group's generation, while the group is in PreparingRebalance or Stable.
pub fn commits_are_lawful(events: &[(Event, Moment)])
    ensures { CommitsAreLawful events.now }
{
    events_are_requests(events);
}

/// States that a SYNC reply goes to a member that gave the generation of its group, and has the assignment that the
/// commands store for it. A replacement has the assignment of the replaced member (KIP-345).
pub fn assignments_are_earned(events: &[(Event, Moment)])
    ensures { AssignmentsAreEarned events.now }
{
    events_are_requests(events);
}

/// States that a tick deletes a group only where its record has no members and its retention time is over, and that it makes an
/// offset expire only where that of the offset is over and the group has no record (KIP-211).
pub fn expiry_is_lawful(events: &[(Event, Moment)])
    ensures { ExpiryIsLawful events.now }
{
    events_are_requests(events);
}

/// States that the offsets are those of the commands, that each group with a record or an offset is loaded, that a
/// stable or empty group equals its record, and that a group without a record and offsets is loaded only while a
/// rebalance is under way in it.
pub fn machine_and_commands_agree(events: &[(Event, Moment)])
    ensures { MachineAndCommandsAgree events.now }
{
    events_are_requests(events);
}
