//! Laws of the desk. They relate definitions of `specs/`, so the bodies are empty; the contracts carry them over to
//! `Desk`.
ghost use Rattle.cg_desk.specs.Balanced.{IsBalancedAt};
ghost use Rattle.cg_desk.specs.Desks.{state_of};
ghost use Rattle.cg_desk.specs.Laws.{BatchesAreLongest, CommandsAreCountedOnce, CommandsMakeRecords, DesksHaveDistinctMembers, DesksStayBalanced, RepliesFindTheirCalls, TicketsAreKept};
ghost use Rattle.cg_desk.specs.Made.{EventsKeepCalls};
ghost use Rattle.cg_desk.specs.Turns.{TurnsKeepTheirCalls};

use crate::desk::Desk;

/// Each request gets at most one reply, and is pending until then: in every call of a desk the tickets of pending requests
/// change only by the ticket that comes in and the tickets of the replies that leave.
pub fn tickets_are_kept()
    ensures { TicketsAreKept }
{}

/// A batch that is taken from the queue is its longest prefix whose encoding fits one frame.
pub fn batches_are_longest()
    ensures { BatchesAreLongest }
{}

/// In its group, each event answers the request that it comes from and the parked ones once, or leaves them parked.
pub fn turns_keep_their_calls()
    ensures { TurnsKeepTheirCalls }
{}

/// Over all groups, each event answers the request that it comes from and the parked ones once, or leaves them parked.
/// This holds of every machine that events make after recovery; recovery itself parks no request.
pub fn events_keep_calls()
    ensures { EventsKeepCalls }
{}

/// Lawful commands make lawful records, which `Desk::loaded` requires of the state that it loads.
pub fn commands_make_records()
    ensures { CommandsMakeRecords }
{}

/// From recovery on, each pending request has one token: its reply is held, or it is parked in the machine.
pub fn desks_stay_balanced()
    ensures { DesksStayBalanced }
{}

/// Every desk is balanced, as an invariant of its type.
pub fn desks_are_balanced(_desk: &Desk)
    ensures { ∥ IsBalancedAt (state_of _desk.now) ∥₁ }
{}

/// Each command is counted by at most one reply: the numbers of the replies that a request makes are together at most the
/// commands that it makes, if no pending request has its ticket.
pub fn commands_are_counted_once()
    ensures { CommandsAreCountedOnce }
{}

/// In a desk that is balanced, no two members of a group have one id or one instance.
pub fn desks_have_distinct_members()
    ensures { DesksHaveDistinctMembers }
{}

/// Each held reply finds the token of its request, and leaves as soon as its commands are settled. The requests that a
/// failure refuses are the pending ones, each once.
pub fn replies_find_their_calls()
    ensures { RepliesFindTheirCalls }
{}
