//! COMMIT (OffsetCommit request): the offsets are stored, and the member is heard in place.
ghost use Rattle.std.specs.Prelude.{◌≡◌, ℕ, Ok, Err, None, Some, false, true, is_ok, length, map, IfErr, IfOk, MatchOption, MatchResult, OnErr};
ghost use Rattle.cg_group.specs.InPlace.{IsCommitIn};
ghost use Rattle.cg_group.specs.Machine.{commit, concluded};
ghost use Rattle.cg_group_table.specs.GroupTable.{InOrder, at_moment, find_group, outcome, with_group};
ghost use Rattle.cg_group_table.specs.SessionIndex.{StayParked};
ghost use Rattle.cg_group_rules.specs.Join.{new_group};
ghost use Rattle.cg_group_state.specs.Offsets.{offsets_after};
ghost use Rattle.cg_group_state.specs.declared.group.Group.{Group};
ghost use Rattle.cg_request.specs.Commits.{is_too_large, kept_entry};
ghost use Rattle.cg_request.specs.declared.ticket.Ticket.{Ticket};
ghost use Rattle.cg_group_rules.specs.OffsetCommit.{commit_at, commit_effects, commit_unheld, committed, heard_at};

use crate::single_reply::{Hearing, reply_alone};
use cg_fold::Offsets;
use cg_group_rules::{
    RequestContext, commit_at, hear_committer, kept, new_group, new_group_commit_refusal,
};
use cg_group_state::{Effects, Group, Reply};
use cg_group_table::{GroupChange, GroupTable};
use cg_names::{Code, GroupId, MemberId, Moment};
use cg_record::Committed;
use cg_request::{CommitRequest, Commits, Ticket, into_entries};
use std::alloc::AllocError;

/// The checks of a COMMIT, as a change of its group: the committing member is heard.
#[derive(Drop)]
struct CommitCheck<'a> {
    now: Moment,
    request: &'a CommitRequest,
}

impl<'a> GroupChange for CommitCheck<'a> {
    ghost use Rattle.std.specs.Prelude.{◌≡◌, MatchResult};
    ghost use Rattle.cg_group_rules.specs.OffsetCommit.{IsCommit, IsCommitRefused};

    type Output = Result<Option<Moment>, Code>;

    ghost Becomes = { λ k g after x. MatchResult x
        (IsCommit k.now k.request.now g after)
        (λ code. IsCommitRefused k.request.now g code × (after ≡ g)) };

    fn change(self, group: &mut Group) -> Result<Option<Moment>, Code> {
        hear_committer(self.now, self.request, group)
    }
}

// Checks a COMMIT in the group with this id, and marks the committing member as heard. Returns the moment at which it was last
// heard before, or `None` if the group is not loaded.
fn check_commit(
    now: Moment,
    held: &mut GroupTable,
    own: &GroupId,
    r: &CommitRequest,
) -> Option<Result<Option<Moment>, Code>>
    requires { r.now.group ≡ Some own.now }
    ensures { MatchOption result
        ((find_group own.now held.old ≡ None) × (held.new ≡ held.old))
        (λ checked. MatchResult checked
        (IsCommitIn now r.now held.old held.new own.now)
        (λ code. ((now : ℕ) (ticket : Ticket) → commit now r.now ticket held.old ≡ Err code) × (held.new ≡ held.old))) }
{
    held.hear(own, now, CommitCheck { now, request: r })
}

// Stores a commit whose metadata is within its limits. The id and the entries move into the command. If an allocation fails, the
// offsets are as they were, and the id comes back.
#[tactic(auto, unfolding(cg_fold::specs::Durable::effect))]
fn store(
    context: RequestContext,
    offsets: &mut Offsets,
    id: GroupId,
    entries: Commits,
) -> Result<Effects, (AllocError, GroupId)>
    requires { is_too_large entries ≡ false }
    ensures ok { IfOk result (λ e. e ≡ commit_effects (commit_at context.now (map kept_entry entries) id) context.ticket) }
    ensures offsets { IfOk result (λ e. offsets.new ≡ offsets_after offsets.old e.commands) }
    ensures back { IfErr result (λ back. back.1 ≡ id) }
    ensures err { OnErr result (offsets.new ≡ offsets.old) }
{
    let entries = match into_entries(context.alloc, entries) {
        Ok(Some(entries)) => entries,
        Ok(None) => unreachable!(),
        Err(wanting) => return Err((wanting, id)),
    };
    let committed = commit_at(context.now, entries, id);
    match offsets.commit(&committed) {
        Ok(()) => Ok(kept(context.alloc, committed, context.ticket)),
        Err(wanting) => {
            let Committed { group, .. } = committed;
            Err((wanting, group))
        }
    }
}

// Creates the group that a COMMIT names, without members, and stores the commit. If an allocation fails, neither
// changes.
fn commit_new(
    context: RequestContext,
    held: &mut GroupTable,
    offsets: &mut Offsets,
    id: GroupId,
    entries: Commits,
) -> Result<Effects, AllocError>
    requires absent { find_group id held.old ≡ None }
    requires small { is_too_large entries ≡ false }
    ensures ok { IfOk result
        (λ e. concluded (at_moment context.now held.old) context.ticket (Ok (committed context.now entries context.ticket (new_group id))) ≡ outcome (at_moment context.now held.new) e) }
    ensures parked { StayParked held.old held.new }
    ensures offsets { IfOk result (λ e. offsets.new ≡ offsets_after offsets.old e.commands) }
    ensures err { OnErr result ((held.new ≡ held.old) × (offsets.new ≡ offsets.old)) }
{
    let own = id.clone()?;
    held.put(new_group(context.alloc, own))?;
    match store(context, offsets, id, entries) {
        Ok(effects) => Ok(effects),
        Err((wanting, id)) => {
            held.remove(&id);
            Err(wanting)
        }
    }
}

// Processes a COMMIT whose group is not loaded.
fn commit_apart(
    context: RequestContext,
    held: &mut GroupTable,
    offsets: &mut Offsets,
    id: GroupId,
    generation: i32,
    entries: Commits,
) -> Result<Effects, AllocError>
    requires { find_group id held.old ≡ None }
    ensures ok { IfOk result
        (λ e. concluded (at_moment context.now held.old) context.ticket (commit_unheld context.now generation entries context.ticket (length held.old) id) ≡ outcome (at_moment context.now held.new) e) }
    ensures parked { StayParked held.old held.new }
    ensures offsets { IfOk result (λ e. offsets.new ≡ offsets_after offsets.old e.commands) }
    ensures err { OnErr result ((held.new ≡ held.old) × (offsets.new ≡ offsets.old)) }
    ensures taken { OnErr result (is_ok (commit_unheld context.now generation entries context.ticket (length held.old) id) ≡ true) }
{
    if let Some(code) = new_group_commit_refusal(generation, &entries, held.len()) {
        return Ok(reply_alone(context.alloc, context.ticket, Reply::Refused(code)));
    }
    let effects = commit_new(context, held, offsets, id, entries)?;
    Ok(effects)
}

// Sets the moment at which the committing member was last heard, if there is one, to this one again.
fn unhear(held: &mut GroupTable, own: &GroupId, member: &Option<MemberId>, before: Option<Moment>)
    requires { InOrder held.old }
    ensures { (g : Group) → find_group own.now held.old ≡ Some g → held.new ≡ with_group (heard_at member.now before g) held.old }
{
    if let Some(id) = member {
        if let Some(now) = before {
            let _heard = held.hear(own, now, Hearing { now, id });
        }
    }
}

// Stores a COMMIT that passed its checks in the loaded group with this id; its member was last heard `before`. If an allocation
// fails, the member was last heard then again.
fn commit_heard(
    context: RequestContext,
    held: &mut GroupTable,
    offsets: &mut Offsets,
    id: GroupId,
    member: &Option<MemberId>,
    before: Option<Moment>,
    entries: Commits,
) -> Result<Effects, AllocError>
    requires in_order { InOrder held.old }
    requires small { is_too_large entries ≡ false }
    ensures ok { IfOk result (λ e. (held.new ≡ held.old) × (e ≡ commit_effects (commit_at context.now (map kept_entry entries) id) context.ticket)) }
    ensures offsets { IfOk result (λ e. offsets.new ≡ offsets_after offsets.old e.commands) }
    ensures back { OnErr result ((g : Group) → find_group id held.old ≡ Some g → held.new ≡ with_group (heard_at member.now before g) held.old) }
    ensures err { OnErr result (offsets.new ≡ offsets.old) }
{
    match store(context, offsets, id, entries) {
        Ok(effects) => Ok(effects),
        Err((wanting, id)) => {
            unhear(held, &id, member, before);
            Err(wanting)
        }
    }
}

/// Processes a COMMIT: stores it in the loaded group, or in a new one. One look-up of the group and one of the member, and a pass
/// over the members if an instance is given. Only a COMMIT that is not refused needs an allocation.
pub fn handle_commit(
    now: Moment,
    held: &mut GroupTable,
    offsets: &mut Offsets,
    ticket: Ticket,
    r: CommitRequest,
) -> Result<Effects, AllocError>
    ensures ok { IfOk result
        (λ e. concluded (at_moment now held.old) ticket (commit now r ticket held.old) ≡ outcome (at_moment now held.new) e) }
    ensures parked { StayParked held.old held.new }
    ensures offsets { IfOk result (λ e. offsets.new ≡ offsets_after offsets.old e.commands) }
    ensures err { OnErr result ((held.new ≡ held.old) × (offsets.new ≡ offsets.old)) }
    ensures taken { OnErr result (is_ok (commit now r ticket held.old) ≡ true) }
{
    let alloc = held.allocator();
    let context = RequestContext { alloc, now, ticket };
    let Some(own) = &r.group else {
        return Ok(reply_alone(alloc, ticket, Reply::Refused(Code::InvalidGroupId)));
    };
    let checked = check_commit(now, held, own, &r);
    let CommitRequest {
        group,
        generation,
        member,
        entries,
        ..
    } = r;
    let Some(id) = group else { unreachable!() };
    match checked {
        None => {
            let effects = commit_apart(context, held, offsets, id, generation, entries)?;
            Ok(effects)
        }
        Some(Err(code)) => Ok(reply_alone(alloc, ticket, Reply::Refused(code))),
        Some(Ok(before)) => {
            let effects = commit_heard(context, held, offsets, id, &member, before, entries)?;
            Ok(effects)
        }
    }
}
