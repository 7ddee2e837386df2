//! COMMIT (OffsetCommit request): its checks and its command.
ghost use Rattle.std.specs.Prelude.{◌≡◌, ℕ, List, Ok, Err, Some, false, MatchOption, MatchResult};
ghost use Rattle.cg_group_rules.specs.OffsetCommit.{IsCommit, IsCommitRefused, commit_at, commit_effects, commit_unheld, committed, is_completing, late_refusal, simple_refusal};
ghost use Rattle.cg_request.specs.Commits.{is_too_large};
ghost use Rattle.cg_group_rules.specs.Join.{new_group};
ghost use Rattle.cg_group_state.specs.Membership.{is_empty};

use crate::group_limit::GROUPS_MAX;
use cg_group_state::{Effects, Few, Group, Phase, Reply, fenced_caller};
use cg_names::{Code, GroupId, Moment};
use cg_record::{Command, Committed, Entries};
use cg_request::{CommitRequest, Commits, Ticket, is_too_large};
use std::alloc::Global;

fn is_completing(phase: Phase) -> bool
    ensures { result ≡ is_completing phase }
{
    matches!(phase, Phase::Completing)
}

// Returns the error code of a COMMIT of a member, of those that come after the member check. No allocation.
fn late_refusal(r: &CommitRequest, group: &Group) -> Option<Code>
    ensures { result ≡ late_refusal r.now group.now }
{
    if i64::from(r.generation) != i64::from(group.generation.get()) {
        return Some(Code::IllegalGeneration);
    }
    if is_completing(group.phase) {
        return Some(Code::RebalanceInProgress);
    }
    if is_too_large(&r.entries) {
        return Some(Code::OffsetMetadataTooLarge);
    }
    None
}

// Checks a COMMIT in a group with members, and marks the committing member as heard. Returns the moment at which it was last
// heard before.
fn hear_member(now: Moment, r: &CommitRequest, group: &mut Group) -> Result<Moment, Code>
    requires { is_empty group.old.members ≡ false }
    ensures { MatchResult result
        (λ before. IsCommit now r.now group.old group.new (Some before))
        (λ code. IsCommitRefused r.now group.old code × (group.new ≡ group.old)) }
{
    let id = match fenced_caller(&r.instance, &r.member, &group.members) {
        Ok(id) => id,
        Err(code) => return Err(code),
    };
    if let Some(code) = late_refusal(r, group) {
        if group.members.has(id) {
            return Err(code);
        }
        return Err(Code::UnknownMemberId);
    }
    match group.members.hear(id, now) {
        None => Err(Code::UnknownMemberId),
        Some(before) => Ok(before),
    }
}

// Returns the error code of a COMMIT in a group without members: only one of a simple consumer passes. No allocation.
fn simple_refusal(r: &CommitRequest) -> Option<Code>
    ensures { result ≡ simple_refusal r.now }
{
    if r.generation >= 0 {
        return Some(Code::UnknownMemberId);
    }
    if is_too_large(&r.entries) {
        return Some(Code::OffsetMetadataTooLarge);
    }
    None
}

/// Checks a COMMIT in its group, and marks the committing member as heard. Returns the moment at which it was last heard before,
/// or `None` in a group without members. A COMMIT that is refused changes nothing. One look-up of the member, and a pass over the
/// members if an instance is given. No allocation.
pub fn hear_committer(
    now: Moment,
    r: &CommitRequest,
    group: &mut Group,
) -> Result<Option<Moment>, Code>
    ensures { MatchResult result
        (λ before. IsCommit now r.now group.old group.new before)
        (λ code. IsCommitRefused r.now group.old code × (group.new ≡ group.old)) }
{
    if group.members.len() == 0 {
        return match simple_refusal(r) {
            Some(code) => Err(code),
            None => Ok(None),
        };
    }
    let before = hear_member(now, r, group)?;
    Ok(Some(before))
}

/// Builds the commit of these entries for the group, at this moment, without an allocation.
pub fn commit_at(now: Moment, entries: Entries, group: GroupId) -> Committed
    ensures { result ≡ commit_at now entries group }
{
    Committed {
        group,
        moment: Some(now),
        entries,
    }
}

/// Builds the command that stores the commit, and the reply, without an allocation.
pub fn kept(alloc: Global, committed: Committed, ticket: Ticket) -> Effects
    ensures { result ≡ commit_effects committed ticket }
{
    Effects {
        commands: Few::one(alloc, Command::Committed(committed)),
        replies: Few::one(alloc, (ticket, Reply::Done)),
    }
}

/// Returns the error code of a COMMIT to a group that is not loaded, if it is refused. `loaded` is the number of loaded
/// groups. No allocation.
#[tactic(auto, unfolding(crate::specs::OffsetCommit::commit_unheld))]
pub fn new_group_commit_refusal(generation: i32, entries: &Commits, loaded: usize) -> Option<Code>
    ensures { MatchOption result
        ((is_too_large entries.now ≡ false)
        × ((now : ℕ) (ticket : Ticket) (id : List ℕ) → commit_unheld now generation entries.now ticket loaded id ≡ Ok (committed now entries.now ticket (new_group id))))
        (λ code. (now : ℕ) (ticket : Ticket) (id : List ℕ) → commit_unheld now generation entries.now ticket loaded id ≡ Err code) }
{
    if generation >= 0 {
        return Some(Code::IllegalGeneration);
    }
    if is_too_large(entries) {
        return Some(Code::OffsetMetadataTooLarge);
    }
    if GROUPS_MAX <= loaded {
        return Some(Code::CoordinatorNotAvailable);
    }
    None
}
