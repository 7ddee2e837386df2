//! SYNC (SyncGroup request): the leader sends the assignments, and each member gets its own.
ghost use Rattle.std.specs.Prelude.{◌≡◌, ◌++◌, ℕ, true, length, Some, Ok, Err, IfOk, MatchResult, OnErr, OnOk, map};
ghost use Rattle.cg_group_state.specs.Membership.{find_member, has_member, is_led};
ghost use Rattle.cg_group_rules.specs.Rebalance.{turned};
ghost use Rattle.cg_group_rules.specs.Sync.{kept_member, kept_roster, assigned_command, synced_reply, reply_to_syncs, sync_taken, sync_held};
ghost use Rattle.cg_group_state.specs.declared.group.Group.{Group};
ghost use Rattle.cg_group_state.specs.declared.member.Member.{Member};
ghost use Rattle.cg_request.specs.declared.ticket.Ticket.{Ticket};
ghost use Rattle.cg_group_rules.specs.SyncSteps.{IsLeader, IsSyncCase, displacing, distributing, handed, handed_back, telling};

use crate::join_reply::subscription_for;
use crate::rebalance::{is_preparing, leads};
use crate::request_context::RequestContext;
use cg_group_state::{
    Calls, Effects, Few, Group, Member, Phase, Reply, Telling, Waits, answer_all, checked_member,
    copied_name, handed_out,
};
use cg_names::{Code, MemberId, Moment, ProtocolName};
use cg_record::{Assigned, Assignment, Command, CompletedGeneration, MemberRecord, Roster};
use cg_request::{SyncEntries, SyncRequest, Ticket};
use std::alloc::{AllocError, Global};

/// Copies the member into the form that a command stores.
pub fn kept_member(
    alloc: Global,
    protocol: &Option<ProtocolName>,
    member: &Member,
) -> Result<MemberRecord, AllocError>
    ensures { IfOk result (λ m. m ≡ kept_member protocol.now member.now) }
{
    let id = member.id.clone()?;
    let instance = copied_name(&member.instance)?;
    let client = member.client.clone()?;
    let subscription = subscription_for(alloc, protocol, member.protocols.as_slice())?;
    let assignment = member.assignment.clone()?;
    Ok(MemberRecord {
        id,
        instance,
        client,
        session: member.session,
        rebalance: member.rebalance,
        subscription,
        assignment,
    })
}

fn kept_members(
    alloc: Global,
    protocol: &Option<ProtocolName>,
    members: &[Member],
) -> Result<Vec<MemberRecord>, AllocError>
    ensures { IfOk result (λ ms. ms.items ≡ map (kept_member protocol.now) members.now) }
{
    let mut kept = Vec::with_capacity(alloc, members.len())?;
    for member in members {
        kept.push(kept_member(alloc, protocol, member)?)?;
    }
    Ok(kept)
}

// Copies the members into the form that a command stores, with this protocol and leader.
#[tactic(auto, using(crate::proofs::Rostering::kept_roster_is))]
fn kept_roster(
    alloc: Global,
    protocol: &ProtocolName,
    leader: &MemberId,
    group: &Group,
) -> Result<Roster, AllocError>
    requires { has_member leader.now group.now.members ≡ true }
    ensures { IfOk result (λ roster. roster ≡ kept_roster protocol.now leader.now group.now) }
{
    let protocol = protocol.clone()?;
    let leader = leader.clone()?;
    let members = kept_members(alloc, &group.protocol, group.members.as_slice())?;
    Ok(Roster::from_lawful(protocol, leader, members))
}

// Appends the command that the generation has its assignments.
#[tactic(auto, unfolding(crate::specs::Sync::assigned_command))]
fn push_assigned(
    alloc: Global,
    group: &Group,
    commands: &mut Few<Command>,
) -> Result<(), AllocError>
    requires { is_led group.now ≡ true }
    ensures { OnOk result (commands.new ≡ commands.old ++ assigned_command group.now) }
{
    let Some(generation) = CompletedGeneration::new(group.generation.get()) else {
        return Ok(());
    };
    let Some(kind) = &group.kind else {
        return Ok(());
    };
    let Some(protocol) = &group.protocol else {
        return Ok(());
    };
    let Some(leader) = &group.leader else {
        return Ok(());
    };
    let id = group.id.clone()?;
    let kind = kind.clone()?;
    let roster = kept_roster(alloc, protocol, leader, group)?;
    commands.push(Command::Assigned(Assigned {
        group: id,
        generation,
        kind,
        roster,
    }))
}

/// The rule that replies to each SYNC with the member's assignment.
#[derive(Drop)]
pub struct TellingSynced;

impl Telling for TellingSynced {
    ghost use Rattle.cg_group_rules.specs.Sync.{synced_reply};

    ghost tells = { λ _ m. synced_reply m };

    fn tell(&self, member: &Member) -> Result<Reply, AllocError> {
        let assignment = member.assignment.clone()?;
        Ok(Reply::Synced(assignment))
    }
}

/// How a SYNC that is not refused is processed.
#[derive(Drop)]
pub enum SyncCase {
    /// The member gets this assignment at once.
    Current(Assignment),
    /// The call is only parked, in place of this older call of the member.
    Parked(Option<Ticket>),
    /// The member leads, and hands the assignments in.
    Leading,
}

/// Returns the member whose SYNC is not refused, with the id that the SYNC gives, or the error code. No allocation.
#[tactic(auto, unfolding(crate::specs::Sync::sync_held))]
pub fn syncer<'a, 'b>(
    r: &'a SyncRequest,
    group: &'b Group,
) -> Result<(&'a MemberId, &'b Member), Code>
    ensures taken { MatchResult result
        (λ who. (now : ℕ) (ticket : Ticket) → sync_held now r.now ticket group.now ≡ Ok (sync_taken now r.now who.0.now ticket who.1.now group.now group.now.phase))
        (λ code. (now : ℕ) (ticket : Ticket) → sync_held now r.now ticket group.now ≡ Err code) }
    ensures found { IfOk result (λ who. find_member who.0.now group.now.members ≡ Some who.1.now) }
{
    let (id, member) = checked_member(&r.instance, &r.member, &group.members)?;
    if i64::from(r.generation) != i64::from(group.generation.get()) {
        return Err(Code::IllegalGeneration);
    }
    if is_preparing(group.phase) {
        return Err(Code::RebalanceInProgress);
    }
    Ok((id, member))
}

/// Returns how the SYNC of this member is processed, if it is not refused. Copies the assignment that the member gets at once.
#[tactic(auto, unfolding(crate::specs::Sync::sync_taken, crate::specs::Sync::sync_waits))]
pub fn case_of(group: &Group, member: &Member) -> Result<SyncCase, AllocError>
    ensures { IfOk result (λ t. IsSyncCase group.now member.now t) }
{
    match group.phase {
        Phase::Completing => {
            if leads(group, member) {
                return Ok(SyncCase::Leading);
            }
            Ok(SyncCase::Parked(Calls::Any.called(member.waits)))
        }
        _ => {
            let assignment = member.assignment.clone()?;
            Ok(SyncCase::Current(assignment))
        }
    }
}

// Builds the effects of a call that parks in the place of the member's older one: that call gets 27. No allocation.
fn displacing(alloc: Global, member: &Member) -> Effects
    ensures { result ≡ displacing member.now }
{
    Effects {
        commands: Few::new(alloc),
        replies: match Calls::Any.called(member.waits) {
            None => Few::new(alloc),
            Some(older) => Few::one(alloc, (older, Reply::Refused(Code::RebalanceInProgress))),
        },
    }
}

// Parks the leader's SYNC and exchanges the assignments, in Stable.
fn hand_out(now: Moment, ticket: Ticket, id: &MemberId, list: &mut [Assignment], group: &mut Group)
    requires { length list.old ≡ length group.old.members }
    ensures group { group.new ≡ handed now id.now ticket list.old group.old }
    ensures list { list.new ≡ map (λ m. m.assignment) group.old.members }
{
    group.members.hear(id, now);
    group.members.wait(id, Waits::Sync(ticket), now);
    group.members.exchange_assignments(list);
    group.phase = Phase::Stable;
}

// Undoes that, with the assignments that the members had.
#[tactic(auto, unfolding(crate::specs::SyncSteps::handed_back))]
fn hand_back(
    id: &MemberId,
    heard: Moment,
    waits: Waits,
    phase: Phase,
    list: &mut [Assignment],
    group: &mut Group,
)
    requires { length list.old ≡ length group.old.members }
    ensures { group.new ≡ handed_back id.now heard waits phase list.old group.old }
{
    group.members.exchange_assignments(list);
    group.members.recall(id, heard, waits);
    group.phase = phase;
}

// Appends the command that the generation has its assignments, and the replies to the parked SYNCs.
fn tell(alloc: Global, group: &Group, effects: &mut Effects) -> Result<(), AllocError>
    requires { is_led group.now ≡ true }
    ensures { OnOk result (effects.new ≡ telling group.now effects.old) }
{
    let telling = TellingSynced;
    let members = group.members.as_slice();
    push_assigned(alloc, group, &mut effects.commands)?;
    answer_all(Calls::Syncs, &telling, members, &mut effects.replies)?;
    Ok(())
}

// Hands the assignments out, and tells of it. If an allocation fails, the group is as it was.
fn hand_over(
    context: RequestContext,
    id: &MemberId,
    leader: (Moment, Waits),
    list: &mut [Assignment],
    group: &mut Group,
    effects: &mut Effects,
) -> Result<(), AllocError>
    requires many { length list.old ≡ length group.old.members }
    requires leads { IsLeader id.now group.old }
    requires leader { (m : Member) → find_member id.now group.old.members ≡ Some m → leader ≡ (m.heard, m.waits) }
    ensures ok { OnOk result (let g : Group = handed context.now id.now context.ticket list.old group.old in turned group.new effects.new ≡ reply_to_syncs context.now (record { group = g; replies = effects.old.replies; commands = effects.old.commands ++ assigned_command g })) }
    ensures err { OnErr result (group.new ≡ group.old) }
{
    let phase = group.phase;
    hand_out(context.now, context.ticket, id, list, group);
    match tell(context.alloc, group, effects) {
        Ok(()) => {
            group.members.answer(Calls::Syncs, context.now);
            Ok(())
        }
        Err(wanting) => {
            let (heard, waits) = leader;
            hand_back(id, heard, waits, phase, list, group);
            Err(wanting)
        }
    }
}

/// Distributes the assignments that the leader hands in: its SYNC is parked, each member gets the assignment of its entry, moved
/// out of the request, and the parked SYNCs get their replies. If an allocation fails, the group is as it was.
pub fn distribute_in(
    context: RequestContext,
    entries: SyncEntries,
    id: &MemberId,
    group: &mut Group,
) -> Result<Effects, AllocError>
    requires { IsLeader id.now group.old }
    ensures ok { IfOk result (λ e. turned group.new e ≡ distributing context.now id.now context.ticket entries group.old) }
    ensures err { OnErr result (group.new ≡ group.old) }
{
    let mut list = handed_out(context.alloc, entries, &group.members)?;
    let Some(member) = group.members.find(id) else {
        unreachable!();
    };
    let leader = (member.heard, member.waits);
    let mut effects = displacing(context.alloc, member);
    hand_over(
        context,
        id,
        leader,
        list.as_mut_slice(),
        group,
        &mut effects,
    )?;
    Ok(effects)
}
