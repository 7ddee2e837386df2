//! The rebalance: its start and its completion (KIP-62).
ghost use Rattle.std.specs.Prelude.{◌≡◌, true, ◌&&◌, ◌||◌, ◌++◌, Some, None, IfOk, OnOk, OnErr, find, option_map};
ghost use Rattle.std.specs.List.{list_all, list_any};
ghost use Rattle.cg_group_rules.specs.Rebalance.{turned, begun, joined_reply, next_leader, init_next_generation, emptied_command, complete_join, is_ready, try_complete_join};
ghost use Rattle.cg_group_state.specs.Membership.{is_empty, is_preparing, leads};
ghost use Rattle.cg_group_state.specs.Staying.{remaining, stays};
ghost use Rattle.cg_names.specs.Generations.{next_generation};
ghost use Rattle.cg_group_state.specs.Waiting.{answers, is_waiting, refusing};
ghost use Rattle.cg_group_rules.specs.RebalancePlan.{IsPlan, among, in_round, rounded};

use crate::join_reply::{TellingJoined, Told, is_leader};
use cg_group_state::{
    Calls, Effects, Few, Group, Member, Phase, Refusing, Reply, Staying, answer_staying,
    copied_name, is_waiting, select_protocol,
};
use cg_names::{Code, Generation, MemberId, Moment, ProtocolName};
use cg_record::{Command, CompletedGeneration, Emptied};
use cg_request::Ticket;
use std::alloc::{AllocError, Global};

/// Returns whether a rebalance is under way.
pub fn is_preparing(phase: Phase) -> bool
    ensures { result ≡ is_preparing phase }
{
    matches!(phase, Phase::Preparing)
}

/// Appends 27 for every parked SYNC of the members that stay, as a rebalance does when it begins.
pub(crate) fn refuse_syncs_of(
    who: &Staying,
    members: &[Member],
    replies: &mut Few<(Ticket, Reply)>,
) -> Result<(), AllocError>
    ensures { OnOk result (replies.new ≡ replies.old ++ answers Calls.Syncs (refusing Code.RebalanceInProgress) (remaining who.now members.now)) }
{
    let refusing = Refusing(Code::RebalanceInProgress);
    answer_staying(Calls::Syncs, &refusing, who, members, replies)?;
    Ok(())
}

/// Appends 27 for every parked SYNC, as a rebalance does when it begins.
#[tactic(auto, using(cg_group_state::proofs::Remaining::all_stay))]
pub fn refuse_syncs(
    members: &[Member],
    replies: &mut Few<(Ticket, Reply)>,
) -> Result<(), AllocError>
    ensures { OnOk result (replies.new ≡ replies.old ++ answers Calls.Syncs (refusing Code.RebalanceInProgress) members.now) }
{
    refuse_syncs_of(&Staying::All, members, replies)?;
    Ok(())
}

// Begins a rebalance: every parked SYNC has its reply.
fn begin(now: Moment, group: &mut Group)
    ensures { group.new ≡ begun true now group.old }
{
    group.members.answer(Calls::Syncs, now);
    group.phase = Phase::Preparing;
    group.started = now;
}

/// Returns whether the member leads the group.
pub fn leads(group: &Group, member: &Member) -> bool
    ensures { result ≡ leads group.now member.now }
{
    is_leader(&group.leader, member)
}

fn leader_waits(who: &Staying, group: &Group) -> bool
    ensures { result ≡ list_any (λ m. leads group.now m && is_waiting Calls.Joins m) (remaining who.now group.now.members) }
{
    group
        .members
        .as_slice()
        .iter()
        .filter(|m| who.keeps(m))
        .any(|m| leads(group, m) && is_waiting(Calls::Joins, m))
}

fn first_waiting(who: &Staying, members: &[Member]) -> Result<Option<MemberId>, AllocError>
    ensures { IfOk result (λ id. id ≡ option_map (λ m. m.id) (find (is_waiting Calls.Joins) (remaining who.now members.now))) }
{
    let mut staying = members.iter().filter(|m| who.keeps(m));
    match staying.find(|m| is_waiting(Calls::Joins, m)) {
        None => Ok(None),
        Some(m) => {
            let id = m.id.clone()?;
            Ok(Some(id))
        }
    }
}

#[tactic(auto, unfolding(crate::specs::Rebalance::next_leader))]
fn next_leader(who: &Staying, group: &Group) -> Result<Option<MemberId>, AllocError>
    ensures { IfOk result (λ leader. leader ≡ next_leader (among who.now group.now)) }
{
    if leader_waits(who, group) {
        let leader = copied_name(&group.leader)?;
        Ok(leader)
    } else {
        let leader = first_waiting(who, group.members.as_slice())?;
        Ok(leader)
    }
}

/// What a rebalance sets in its group as it completes.
#[derive(Drop)]
pub struct Round {
    phase: Phase,
    generation: Generation,
    protocol: Option<ProtocolName>,
    leader: Option<MemberId>,
    /// When the group was last emptied.
    emptied: Option<Moment>,
}

// Returns the round that follows, with the protocol of the vote of the members that stay and with their leader.
#[tactic(auto, unfolding(crate::specs::Rebalance::init_next_generation))]
fn init_next_generation(alloc: Global, who: &Staying, group: &Group) -> Result<Round, AllocError>
    ensures { IfOk result (λ r. in_round r (among who.now group.now) ≡ init_next_generation (among who.now group.now)) }
{
    let protocol = select_protocol(alloc, who, group.members.as_slice())?;
    let leader = next_leader(who, group)?;
    Ok(Round {
        phase: Phase::Completing,
        generation: group.generation.next(),
        protocol,
        leader,
        emptied: group.emptied,
    })
}

// Appends the command that the generation has no members from this moment on. A group that never had a member has no type and
// gets no command.
#[tactic(auto, unfolding(crate::specs::Rebalance::emptied_command))]
fn push_emptied(
    now: Moment,
    generation: Generation,
    group: &Group,
    commands: &mut Few<Command>,
) -> Result<(), AllocError>
    ensures { OnOk result (commands.new ≡ commands.old ++ emptied_command now (record group.now { generation = generation })) }
{
    let Some(generation) = CompletedGeneration::new(generation.get()) else {
        return Ok(());
    };
    let Some(kind) = &group.kind else {
        return Ok(());
    };
    let kind = kind.clone()?;
    let id = group.id.clone()?;
    commands.push(Command::Emptied(Emptied {
        group: id,
        generation,
        kind,
        moment: Some(now),
    }))?;
    Ok(())
}

// Returns the round of a group that is empty from this moment on, and appends its command.
fn emptied_round(
    now: Moment,
    group: &Group,
    commands: &mut Few<Command>,
) -> Result<Round, AllocError>
    ensures round { IfOk result (λ r. r ≡ record { phase = Phase.Empty; generation = next_generation group.now.generation; protocol = None; leader = None; emptied = Some now }) }
    ensures commands { OnOk result (commands.new ≡ commands.old ++ emptied_command now (record group.now { generation = next_generation group.now.generation })) }
{
    let generation = group.generation.next();
    push_emptied(now, generation, group, commands)?;
    Ok(Round {
        phase: Phase::Empty,
        generation,
        protocol: None,
        leader: None,
        emptied: Some(now),
    })
}

// Returns the round that follows, and appends the reply to every parked JOIN of the members that stay.
#[tactic(auto, unfolding(crate::specs::Rebalance::joined_reply, crate::specs::Rebalance::joined_members))]
fn told_round(
    alloc: Global,
    who: &Staying,
    group: &Group,
    replies: &mut Few<(Ticket, Reply)>,
) -> Result<Round, AllocError>
    ensures round { IfOk result (λ r. in_round r (among who.now group.now) ≡ init_next_generation (among who.now group.now)) }
    ensures replies { OnOk result (replies.new ≡ replies.old ++ answers Calls.Joins (joined_reply (init_next_generation (among who.now group.now))) (remaining who.now group.now.members)) }
{
    let round = init_next_generation(alloc, who, group)?;
    let members = group.members.as_slice();
    let told = Told {
        generation: round.generation,
        kind: &group.kind,
        protocol: &round.protocol,
        leader: &round.leader,
        members,
        staying: who,
    };
    let telling = TellingJoined { alloc, told };
    answer_staying(Calls::Joins, &telling, who, members, replies)?;
    Ok(round)
}

fn some_stay(who: &Staying, members: &[Member]) -> bool
    ensures { result ≡ list_any (stays who.now) members.now }
{
    members.iter().any(|m| who.keeps(m))
}

/// Returns whether no member stays.
#[tactic(auto, using(cg_group_state::proofs::Remaining::none_remain))]
pub(crate) fn none_stays(who: &Staying, members: &[Member]) -> bool
    ensures { result ≡ is_empty (remaining who.now members.now) }
{
    !some_stay(who, members)
}

/// Returns the round with which the rebalance of the members that stay completes at this moment, and appends the effects of
/// that. The group stays as it is.
pub(crate) fn completion(
    alloc: Global,
    now: Moment,
    who: &Staying,
    group: &Group,
    effects: &mut Effects,
) -> Result<Round, AllocError>
    ensures { IfOk result (λ r. complete_join now (turned (among who.now group.now) effects.old) ≡ turned (rounded now (Some r) (among who.now group.now)) effects.new) }
{
    if none_stays(who, group.members.as_slice()) {
        let round = emptied_round(now, group, &mut effects.commands)?;
        return Ok(round);
    }
    let round = told_round(alloc, who, group, &mut effects.replies)?;
    Ok(round)
}

/// Returns whether a rebalance begins or is under way.
pub(crate) fn is_under_way(begins: bool, phase: Phase) -> bool
    ensures { result ≡ (begins || is_preparing phase) }
{
    begins || is_preparing(phase)
}

fn have_joined(who: &Staying, members: &[Member]) -> bool
    ensures { result ≡ list_all (is_waiting Calls.Joins) (remaining who.now members.now) }
{
    members
        .iter()
        .filter(|m| who.keeps(m))
        .all(|m| is_waiting(Calls::Joins, m))
}

// Returns whether a rebalance begins or is under way, and each member that stays has a parked JOIN.
fn completes(begins: bool, who: &Staying, group: &Group) -> bool
    ensures { result ≡ ((begins || is_preparing group.now.phase) && list_all (is_waiting Calls.Joins) (remaining who.now group.now.members)) }
{
    is_under_way(begins, group.phase) && have_joined(who, group.members.as_slice())
}

/// Returns the round with which a rebalance of the members that stay completes at this moment, if one begins or is under way and
/// all of them have joined, and appends the effects of that. The group stays as it is.
pub fn planned(
    alloc: Global,
    now: Moment,
    begins: bool,
    who: &Staying,
    group: &Group,
    effects: &mut Effects,
) -> Result<Option<Round>, AllocError>
    ensures { IfOk result (λ round. IsPlan now begins (among who.now group.now) effects.old round effects.new) }
{
    if completes(begins, who, group) {
        let round = completion(alloc, now, who, group, effects)?;
        return Ok(Some(round));
    }
    Ok(None)
}

/// Completes the rebalance of the group with this round: every parked JOIN has its reply.
pub(crate) fn enter(now: Moment, round: Round, group: &mut Group)
    ensures { group.new ≡ rounded now (Some round) group.old }
{
    let Round {
        phase,
        generation,
        protocol,
        leader,
        emptied,
    } = round;
    group.phase = phase;
    group.generation = generation;
    group.protocol = protocol;
    group.leader = leader;
    group.emptied = emptied;
    group.members.answer(Calls::Joins, now);
}

/// Begins a rebalance if `begins`, and completes it if there is a round. No allocation.
pub fn carry_out(now: Moment, begins: bool, round: Option<Round>, group: &mut Group)
    ensures { group.new ≡ rounded now round (begun begins now group.old) }
{
    if begins {
        begin(now, group);
    }
    if let Some(round) = round {
        enter(now, round, group);
    }
}

/// Begins a rebalance if `begins`, and completes it if every member has a parked JOIN. The refusals of the parked SYNCs were
/// appended before. If an allocation fails, the group is unchanged.
pub fn advance(
    alloc: Global,
    now: Moment,
    begins: bool,
    group: &mut Group,
    effects: &mut Effects,
) -> Result<(), AllocError>
    ensures ok { OnOk result (turned group.new effects.new ≡ try_complete_join now (turned (begun begins now group.old) effects.old)) }
    ensures err { OnErr result (group.new ≡ group.old) }
{
    let round = planned(alloc, now, begins, &Staying::All, group, effects)?;
    carry_out(now, begins, round, group);
    Ok(())
}

/// Returns whether a rebalance is under way and every member has a parked JOIN. Linear in the members.
#[tactic(auto, unfolding(crate::specs::Rebalance::is_ready))]
pub fn is_ready(group: &Group) -> bool
    ensures { result ≡ is_ready group.now }
{
    is_preparing(group.phase) && group.members.all_wait(Calls::Joins)
}
