//! The vote for the assignment protocol.
ghost use Rattle.std.specs.Prelude.{◌≡◌, IfOk, map, find, not};
ghost use Rattle.std.specs.List.{list_any, position};
ghost use Rattle.std.specs.Option.{option_copied};
ghost use Rattle.cg_group_state.specs.Vote.{is_among, offers, is_common, candidate_protocols, ballot, votes, select_protocol};
ghost use Rattle.cg_group_state.specs.Tally.{outvotes, tally};
ghost use Rattle.cg_group_state.specs.Membership.{is_named};
ghost use Rattle.cg_group_state.specs.Staying.{remaining, stays};

use crate::member::Member;
use crate::who_stays::Staying;
use cg_names::ProtocolName;
use cg_request::{Listed, Protocol};
use std::alloc::{AllocError, Global};
use std::cmp::Ordering;

fn is_among(names: &[ProtocolName], name: &ProtocolName) -> bool
    ensures { result ≡ is_among names.now name.now }
{
    names.iter().any(|n| *n == *name)
}

fn offers(name: &ProtocolName, member: &Member) -> bool
    ensures { result ≡ offers name.now member.now }
{
    member.protocols.as_slice().iter().any(|p| p.name == *name)
}

/// Returns whether every member supports the protocol.
#[tactic(auto, unfolding(crate::specs::Vote::is_common))]
pub fn is_common(members: &[Member], name: &ProtocolName) -> bool
    ensures { result ≡ is_common members.now name.now }
{
    members.iter().all(|m| offers(name, m))
}

// Returns whether every member that stays supports the protocol.
#[tactic(auto, unfolding(crate::specs::Vote::is_common))]
fn is_common_among(who: &Staying, members: &[Member], name: &ProtocolName) -> bool
    ensures { result ≡ is_common (remaining who.now members.now) name.now }
{
    members
        .iter()
        .filter(|m| who.keeps(m))
        .all(|m| offers(name, m))
}

fn first_staying<'a>(who: &Staying, members: &'a [Member]) -> Option<&'a Member>
    ensures { option_copied result ≡ find (stays who.now) members.now }
{
    members.iter().find(|m| who.keeps(m))
}

// Returns at most `PROTOCOLS_MAX` names, as they all come from the list of the first member that stays.
#[tactic(auto, using(crate::proofs::Remaining::candidates_none, crate::proofs::Remaining::candidates_some))]
fn candidate_protocols(
    alloc: Global,
    who: &Staying,
    members: &[Member],
) -> Result<Listed<ProtocolName>, AllocError>
    ensures { IfOk result (λ names. names ≡ candidate_protocols (remaining who.now members.now)) }
{
    let mut names = Listed::new(alloc);
    let Some(first) = first_staying(who, members) else {
        return Ok(names);
    };
    for protocol in first.protocols.as_slice() {
        if is_common_among(who, members, &protocol.name) {
            names.push(protocol.name.clone()?)?;
        }
    }
    Ok(names)
}

// Returns the first protocol of the member's own list that is one of these names.
fn first_choice<'a>(names: &[ProtocolName], member: &'a Member) -> Option<&'a Protocol>
    ensures { option_copied result ≡ find (λ p. is_among names.now p.name) member.now.protocols }
{
    let protocols = member.protocols.as_slice();
    protocols.iter().find(|p| is_among(names, &p.name))
}

#[tactic(auto, unfolding(crate::specs::Vote::ballot))]
fn votes_for(names: &[ProtocolName], member: &Member, name: &ProtocolName) -> bool
    ensures { result ≡ is_named (ballot names.now member.now) name.now }
{
    match first_choice(names, member) {
        None => false,
        Some(protocol) => protocol.name == *name,
    }
}

#[tactic(auto, unfolding(crate::specs::Vote::votes), using(crate::proofs::Remaining::count_remaining))]
fn votes(names: &[ProtocolName], who: &Staying, members: &[Member], name: &ProtocolName) -> usize
    ensures { result ≡ votes names.now (remaining who.now members.now) name.now }
{
    members
        .iter()
        .filter(|m| who.keeps(m) && votes_for(names, m, name))
        .count()
}

/// A protocol that every member that stays supports, and the number of them that vote for it.
#[derive(Clone, Copy)]
pub struct Candidate<'a> {
    name: &'a ProtocolName,
    votes: usize,
}

// Counts the votes for each candidate, once.
fn counted<'a>(
    alloc: Global,
    names: &'a [ProtocolName],
    who: &Staying,
    members: &[Member],
) -> Result<Vec<Candidate<'a>>, AllocError>
    ensures { IfOk result (λ counted. map tally counted.items ≡ map (λ name. (name, votes names.now (remaining who.now members.now) name)) names.now) }
{
    let mut counted = Vec::with_capacity(alloc, names.len())?;
    for name in names {
        counted.push(Candidate {
            name,
            votes: votes(names, who, members, name),
        })?;
    }
    Ok(counted)
}

fn beats(a: &Candidate, b: &Candidate) -> bool
    ensures { result ≡ outvotes (tally a.now) (tally b.now) }
{
    b.votes < a.votes || (a.votes == b.votes && *a.name < *b.name)
}

fn is_beaten(counted: &[Candidate], candidate: &Candidate) -> bool
    ensures { result ≡ list_any (λ other. outvotes (tally other) (tally candidate.now)) counted.now }
{
    counted.iter().any(|other| beats(other, candidate))
}

// Returns the index of the winner: no candidate has more votes, or as many votes and a lesser name.
fn unbeaten(counted: &[Candidate]) -> Option<usize>
    ensures { result ≡ position (λ candidate. not (list_any (λ other. outvotes (tally other) (tally candidate)) counted.now)) counted.now }
{
    counted
        .iter()
        .position(|candidate| !is_beaten(counted, candidate))
}

/// Returns the protocol that wins the vote of the members that stay, or `None` if no member stays or they have no common
/// protocol. Linear in the members; counts each candidate once.
#[tactic(auto, unfolding(crate::specs::Vote::select_protocol))]
pub fn select_protocol(
    alloc: Global,
    who: &Staying,
    members: &[Member],
) -> Result<Option<ProtocolName>, AllocError>
    ensures { IfOk result (λ name. name ≡ select_protocol (remaining who.now members.now)) }
{
    let names = candidate_protocols(alloc, who, members)?;
    let counted = counted(alloc, names.as_slice(), who, members)?;
    match unbeaten(counted.as_slice()) {
        None => Ok(None),
        Some(place) => {
            let name = names.as_slice()[place].clone()?;
            Ok(Some(name))
        }
    }
}
