//! JOIN, from the words after the first.
ghost use Rattle.std.specs.Prelude.{◌≡◌, map, IsTrue};
ghost use Rattle.cg_line.specs.Numbers.{is_number, value_of};
ghost use Rattle.cg_line.specs.Parsing.{Reads, are_terms, is_caller, join_of};
ghost use Rattle.cg_record.specs.declared.millis.TheConstants.{REBALANCE_MS_MAX};

use crate::line_fault::LineFault::{self, Malformed};
use crate::parser::SESSION_LINE_MS_MAX;
use crate::parser::names::{is_name, is_optional, name_in, optional_in, short_name_in};
use crate::parser::numbers::{is_number, number_in};
use crate::parser::protocols::{are_protocols, protocols_in};
use cg_group::JoinRequest;
use cg_names::{MEMBER_ID_BYTES_MAX, NAME_BYTES_MAX};
use cg_record::{REBALANCE_MS_MAX, RebalanceTimeout};
use std::alloc::Global;

// Returns whether the words are a group, a member, an instance and a client.
fn is_caller(group: &[u8], member: &[u8], instance: &[u8], client: &[u8]) -> bool
    ensures { result ≡ is_caller group.now member.now instance.now client.now }
{
    is_optional::<NAME_BYTES_MAX>(group)
        && is_optional::<MEMBER_ID_BYTES_MAX>(member)
        && is_optional::<NAME_BYTES_MAX>(instance)
        && is_name::<NAME_BYTES_MAX>(client)
}

// Returns whether the words are two timeouts and a protocol type.
fn are_terms(session: &[u8], rebalance: &[u8], kind: &[u8]) -> bool
    ensures { result ≡ are_terms session.now rebalance.now kind.now }
{
    is_number(session, u64::from(SESSION_LINE_MS_MAX))
        && is_number(rebalance, u64::from(REBALANCE_MS_MAX))
        && is_name::<NAME_BYTES_MAX>(kind)
}

fn session_in(word: &[u8]) -> u32
    requires { IsTrue (is_number SESSION_LINE_MS_MAX word.now) }
    ensures { result ≡ value_of word.now }
{
    number_in(word, u64::from(SESSION_LINE_MS_MAX)) as u32
}

fn rebalance_in(word: &[u8]) -> RebalanceTimeout
    requires { IsTrue (is_number REBALANCE_MS_MAX word.now) }
    ensures { result ≡ value_of word.now }
{
    match RebalanceTimeout::new(number_in(word, u64::from(REBALANCE_MS_MAX)) as u32) {
        Some(rebalance) => rebalance,
        None => unreachable!(),
    }
}

/// Parses a JOIN.
#[tactic(auto, unfolding(crate::specs::Parsing::join_of))]
pub fn join(alloc: Global, words: &[&[u8]]) -> Result<JoinRequest, LineFault>
    ensures { Reads result (join_of (map (λ w. w.now) words.now)) }
{
    let [
        group,
        member,
        instance,
        client,
        session,
        rebalance,
        kind,
        protocols @ ..,
    ] = words
    else {
        return Err(Malformed);
    };
    if !is_caller(group, member, instance, client)
        || !are_terms(session, rebalance, kind)
        || !are_protocols(protocols)
    {
        return Err(Malformed);
    }
    let session_ms = session_in(session);
    let rebalance = rebalance_in(rebalance);
    let group = optional_in(alloc, group)?;
    let member = optional_in(alloc, member)?;
    let instance = optional_in(alloc, instance)?;
    let client = short_name_in(alloc, client)?;
    let kind = name_in(alloc, kind)?;
    let protocols = protocols_in(alloc, protocols)?;
    Ok(JoinRequest {
        group,
        member,
        instance,
        client,
        session_ms,
        rebalance,
        kind,
        protocols,
    })
}
