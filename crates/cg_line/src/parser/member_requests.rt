//! SYNC, BEAT, LEAVE and COMMIT, from the words after the first.
ghost use Rattle.std.specs.Prelude.{◌≡◌, map};
ghost use Rattle.cg_line.specs.Parsing.{Reads, beat_of, commit_of, is_call, leave_of, sync_of};

use crate::line_fault::LineFault::{self, Malformed};
use crate::parser::commits::{are_commits, commits_in};
use crate::parser::names::{is_optional, optional_in};
use crate::parser::numbers::{generation_in, is_generation};
use crate::parser::sync_entries::{are_sync_entries, sync_entries_in};
use cg_group::{BeatRequest, CommitRequest, LeaveRequest, SyncRequest};
use cg_names::{MEMBER_ID_BYTES_MAX, NAME_BYTES_MAX};
use std::alloc::Global;

// Returns whether the words are a group, a generation, a member and an instance.
fn is_call(group: &[u8], generation: &[u8], member: &[u8], instance: &[u8]) -> bool
    ensures { result ≡ is_call group.now generation.now member.now instance.now }
{
    is_optional::<NAME_BYTES_MAX>(group)
        && is_generation(generation)
        && is_optional::<MEMBER_ID_BYTES_MAX>(member)
        && is_optional::<NAME_BYTES_MAX>(instance)
}

/// Parses a SYNC.
#[tactic(auto, unfolding(crate::specs::Parsing::sync_of))]
pub fn sync(alloc: Global, words: &[&[u8]]) -> Result<SyncRequest, LineFault>
    ensures { Reads result (sync_of (map (λ w. w.now) words.now)) }
{
    let [group, generation, member, instance, entries @ ..] = words else {
        return Err(Malformed);
    };
    if !is_call(group, generation, member, instance) || !are_sync_entries(entries) {
        return Err(Malformed);
    }
    let generation = generation_in(generation);
    let group = optional_in(alloc, group)?;
    let member = optional_in(alloc, member)?;
    let instance = optional_in(alloc, instance)?;
    let entries = sync_entries_in(alloc, entries)?;
    Ok(SyncRequest {
        group,
        generation,
        member,
        instance,
        entries,
    })
}

/// Parses a BEAT.
#[tactic(auto, unfolding(crate::specs::Parsing::beat_of))]
pub fn beat(alloc: Global, words: &[&[u8]]) -> Result<BeatRequest, LineFault>
    ensures { Reads result (beat_of (map (λ w. w.now) words.now)) }
{
    let [group, generation, member, instance] = words else {
        return Err(Malformed);
    };
    if !is_call(group, generation, member, instance) {
        return Err(Malformed);
    }
    let generation = generation_in(generation);
    let group = optional_in(alloc, group)?;
    let member = optional_in(alloc, member)?;
    let instance = optional_in(alloc, instance)?;
    Ok(BeatRequest {
        group,
        generation,
        member,
        instance,
    })
}

/// Parses a LEAVE.
#[tactic(auto, unfolding(crate::specs::Parsing::leave_of))]
pub fn leave(alloc: Global, words: &[&[u8]]) -> Result<LeaveRequest, LineFault>
    ensures { Reads result (leave_of (map (λ w. w.now) words.now)) }
{
    let [group, member, instance] = words else {
        return Err(Malformed);
    };
    if !is_optional::<NAME_BYTES_MAX>(group)
        || !is_optional::<MEMBER_ID_BYTES_MAX>(member)
        || !is_optional::<NAME_BYTES_MAX>(instance)
    {
        return Err(Malformed);
    }
    let group = optional_in(alloc, group)?;
    let member = optional_in(alloc, member)?;
    let instance = optional_in(alloc, instance)?;
    Ok(LeaveRequest {
        group,
        member,
        instance,
    })
}

/// Parses a COMMIT.
#[tactic(auto, unfolding(crate::specs::Parsing::commit_of))]
pub fn commit(alloc: Global, words: &[&[u8]]) -> Result<CommitRequest, LineFault>
    ensures { Reads result (commit_of (map (λ w. w.now) words.now)) }
{
    let [group, generation, member, instance, entries @ ..] = words else {
        return Err(Malformed);
    };
    if !is_call(group, generation, member, instance) || !are_commits(entries) {
        return Err(Malformed);
    }
    let generation = generation_in(generation);
    let group = optional_in(alloc, group)?;
    let member = optional_in(alloc, member)?;
    let instance = optional_in(alloc, instance)?;
    let entries = commits_in(alloc, entries)?;
    Ok(CommitRequest {
        group,
        generation,
        member,
        instance,
        entries,
    })
}
