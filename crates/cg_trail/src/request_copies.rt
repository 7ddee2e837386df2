//! Copies of requests. Each fails only if an allocation fails.
ghost use Rattle.std.specs.Prelude.{◌≡◌, IfOk};

use cg_group::{
    BeatRequest, CommitEntry, CommitRequest, Commits, DropRequest, FetchRequest, JoinRequest,
    LeaveRequest, Listed, Request, SyncEntries, SyncEntry, SyncRequest,
};
use cg_group_state::copied_name;
use cg_record::{Partitions, TopicPartition};
use std::alloc::{AllocError, Global};

// A type whose values can be copied into one allocator.
trait Copied: Sized {
    fn copied(&self, alloc: Global) -> Result<Self, AllocError>
        ensures { IfOk result (λ copy. copy ≡ self.now) };
}

fn copied_all<T: Copied + Drop>(alloc: Global, items: &[T]) -> Result<Vec<T>, AllocError>
    ensures { IfOk result (λ copies. copies.items ≡ items.now) }
{
    let mut copies = Vec::with_capacity(alloc, items.len())?;
    for item in items {
        copies.push(item.copied(alloc)?)?;
    }
    Ok(copies)
}

impl Copied for SyncEntry {
    fn copied(&self, _alloc: Global) -> Result<Self, AllocError> {
        let member = self.member.clone()?;
        let assignment = self.assignment.clone()?;
        Ok(SyncEntry { member, assignment })
    }
}

impl Copied for CommitEntry {
    fn copied(&self, alloc: Global) -> Result<Self, AllocError> {
        let key = self.key.clone()?;
        let metadata = Vec::from_slice(alloc, self.metadata.as_slice())?;
        Ok(CommitEntry {
            key,
            offset: self.offset,
            metadata: Listed::from_vec(metadata),
        })
    }
}

impl Copied for TopicPartition {
    fn copied(&self, _alloc: Global) -> Result<Self, AllocError> {
        let copy = self.clone()?;
        Ok(copy)
    }
}

fn copied_entries(alloc: Global, entries: &SyncEntries) -> Result<SyncEntries, AllocError>
    ensures { IfOk result (λ copy. copy ≡ entries.now) }
{
    let items = copied_all(alloc, entries.as_slice())?;
    match SyncEntries::from_vec(items) {
        Ok(copy) => Ok(copy),
        Err(_) => unreachable!(),
    }
}

fn copied_commits(alloc: Global, entries: &Commits) -> Result<Commits, AllocError>
    ensures { IfOk result (λ copy. copy ≡ entries.now) }
{
    let items = copied_all(alloc, entries.as_slice())?;
    match Commits::from_vec(items) {
        Ok(copy) => Ok(copy),
        Err(_) => unreachable!(),
    }
}

fn copied_partitions(alloc: Global, partitions: &Partitions) -> Result<Partitions, AllocError>
    ensures { IfOk result (λ copy. copy ≡ partitions.now) }
{
    let items = copied_all(alloc, partitions.as_slice())?;
    match Partitions::from_vec(items) {
        Ok(copy) => Ok(copy),
        Err(_) => unreachable!(),
    }
}

fn copied_join(request: &JoinRequest) -> Result<JoinRequest, AllocError>
    ensures { IfOk result (λ copy. copy ≡ request.now) }
{
    let group = copied_name(&request.group)?;
    let member = copied_name(&request.member)?;
    let instance = copied_name(&request.instance)?;
    let client = request.client.clone()?;
    let kind = request.kind.clone()?;
    let protocols = request.protocols.clone()?;
    Ok(JoinRequest {
        group,
        member,
        instance,
        client,
        session_ms: request.session_ms,
        rebalance: request.rebalance,
        kind,
        protocols,
    })
}

fn copied_sync(alloc: Global, request: &SyncRequest) -> Result<SyncRequest, AllocError>
    ensures { IfOk result (λ copy. copy ≡ request.now) }
{
    let group = copied_name(&request.group)?;
    let member = copied_name(&request.member)?;
    let instance = copied_name(&request.instance)?;
    let entries = copied_entries(alloc, &request.entries)?;
    Ok(SyncRequest {
        group,
        generation: request.generation,
        member,
        instance,
        entries,
    })
}

fn copied_beat(request: &BeatRequest) -> Result<BeatRequest, AllocError>
    ensures { IfOk result (λ copy. copy ≡ request.now) }
{
    let group = copied_name(&request.group)?;
    let member = copied_name(&request.member)?;
    let instance = copied_name(&request.instance)?;
    Ok(BeatRequest {
        group,
        generation: request.generation,
        member,
        instance,
    })
}

fn copied_leave(request: &LeaveRequest) -> Result<LeaveRequest, AllocError>
    ensures { IfOk result (λ copy. copy ≡ request.now) }
{
    let group = copied_name(&request.group)?;
    let member = copied_name(&request.member)?;
    let instance = copied_name(&request.instance)?;
    Ok(LeaveRequest {
        group,
        member,
        instance,
    })
}

fn copied_commit(alloc: Global, request: &CommitRequest) -> Result<CommitRequest, AllocError>
    ensures { IfOk result (λ copy. copy ≡ request.now) }
{
    let group = copied_name(&request.group)?;
    let member = copied_name(&request.member)?;
    let instance = copied_name(&request.instance)?;
    let entries = copied_commits(alloc, &request.entries)?;
    Ok(CommitRequest {
        group,
        generation: request.generation,
        member,
        instance,
        entries,
    })
}

fn copied_fetch(alloc: Global, request: &FetchRequest) -> Result<FetchRequest, AllocError>
    ensures { IfOk result (λ copy. copy ≡ request.now) }
{
    let group = copied_name(&request.group)?;
    let partitions = copied_partitions(alloc, &request.partitions)?;
    Ok(FetchRequest { group, partitions })
}

fn copied_drop(alloc: Global, request: &DropRequest) -> Result<DropRequest, AllocError>
    ensures { IfOk result (λ copy. copy ≡ request.now) }
{
    let group = copied_name(&request.group)?;
    let partitions = copied_partitions(alloc, &request.partitions)?;
    Ok(DropRequest { group, partitions })
}

/// Copies a request. Fails only if an allocation fails.
pub fn copied_request(alloc: Global, request: &Request) -> Result<Request, AllocError>
    ensures { IfOk result (λ copy. copy ≡ request.now) }
{
    let copy = match request {
        Request::Join(request) => Request::Join(copied_join(request)?),
        Request::Sync(request) => Request::Sync(copied_sync(alloc, request)?),
        Request::Beat(request) => Request::Beat(copied_beat(request)?),
        Request::Leave(request) => Request::Leave(copied_leave(request)?),
        Request::Commit(request) => Request::Commit(copied_commit(alloc, request)?),
        Request::Fetch(request) => Request::Fetch(copied_fetch(alloc, request)?),
        Request::Delete(group) => Request::Delete(copied_name(group)?),
        Request::Drop(request) => Request::Drop(copied_drop(alloc, request)?),
        Request::Describe(group) => Request::Describe(copied_name(group)?),
        Request::List => Request::List,
    };
    Ok(copy)
}
