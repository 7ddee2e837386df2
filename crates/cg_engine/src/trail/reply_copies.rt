//! Copies of replies and requests, for a trail. Each fails only if an allocation fails.
ghost use Rattle.std.specs.Prelude.{◌≡◌, IfOk};

use cg_fold::StoredOffset;
use cg_group::{
    Boxed, Described, DescribedMember, FetchedPartition, Few, Joined, JoinedMember, Listed,
    Listing, Reply, Ticket,
};
use cg_group_state::copied_name;
use std::alloc::{AllocError, Global};

// A type whose values can be copied.
trait Copied: Sized {
    fn copied(&self) -> Result<Self, AllocError>
        ensures { IfOk result (λ copy. copy ≡ self.now) };
}

fn copied_items<T: Copied + Drop>(alloc: Global, items: &[T]) -> Result<Vec<T>, AllocError>
    ensures { IfOk result (λ copies. copies.items ≡ items.now) }
{
    let mut copies = Vec::with_capacity(alloc, items.len())?;
    for item in items {
        copies.push(item.copied()?)?;
    }
    Ok(copies)
}

fn copied_list<T: Copied + Drop>(alloc: Global, list: &Listed<T>) -> Result<Listed<T>, AllocError>
    ensures { IfOk result (λ copy. copy ≡ list.now) }
{
    let items = copied_items(alloc, list.as_slice())?;
    Ok(Listed::from_vec(items))
}

impl Copied for JoinedMember {
    fn copied(&self) -> Result<Self, AllocError> {
        let id = self.id.clone()?;
        let instance = copied_name(&self.instance)?;
        let subscription = self.subscription.clone()?;
        Ok(JoinedMember {
            id,
            instance,
            subscription,
        })
    }
}

fn copied_offset(stored: &Option<StoredOffset>) -> Result<Option<StoredOffset>, AllocError>
    ensures { IfOk result (λ copy. copy ≡ stored.now) }
{
    match stored {
        None => Ok(None),
        Some(stored) => {
            let metadata = stored.metadata.clone()?;
            Ok(Some(StoredOffset {
                offset: stored.offset,
                metadata,
                moment: stored.moment,
            }))
        }
    }
}

impl Copied for FetchedPartition {
    fn copied(&self) -> Result<Self, AllocError> {
        let key = self.key.clone()?;
        let stored = copied_offset(&self.stored)?;
        Ok(FetchedPartition { key, stored })
    }
}

impl Copied for DescribedMember {
    fn copied(&self) -> Result<Self, AllocError> {
        let id = self.id.clone()?;
        let instance = copied_name(&self.instance)?;
        let client = self.client.clone()?;
        let subscription = self.subscription.clone()?;
        let assignment = self.assignment.clone()?;
        Ok(DescribedMember {
            id,
            instance,
            client,
            subscription,
            assignment,
        })
    }
}

impl Copied for Listing {
    fn copied(&self) -> Result<Self, AllocError> {
        let id = self.id.clone()?;
        let kind = copied_name(&self.kind)?;
        Ok(Listing {
            id,
            kind,
            phase: self.phase,
        })
    }
}

fn copied_joined(alloc: Global, joined: &Joined) -> Result<Boxed<Joined>, AllocError>
    ensures { IfOk result (λ copy. copy ≡ joined.now) }
{
    let kind = copied_name(&joined.kind)?;
    let protocol = copied_name(&joined.protocol)?;
    let leader = copied_name(&joined.leader)?;
    let member = joined.member.clone()?;
    let members = copied_list(alloc, &joined.members)?;
    let copy = Joined {
        generation: joined.generation,
        kind,
        protocol,
        leader,
        member,
        members,
    };
    let copy = Boxed::new(alloc, copy)?;
    Ok(copy)
}

fn copied_group(alloc: Global, group: &Described) -> Result<Described, AllocError>
    ensures { IfOk result (λ copy. copy ≡ group.now) }
{
    let kind = copied_name(&group.kind)?;
    let protocol = copied_name(&group.protocol)?;
    let members = copied_list(alloc, &group.members)?;
    Ok(Described {
        phase: group.phase,
        generation: group.generation,
        kind,
        protocol,
        members,
    })
}

fn copied_description(
    alloc: Global,
    described: &Option<Boxed<Described>>,
) -> Result<Option<Boxed<Described>>, AllocError>
    ensures { IfOk result (λ copy. copy ≡ described.now) }
{
    match described {
        None => Ok(None),
        Some(group) => {
            let copy = Boxed::new(alloc, copied_group(alloc, group.get())?)?;
            Ok(Some(copy))
        }
    }
}

/// Copies a reply.
pub fn copied_reply(alloc: Global, reply: &Reply) -> Result<Reply, AllocError>
    ensures { IfOk result (λ copy. copy ≡ reply.now) }
{
    let copy = match reply {
        Reply::Joined(joined) => Reply::Joined(copied_joined(alloc, joined.get())?),
        Reply::Synced(assignment) => Reply::Synced(assignment.clone()?),
        Reply::Done => Reply::Done,
        Reply::Fetched(partitions) => Reply::Fetched(copied_list(alloc, partitions)?),
        Reply::Described(described) => Reply::Described(copied_description(alloc, described)?),
        Reply::Groups(groups) => Reply::Groups(copied_list(alloc, groups)?),
        Reply::Refused(code) => Reply::Refused(*code),
    };
    Ok(copy)
}

/// Copies replies with their tickets.
pub fn copied_replies(
    alloc: Global,
    replies: &[(Ticket, Reply)],
) -> Result<Few<(Ticket, Reply)>, AllocError>
    ensures { IfOk result (λ copies. copies ≡ replies.now) }
{
    let mut copies = Few::new(alloc);
    for (ticket, reply) in replies {
        let copy = copied_reply(alloc, reply)?;
        copies.push((*ticket, copy))?;
    }
    Ok(copies)
}
