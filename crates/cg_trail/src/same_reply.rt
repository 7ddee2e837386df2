//! Equality of replies.
use crate::same::Same;
use cg_fold::StoredOffset;
use cg_group::{
    Boxed, Described, DescribedMember, FetchedPartition, Joined, JoinedMember, Listing, Reply,
};

impl Same for StoredOffset {
    fn is_same(&self, other: &Self) -> bool {
        self.offset.get() == other.offset.get()
            && self.metadata.is_same(&other.metadata)
            && self.moment == other.moment
    }
}

impl Same for JoinedMember {
    fn is_same(&self, other: &Self) -> bool {
        self.id.is_same(&other.id)
            && self.instance.is_same(&other.instance)
            && self.subscription.is_same(&other.subscription)
    }
}

impl Same for Joined {
    fn is_same(&self, other: &Self) -> bool {
        self.generation.get() == other.generation.get()
            && self.kind.is_same(&other.kind)
            && self.protocol.is_same(&other.protocol)
            && self.leader.is_same(&other.leader)
            && self.member.is_same(&other.member)
            && self.members.is_same(&other.members)
    }
}

impl<T: Same> Same for Boxed<T> {
    fn is_same(&self, other: &Self) -> bool {
        self.get().is_same(other.get())
    }
}

impl Same for FetchedPartition {
    fn is_same(&self, other: &Self) -> bool {
        self.key.is_same(&other.key) && self.stored.is_same(&other.stored)
    }
}

impl Same for DescribedMember {
    fn is_same(&self, other: &Self) -> bool {
        self.id.is_same(&other.id)
            && self.instance.is_same(&other.instance)
            && self.client.is_same(&other.client)
            && self.subscription.is_same(&other.subscription)
            && self.assignment.is_same(&other.assignment)
    }
}

impl Same for Described {
    fn is_same(&self, other: &Self) -> bool {
        self.phase == other.phase
            && self.generation.get() == other.generation.get()
            && self.kind.is_same(&other.kind)
            && self.protocol.is_same(&other.protocol)
            && self.members.is_same(&other.members)
    }
}

impl Same for Listing {
    fn is_same(&self, other: &Self) -> bool {
        self.id.is_same(&other.id) && self.kind.is_same(&other.kind) && self.phase == other.phase
    }
}

impl Same for Reply {
    fn is_same(&self, other: &Self) -> bool {
        match (self, other) {
            (Reply::Joined(a), Reply::Joined(b)) => a.is_same(b),
            (Reply::Synced(a), Reply::Synced(b)) => a.is_same(b),
            (Reply::Done, Reply::Done) => true,
            (Reply::Fetched(a), Reply::Fetched(b)) => a.is_same(b),
            (Reply::Described(a), Reply::Described(b)) => a.is_same(b),
            (Reply::Groups(a), Reply::Groups(b)) => a.is_same(b),
            (Reply::Refused(a), Reply::Refused(b)) => a.is_same(b),
            _ => false,
        }
    }
}
