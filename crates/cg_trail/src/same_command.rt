//! Equality of commands.
use crate::same::{Same, are_same};
use cg_record::{
    Assigned, Command, Committed, Deleted, Dropped, Emptied, Entries, Entry, Expired, MemberRecord,
    Partitions, Replaced, Roster, StaticMember, TopicPartition,
};

impl Same for MemberRecord {
    fn is_same(&self, other: &Self) -> bool {
        self.id.is_same(&other.id)
            && self.instance.is_same(&other.instance)
            && self.client.is_same(&other.client)
            && self.session.get() == other.session.get()
            && self.rebalance.get() == other.rebalance.get()
            && self.subscription.is_same(&other.subscription)
            && self.assignment.is_same(&other.assignment)
    }
}

impl Same for Roster {
    fn is_same(&self, other: &Self) -> bool {
        self.protocol().is_same(other.protocol())
            && self.leader().is_same(other.leader())
            && are_same(self.members(), other.members())
    }
}

impl Same for StaticMember {
    fn is_same(&self, other: &Self) -> bool {
        self.member().is_same(other.member())
    }
}

impl Same for TopicPartition {
    fn is_same(&self, other: &Self) -> bool {
        self.topic.is_same(&other.topic) && self.partition.get() == other.partition.get()
    }
}

impl Same for Entry {
    fn is_same(&self, other: &Self) -> bool {
        self.key.is_same(&other.key)
            && self.offset.get() == other.offset.get()
            && self.metadata.is_same(&other.metadata)
    }
}

impl Same for Entries {
    fn is_same(&self, other: &Self) -> bool {
        are_same(self.as_slice(), other.as_slice())
    }
}

impl Same for Partitions {
    fn is_same(&self, other: &Self) -> bool {
        are_same(self.as_slice(), other.as_slice())
    }
}

impl Same for Assigned {
    fn is_same(&self, other: &Self) -> bool {
        self.group.is_same(&other.group)
            && self.generation.get() == other.generation.get()
            && self.kind.is_same(&other.kind)
            && self.roster.is_same(&other.roster)
    }
}

impl Same for Emptied {
    fn is_same(&self, other: &Self) -> bool {
        self.group.is_same(&other.group)
            && self.generation.get() == other.generation.get()
            && self.kind.is_same(&other.kind)
            && self.moment == other.moment
    }
}

impl Same for Replaced {
    fn is_same(&self, other: &Self) -> bool {
        self.group.is_same(&other.group) && self.member.is_same(&other.member)
    }
}

impl Same for Committed {
    fn is_same(&self, other: &Self) -> bool {
        self.group.is_same(&other.group)
            && self.moment == other.moment
            && self.entries.is_same(&other.entries)
    }
}

impl Same for Deleted {
    fn is_same(&self, other: &Self) -> bool {
        self.group.is_same(&other.group)
    }
}

impl Same for Expired {
    fn is_same(&self, other: &Self) -> bool {
        self.group.is_same(&other.group) && self.partitions.is_same(&other.partitions)
    }
}

impl Same for Dropped {
    fn is_same(&self, other: &Self) -> bool {
        self.group.is_same(&other.group) && self.partitions.is_same(&other.partitions)
    }
}

impl Same for Command {
    fn is_same(&self, other: &Self) -> bool {
        match (self, other) {
            (Command::Assigned(a), Command::Assigned(b)) => a.is_same(b),
            (Command::Emptied(a), Command::Emptied(b)) => a.is_same(b),
            (Command::Replaced(a), Command::Replaced(b)) => a.is_same(b),
            (Command::Committed(a), Command::Committed(b)) => a.is_same(b),
            (Command::Deleted(a), Command::Deleted(b)) => a.is_same(b),
            (Command::Expired(a), Command::Expired(b)) => a.is_same(b),
            (Command::Dropped(a), Command::Dropped(b)) => a.is_same(b),
            _ => false,
        }
    }
}
