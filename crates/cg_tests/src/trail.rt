//! Trails of three entries after a loaded state, lawful and not. The replies are those that the rules of the protocol give.
use cg_group::{Boxed, Few, Joined, JoinedMember, Listed, Reply, Ticket};
use cg_names::{Code, Generation, Moment, Name};
use cg_record::{Command, CompletedGeneration, Emptied, Subscription};
use cg_trail::{Replies, RequestEntry, TickEntry, Trail, TrailEntry, begins_with};
use std::alloc::Global;
use std::process::Abort;
use uuid::Uuid;

const JOIN: Ticket = Ticket {
    session: 1,
    number: 1,
};

const COMMIT: Ticket = Ticket {
    session: 2,
    number: 1,
};

const MEMBER: &str = "c1-00000000-0000-0000-0000-000000000001";

// The generation in the recorded reply to the JOIN, or `None` where the JOIN is left out; whether the tick records a reply;
// whether the trail is lawful. The loaded group has generation 3, so a completed rebalance gives 4.
const ROWS: &[(Option<u32>, bool, bool)] = &[
    (Some(4), false, true),
    (Some(1), false, false),
    (Some(4), true, false),
    (None, false, false),
];

fn name<const MAX: usize, const SORT: u8>(
    rt: &impl Abort,
    alloc: Global,
    text: &str,
) -> Name<MAX, SORT> {
    Name::parse(alloc, text).expect(rt, "a name")
}

// Makes the loaded state: group `g` without members, in generation 3.
fn loaded(rt: &impl Abort, alloc: Global) -> Listed<Command> {
    let mut commands = Listed::new(alloc);
    let emptied = Emptied {
        group: name(rt, alloc, "g"),
        generation: CompletedGeneration::new(3).expect(rt, "a generation"),
        kind: name(rt, alloc, "consumer"),
        moment: Some(Moment::from_millis(0)),
    };
    commands
        .push(Command::Emptied(emptied))
        .expect(rt, "memory");
    commands
}

fn members(rt: &impl Abort, alloc: Global) -> Listed<JoinedMember> {
    let mut members = Listed::new(alloc);
    let member = JoinedMember {
        id: name(rt, alloc, MEMBER),
        instance: None,
        subscription: Subscription::from_bytes(alloc, &[1]).expect(rt, "memory"),
    };
    members.push(member).expect(rt, "memory");
    members
}

// Makes the reply to the only member, which leads.
fn joined(rt: &impl Abort, alloc: Global, generation: u32) -> (Ticket, Reply) {
    let joined = Joined {
        generation: Generation::new(generation).expect(rt, "a generation"),
        kind: Some(name(rt, alloc, "consumer")),
        protocol: Some(name(rt, alloc, "range")),
        leader: Some(name(rt, alloc, MEMBER)),
        member: name(rt, alloc, MEMBER),
        members: members(rt, alloc),
    };
    (
        JOIN,
        Reply::Joined(Boxed::new(alloc, joined).expect(rt, "memory")),
    )
}

fn request_entry(
    rt: &impl Abort,
    alloc: Global,
    ticket: Ticket,
    line: &str,
    replies: Replies,
) -> TrailEntry {
    TrailEntry::Request(RequestEntry {
        ticket,
        request: cg_line::parse(alloc, line.as_bytes()).expect(rt, "a request"),
        now: Moment::from_millis(5),
        fresh: Uuid::from_u128(1),
        replies,
    })
}

fn join_entry(rt: &impl Abort, alloc: Global, generation: u32) -> TrailEntry {
    let replies = Few::one(alloc, joined(rt, alloc, generation));
    let line = "JOIN g - - c1 10000 20000 consumer range=x01";
    request_entry(rt, alloc, JOIN, line, replies)
}

fn tick_entry(alloc: Global, invents: bool) -> TrailEntry {
    let replies = if invents {
        Few::one(alloc, (JOIN, Reply::Done))
    } else {
        Few::new(alloc)
    };
    TrailEntry::Tick(TickEntry {
        now: Moment::from_millis(6),
        replies,
    })
}

// Makes the entry of a COMMIT by a simple consumer, which is refused once the group has a member.
fn commit_entry(rt: &impl Abort, alloc: Global) -> TrailEntry {
    let refused = (COMMIT, Reply::Refused(Code::UnknownMemberId));
    let replies = Few::one(alloc, refused);
    request_entry(rt, alloc, COMMIT, "COMMIT g -1 - - t:0:7:x", replies)
}

fn append(rt: &impl Abort, trail: &mut Trail, entry: TrailEntry) {
    trail.reserve().expect(rt, "room");
    trail.push(entry);
}

fn trail_of(rt: &impl Abort, alloc: Global, joined: Option<u32>, invents: bool) -> Trail {
    let mut trail = Trail::new(alloc, loaded(rt, alloc), Moment::from_millis(0));
    if let Some(generation) = joined {
        append(rt, &mut trail, join_entry(rt, alloc, generation));
    }
    append(rt, &mut trail, tick_entry(alloc, invents));
    append(rt, &mut trail, commit_entry(rt, alloc));
    trail
}

fn is_lawful(rt: &impl Abort, trail: Trail) -> bool {
    trail.replay().expect(rt, "memory").is_some()
}

#[test]
fn a_trail_is_lawful_if_the_machine_replies_the_same(rt: HostRuntime) {
    for (joined, invents, expected) in ROWS {
        let found = is_lawful(&rt, trail_of(&rt, rt.alloc(), *joined, *invents));
        assert_eq!(rt; found, *expected, "at {joined:?} {invents}");
    }
}

// Answers, and whether the lawful trail has them in this order: of the JOIN or, where it is false, of the COMMIT.
const LOOKED_UP: &[(&[bool], bool)] = &[
    (&[true], true),
    (&[true, false], true),
    (&[false, true], false),
    (&[true, true], false),
];

fn answer(rt: &impl Abort, alloc: Global, is_join: bool) -> (Ticket, Reply) {
    if is_join {
        joined(rt, alloc, 4)
    } else {
        (COMMIT, Reply::Refused(Code::UnknownMemberId))
    }
}

fn has_answers(rt: &impl Abort, alloc: Global, trail: &Trail, are_joins: &[bool]) -> bool {
    let mut answers = Vec::new(alloc);
    for is_join in are_joins {
        answers
            .push(answer(rt, alloc, *is_join))
            .expect(rt, "memory");
    }
    trail.has_answers(answers.as_slice())
}

#[test]
fn answers_are_looked_up_in_their_order(rt: HostRuntime) {
    let trail = trail_of(&rt, rt.alloc(), Some(4), false);
    for (are_joins, expected) in LOOKED_UP {
        let found = has_answers(&rt, rt.alloc(), &trail, are_joins);
        assert_eq!(rt; found, *expected, "of {are_joins:?}");
    }
}

#[test]
fn commands_begin_a_list(rt: HostRuntime) {
    let made = loaded(&rt, rt.alloc());
    let made = made.as_slice();
    let found = (
        begins_with(made, &[]),
        begins_with(made, made),
        begins_with(&[], made),
    );
    assert_eq!(rt; found, (true, true, false));
}
