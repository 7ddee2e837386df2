//! Eight threads that call at random, beside a flusher, a ticker and a compactor.
use super::actor::{Outcome, Round, Stage, Step, outcome_of};
use cg_disk::{Crash, MemDisk, SectorDisk};
use cg_engine::{PARTS, SessionPass};
use cg_fold::Durable;
use cg_names::{GroupId, Topic};
use cg_record::{Partition, TopicPartition};
use cg_store::Store;
use std::alloc::Global;
use std::marker::Brand;
use std::process::Abort;
use std::sync::Wait;
use std::sync::ledger::{Blank, Ledger};
use std::time::Clock;

// Numbers of the calls of a thread: all have three digits.
const FIRST_CALL: u64 = 100;

const LAST_CALL: u64 = 399;

const THREADS: usize = 8;

// Calls beside the COMMIT, with the groups of which one is drawn. In g0 no member joins, so its commits are accepted; g2 and
// g3 may be deleted. `@` is the group, `?` a generation, `#` the thread's partition and member, and `PQR` the number of the
// call: an offset that grows.
const LINES: &[(&[u8], [u8; 4])] = &[
    (b"JOIN g@ - - c# 6000 10 consumer range=x0#", *b"1231"),
    (
        b"JOIN g@ c#-00000000-0000-0000-0000-00000000000# - c# 6000 10 consumer range=x0#",
        *b"1231",
    ),
    (
        b"SYNC g@ ? c#-00000000-0000-0000-0000-00000000000# - c#-00000000-0000-0000-0000-00000000000#=xaa",
        *b"1231",
    ),
    (
        b"BEAT g@ ? c#-00000000-0000-0000-0000-00000000000# -",
        *b"1231",
    ),
    (
        b"LEAVE g@ c#-00000000-0000-0000-0000-00000000000# -",
        *b"1231",
    ),
    (b"FETCH g@ t:#", *b"0123"),
    (b"DELETE g@", *b"2323"),
];

const COMMIT: (&[u8], [u8; 4]) = (b"COMMIT g@ -1 - - t:#:PQR:x", *b"0123");

// A call that was drawn.
#[derive(Clone, Copy)]
struct Drawn {
    line: &'static [u8],
    group: u8,
    generation: u8,
    who: u8,
    number: u64,
}

// Draws a call. Three of ten are COMMITs.
fn drawn_from(bits: u64, who: u8, number: u64) -> Drawn {
    let (line, groups) = LINES.get((bits % 10) as usize).unwrap_or(&COMMIT);
    Drawn {
        line: *line,
        group: groups[((bits >> 8) % 4) as usize],
        generation: b'1' + ((bits >> 16) % 3) as u8,
        who,
        number,
    }
}

fn digit(number: u64) -> u8 {
    b'0' + (number % 10) as u8
}

fn byte_of(byte: u8, drawn: Drawn) -> u8 {
    match byte {
        b'@' => drawn.group,
        b'?' => drawn.generation,
        b'#' => drawn.who,
        b'P' => digit(drawn.number / 100),
        b'Q' => digit(drawn.number / 10),
        b'R' => digit(drawn.number),
        _ => byte,
    }
}

fn line_of(rt: &impl Abort, alloc: Global, drawn: Drawn) -> Vec<u8> {
    let mut line = Vec::new(alloc);
    for byte in drawn.line {
        line.push(byte_of(*byte, drawn)).expect(rt, "memory");
    }
    line
}

fn next_bits(bits: u64) -> u64 {
    bits.wrapping_mul(6_364_136_223_846_793_005)
        .wrapping_add(1_442_695_040_888_963_407)
}

// Notes the offset of an acknowledged commit to g0 or g1.
fn note(acknowledged: &mut [u64; 2], drawn: Drawn) {
    match drawn.group {
        b'0' => acknowledged[0] = drawn.number,
        b'1' => acknowledged[1] = drawn.number,
        _ => {}
    }
}

fn call_drawn<D: SectorDisk + Drop, L: Ledger, R: Wait + Clock + Abort>(
    stage: &Stage<'_, D, L, R>,
    pass: SessionPass<L>,
    acknowledged: &mut [u64; 2],
    drawn: Drawn,
) -> SessionPass<L> {
    let line = line_of(stage.rt, stage.alloc, drawn);
    let (pass, answer) = stage.call(pass, line.as_slice());
    if line.starts_with(b"COMMIT") && answer.as_slice() == b"OK".as_slice() {
        note(acknowledged, drawn);
    }
    pass
}

/// Makes all calls of a thread.
pub(super) fn call_at_random<D: SectorDisk + Drop, L: Ledger, R: Wait + Clock + Abort>(
    stage: &Stage<'_, D, L, R>,
    pass: SessionPass<L>,
    acknowledged: &mut [u64; 2],
) -> SessionPass<L> {
    let who = b'1' + (pass.number() % 8) as u8;
    let mut bits = next_bits(u64::from(who));
    let mut pass = pass;
    for number in FIRST_CALL..=LAST_CALL {
        let drawn = drawn_from(bits >> 33, who, number);
        pass = call_drawn(stage, pass, acknowledged, drawn);
        bits = next_bits(bits);
    }
    pass
}

const CALLS: &[Step] = &[Step::CallAtRandom];

const SCRIPTS: &[&[Step]] = &[
    CALLS,
    CALLS,
    CALLS,
    CALLS,
    CALLS,
    CALLS,
    CALLS,
    CALLS,
    &[Step::Until(8, Round::Flush)],
    &[Step::Until(8, Round::Tick(50))],
    &[Step::Until(8, Round::Compact)],
];

// Opens the disk again after a crash that loses what was not synced. Returns how many commands it has, and their state.
fn reopened(rt: &impl Abort, alloc: Global, disk: MemDisk) -> (u64, Durable) {
    let opened = Store::open(alloc, disk.crash(Crash::Lose));
    let (_store, number, durable) = opened.ok().expect(rt, "a store");
    (number, durable)
}

// Returns the offset of a thread's partition in a group, or 0.
fn stored_in(rt: &impl Abort, alloc: Global, durable: &Durable, group: &str, who: u32) -> u64 {
    let group = GroupId::parse(alloc, group).expect(rt, "a group");
    let topic = Topic::parse(alloc, "t").expect(rt, "a topic");
    let partition = Partition::new(who).expect(rt, "a partition");
    match durable.offset(&group, &TopicPartition { topic, partition }) {
        Some(stored) => stored.offset.get(),
        None => 0,
    }
}

// Looks for the acknowledged offsets of each thread, or later ones. Each had a commit to g0 acknowledged.
fn check(rt: &impl Abort, alloc: Global, durable: &Durable, outcome: &Outcome) {
    let mut who = 0u32;
    for notes in outcome.notes.iter().take(THREADS) {
        who = who.wrapping_add(1);
        let [first, second] = notes.acknowledged;
        assert!(rt; first > 0, "thread {who} has no acknowledged commit");
        let stored = stored_in(rt, alloc, durable, "g0", who);
        assert!(rt;
            stored >= first,
            "thread {who}: {stored} in place of {first} in g0"
        );
        let stored = stored_in(rt, alloc, durable, "g1", who);
        assert!(rt;
            stored >= second,
            "thread {who}: {stored} in place of {second} in g1"
        );
    }
}

#[test]
fn what_a_storm_acknowledged_is_stored(rt: HostRuntime) {
    let alloc = rt.alloc();
    let (outcome, disk) = outcome_of::<Brand, HostRuntime>(
        &rt,
        alloc,
        Blank::new(PARTS),
        u64::MAX,
        SCRIPTS,
    );
    let (number, durable) = reopened(&rt, alloc, disk);
    assert_eq!(rt; number, outcome.number);
    check(&rt, alloc, &durable, &outcome);
}
