//! Uses of a desk that no program makes: a token that is refused, batches that come back, and how many commands each reply
//! counts.
use cg_desk::{Desk, ReplyToken, SettleFault};
use cg_disk::MemDisk;
use cg_fold::Durable;
use cg_group::Ticket;
use cg_names::{Code, Moment};
use cg_store::{Batch, Receipt, Store, format};
use std::alloc::Global;
use std::process::Abort;
use uuid::Uuid;

// Sectors of a disk with one segment.
const DISK_SECTORS: u64 = 2052;

const OWN: &str = "COMMIT g -1 - - t:0:1:x";

const FOREIGN: &str = "COMMIT g -1 - - t:0:2:x";

const LATER: &str = "COMMIT g -1 - - t:0:3:x";

#[test]
fn a_refused_token_answers_its_own_ticket(rt: HostRuntime) {
    let ticket = Ticket {
        session: 7,
        number: 3,
    };
    let outgoing = ReplyToken::new(ticket).refuse(Code::CoordinatorLoadInProgress);
    let line = cg_line::print(rt.alloc(), outgoing.reply()).expect(&rt, "a line");
    let expected = b"ERR 14 COORDINATOR_LOAD_IN_PROGRESS";
    assert_eq!(rt; line.as_slice(), expected.as_slice());
    assert_eq!(rt; outgoing.ticket(), ticket);
}

// Makes a serving desk without commands.
pub(super) fn serving(rt: &impl Abort, alloc: Global) -> Desk {
    let mut desk = Desk::loading(alloc).expect(rt, "a desk");
    let loaded = desk.loaded(0, Durable::new(alloc), Moment::from_millis(0));
    assert!(rt; loaded.is_ok());
    desk
}

// Sends a request, whose reply is held or parked. From the number of its ticket a JOIN draws a member id.
fn send(rt: &impl Abort, alloc: Global, desk: &mut Desk, number: u64, line: &str) {
    let request = cg_line::parse(alloc, line.as_bytes()).expect(rt, "a request");
    let token = ReplyToken::new(Ticket { session: 1, number });
    let fresh = Uuid::from_u128(u128::from(number));
    match desk.request(token, request, Moment::from_millis(0), fresh) {
        Ok(out) => assert!(rt; out.is_empty(), "a reply to {line} left"),
        Err((_, token)) => {
            let _ = token.refuse(Code::UnknownServerError);
            panic!(rt; "no memory for {line}");
        }
    }
}

fn taken(rt: &impl Abort, desk: &mut Desk) -> Batch {
    let batch = desk.take_batch().expect(rt, "memory");
    batch.expect(rt, "a batch")
}

// Takes a batch of this one command from a desk of its own.
fn foreign_batch(rt: &impl Abort, alloc: Global) -> Batch {
    let mut desk = serving(rt, alloc);
    send(rt, alloc, &mut desk, 1, FOREIGN);
    let batch = taken(rt, &mut desk);
    let _ = desk.close();
    batch
}

// Gives back a batch that the desk refuses.
fn refused(rt: &impl Abort, desk: &mut Desk, batch: Batch) -> (SettleFault, Batch) {
    desk.give_back(batch).expect_err(rt, "a refusal")
}

// Gives back a batch of the desk.
fn give_back(rt: &impl Abort, desk: &mut Desk, batch: Batch) {
    assert!(rt; desk.give_back(batch).is_ok());
}

// The batches have the same number, and differ in their offset. A batch that was given back is taken as it was, though a
// later command would fit too.
#[test]
fn a_batch_that_comes_back_is_taken_again(rt: HostRuntime) {
    let alloc = rt.alloc();
    let mut desk = serving(&rt, alloc);
    let (before, foreign) = refused(&rt, &mut desk, foreign_batch(&rt, alloc));
    send(&rt, alloc, &mut desk, 1, OWN);
    let own = taken(&rt, &mut desk);
    let (after, _) = refused(&rt, &mut desk, foreign);
    give_back(&rt, &mut desk, own);
    send(&rt, alloc, &mut desk, 2, LATER);
    let again = taken(&rt, &mut desk);
    let _ = desk.close();
    assert_eq!(rt;
        (before, after),
        (SettleFault::NotInFlight, SettleFault::Foreign)
    );
    assert_eq!(rt; (again.first, again.commands.len()), (1, 1));
}

// Requests with the numbers of their tickets. The COMMIT and the leader's SYNC make a command each. The JOIN of the first
// member (5) completes the rebalance in which the JOIN of the second (4) is parked, and the leader's SYNC (7) answers the
// second member's SYNC (6).
const SENT: &[(u64, &str)] = &[
    (1, OWN),
    (2, "FETCH g t:0"),
    (3, "JOIN h - - c1 10000 20000 consumer range=x"),
    (4, "JOIN h - - c2 10000 20000 consumer range=x"),
    (
        5,
        "JOIN h c1-00000000-0000-0000-0000-000000000003 - c1 10000 20000 consumer range=x",
    ),
    (6, "SYNC h 2 c2-00000000-0000-0000-0000-000000000004 -"),
    (7, "SYNC h 2 c1-00000000-0000-0000-0000-000000000003 -"),
];

// The number of each ticket, in the order in which the replies leave, and how many commands the reply counts.
const LEFT: &[(u64, u64)] = &[(1, 1), (2, 0), (3, 0), (5, 0), (4, 0), (7, 1), (6, 0)];

fn store(rt: &impl Abort, alloc: Global) -> Store<MemDisk> {
    let mut disk = MemDisk::new(alloc, DISK_SECTORS).expect(rt, "a disk");
    format(alloc, &mut disk).expect(rt, "a log");
    let opened = Store::open(alloc, disk).ok().expect(rt, "a store");
    opened.0
}

fn appended(rt: &impl Abort, alloc: Global, batch: Batch) -> Receipt {
    let mut store = store(rt, alloc);
    store.append(batch).ok().expect(rt, "a receipt")
}

// Settles the commands of a batch. Returns the tickets and the counts of the replies that leave.
fn settled(rt: &impl Abort, alloc: Global, desk: &mut Desk, batch: Batch) -> Vec<(u64, u64)> {
    let receipt = appended(rt, alloc, batch);
    let out = desk.settle(receipt).ok().expect(rt, "replies");
    let mut left = Vec::new(alloc);
    for outgoing in out {
        let both = (outgoing.ticket().number, outgoing.made());
        left.push(both).expect(rt, "memory");
    }
    left
}

fn send_all(rt: &impl Abort, alloc: Global, desk: &mut Desk) {
    for (number, line) in SENT {
        send(rt, alloc, desk, *number, line);
    }
}

// Of the seven requests two are parked, so five steps are held; the last one makes two replies.
#[test]
fn each_command_is_counted_by_the_reply_to_its_request(rt: HostRuntime) {
    let alloc = rt.alloc();
    let mut desk = serving(&rt, alloc);
    send_all(&rt, alloc, &mut desk);
    let held = (desk.held(), desk.last_held().len());
    let batch = taken(&rt, &mut desk);
    let left = settled(&rt, alloc, &mut desk, batch);
    let _ = desk.close();
    assert_eq!(rt; held, (5, 2));
    assert_eq!(rt; left.as_slice(), LEFT);
}
