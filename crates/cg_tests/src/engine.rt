//! What an engine answers to threads that wait for one another, and reports at its beginning and end.
ghost use Rattle.std.specs.Prelude.{◌≡◌, ◌≤◌};
ghost use Rattle.cg_engine.specs.declared.engine_limits.TheConstants.{PARTS};

use super::actor::{Outcome, Round, Step, formatted, outcome_of};
use cg_disk::MemDisk;
use cg_engine::{Engine, FinishFault, LoadFault, PARTS, RoundFault};
use cg_names::Moment;
use std::alloc::Global;
use std::marker::Brand;
use std::process::Abort;
use std::sync::Wait;
use std::sync::ledger::{Blank, Ledger};

const COMMIT: Step = Step::Call("COMMIT g -1 - - t:0:42:x");

const DESCRIBE: Step = Step::Call("DESCRIBE g");

const UNAVAILABLE: &str = "ERR 15 COORDINATOR_NOT_AVAILABLE\n";

struct Row {
    name: &'static str,
    /// Number of syncs before the gated one. The first sync is that of the loading.
    syncs: u64,
    scripts: &'static [&'static [Step]],
    /// Answers of the first scripts, as lines; the others have none.
    answers: &'static [&'static str],
    units: u64,
    /// Number of the last stored command.
    number: u64,
}

const ROWS: &[Row] = &[
    Row {
        name: "a commit has a number before the sync of an earlier one ends",
        syncs: 1,
        scripts: &[
            &[COMMIT],
            &[Step::WaitSyncing, COMMIT],
            &[Step::Until(2, Round::Flush)],
            &[Step::WaitNumbered(2), Step::OpenSync],
        ],
        answers: &["OK\n", "OK\n"],
        units: 2,
        number: 2,
    },
    Row {
        name: "the first sync of a flush round fails while three commits wait",
        syncs: 1,
        scripts: &[
            &[COMMIT],
            &[COMMIT],
            &[COMMIT],
            &[
                Step::FailSync,
                Step::WaitNumbered(3),
                Step::Fails(Round::Flush, RoundFault::Device),
                Step::Fails(Round::Flush, RoundFault::Failed),
                COMMIT,
            ],
        ],
        answers: &[UNAVAILABLE, UNAVAILABLE, UNAVAILABLE, UNAVAILABLE],
        units: 0,
        number: 0,
    },
    Row {
        name: "a JOIN that waits is answered after a JOIN of another thread",
        syncs: u64::MAX,
        scripts: &[
            &[
                Step::Call("JOIN g - - c1 10000 20000 consumer range=x01"),
                Step::CallUntilRebalance("BEAT g 1 c1-00000000-0000-0000-0000-000000000001 -"),
                Step::Call(
                    "JOIN g c1-00000000-0000-0000-0000-000000000001 - c1 10000 20000 consumer range=x01",
                ),
            ],
            &[
                Step::WaitEnded(1),
                Step::Call("JOIN g - - c2 10000 20000 consumer range=x02"),
            ],
        ],
        answers: &[
            "JOINED 1 consumer range c1-00000000-0000-0000-0000-000000000001 c1-00000000-0000-0000-0000-000000000001 c1-00000000-0000-0000-0000-000000000001:-:x01
JOINED 2 consumer range c1-00000000-0000-0000-0000-000000000001 c1-00000000-0000-0000-0000-000000000001 c1-00000000-0000-0000-0000-000000000001:-:x01 c2-00000000-0000-0000-0000-000000000002:-:x02
",
            "JOINED 2 consumer range c1-00000000-0000-0000-0000-000000000001 c2-00000000-0000-0000-0000-000000000002\n",
        ],
        units: 0,
        number: 0,
    },
    Row {
        name: "a member expires at a tick",
        syncs: u64::MAX,
        scripts: &[
            &[
                Step::Call("JOIN g - - c1 6000 20000 consumer range=x01"),
                Step::Call(
                    "SYNC g 1 c1-00000000-0000-0000-0000-000000000001 - c1-00000000-0000-0000-0000-000000000001=xaa",
                ),
                Step::Once(Round::Tick(5999)),
                DESCRIBE,
                Step::Once(Round::Tick(1)),
                DESCRIBE,
            ],
            &[Step::Until(6, Round::Flush)],
        ],
        answers: &[
            "JOINED 1 consumer range c1-00000000-0000-0000-0000-000000000001 c1-00000000-0000-0000-0000-000000000001 c1-00000000-0000-0000-0000-000000000001:-:x01
SYNCED xaa
GROUP Stable 1 consumer range c1-00000000-0000-0000-0000-000000000001:-:c1:x01:xaa
GROUP Empty 2 consumer -
",
        ],
        units: 1,
        number: 2,
    },
];

fn check(rt: &impl Abort, row: &Row, outcome: &Outcome) {
    for (notes, answers) in outcome.notes.iter().zip(row.answers.iter()) {
        assert_eq!(rt; notes.said.as_slice(), answers.as_bytes(), "{}", row.name);
    }
    let found = (outcome.units, outcome.number);
    assert_eq!(rt; found, (row.units, row.number), "{}", row.name);
}

#[test]
fn scripts_get_their_answers(rt: HostRuntime) {
    for row in ROWS {
        let (outcome, _disk) = outcome_of::<Brand, HostRuntime>(
            &rt,
            rt.alloc(),
            Blank::new(PARTS),
            row.syncs,
            row.scripts,
        );
        check(&rt, row, &outcome);
    }
}

// What an engine reports of a first and a second loading, and at its end without a pass that it made.
type Reported = (
    Option<(u64, u64, u64)>,
    Option<LoadFault>,
    Option<FinishFault>,
);

fn missing_pass<L: Ledger>(alloc: Global, engine: Engine<MemDisk, L>) -> Option<FinishFault> {
    match engine.finish(Vec::new(alloc)) {
        Ok(_closed) => None,
        Err((fault, engine, _passes)) => {
            let _ = engine.abandon();
            Some(fault)
        }
    }
}

// Loads another disk. Returns why that is refused.
fn second_fault<L: Ledger, R: Wait>(
    rt: &R,
    engine: &Engine<MemDisk, L>,
    disk: MemDisk,
) -> Option<LoadFault> {
    match engine.load(rt, disk, Moment::from_millis(0)) {
        Ok(_numbers) => None,
        Err((fault, _disk)) => Some(fault),
    }
}

fn reported<L: Ledger, R: Wait + Abort>(rt: &R, alloc: Global, blank: Blank) -> Reported
    requires { (blank.name ≡ L.name) × (blank.parts ≡ L.parts) × (PARTS ≤ blank.parts) }
{
    let (disk, other) = (formatted(rt, alloc), formatted(rt, alloc));
    let engine: Engine<MemDisk, L> = Engine::new(alloc, blank, true).expect(rt, "an engine");
    let first = engine.load(rt, disk, Moment::from_millis(0)).ok();
    let second = second_fault(rt, &engine, other);
    let _pass = engine.pass(rt).expect(rt, "a pass");
    (first, second, missing_pass(alloc, engine))
}

#[test]
fn a_second_loading_and_a_missing_pass_are_reported(rt: HostRuntime) {
    let found = reported::<Brand, HostRuntime>(&rt, rt.alloc(), Blank::new(PARTS));
    let expected = (
        Some((0, 0, 0)),
        Some(LoadFault::Loaded),
        Some(FinishFault::MissingPass),
    );
    assert_eq!(rt; found, expected);
}
