//! The index against examples, and against a plain list. No clause says that the tree is balanced.
use crate::Deadlines;
use crate::tree::Tree;
use cg_names::{MemberId, Moment};
use std::alloc::{AllocError, Global};
use std::process::Abort;

#[derive(Clone, Copy)]
enum Step {
    Set(u64, u64),
    Clear(u64),
    Due(u64, &'static [u64]),
}

const A: u64 = 1;

const B: u64 = 2;

const STEPS: &[Step] = &[
    Step::Due(u64::MAX, &[]),
    Step::Set(A, 10),
    Step::Set(B, 9),
    Step::Set(A, 11),
    Step::Due(8, &[]),
    Step::Due(10, &[B]),
    Step::Due(11, &[A, B]),
    Step::Clear(B),
    Step::Due(11, &[A]),
    Step::Clear(B),
    Step::Set(B, u64::MAX),
    Step::Due(u64::MAX, &[A, B]),
];

// Makes a step, and looks at the keys that are due where it says which.
fn make(rt: &impl Abort, deadlines: &mut Deadlines<u64>, step: Step) -> Result<(), AllocError> {
    match step {
        Step::Set(key, moment) => deadlines.set(key, Moment::from_millis(moment))?,
        Step::Clear(key) => deadlines.clear(&key),
        Step::Due(now, expected) => {
            let keys = deadlines.due(Moment::from_millis(now))?;
            assert_eq!(rt; keys.as_slice(), expected);
        }
    }
    Ok(())
}

#[test]
fn deadlines_move_and_are_cleared(rt: HostRuntime) {
    let mut deadlines = Deadlines::new(rt.alloc());
    deadlines.reserve(2).expect(&rt, "room");
    for step in STEPS {
        make(&rt, &mut deadlines, *step).expect(&rt, "room");
    }
}

// Sets the deadline of a member to a moment, and returns how many are due then.
fn due_by_name(rt: &impl Abort, alloc: Global, now: Moment) -> usize {
    let mut deadlines = Deadlines::new(alloc);
    let id = MemberId::parse(alloc, "m").expect(rt, "an id");
    deadlines.set(id, now).expect(rt, "room");
    let due = deadlines.due(now).expect(rt, "ids");
    due.len()
}

// Sets the deadline of a pair to a moment, and returns the pairs that are due then.
fn due_by_pair(rt: &impl Abort, alloc: Global, now: Moment) -> Vec<(u64, u64)> {
    let mut deadlines = Deadlines::new(alloc);
    deadlines.set((1, 2), now).expect(rt, "room");
    deadlines.due(now).expect(rt, "pairs")
}

#[test]
fn names_and_pairs_are_keys(rt: HostRuntime) {
    let now = Moment::from_millis(7);
    assert_eq!(rt; due_by_name(&rt, rt.alloc(), now), 1);
    let pairs = due_by_pair(&rt, rt.alloc(), now);
    assert_eq!(rt; pairs.as_slice(), [(1, 2)].as_slice());
}

// Whether the heights of the two sides of each branch differ by one at most.
fn is_balanced<K: Ord>(tree: &Tree<K>) -> bool {
    match tree.branch() {
        None => true,
        Some(branch) => {
            let left = branch.left.height();
            let right = branch.right.height();
            left.abs_diff(right) <= 1
                && branch.height == left.max(right).saturating_add(1)
                && is_balanced(&branch.left)
                && is_balanced(&branch.right)
        }
    }
}

fn is_index_balanced<K: Ord>(deadlines: &Deadlines<K>) -> bool {
    is_balanced(&deadlines.tree)
}

// Sets 600 deadlines in the order of their keys, and as many in the opposite order.
fn fill(rising: &mut Deadlines<u64>, falling: &mut Deadlines<u64>) -> Result<(), AllocError> {
    for key in 0..600 {
        rising.set(key, Moment::from_millis(0))?;
        falling.set(600 - key, Moment::from_millis(0))?;
    }
    Ok(())
}

// Clears half of the deadlines. Both trees are balanced before and after each.
fn stay_balanced(rt: &impl Abort, rising: &mut Deadlines<u64>, falling: &mut Deadlines<u64>) {
    assert!(rt; is_index_balanced(rising));
    assert!(rt; is_index_balanced(falling));
    for key in 0..300 {
        rising.clear(&key);
        falling.clear(&(2 * key));
        assert!(rt; is_index_balanced(rising));
        assert!(rt; is_index_balanced(falling));
    }
}

#[test]
fn trees_are_balanced(rt: HostRuntime) {
    let mut rising = Deadlines::new(rt.alloc());
    let mut falling = Deadlines::new(rt.alloc());
    fill(&mut rising, &mut falling).expect(&rt, "room");
    stay_balanced(&rt, &mut rising, &mut falling);
}

// Pseudo-random numbers (Knuth's linear congruential generator, MMIX).
fn following(state: u64) -> u64 {
    state
        .wrapping_mul(6364136223846793005)
        .wrapping_add(1442695040888963407)
}

fn due_in(alloc: Global, plain: &[Option<u64>], now: u64) -> Result<Vec<u64>, AllocError> {
    let mut keys = Vec::new(alloc);
    for (key, moment) in plain.iter().enumerate() {
        if moment.is_some_and(|moment| moment <= now) {
            keys.push(key as u64)?;
        }
    }
    Ok(keys)
}

// Clears the deadline of a key in the index and in the list, or sets it, as the number says.
fn change(
    deadlines: &mut Deadlines<u64>,
    plain: &mut [Option<u64>],
    state: u64,
) -> Result<(), AllocError> {
    let key = state >> 58;
    let moment = (state >> 32) % 50;
    if let Some(held) = plain.get_mut(key as usize) {
        if (state >> 40) % 3 == 0 {
            deadlines.clear(&key);
            *held = None;
        } else {
            deadlines.set(key, Moment::from_millis(moment))?;
            *held = Some(moment);
        }
    }
    Ok(())
}

// The index and the list have the same keys that are due.
fn agree(
    rt: &impl Abort,
    alloc: Global,
    deadlines: &Deadlines<u64>,
    plain: &[Option<u64>],
    now: u64,
) -> Result<(), AllocError> {
    let due = deadlines.due(Moment::from_millis(now))?;
    let expected = due_in(alloc, plain, now)?;
    assert_eq!(rt; due.as_slice(), expected.as_slice());
    Ok(())
}

#[test]
fn the_index_agrees_with_a_plain_list(rt: HostRuntime) {
    let mut deadlines = Deadlines::new(rt.alloc());
    let mut plain = [None; 64];
    let mut state = 19;
    for _ in 0..600 {
        state = following(state);
        change(&mut deadlines, &mut plain, state).expect(&rt, "room");
        agree(&rt, rt.alloc(), &deadlines, &plain, (state >> 20) % 50).expect(&rt, "keys");
        assert!(rt; is_index_balanced(&deadlines));
    }
}
