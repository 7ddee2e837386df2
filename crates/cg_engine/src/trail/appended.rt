//! The commands that a store got since loading, for an engine that keeps a trail.
ghost use Rattle.std.specs.Prelude.{◌≡◌, ◌+◌, ◌<◌, ◌++◌, ◌↔◌, length, IfOk, IsTrue, MatchOption, OnOk, vec_capacity, vec_len};
ghost use Rattle.cg_engine.specs.Appended.{AreAsMany, Bears, Knows};
ghost use Rattle.cg_fold.specs.Durable.{after};
ghost use Rattle.cg_store.specs.Carried.{joined};
ghost use Rattle.cg_trail.specs.Trails.{BeginsWith};

use cg_fold::{Durable, snapshots_make_the_state_anew};
use cg_record::{Command, write};
use cg_store::Commands;
use cg_trail::{Trail, begins_with};
use std::alloc::{AllocError, Global};

/// The commands of the loaded state, a snapshot, and the batches that were appended since.
#[derive(Drop)]
pub struct Appended {
    pub loaded: Vec<Command>,
    pub batches: Vec<Commands>,
}

/// Takes a snapshot of a state for a trail and one for the store, if a trail is kept.
pub fn snapshots(
    alloc: Global,
    trail: bool,
    durable: &Durable,
) -> Result<(Option<Vec<Command>>, Option<Appended>), AllocError>
    ensures known { IfOk result (λ both. Knows both.1 durable.now) }
    ensures none { IfOk result (λ both. AreAsMany both.1 0) }
{
    if !trail {
        return Ok((None, None));
    }
    snapshots_make_the_state_anew();
    let for_trail = durable.snapshot()?;
    let loaded = durable.snapshot()?;
    let appended = Appended {
        loaded,
        batches: Vec::new(alloc),
    };
    Ok((Some(for_trail), Some(appended)))
}

// Returns whether these are the commands of a batch. Compares their encodings.
fn are_those_of(alloc: Global, commands: &[Command], batch: &Commands) -> Result<bool, AllocError>
    ensures { IfOk result (λ are. IsTrue are ↔ (commands.now ≡ batch.now)) }
{
    let encoded = write(alloc, commands)?;
    Ok(encoded.as_slice() == batch.as_bytes())
}

// Returns the commands after those of a batch, if the commands begin with them.
fn past_batch<'a>(
    alloc: Global,
    made: &'a [Command],
    batch: &Commands,
) -> Result<Option<&'a [Command]>, AllocError>
    ensures { IfOk result (λ o. MatchOption o
        (¬ BeginsWith made.now batch.now)
        (λ left. made.now ≡ batch.now ++ left.now)) }
{
    if made.len() < batch.len() {
        return Ok(None);
    }
    let (first, left) = made.split_at(batch.len());
    if are_those_of(alloc, first, batch)? {
        Ok(Some(left))
    } else {
        Ok(None)
    }
}

// Returns whether the commands begin with those of the batches.
fn begin_with(alloc: Global, made: &[Command], batches: &[Commands]) -> Result<bool, AllocError>
    ensures { IfOk result (λ begin. IsTrue begin ↔ BeginsWith made.now (joined batches.now)) }
{
    let mut left = made;
    let mut rest = batches;
    while let [batch, others @ ..] = rest {
        let Some(after) = past_batch(alloc, left, batch)? else {
            return Ok(false);
        };
        left = after;
        rest = others;
    }
    Ok(true)
}

// Returns whether both lists have the same commands.
#[tactic(auto, using(crate::proofs::Begins::begins_same, crate::proofs::Begins::same_begins))]
fn are_same(a: &[Command], b: &[Command]) -> bool
    ensures { IsTrue result ↔ (a.now ≡ b.now) }
{
    a.len() == b.len() && begins_with(a, b)
}

impl Appended {
    ghost use Rattle.cg_engine.specs.Appended.{appended_in, state_in};

    /// Makes room for one more batch. Returns a clone of its commands, which shares their frame.
    pub fn reserve(&mut self, commands: &Commands) -> Result<Commands, AllocError>
        ensures copy { IfOk result (λ copy. copy ≡ commands.now) }
        ensures room { OnOk result (vec_len self.new.batches < vec_capacity self.new.batches) }
        ensures same { state_in self.new ≡ state_in self.old }
        ensures same_commands { appended_in self.new ≡ appended_in self.old }
    {
        self.batches.reserve(1)?;
        let copy = commands.clone()?;
        Ok(copy)
    }

    /// Returns whether a trail has the same loaded state, and the commands that it made begin with the appended ones.
    pub fn bears(&self, alloc: Global, trail: &Trail, made: &[Command]) -> Result<bool, AllocError>
        ensures { IfOk result (λ bears. IsTrue bears ↔ Bears self.now trail.now made.now) }
    {
        if !are_same(trail.loaded(), self.loaded.as_slice()) {
            return Ok(false);
        }
        let begin = begin_with(alloc, made, self.batches.as_slice())?;
        Ok(begin)
    }

    /// Notes an appended batch, for which there is room.
    pub fn push(&mut self, copy: Commands)
        requires { vec_len self.old.batches < vec_capacity self.old.batches }
        ensures state { state_in self.new ≡ after (state_in self.old) copy }
        ensures more { length (appended_in self.new) ≡ length (appended_in self.old) + length copy }
    {
        self.batches.push_reserved(copy);
    }
}
