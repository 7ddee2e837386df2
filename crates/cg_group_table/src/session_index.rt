//! The session index: for each session, the groups in which its calls may be parked. A closed session visits only
//! these.
ghost use Rattle.std.specs.Prelude.{◌≡◌, ◌⊎◌, ℕ, List, Some, None, true, false, OnErr, OnOk};
ghost use Rattle.std.specs.BTreeMap.{get};
ghost use Rattle.std.specs.Ordering.{nat_cmp};
ghost use Rattle.cg_group_table.specs.SessionIndex.{IsFilled, IsSettled, IsSettledIn, is_certain, is_certain_in, is_home, is_noted};

use cg_names::GroupId;
use std::alloc::{AllocError, Global};
use std::collections::BTreeMap;

/// What the session index knows of a group.
#[derive(Clone, Copy, Debug)]
pub enum Home {
    /// A call of the session is parked in the group.
    Certain,
    /// A call of the session in the group got its reply, and it is not known yet whether another one is parked there.
    Doubtful,
}

/// The session index: for each session, the groups in which its calls may be parked.
pub type SessionIndex = BTreeMap<u64, BTreeMap<GroupId, Home>>;

// Adds the first group of a session.
fn note_first(
    alloc: Global,
    homes: &mut SessionIndex,
    session: u64,
    id: GroupId,
) -> Result<(), AllocError>
    requires { get nat_cmp homes.old session ≡ None }
    ensures kept { (q : ℕ) (x : List ℕ) → is_home homes.old q x ≡ true → is_home homes.new q x ≡ true }
    ensures here { OnOk result (is_home homes.new session id ≡ true) }
    ensures fewer { (q : ℕ) (x : List ℕ) → is_home homes.new q x ≡ true → (is_home homes.old q x ≡ true) ⊎ ((session ≡ q) × (x ≡ id)) }
    ensures filled { (q : ℕ) → IsFilled (get nat_cmp homes.old q) → IsFilled (get nat_cmp homes.new q) }
    ensures err { OnErr result ((q : ℕ) (x : List ℕ) → is_home homes.new q x ≡ true → is_home homes.old q x ≡ true) }
{
    let mut groups = BTreeMap::new(alloc);
    groups.insert(id, Home::Certain)?;
    homes.insert(session, groups)?;
    Ok(())
}

// Adds one more group of a session.
fn note_in(groups: &mut BTreeMap<GroupId, Home>, id: GroupId) -> Result<(), AllocError>
    ensures kept { (x : List ℕ) → is_noted x (Some groups.old) ≡ true → is_noted x (Some groups.new) ≡ true }
    ensures here { OnOk result (is_noted id (Some groups.new) ≡ true) }
    ensures fewer { (x : List ℕ) → is_noted x (Some groups.new) ≡ true → (is_noted x (Some groups.old) ≡ true) ⊎ (x ≡ id) }
    ensures err { OnErr result ((x : List ℕ) → is_noted x (Some groups.new) ≡ true → is_noted x (Some groups.old) ≡ true) }
    ensures filled { IsFilled (Some groups.old) → IsFilled (Some groups.new) }
{
    groups.insert(id, Home::Certain)?;
    Ok(())
}

/// Adds the group to the session's groups.
pub fn note(
    alloc: Global,
    homes: &mut SessionIndex,
    session: u64,
    id: GroupId,
) -> Result<(), AllocError>
    ensures kept { (q : ℕ) (x : List ℕ) → is_home homes.old q x ≡ true → is_home homes.new q x ≡ true }
    ensures here { OnOk result (is_home homes.new session id ≡ true) }
    ensures fewer { (q : ℕ) (x : List ℕ) → is_home homes.new q x ≡ true → (is_home homes.old q x ≡ true) ⊎ ((session ≡ q) × (x ≡ id)) }
    ensures filled { (q : ℕ) → IsFilled (get nat_cmp homes.old q) → IsFilled (get nat_cmp homes.new q) }
    ensures err { OnErr result ((q : ℕ) (x : List ℕ) → is_home homes.new q x ≡ true → is_home homes.old q x ≡ true) }
{
    let Some(groups) = homes.get_mut(&session) else {
        return note_first(alloc, homes, session, id);
    };
    note_in(groups, id)?;
    Ok(())
}

fn doubt_in(groups: &mut BTreeMap<GroupId, Home>, id: &GroupId)
    ensures kept { (x : List ℕ) → is_noted x (Some groups.old) ≡ true → is_noted x (Some groups.new) ≡ true }
    ensures here { is_certain_in id.now (Some groups.new) ≡ false }
    ensures fewer { (x : List ℕ) → is_noted x (Some groups.new) ≡ true → is_noted x (Some groups.old) ≡ true }
    ensures filled { IsFilled (Some groups.old) → IsFilled (Some groups.new) }
{
    if let Some(home) = groups.get_mut(id) {
        *home = Home::Doubtful;
    }
}

/// Marks the group as doubtful for the session, if the index has it: a call of the session got its reply there.
pub fn doubt(homes: &mut SessionIndex, session: u64, id: &GroupId)
    ensures kept { (q : ℕ) (x : List ℕ) → is_home homes.old q x ≡ true → is_home homes.new q x ≡ true }
    ensures here { is_certain homes.new session id.now ≡ false }
    ensures doubtful { (q : ℕ) → is_certain homes.old q id.now ≡ false → is_certain homes.new q id.now ≡ false }
    ensures fewer { (q : ℕ) (x : List ℕ) → is_home homes.new q x ≡ true → is_home homes.old q x ≡ true }
    ensures filled { (q : ℕ) → IsFilled (get nat_cmp homes.old q) → IsFilled (get nat_cmp homes.new q) }
{
    if let Some(groups) = homes.get_mut(&session) {
        doubt_in(groups, id);
    }
}

fn affirm_in(groups: &mut BTreeMap<GroupId, Home>, id: &GroupId)
    ensures kept { (x : List ℕ) → is_noted x (Some groups.old) ≡ true → is_noted x (Some groups.new) ≡ true }
    ensures certain { (x : List ℕ) → is_certain_in x (Some groups.old) ≡ true → is_certain_in x (Some groups.new) ≡ true }
    ensures here { is_noted id.now (Some groups.old) ≡ true → is_certain_in id.now (Some groups.new) ≡ true }
    ensures fewer { (x : List ℕ) → is_noted x (Some groups.new) ≡ true → is_noted x (Some groups.old) ≡ true }
    ensures filled { IsFilled (Some groups.old) → IsFilled (Some groups.new) }
{
    if let Some(home) = groups.get_mut(id) {
        *home = Home::Certain;
    }
}

/// Marks the group as certain for the session, if the index has it: a call of the session is parked there.
pub fn affirm(homes: &mut SessionIndex, session: u64, id: &GroupId)
    ensures kept { (q : ℕ) (x : List ℕ) → is_home homes.old q x ≡ true → is_home homes.new q x ≡ true }
    ensures certain { (q : ℕ) (x : List ℕ) → is_certain homes.old q x ≡ true → is_certain homes.new q x ≡ true }
    ensures here { is_home homes.old session id.now ≡ true → is_certain homes.new session id.now ≡ true }
    ensures others { (q : ℕ) → (Some session ≡ Some q → ⊥) → is_certain homes.new q id.now ≡ is_certain homes.old q id.now }
    ensures fewer { (q : ℕ) (x : List ℕ) → is_home homes.new q x ≡ true → is_home homes.old q x ≡ true }
    ensures filled { (q : ℕ) → IsFilled (get nat_cmp homes.old q) → IsFilled (get nat_cmp homes.new q) }
{
    if let Some(groups) = homes.get_mut(&session) {
        affirm_in(groups, id);
    }
}

fn is_doubtful(groups: &BTreeMap<GroupId, Home>, id: &GroupId) -> bool
    ensures doubtful { result ≡ true → is_certain_in id.now (Some groups.now) ≡ false }
    ensures settled { result ≡ false → IsSettledIn id.now (Some groups.now) }
{
    match groups.get(id) {
        Some(Home::Doubtful) => true,
        Some(Home::Certain) => false,
        None => false,
    }
}

fn leave_in(groups: &mut BTreeMap<GroupId, Home>, id: &GroupId)
    ensures others { (x : List ℕ) → (x ≡ id.now → ⊥) → is_noted x (Some groups.old) ≡ true → is_noted x (Some groups.new) ≡ true }
    ensures certain { (x : List ℕ) → is_certain_in x (Some groups.old) ≡ true → is_certain_in x (Some groups.new) ≡ true }
    ensures settled { IsSettledIn id.now (Some groups.new) }
    ensures sure { is_certain_in id.now (Some groups.new) ≡ true → is_certain_in id.now (Some groups.old) ≡ true }
    ensures fewer { (x : List ℕ) → is_noted x (Some groups.new) ≡ true → is_noted x (Some groups.old) ≡ true }
{
    if is_doubtful(groups, id) {
        groups.remove(id);
    }
}

// Removes the group if it is doubtful. Returns whether the session has no groups left.
fn leave_one(homes: &mut SessionIndex, session: u64, id: &GroupId) -> bool
    ensures others { (q : ℕ) (x : List ℕ) → (x ≡ id.now → ⊥) → is_home homes.old q x ≡ true → is_home homes.new q x ≡ true }
    ensures certain { (q : ℕ) (x : List ℕ) → is_certain homes.old q x ≡ true → is_certain homes.new q x ≡ true }
    ensures settled { IsSettledIn id.now (get nat_cmp homes.new session) }
    ensures sure { (q : ℕ) → is_certain homes.new q id.now ≡ true → is_certain homes.old q id.now ≡ true }
    ensures apart { (q : ℕ) → (Some session ≡ Some q → ⊥) → get nat_cmp homes.new q ≡ get nat_cmp homes.old q }
    ensures bare { result ≡ true → (x : List ℕ) → is_home homes.new session x ≡ false }
    ensures calm { result ≡ true → (x : List ℕ) → is_certain homes.new session x ≡ false }
    ensures filled { result ≡ false → IsFilled (get nat_cmp homes.new session) }
    ensures fewer { (q : ℕ) (x : List ℕ) → is_home homes.new q x ≡ true → is_home homes.old q x ≡ true }
{
    let Some(groups) = homes.get_mut(&session) else {
        return false;
    };
    leave_in(groups, id);
    groups.is_empty()
}

/// Removes the group from the session's groups if it is doubtful, and the session if it has no groups left.
pub fn leave(homes: &mut SessionIndex, session: u64, id: &GroupId)
    ensures others { (q : ℕ) (x : List ℕ) → (x ≡ id.now → ⊥) → is_home homes.old q x ≡ true → is_home homes.new q x ≡ true }
    ensures certain { (q : ℕ) (x : List ℕ) → is_certain homes.old q x ≡ true → is_certain homes.new q x ≡ true }
    ensures settled { IsSettled homes.new session id.now }
    ensures sure { (q : ℕ) → is_certain homes.new q id.now ≡ true → is_certain homes.old q id.now ≡ true }
    ensures apart { (q : ℕ) → (Some session ≡ Some q → ⊥) → get nat_cmp homes.new q ≡ get nat_cmp homes.old q }
    ensures calm { (q : ℕ) → IsSettled homes.old q id.now → IsSettled homes.new q id.now }
    ensures fewer { (q : ℕ) (x : List ℕ) → is_home homes.new q x ≡ true → is_home homes.old q x ≡ true }
    ensures filled { (q : ℕ) → IsFilled (get nat_cmp homes.old q) → IsFilled (get nat_cmp homes.new q) }
{
    if leave_one(homes, session, id) {
        let _left = homes.remove(&session);
    }
}

/// Removes the session from the index, with all its groups.
pub fn forget(homes: &mut SessionIndex, session: u64)
    ensures gone { get nat_cmp homes.new session ≡ None }
    ensures apart { (q : ℕ) → (Some session ≡ Some q → ⊥) → get nat_cmp homes.new q ≡ get nat_cmp homes.old q }
{
    let _left = homes.remove(&session);
}
