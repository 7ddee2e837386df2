//! Entries of a SYNC: `member=bytes` words.
ghost use Rattle.std.specs.Prelude.{◌≡◌, map, IsTrue, IfOk};
ghost use Rattle.std.specs.List.{list_all};
ghost use Rattle.cg_line.specs.Parsing.{are_sync_entries, is_sync_entry, sync_entry_in};
ghost use Rattle.cg_line.specs.Fields.{bytes_in, is_opaque};

use crate::parser::bytes::{bytes_in, is_opaque};
use crate::parser::keys::{given_to, have_own_keys, key_of};
use crate::parser::names::{is_name, name_in};
use cg_group::{SyncEntries, SyncEntry};
use cg_names::MEMBER_ID_BYTES_MAX;
use cg_record::{ASSIGNMENT_BYTES_MAX, Assignment, MEMBERS_MAX};
use std::alloc::{AllocError, Global};

#[tactic(auto, unfolding(crate::specs::Parsing::is_sync_entry))]
fn is_sync_entry(word: &[u8]) -> bool
    ensures { result ≡ is_sync_entry word.now }
{
    is_name::<MEMBER_ID_BYTES_MAX>(key_of(word)) && is_opaque(given_to(word), ASSIGNMENT_BYTES_MAX)
}

fn pass_each(words: &[&[u8]]) -> bool
    ensures { result ≡ list_all (λ w. is_sync_entry w.now) words.now }
{
    words.iter().all(|word| is_sync_entry(word))
}

// Returns whether each word is an entry.
fn are_each(words: &[&[u8]]) -> bool
    ensures { result ≡ list_all is_sync_entry (map (λ w. w.now) words.now) }
{
    pass_each(words)
}

/// Returns whether the words are the entries of one SYNC. Does not allocate.
#[tactic(auto, unfolding(crate::specs::Parsing::are_sync_entries))]
pub fn are_sync_entries(words: &[&[u8]]) -> bool
    ensures { result ≡ are_sync_entries (map (λ w. w.now) words.now) }
{
    words.len() <= MEMBERS_MAX && are_each(words) && have_own_keys(words)
}

// Decodes the bytes after the member of a checked word.
fn assignment_in(alloc: Global, word: &[u8]) -> Result<Assignment, AllocError>
    requires { IsTrue (is_opaque ASSIGNMENT_BYTES_MAX word.now) }
    ensures { IfOk result (λ bytes. bytes ≡ bytes_in word.now) }
{
    match Assignment::from_vec(bytes_in(alloc, word)?) {
        Ok(assignment) => Ok(assignment),
        Err(_) => unreachable!(),
    }
}

#[tactic(auto, unfolding(crate::specs::Parsing::is_sync_entry, crate::specs::Parsing::sync_entry_in))]
fn sync_entry_in(alloc: Global, word: &[u8]) -> Result<SyncEntry, AllocError>
    requires { IsTrue (is_sync_entry word.now) }
    ensures { IfOk result (λ entry. entry ≡ sync_entry_in word.now) }
{
    let member = name_in(alloc, key_of(word))?;
    let assignment = assignment_in(alloc, given_to(word))?;
    Ok(SyncEntry { member, assignment })
}

fn each_in(alloc: Global, words: &[&[u8]]) -> Result<Vec<SyncEntry>, AllocError>
    requires { IsTrue (list_all is_sync_entry (map (λ w. w.now) words.now)) }
    ensures { IfOk result (λ entries. entries.items ≡ map sync_entry_in (map (λ w. w.now) words.now)) }
{
    let mut entries = Vec::with_capacity(alloc, words.len())?;
    for word in words {
        entries.push(sync_entry_in(alloc, word)?)?;
    }
    Ok(entries)
}

/// Returns the entries of checked words.
#[tactic(auto, unfolding(crate::specs::Parsing::are_sync_entries))]
pub fn sync_entries_in(alloc: Global, words: &[&[u8]]) -> Result<SyncEntries, AllocError>
    requires { IsTrue (are_sync_entries (map (λ w. w.now) words.now)) }
    ensures { IfOk result (λ entries. entries ≡ map sync_entry_in (map (λ w. w.now) words.now)) }
{
    match SyncEntries::from_vec(each_in(alloc, words)?) {
        Ok(entries) => Ok(entries),
        Err(_) => unreachable!(),
    }
}
