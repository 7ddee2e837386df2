//! Entries of a COMMIT: `topic:partition:offset:bytes` words.
ghost use Rattle.std.specs.Prelude.{◌≡◌, map, IsTrue, IfOk};
ghost use Rattle.std.specs.List.{list_all};
ghost use Rattle.cg_line.specs.Numbers.{is_number, value_of};
ghost use Rattle.cg_line.specs.Splitting.{behind, colon};
ghost use Rattle.cg_line.specs.Parsing.{are_commits, commit_in, is_commit, metadata_field, offset_field};
ghost use Rattle.cg_record.specs.declared.offset.TheConstants.{OFFSET_MAX};
ghost use Rattle.cg_record.specs.declared.partition.TheConstants.{PARTITION_MAX};

use crate::parser::bytes::{bytes_in, is_bytes};
use crate::parser::names::short_name_in;
use crate::parser::numbers::{is_number, number_in};
use crate::parser::places::{have_own_places, is_place, partition_field, topic_field};
use crate::parser::word_split::{before, behind};
use cg_group::{CommitEntry, Commits, Listed};
use cg_record::{ENTRIES_MAX, OFFSET_MAX, Offset, PARTITION_MAX, Partition, TopicPartition};
use std::alloc::{AllocError, Global};

// Returns the part after the second colon.
fn behind_place(word: &[u8]) -> &[u8]
    ensures { result.now ≡ behind colon (behind colon word.now) }
{
    behind(behind(word, b':'), b':')
}

fn offset_field(word: &[u8]) -> &[u8]
    ensures { result.now ≡ offset_field word.now }
{
    before(behind_place(word), b':')
}

fn metadata_field(word: &[u8]) -> &[u8]
    ensures { result.now ≡ metadata_field word.now }
{
    behind(behind_place(word), b':')
}

#[tactic(auto, unfolding(crate::specs::Parsing::is_commit))]
fn is_commit(word: &[u8]) -> bool
    ensures { result ≡ is_commit word.now }
{
    is_place(word) && is_number(offset_field(word), OFFSET_MAX) && is_bytes(metadata_field(word))
}

fn pass_each(words: &[&[u8]]) -> bool
    ensures { result ≡ list_all (λ w. is_commit w.now) words.now }
{
    words.iter().all(|word| is_commit(word))
}

// Returns whether each word is an entry.
fn are_each(words: &[&[u8]]) -> bool
    ensures { result ≡ list_all is_commit (map (λ w. w.now) words.now) }
{
    pass_each(words)
}

/// Returns whether the words are the entries of one COMMIT. Does not allocate.
#[tactic(auto, unfolding(crate::specs::Parsing::are_commits))]
pub fn are_commits(words: &[&[u8]]) -> bool
    ensures { result ≡ are_commits (map (λ w. w.now) words.now) }
{
    1 <= words.len() && words.len() <= ENTRIES_MAX && are_each(words) && have_own_places(words)
}

/// Returns the partition of a checked word.
pub fn partition_number_in(word: &[u8]) -> Partition
    requires { IsTrue (is_number PARTITION_MAX word.now) }
    ensures { result ≡ value_of word.now }
{
    match Partition::new(number_in(word, u64::from(PARTITION_MAX)) as u32) {
        Some(partition) => partition,
        None => unreachable!(),
    }
}

fn offset_in(word: &[u8]) -> Offset
    requires { IsTrue (is_number OFFSET_MAX word.now) }
    ensures { result ≡ value_of word.now }
{
    match Offset::new(number_in(word, OFFSET_MAX)) {
        Some(offset) => offset,
        None => unreachable!(),
    }
}

#[tactic(auto, unfolding(crate::specs::Parsing::is_place, crate::specs::Parsing::is_commit, crate::specs::Parsing::commit_in))]
fn commit_in(alloc: Global, word: &[u8]) -> Result<CommitEntry, AllocError>
    requires { IsTrue (is_commit word.now) }
    ensures { IfOk result (λ entry. entry ≡ commit_in word.now) }
{
    let partition = partition_number_in(partition_field(word));
    let offset = offset_in(offset_field(word));
    let topic = short_name_in(alloc, topic_field(word))?;
    let metadata = Listed::from_vec(bytes_in(alloc, metadata_field(word))?);
    Ok(CommitEntry {
        key: TopicPartition { topic, partition },
        offset,
        metadata,
    })
}

fn each_in(alloc: Global, words: &[&[u8]]) -> Result<Vec<CommitEntry>, AllocError>
    requires { IsTrue (list_all is_commit (map (λ w. w.now) words.now)) }
    ensures { IfOk result (λ entries. entries.items ≡ map commit_in (map (λ w. w.now) words.now)) }
{
    let mut entries = Vec::with_capacity(alloc, words.len())?;
    for word in words {
        entries.push(commit_in(alloc, word)?)?;
    }
    Ok(entries)
}

/// Returns the entries of checked words.
pub fn commits_in(alloc: Global, words: &[&[u8]]) -> Result<Commits, AllocError>
    requires { IsTrue (are_commits (map (λ w. w.now) words.now)) }
    ensures { IfOk result (λ commits. commits ≡ map commit_in (map (λ w. w.now) words.now)) }
{
    match Commits::from_vec(each_in(alloc, words)?) {
        Ok(commits) => Ok(commits),
        Err(_) => unreachable!(),
    }
}
