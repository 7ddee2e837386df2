//! Partitions of a FETCH or a DROP: `topic:partition` words.
ghost use Rattle.std.specs.Prelude.{◌≡◌, map, IsTrue, IfOk};
ghost use Rattle.std.specs.List.{list_all};
ghost use Rattle.cg_line.specs.Parsing.{are_partitions, is_partition, partition_in};

use crate::parser::commits::partition_number_in;
use crate::parser::names::{is_name, short_name_in};
use crate::parser::numbers::is_number;
use crate::parser::places::{have_own_places, topic_field};
use crate::parser::word_split::behind;
use cg_names::NAME_BYTES_MAX;
use cg_record::{ENTRIES_MAX, PARTITION_MAX, Partitions, TopicPartition};
use std::alloc::{AllocError, Global};

#[tactic(auto, unfolding(crate::specs::Parsing::is_partition))]
fn is_partition(word: &[u8]) -> bool
    ensures { result ≡ is_partition word.now }
{
    is_name::<NAME_BYTES_MAX>(topic_field(word))
        && is_number(behind(word, b':'), u64::from(PARTITION_MAX))
}

fn pass_each(words: &[&[u8]]) -> bool
    ensures { result ≡ list_all (λ w. is_partition w.now) words.now }
{
    words.iter().all(|word| is_partition(word))
}

// Returns whether each word is a partition.
fn are_each(words: &[&[u8]]) -> bool
    ensures { result ≡ list_all is_partition (map (λ w. w.now) words.now) }
{
    pass_each(words)
}

/// Returns whether the words are the partitions of one FETCH or DROP. Does not allocate.
#[tactic(auto, unfolding(crate::specs::Parsing::are_partitions))]
pub fn are_partitions(words: &[&[u8]]) -> bool
    ensures { result ≡ are_partitions (map (λ w. w.now) words.now) }
{
    1 <= words.len() && words.len() <= ENTRIES_MAX && are_each(words) && have_own_places(words)
}

#[tactic(auto, unfolding(crate::specs::Parsing::is_partition, crate::specs::Parsing::partition_in))]
fn partition_in(alloc: Global, word: &[u8]) -> Result<TopicPartition, AllocError>
    requires { IsTrue (is_partition word.now) }
    ensures { IfOk result (λ partition. partition ≡ partition_in word.now) }
{
    let partition = partition_number_in(behind(word, b':'));
    let topic = short_name_in(alloc, topic_field(word))?;
    Ok(TopicPartition { topic, partition })
}

fn each_in(alloc: Global, words: &[&[u8]]) -> Result<Vec<TopicPartition>, AllocError>
    requires { IsTrue (list_all is_partition (map (λ w. w.now) words.now)) }
    ensures { IfOk result (λ partitions. partitions.items ≡ map partition_in (map (λ w. w.now) words.now)) }
{
    let mut partitions = Vec::with_capacity(alloc, words.len())?;
    for word in words {
        partitions.push(partition_in(alloc, word)?)?;
    }
    Ok(partitions)
}

/// Returns the partitions of checked words.
pub fn partitions_in(alloc: Global, words: &[&[u8]]) -> Result<Partitions, AllocError>
    requires { IsTrue (are_partitions (map (λ w. w.now) words.now)) }
    ensures { IfOk result (λ partitions. partitions ≡ map partition_in (map (λ w. w.now) words.now)) }
{
    match Partitions::from_vec(each_in(alloc, words)?) {
        Ok(partitions) => Ok(partitions),
        Err(_) => unreachable!(),
    }
}
