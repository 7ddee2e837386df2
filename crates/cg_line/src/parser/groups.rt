//! FETCH, DESCRIBE, DELETE, DROP and LIST, from the words after the first.
ghost use Rattle.std.specs.Prelude.{map};
ghost use Rattle.cg_line.specs.Parsing.{Reads, drop_of, fetch_of, group_and_partitions_of, group_of, nothing_of};

use crate::line_fault::LineFault::{self, Malformed};
use crate::parser::names::{is_optional, optional_in};
use crate::parser::partitions::{are_partitions, partitions_in};
use cg_group::{DropRequest, FetchRequest, Request};
use cg_names::{GroupId, NAME_BYTES_MAX};
use cg_record::Partitions;
use std::alloc::Global;

// Parses the words of a FETCH or a DROP: a group and its partitions.
#[tactic(auto, unfolding(crate::specs::Parsing::group_and_partitions_of))]
fn group_and_partitions(
    alloc: Global,
    words: &[&[u8]],
) -> Result<(Option<GroupId>, Partitions), LineFault>
    ensures { Reads result (group_and_partitions_of (map (λ w. w.now) words.now)) }
{
    let [group, partitions @ ..] = words else {
        return Err(Malformed);
    };
    if !is_optional::<NAME_BYTES_MAX>(group) || !are_partitions(partitions) {
        return Err(Malformed);
    }
    let group = optional_in(alloc, group)?;
    let partitions = partitions_in(alloc, partitions)?;
    Ok((group, partitions))
}

/// Parses a FETCH.
#[tactic(auto, unfolding(crate::specs::Parsing::fetch_of))]
pub fn fetch(alloc: Global, words: &[&[u8]]) -> Result<FetchRequest, LineFault>
    ensures { Reads result (fetch_of (map (λ w. w.now) words.now)) }
{
    let (group, partitions) = group_and_partitions(alloc, words)?;
    Ok(FetchRequest { group, partitions })
}

/// Parses a DROP.
#[tactic(auto, unfolding(crate::specs::Parsing::drop_of))]
pub fn drop_offsets(alloc: Global, words: &[&[u8]]) -> Result<DropRequest, LineFault>
    ensures { Reads result (drop_of (map (λ w. w.now) words.now)) }
{
    let (group, partitions) = group_and_partitions(alloc, words)?;
    Ok(DropRequest { group, partitions })
}

/// Parses the only word of a DESCRIBE or DELETE, its group.
#[tactic(auto, unfolding(crate::specs::Parsing::group_of))]
pub fn group(alloc: Global, words: &[&[u8]]) -> Result<Option<GroupId>, LineFault>
    ensures { Reads result (group_of (map (λ w. w.now) words.now)) }
{
    let [group] = words else {
        return Err(Malformed);
    };
    if !is_optional::<NAME_BYTES_MAX>(group) {
        return Err(Malformed);
    }
    let group = optional_in(alloc, group)?;
    Ok(group)
}

/// Parses a LIST, which has no further words.
pub fn list(words: &[&[u8]]) -> Result<Request, LineFault>
    ensures { Reads result (nothing_of (map (λ w. w.now) words.now)) }
{
    match words {
        [] => Ok(Request::List),
        _ => Err(Malformed),
    }
}
