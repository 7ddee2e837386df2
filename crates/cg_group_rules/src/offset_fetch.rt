//! FETCH (OffsetFetch request): the committed offsets of a group. It changes nothing and reads only the offsets.
ghost use Rattle.std.specs.Prelude.{◌≡◌, true, is_some, IfOk, OnErr, map};
ghost use Rattle.std.specs.Option.{option_copied};
ghost use Rattle.cg_group_rules.specs.OffsetFetch.{fetched, fetched_partition};

use cg_fold::{Offsets, StoredOffset};
use cg_group_state::{FetchedPartition, Reply};
use cg_names::{Code, GroupId};
use cg_record::TopicPartition;
use cg_request::{FetchRequest, Listed};
use std::alloc::{AllocError, Global};

fn copied_offset(stored: Option<&StoredOffset>) -> Result<Option<StoredOffset>, AllocError>
    ensures { IfOk result (λ copy. copy ≡ option_copied stored.entry) }
{
    match stored {
        None => Ok(None),
        Some(stored) => {
            let metadata = stored.metadata.clone()?;
            Ok(Some(StoredOffset {
                offset: stored.offset,
                metadata,
                moment: stored.moment,
            }))
        }
    }
}

fn fetched_partition(
    offsets: &Offsets,
    group: &GroupId,
    asked: TopicPartition,
) -> Result<FetchedPartition, AllocError>
    ensures { IfOk result (λ p. p ≡ fetched_partition offsets.now group.now asked) }
{
    let stored = copied_offset(offsets.get(group, &asked))?;
    Ok(FetchedPartition { key: asked, stored })
}

fn fetched_all(
    alloc: Global,
    offsets: &Offsets,
    group: &GroupId,
    asked: Vec<TopicPartition>,
) -> Result<Vec<FetchedPartition>, AllocError>
    ensures { IfOk result (λ ps. ps.items ≡ map (fetched_partition offsets.now group.now) asked.items) }
{
    let mut fetched = Vec::with_capacity(alloc, asked.len())?;
    for partition in asked {
        fetched.push(fetched_partition(offsets, group, partition)?)?;
    }
    Ok(fetched)
}

/// Returns the reply to a FETCH. Costs one look-up for each partition, and copies the metadata. A group id of `-` is
/// refused by 24.
pub fn fetched(alloc: Global, offsets: &Offsets, r: FetchRequest) -> Result<Reply, AllocError>
    ensures ok { IfOk result (λ reply. reply ≡ fetched offsets.now r.group r.partitions) }
    ensures err { OnErr result (is_some r.group ≡ true) }
{
    let FetchRequest { group, partitions } = r;
    let Some(group) = group else {
        return Ok(Reply::Refused(Code::InvalidGroupId));
    };
    let fetched = fetched_all(alloc, offsets, &group, partitions.into_vec())?;
    Ok(Reply::Fetched(Listed::from_vec(fetched)))
}
