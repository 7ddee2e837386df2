//! The entries of a COMMIT, and what a command keeps of them.
ghost use Rattle.std.specs.Prelude.{◌≡◌, false, true, map, nat_lt, IfOk, OnErr, MatchOption};
ghost use Rattle.std.specs.List.{list_any};
ghost use Rattle.cg_request.specs.Commits.{is_long, is_too_large, kept_entry, metadata_bytes};

use crate::commit_entry::CommitEntry;
use cg_record::{
    COMMIT_METADATA_BYTES_MAX, Distinct, ENTRIES_MAX, Entries, Entry, Keyed, METADATA_BYTES_MAX,
    Metadata,
};
use std::alloc::{AllocError, Global};

/// The entries of a COMMIT: 1 to `ENTRIES_MAX`, all for different partitions, in request order.
pub type Commits = Distinct<CommitEntry, 1, ENTRIES_MAX>;

impl Keyed for CommitEntry {
    ghost use Rattle.cg_request.specs.Commits.{share_partition};

    ghost shares = { share_partition };

    fn shares_key(&self, other: &Self) -> bool {
        self.key.shares_key(&other.key)
    }
}

// Returns whether the metadata is longer than a command keeps.
fn is_long(entry: &CommitEntry) -> bool
    ensures { result ≡ is_long entry.now }
{
    METADATA_BYTES_MAX < entry.metadata.len()
}

fn has_long(entries: &[CommitEntry]) -> bool
    ensures { result ≡ list_any is_long entries.now }
{
    entries.iter().any(is_long)
}

// Returns whether the metadata of the entries has more than `most` bytes together.
fn exceed(entries: &[CommitEntry], most: usize) -> bool
    ensures { result ≡ nat_lt most (metadata_bytes entries.now) }
{
    match entries {
        [] => false,
        [first, others @ ..] => {
            let own = first.metadata.len();
            most < own || exceed(others, most - own)
        }
    }
}

// Returns `None` if the metadata is longer than `METADATA_BYTES_MAX`.
fn kept(entry: CommitEntry) -> Option<Entry>
    ensures { MatchOption result
        (is_long entry ≡ true)
        (λ kept. (is_long entry ≡ false) × (kept ≡ kept_entry entry)) }
{
    let CommitEntry {
        key,
        offset,
        metadata,
    } = entry;
    match Metadata::from_vec(metadata.into_vec()) {
        Ok(metadata) => Some(Entry {
            key,
            offset,
            metadata,
        }),
        Err(_) => None,
    }
}

// Moves the entries; only the new vector is allocated.
fn all_kept(alloc: Global, items: Vec<CommitEntry>) -> Result<Option<Vec<Entry>>, AllocError>
    ensures { IfOk result (λ o. MatchOption o
        (list_any is_long items.items ≡ true)
        (λ entries. entries.items ≡ map kept_entry items.items)) }
{
    let mut entries = Vec::with_capacity(alloc, items.len())?;
    for item in items {
        let Some(entry) = kept(item) else {
            return Ok(None);
        };
        entries.push(entry)?;
    }
    Ok(Some(entries))
}

/// Returns whether the metadata of an entry, or that of all entries together, is over its limit (error 12). No
/// allocation.
pub fn is_too_large(commits: &Commits) -> bool
    ensures { result ≡ is_too_large commits.now }
{
    let entries = commits.as_slice();
    has_long(entries) || exceed(entries, COMMIT_METADATA_BYTES_MAX)
}

/// Converts the entries to those of a command, without a copy of their contents. Returns `None` if the metadata is
/// over its limits (error 12); only other entries need an allocation.
#[tactic(auto, using(crate::proofs::KeptEntries::entries_of_commits))]
pub fn into_entries(alloc: Global, commits: Commits) -> Result<Option<Entries>, AllocError>
    ensures ok { IfOk result (λ o. MatchOption o
        (is_too_large commits ≡ true)
        (λ entries. (is_too_large commits ≡ false) × (entries ≡ map kept_entry commits))) }
    ensures err { OnErr result (is_too_large commits ≡ false) }
{
    if is_too_large(&commits) {
        return Ok(None);
    }
    let Some(items) = all_kept(alloc, commits.into_vec())? else {
        return Ok(None);
    };
    Ok(Some(Entries::from_lawful(items)))
}
