//! The entries of a commit.
ghost use Rattle.std.specs.Prelude.{◌≡◌, ◌≤◌, ◌-◌, length, min, MatchResult, IsTrue, ◌↔◌};
ghost use Rattle.cg_record.specs.Distinct.{AreDistinct};
ghost use Rattle.cg_record.specs.Keys.{AreEntries, have_one_key, metadata_bytes, metadata_room};
ghost use Rattle.cg_record.specs.declared.entries.TheConstants.{COMMIT_METADATA_BYTES_MAX, ENTRIES_MAX};
ghost use Rattle.cg_record.specs.declared.metadata.TheConstants.{METADATA_BYTES_MAX};

use crate::distinct::are_distinct;
use crate::entry::Entry;
use crate::metadata::METADATA_BYTES_MAX;
use std::marker::Model;

/// Maximum number of entries of a commit, and of partitions of another command.
pub const ENTRIES_MAX: usize = 256;

/// The same in versions 1 and 2, which count them in one byte.
pub const SHORT_COUNT_MAX: usize = 64;

/// Maximum size of the metadata of one commit together, in bytes: `SHORT_COUNT_MAX` entries of the longest.
pub const COMMIT_METADATA_BYTES_MAX: usize = SHORT_COUNT_MAX * METADATA_BYTES_MAX;

/// The entries of a commit, in its order: 1 to `ENTRIES_MAX`, all for different partitions, with at most
/// `COMMIT_METADATA_BYTES_MAX` bytes of metadata together. Contracts see the list.
#[derive(Debug, Drop)]
pub struct Entries {
    items: Vec<Entry>,
}

impl Model for Entries {
    ghost use Rattle.std.specs.Prelude.{List};
    ghost use Rattle.cg_record.specs.declared.entry.Entry.{Entry};
    ghost use Rattle.cg_record.specs.Keys.{AreEntries};

    ghost Value = { List Entry };

    ghost view = { λ e. e.items.items };

    ghost invariant = { λ e. AreEntries e.items.items };
}

// Returns how many bytes of metadata a commit may have after these entries. Linear in the entries.
fn room_left(entries: &[Entry]) -> usize
    ensures { result ≡ COMMIT_METADATA_BYTES_MAX - metadata_bytes entries.now }
{
    let mut room = COMMIT_METADATA_BYTES_MAX;
    for entry in entries {
        room = room.saturating_sub(entry.metadata.as_bytes().len());
    }
    room
}

/// Returns how many bytes of metadata an entry may have if its commit may have this many more.
pub(crate) fn entry_room(left: usize) -> usize
    ensures { result ≡ min METADATA_BYTES_MAX left }
{
    if left < METADATA_BYTES_MAX {
        left
    } else {
        METADATA_BYTES_MAX
    }
}

/// Returns how many bytes of metadata the next entry may have after these. Linear in the entries.
pub(crate) fn metadata_room(front: &[Entry]) -> usize
    ensures value { result ≡ metadata_room front.now }
    ensures short { result ≤ METADATA_BYTES_MAX }
{
    entry_room(room_left(front))
}

// Returns whether the metadata of the entries together are short enough.
fn has_short_metadata(entries: &[Entry]) -> bool
    requires { length entries.now ≤ ENTRIES_MAX }
    ensures { IsTrue result ↔ (metadata_bytes entries.now ≤ COMMIT_METADATA_BYTES_MAX) }
{
    let mut total = 0;
    for entry in entries {
        total += entry.metadata.as_bytes().len();
    }
    total <= COMMIT_METADATA_BYTES_MAX
}

fn are_entries(entries: &[Entry]) -> bool
    ensures { IsTrue result ↔ AreEntries entries.now }
{
    !entries.is_empty()
        && entries.len() <= ENTRIES_MAX
        && has_short_metadata(entries)
        && are_distinct(entries)
}

impl Entries {
    /// Wraps the entries without a copy. Returns the vector unchanged if there are none or too many, a partition comes twice,
    /// or the metadata together are too long. Compares each entry with each other one.
    pub fn from_vec(items: Vec<Entry>) -> Result<Self, Vec<Entry>>
        ensures cases { MatchResult result
            (λ entries. AreEntries items.items × (entries ≡ items.items))
            (λ back. (¬ AreEntries items.items) × (back ≡ items)) }
    {
        if are_entries(items.as_slice()) {
            Ok(Entries { items })
        } else {
            Err(items)
        }
    }

    /// Wraps entries that the caller knows to be lawful, in constant time.
    pub fn from_lawful(items: Vec<Entry>) -> Self
        requires { AreEntries items.items }
        ensures { result ≡ items.items }
    {
        Entries { items }
    }

    /// Returns the entries in their order.
    pub fn as_slice(&self) -> &[Entry]
        ensures value { result.now ≡ self.now }
        ensures lawful { AreEntries self.now }
    {
        self.items.as_slice()
    }

    /// Returns the entries in their order, without a copy.
    pub fn into_vec(self) -> Vec<Entry>
        ensures { result.items ≡ self }
    {
        let Entries { items } = self;
        items
    }

    /// Returns the number of entries.
    pub fn len(&self) -> usize
        ensures value { result ≡ length self.now }
        ensures lawful { AreEntries self.now }
    {
        self.items.len()
    }
}
