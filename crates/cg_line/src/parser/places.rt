//! Words that begin with a topic and a partition, `topic:partition`. No function here allocates.
ghost use Rattle.std.specs.Prelude.{◌≡◌, ◌≤◌, length, map};
ghost use Rattle.std.specs.List.{list_any};
ghost use Rattle.cg_record.specs.declared.entries.TheConstants.{ENTRIES_MAX};
ghost use Rattle.cg_line.specs.Parsing.{have_own_places, is_place, partition_field, topic_field};
ghost use Rattle.cg_line.specs.Places.{are_apart, are_one_place, place_of, texts_of};

use crate::parser::names::is_name;
use crate::parser::numbers::is_number;
use crate::parser::word_split::{before, behind};
use arrayvec::ArrayVec;
use cg_names::NAME_BYTES_MAX;
use cg_record::{ENTRIES_MAX, PARTITION_MAX};

/// Number of partitions that suffices for most requests.
const FEW_PLACES: usize = 8;

/// Returns the part before the first colon.
pub fn topic_field(word: &[u8]) -> &[u8]
    ensures { result.now ≡ topic_field word.now }
{
    before(word, b':')
}

/// Returns the part between the first two colons.
pub fn partition_field(word: &[u8]) -> &[u8]
    ensures { result.now ≡ partition_field word.now }
{
    before(behind(word, b':'), b':')
}

/// Returns whether the word begins with a topic and a partition.
#[tactic(auto, unfolding(crate::specs::Parsing::is_place))]
pub fn is_place(word: &[u8]) -> bool
    ensures { result ≡ is_place word.now }
{
    is_name::<NAME_BYTES_MAX>(topic_field(word))
        && is_number(partition_field(word), u64::from(PARTITION_MAX))
}

/// The topic and the partition that a word begins with.
#[derive(Clone, Copy, Default)]
struct Place<'a> {
    topic: &'a [u8],
    partition: &'a [u8],
}

fn place_of(word: &[u8]) -> Place<'_>
    ensures { texts_of result ≡ place_of word.now }
{
    Place {
        topic: topic_field(word),
        partition: partition_field(word),
    }
}

fn are_one(a: &Place<'_>, b: &Place<'_>) -> bool
    ensures { result ≡ are_one_place (texts_of a.now) (texts_of b.now) }
{
    a.topic == b.topic && a.partition == b.partition
}

fn is_among(place: &Place<'_>, others: &[Place<'_>]) -> bool
    ensures { result ≡ list_any (λ other. are_one_place (texts_of place.now) (texts_of other)) others.now }
{
    others.iter().any(|other| are_one(place, other))
}

// Returns whether no place comes twice.
#[tactic(auto, unfolding(crate::specs::Places::are_apart))]
fn are_apart(places: &[Place<'_>]) -> bool
    ensures { result ≡ are_apart places.now }
{
    match places {
        [] => true,
        [first, others @ ..] => !is_among(first, others) && are_apart(others),
    }
}

fn places_of<'a, const MOST: usize>(words: &[&'a [u8]]) -> ArrayVec<Place<'a>, MOST>
    requires { length words.now ≤ MOST }
    ensures { map texts_of result.items ≡ map place_of (map (λ w. w.now) words.now) }
{
    let mut places = ArrayVec::new();
    for word in words {
        places.push(place_of(word));
    }
    places
}

/// Returns whether no partition comes twice. Each word is searched for its colons once, and each two are compared once. Fills an
/// array of `FEW_PLACES` places where it suffices, or else of `ENTRIES_MAX`.
pub fn have_own_places(words: &[&[u8]]) -> bool
    requires { length words.now ≤ ENTRIES_MAX }
    ensures { result ≡ have_own_places (map (λ w. w.now) words.now) }
{
    if words.len() <= FEW_PLACES {
        are_apart(places_of::<FEW_PLACES>(words).as_slice())
    } else {
        are_apart(places_of::<ENTRIES_MAX>(words).as_slice())
    }
}
