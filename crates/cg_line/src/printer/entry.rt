//! Words of several parts, and lists of such words: each word follows a space.
ghost use Rattle.std.specs.Prelude.{◌≡◌, ◌++◌, OnErr, OnOk, codes};
ghost use Rattle.std.specs.Io.{StartsWith};
ghost use Rattle.std.specs.List.{flat_map};
ghost use Rattle.cg_line.specs.Replies.{described_word, fetched_word, joined_word, listing_word, stored_word};
ghost use Rattle.cg_line.specs.Words.{name_word};

use crate::printer::word::{put_bytes, put_name, put_number, state_name};
use cg_fold::StoredOffset;
use cg_group::{DescribedMember, FetchedPartition, JoinedMember, Listing};
use std::alloc::AllocError;

#[tactic(auto, using(cg_record::proofs::Kept::front_kept), unfolding(crate::specs::Replies::joined_word))]
fn put_joined_member(out: &mut Vec<u8>, member: &JoinedMember) -> Result<(), AllocError>
    ensures ok { OnOk result (out.new.items ≡ out.old.items ++ codes " " ++ joined_word member.now) }
    ensures err { OnErr result (StartsWith out.new.items out.old.items) }
{
    out.push(b' ')?;
    out.extend_from_slice(member.id.as_bytes())?;
    out.push(b':')?;
    put_name(out, &member.instance)?;
    out.push(b':')?;
    put_bytes(out, member.subscription.as_bytes())?;
    Ok(())
}

/// Appends the members of a JOINED reply.
#[tactic(auto, using(cg_record::proofs::Kept::front_kept))]
pub fn put_joined_members(out: &mut Vec<u8>, members: &[JoinedMember]) -> Result<(), AllocError>
    ensures ok { OnOk result (out.new.items ≡ out.old.items ++ flat_map (λ m. codes " " ++ joined_word m) members.now) }
    ensures err { OnErr result (StartsWith out.new.items out.old.items) }
{
    for member in members {
        put_joined_member(out, member)?;
    }
    Ok(())
}

fn put_stored(out: &mut Vec<u8>, stored: &Option<StoredOffset>) -> Result<(), AllocError>
    ensures ok { OnOk result (out.new.items ≡ out.old.items ++ stored_word stored.now) }
    ensures err { OnErr result (StartsWith out.new.items out.old.items) }
{
    match stored {
        None => out.extend_from_slice(b"-1:x")?,
        Some(stored) => {
            put_number(out, stored.offset.get())?;
            out.push(b':')?;
            put_bytes(out, stored.metadata.as_bytes())?;
        }
    }
    Ok(())
}

#[tactic(auto, using(cg_record::proofs::Kept::front_kept), unfolding(crate::specs::Replies::fetched_word))]
fn put_fetched_partition(out: &mut Vec<u8>, fetched: &FetchedPartition) -> Result<(), AllocError>
    ensures ok { OnOk result (out.new.items ≡ out.old.items ++ codes " " ++ fetched_word fetched.now) }
    ensures err { OnErr result (StartsWith out.new.items out.old.items) }
{
    out.push(b' ')?;
    out.extend_from_slice(fetched.key.topic.as_bytes())?;
    out.push(b':')?;
    put_number(out, u64::from(fetched.key.partition.get()))?;
    out.push(b':')?;
    put_stored(out, &fetched.stored)?;
    Ok(())
}

/// Appends the partitions of a FETCHED reply.
#[tactic(auto, using(cg_record::proofs::Kept::front_kept))]
pub fn put_fetched(out: &mut Vec<u8>, partitions: &[FetchedPartition]) -> Result<(), AllocError>
    ensures ok { OnOk result (out.new.items ≡ out.old.items ++ flat_map (λ p. codes " " ++ fetched_word p) partitions.now) }
    ensures err { OnErr result (StartsWith out.new.items out.old.items) }
{
    for partition in partitions {
        put_fetched_partition(out, partition)?;
    }
    Ok(())
}

// Appends the id, instance and client.
#[tactic(auto, using(cg_record::proofs::Kept::front_kept))]
fn put_described_names(out: &mut Vec<u8>, member: &DescribedMember) -> Result<(), AllocError>
    ensures ok { OnOk result (out.new.items ≡ out.old.items ++ codes " " ++ member.now.id ++ codes ":" ++ name_word member.now.instance ++ codes ":" ++ member.now.client) }
    ensures err { OnErr result (StartsWith out.new.items out.old.items) }
{
    out.push(b' ')?;
    out.extend_from_slice(member.id.as_bytes())?;
    out.push(b':')?;
    put_name(out, &member.instance)?;
    out.push(b':')?;
    out.extend_from_slice(member.client.as_bytes())?;
    Ok(())
}

#[tactic(auto, using(cg_record::proofs::Kept::front_kept), unfolding(crate::specs::Replies::described_word))]
fn put_described_member(out: &mut Vec<u8>, member: &DescribedMember) -> Result<(), AllocError>
    ensures ok { OnOk result (out.new.items ≡ out.old.items ++ codes " " ++ described_word member.now) }
    ensures err { OnErr result (StartsWith out.new.items out.old.items) }
{
    put_described_names(out, member)?;
    out.push(b':')?;
    put_bytes(out, member.subscription.as_bytes())?;
    out.push(b':')?;
    put_bytes(out, member.assignment.as_bytes())?;
    Ok(())
}

/// Appends the members of a GROUP reply.
#[tactic(auto, using(cg_record::proofs::Kept::front_kept))]
pub fn put_described_members(
    out: &mut Vec<u8>,
    members: &[DescribedMember],
) -> Result<(), AllocError>
    ensures ok { OnOk result (out.new.items ≡ out.old.items ++ flat_map (λ m. codes " " ++ described_word m) members.now) }
    ensures err { OnErr result (StartsWith out.new.items out.old.items) }
{
    for member in members {
        put_described_member(out, member)?;
    }
    Ok(())
}

#[tactic(auto, using(cg_record::proofs::Kept::front_kept), unfolding(crate::specs::Replies::listing_word))]
fn put_listing(out: &mut Vec<u8>, listing: &Listing) -> Result<(), AllocError>
    ensures ok { OnOk result (out.new.items ≡ out.old.items ++ codes " " ++ listing_word listing.now) }
    ensures err { OnErr result (StartsWith out.new.items out.old.items) }
{
    out.push(b' ')?;
    out.extend_from_slice(listing.id.as_bytes())?;
    out.push(b':')?;
    put_name(out, &listing.kind)?;
    out.push(b':')?;
    out.extend_from_slice(state_name(listing.phase))?;
    Ok(())
}

/// Appends the groups of a GROUPS reply.
#[tactic(auto, using(cg_record::proofs::Kept::front_kept))]
pub fn put_listings(out: &mut Vec<u8>, groups: &[Listing]) -> Result<(), AllocError>
    ensures ok { OnOk result (out.new.items ≡ out.old.items ++ flat_map (λ l. codes " " ++ listing_word l) groups.now) }
    ensures err { OnErr result (StartsWith out.new.items out.old.items) }
{
    for listing in groups {
        put_listing(out, listing)?;
    }
    Ok(())
}
