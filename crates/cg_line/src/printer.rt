//! Printing replies.
ghost use Rattle.std.specs.Prelude.{◌≡◌, [], ◌∷◌, ◌++◌, IfOk, OnErr, OnOk, codes, decimal, map};
ghost use Rattle.std.specs.Io.{StartsWith};
ghost use Rattle.cg_line.specs.Replies.{described_line, fetched_word, held_line, joined_line, listing_word, refused_line, reply_line, state_word};
ghost use Rattle.cg_line.specs.Running.{ended};
ghost use Rattle.cg_line.specs.Words.{name_word, spaced};

use cg_group::{Boxed, Described, FetchedPartition, Joined, Listed, Listing, Reply};
use cg_names::{Code, Generation, ProtocolName};
use itoa::Buffer;
use std::alloc::{AllocError, Global};

mod entry;
mod word;

use entry::{put_described_members, put_fetched, put_joined_members, put_listings};
use word::{put_bytes, put_name, put_number, state_name};

// Appends the generation, type and protocol.
#[tactic(auto, using(cg_record::proofs::Kept::front_kept), unfolding(crate::specs::Words::spaced))]
fn put_round(
    out: &mut Vec<u8>,
    generation: Generation,
    kind: &Option<ProtocolName>,
    protocol: &Option<ProtocolName>,
) -> Result<(), AllocError>
    ensures ok { OnOk result (out.new.items ≡ out.old.items ++ spaced (decimal generation ∷ name_word kind.now ∷ name_word protocol.now ∷ [])) }
    ensures err { OnErr result (StartsWith out.new.items out.old.items) }
{
    put_number(out, u64::from(generation.get()))?;
    out.push(b' ')?;
    put_name(out, kind)?;
    out.push(b' ')?;
    put_name(out, protocol)?;
    Ok(())
}

// Appends a JOINED reply up to its list of members.
#[tactic(auto, using(cg_record::proofs::Kept::front_kept), unfolding(crate::specs::Words::spaced))]
fn put_joined_head(out: &mut Vec<u8>, joined: &Joined) -> Result<(), AllocError>
    ensures ok { OnOk result (out.new.items ≡ out.old.items ++ spaced (codes "JOINED" ∷ decimal joined.now.generation ∷ name_word joined.now.kind
        ∷ name_word joined.now.protocol ∷ name_word joined.now.leader ∷ joined.now.member ∷ [])) }
    ensures err { OnErr result (StartsWith out.new.items out.old.items) }
{
    out.extend_from_slice(b"JOINED ")?;
    put_round(out, joined.generation, &joined.kind, &joined.protocol)?;
    out.push(b' ')?;
    put_name(out, &joined.leader)?;
    out.push(b' ')?;
    out.extend_from_slice(joined.member.as_bytes())?;
    Ok(())
}

fn put_joined(out: &mut Vec<u8>, joined: &Joined) -> Result<(), AllocError>
    ensures ok { OnOk result (out.new.items ≡ out.old.items ++ joined_line joined.now) }
    ensures err { OnErr result (StartsWith out.new.items out.old.items) }
{
    put_joined_head(out, joined)?;
    put_joined_members(out, joined.members.as_slice())?;
    Ok(())
}

// Appends a GROUP reply up to its list of members.
#[tactic(auto, using(cg_record::proofs::Kept::front_kept), unfolding(crate::specs::Words::spaced))]
fn put_held_head(out: &mut Vec<u8>, described: &Described) -> Result<(), AllocError>
    ensures ok { OnOk result (out.new.items ≡ out.old.items ++ spaced (codes "GROUP" ∷ state_word described.now.phase ∷ decimal described.now.generation
        ∷ name_word described.now.kind ∷ name_word described.now.protocol ∷ [])) }
    ensures err { OnErr result (StartsWith out.new.items out.old.items) }
{
    out.extend_from_slice(b"GROUP ")?;
    out.extend_from_slice(state_name(described.phase))?;
    out.push(b' ')?;
    put_round(
        out,
        described.generation,
        &described.kind,
        &described.protocol,
    )?;
    Ok(())
}

fn put_held(out: &mut Vec<u8>, described: &Described) -> Result<(), AllocError>
    ensures ok { OnOk result (out.new.items ≡ out.old.items ++ held_line described.now) }
    ensures err { OnErr result (StartsWith out.new.items out.old.items) }
{
    put_held_head(out, described)?;
    put_described_members(out, described.members.as_slice())?;
    Ok(())
}

fn put_described(out: &mut Vec<u8>, described: &Option<Boxed<Described>>) -> Result<(), AllocError>
    ensures ok { OnOk result (out.new.items ≡ out.old.items ++ described_line described.now) }
    ensures err { OnErr result (StartsWith out.new.items out.old.items) }
{
    match described {
        None => out.extend_from_slice(b"GROUP Dead 0 - -")?,
        Some(held) => put_held(out, held.get())?,
    }
    Ok(())
}

#[tactic(auto, unfolding(crate::specs::Replies::refused_line, crate::specs::Words::spaced))]
fn put_refused(out: &mut Vec<u8>, code: Code) -> Result<(), AllocError>
    ensures ok { OnOk result (out.new.items ≡ out.old.items ++ refused_line code) }
    ensures err { OnErr result (StartsWith out.new.items out.old.items) }
{
    let mut buffer = Buffer::new();
    out.extend_from_slice(b"ERR ")?;
    out.extend_from_slice(buffer.format(code.number()).as_bytes())?;
    out.push(b' ')?;
    out.extend_from_slice(code.name().as_bytes())?;
    Ok(())
}

fn put_fetched_line(
    out: &mut Vec<u8>,
    partitions: &Listed<FetchedPartition>,
) -> Result<(), AllocError>
    ensures ok { OnOk result (out.new.items ≡ out.old.items ++ spaced (codes "FETCHED" ∷ map fetched_word partitions.now)) }
    ensures err { OnErr result (StartsWith out.new.items out.old.items) }
{
    out.extend_from_slice(b"FETCHED")?;
    put_fetched(out, partitions.as_slice())?;
    Ok(())
}

fn put_groups_line(out: &mut Vec<u8>, groups: &Listed<Listing>) -> Result<(), AllocError>
    ensures ok { OnOk result (out.new.items ≡ out.old.items ++ spaced (codes "GROUPS" ∷ map listing_word groups.now)) }
    ensures err { OnErr result (StartsWith out.new.items out.old.items) }
{
    out.extend_from_slice(b"GROUPS")?;
    put_listings(out, groups.as_slice())?;
    Ok(())
}

/// Appends the line of a reply, without a line feed. Linear in the line. If an allocation fails, a part of the line may
/// have been appended, and what was there before stays.
#[tactic(auto, unfolding(crate::specs::Replies::reply_line, crate::specs::Words::spaced))]
pub fn print_into(reply: &Reply, out: &mut Vec<u8>) -> Result<(), AllocError>
    ensures ok { OnOk result (out.new.items ≡ out.old.items ++ reply_line reply.now) }
    ensures err { OnErr result (StartsWith out.new.items out.old.items) }
{
    match reply {
        Reply::Joined(joined) => put_joined(out, joined.get())?,
        Reply::Synced(assignment) => {
            out.extend_from_slice(b"SYNCED ")?;
            put_bytes(out, assignment.as_bytes())?;
        }
        Reply::Done => out.extend_from_slice(b"OK")?,
        Reply::Fetched(partitions) => put_fetched_line(out, partitions)?,
        Reply::Described(described) => put_described(out, described)?,
        Reply::Groups(groups) => put_groups_line(out, groups)?,
        Reply::Refused(code) => put_refused(out, *code)?,
    }
    Ok(())
}

// Appends the line of a reply and its line feed. If an allocation fails, a part may have been appended.
fn put_ended(reply: &Reply, out: &mut Vec<u8>) -> Result<(), AllocError>
    ensures ok { OnOk result (out.new.items ≡ out.old.items ++ ended (reply_line reply.now)) }
    ensures err { OnErr result (StartsWith out.new.items out.old.items) }
{
    print_into(reply, out)?;
    out.push(b'\n')?;
    Ok(())
}

/// Appends the line of a reply and its line feed. Linear in the line. If an allocation fails, nothing is appended.
pub fn put_reply(reply: &Reply, out: &mut Vec<u8>) -> Result<(), AllocError>
    ensures ok { OnOk result (out.new.items ≡ out.old.items ++ ended (reply_line reply.now)) }
    ensures err { OnErr result (out.new.items ≡ out.old.items) }
{
    let whole = out.len();
    match put_ended(reply, out) {
        Ok(()) => Ok(()),
        Err(error) => {
            out.truncate(whole);
            Err(error)
        }
    }
}

/// Returns the line of a reply, without a line feed. Linear in the line.
pub fn print(alloc: Global, reply: &Reply) -> Result<Vec<u8>, AllocError>
    ensures { IfOk result (λ text. text.items ≡ reply_line reply.now) }
{
    let mut text = Vec::new(alloc);
    print_into(reply, &mut text)?;
    Ok(text)
}
