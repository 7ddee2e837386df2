//! Parsing a request line.
ghost use Rattle.std.specs.Prelude.{◌≡◌, ◌↔◌, ◌<◌, ◌≤◌, ◌⊎◌, map, length, Ok, Err, IfOk, MatchOption};
ghost use Rattle.cg_request.specs.declared.request.Request.{Request};
ghost use Rattle.cg_line.specs.Parsing.{Reads, group_call_of, is_member_call, member_call_of, request_of};
ghost use Rattle.cg_line.specs.Requests.{Spells};
ghost use Rattle.cg_line.specs.Splitting.{words_of};

mod bytes;
mod commits;
mod groups;
mod join;
mod keys;
mod member_requests;
mod names;
mod numbers;
mod partitions;
mod places;
mod protocols;
mod sync_entries;
mod word_split;

use crate::line_fault::LineFault::{self, Malformed, TooLong};
use crate::parser::word_split::{FEW_WORDS, WORDS_MAX, words};
use crate::words::LINE_BYTES_MAX;
pub use bytes::{bytes_in, is_opaque};
use cg_group::Request;
use std::alloc::Global;

/// Greatest session timeout on a line, in milliseconds: Kafka's protocol has it as an `INT32`.
pub const SESSION_LINE_MS_MAX: u32 = 2_147_483_647;

fn is_member_call(kind: &[u8]) -> bool
    ensures { result ≡ is_member_call kind.now }
{
    kind == b"JOIN".as_slice()
        || kind == b"SYNC".as_slice()
        || kind == b"BEAT".as_slice()
        || kind == b"LEAVE".as_slice()
}

// Parses JOIN, SYNC, BEAT and LEAVE. `words` are those after the first, `kind`.
#[tactic(auto, unfolding(crate::specs::Parsing::member_call_of))]
fn member_call(alloc: Global, kind: &[u8], words: &[&[u8]]) -> Result<Request, LineFault>
    ensures { Reads result (member_call_of kind.now (map (λ w. w.now) words.now)) }
{
    if kind == b"JOIN".as_slice() {
        return Ok(Request::Join(join::join(alloc, words)?));
    }
    if kind == b"SYNC".as_slice() {
        return Ok(Request::Sync(member_requests::sync(alloc, words)?));
    }
    if kind == b"BEAT".as_slice() {
        return Ok(Request::Beat(member_requests::beat(alloc, words)?));
    }
    if kind == b"LEAVE".as_slice() {
        return Ok(Request::Leave(member_requests::leave(alloc, words)?));
    }
    Err(Malformed)
}

// Parses COMMIT, FETCH, DESCRIBE, DELETE, DROP and LIST. `words` are those after the first, `kind`.
#[tactic(auto, unfolding(crate::specs::Parsing::group_call_of))]
fn group_call(alloc: Global, kind: &[u8], words: &[&[u8]]) -> Result<Request, LineFault>
    ensures { Reads result (group_call_of kind.now (map (λ w. w.now) words.now)) }
{
    if kind == b"COMMIT".as_slice() {
        return Ok(Request::Commit(member_requests::commit(alloc, words)?));
    }
    if kind == b"FETCH".as_slice() {
        return Ok(Request::Fetch(groups::fetch(alloc, words)?));
    }
    if kind == b"DESCRIBE".as_slice() {
        return Ok(Request::Describe(groups::group(alloc, words)?));
    }
    if kind == b"DELETE".as_slice() {
        return Ok(Request::Delete(groups::group(alloc, words)?));
    }
    if kind == b"DROP".as_slice() {
        return Ok(Request::Drop(groups::drop_offsets(alloc, words)?));
    }
    if kind == b"LIST".as_slice() {
        return groups::list(words);
    }
    Err(Malformed)
}

#[tactic(auto, unfolding(crate::specs::Parsing::request_of))]
fn request(alloc: Global, words: &[&[u8]]) -> Result<Request, LineFault>
    ensures { Reads result (request_of (map (λ w. w.now) words.now)) }
{
    let [kind, words @ ..] = words else {
        return Err(Malformed);
    };
    if is_member_call(kind) {
        member_call(alloc, kind, words)
    } else {
        group_call(alloc, kind, words)
    }
}

// Parses a line of at most `WORDS_MAX` words. Returns `None` if it has more.
fn request_of_line(alloc: Global, line: &[u8]) -> Option<Result<Request, LineFault>>
    ensures { MatchOption result (WORDS_MAX < length (words_of line.now)) (λ read. Reads read (request_of (words_of line.now))) }
{
    if let Some(few) = words::<FEW_WORDS>(line) {
        return Some(request(alloc, few.as_slice()));
    }
    let words = words::<WORDS_MAX>(line)?;
    Some(request(alloc, words.as_slice()))
}

/// Parses a line without its line feed. All checks come before the first allocation, so a malformed line is reported as
/// such even if memory is short. Linear in the line, plus a comparison of each pair of its at most `ENTRIES_MAX` entries.
/// Allocates what the request holds.
pub fn parse(alloc: Global, line: &[u8]) -> Result<Request, LineFault>
    ensures ok { IfOk result (λ request. Spells line.now request) }
    ensures complete { (r : Request) → Spells line.now r → (length line.now ≤ LINE_BYTES_MAX) → (result ≡ Ok r) ⊎ (result ≡ Err LineFault.Memory) }
    ensures malformed { result ≡ Err LineFault.Malformed → (r : Request) → Spells line.now r → ⊥ }
    ensures memory { result ≡ Err LineFault.Memory → (r : Request) × Spells line.now r }
    ensures too_long { (result ≡ Err LineFault.TooLong) ↔ (LINE_BYTES_MAX < length line.now) }
{
    if line.len() > LINE_BYTES_MAX {
        return Err(TooLong);
    }
    let Some(read) = request_of_line(alloc, line) else {
        return Err(Malformed);
    };
    read
}
