//! Bytes on a line. Checking a word does not allocate; decoding it allocates one byte for two digits.
ghost use Rattle.std.specs.Prelude.{◌≡◌, ◌/◌, drop, true, false, IsTrue, IfOk, MatchOption};
ghost use Rattle.std.specs.List.{list_all};
ghost use Rattle.cg_line.specs.Fields.{are_pairs, begins_with_x, bytes_in, decoded, is_bytes, is_lower_hex_digit, is_opaque};

use hex::FromHexError;
use std::alloc::{AllocError, Global};

fn is_hex(byte: u8) -> bool
    ensures { result ≡ is_lower_hex_digit byte }
{
    byte.is_ascii_digit() || (b'a'..=b'f').contains(&byte)
}

fn are_hex(text: &[u8]) -> bool
    ensures { result ≡ list_all is_lower_hex_digit text.now }
{
    text.iter().all(|b| is_hex(*b))
}

fn are_pairs(digits: &[u8]) -> bool
    ensures { result ≡ are_pairs digits.now }
{
    are_hex(digits) && digits.len() % 2 == 0
}

// Returns the digits after an `x`, or `None` if the word does not begin with `x`.
fn digits(word: &[u8]) -> Option<&[u8]>
    ensures { MatchOption result
        (begins_with_x word.now ≡ false)
        (λ digits. (begins_with_x word.now ≡ true) × (digits.now ≡ drop 1 word.now)) }
{
    match word {
        [first, digits @ ..] if *first == b'x' => Some(digits),
        _ => None,
    }
}

/// Returns whether the word is `x` and lower-case hexadecimal digits, two for each byte.
#[tactic(auto, unfolding(crate::specs::Fields::is_bytes))]
pub fn is_bytes(word: &[u8]) -> bool
    ensures { result ≡ is_bytes word.now }
{
    match digits(word) {
        Some(digits) => are_pairs(digits),
        None => false,
    }
}

/// Returns whether the word has at most `max` bytes in this form.
#[tactic(auto, unfolding(crate::specs::Fields::is_bytes, crate::specs::Fields::is_opaque))]
pub fn is_opaque(word: &[u8], max: usize) -> bool
    ensures { result ≡ is_opaque max word.now }
{
    match digits(word) {
        Some(digits) => are_pairs(digits) && digits.len() / 2 <= max,
        None => false,
    }
}

// Decodes lower-case digits, two for each byte.
fn decoded(alloc: Global, digits: &[u8]) -> Result<Vec<u8>, AllocError>
    requires { IsTrue (are_pairs digits.now) }
    ensures { IfOk result (λ bytes. bytes.items ≡ decoded digits.now) }
{
    match hex::decode(alloc, digits) {
        Ok(bytes) => Ok(bytes),
        Err(fault) => Err(want_of_memory(fault)),
    }
}

// Maps the only error that is left: the digits were checked, so decoding them fails only if an allocation fails.
fn want_of_memory(fault: FromHexError) -> AllocError
    requires { fault ≡ FromHexError.OutOfMemory }
{
    prove!(matches!(fault, FromHexError::OutOfMemory));
    AllocError
}

/// Decodes the bytes of a checked word.
#[tactic(auto, unfolding(crate::specs::Fields::is_bytes, crate::specs::Fields::bytes_in))]
pub fn bytes_in(alloc: Global, word: &[u8]) -> Result<Vec<u8>, AllocError>
    requires { IsTrue (is_bytes word.now) }
    ensures { IfOk result (λ bytes. bytes.items ≡ bytes_in word.now) }
{
    match digits(word) {
        Some(digits) => decoded(alloc, digits),
        None => unreachable!(),
    }
}
