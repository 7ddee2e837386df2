//! Names on a line. Checking a word does not allocate; the name is a copy of the word.
ghost use Rattle.std.specs.Prelude.{◌≡◌, Option, IsTrue, IfOk};
ghost use Rattle.cg_names.specs.Grammar.{is_dash};
ghost use Rattle.cg_line.specs.Fields.{is_name, is_optional, optional_in};

use cg_names::{NAME_BYTES_MAX, Name, ShortName};
use std::alloc::{AllocError, Global};

/// Returns whether the word is a name of at most `MAX` bytes.
pub fn is_name<const MAX: usize>(word: &[u8]) -> bool
    ensures { result ≡ is_name MAX word.now }
{
    Name::<MAX, 0>::fault(word).is_none()
}

// Returns whether the word is `-`, which means no value.
fn is_dash(word: &[u8]) -> bool
    ensures { result ≡ is_dash word.now }
{
    match word {
        [byte] => *byte == b'-',
        _ => false,
    }
}

/// Returns whether the word is a name of at most `MAX` bytes or `-`.
#[tactic(auto, unfolding(crate::specs::Fields::is_optional))]
pub fn is_optional<const MAX: usize>(word: &[u8]) -> bool
    ensures { result ≡ is_optional MAX word.now }
{
    is_dash(word) || is_name::<MAX>(word)
}

/// Copies a checked word into a name.
pub fn name_in<const MAX: usize, const SORT: u8>(
    alloc: Global,
    word: &[u8],
) -> Result<Name<MAX, SORT>, AllocError>
    requires { IsTrue (is_name MAX word.now) }
    ensures { IfOk result (λ name. name ≡ word.now) }
{
    Name::from_bytes(alloc, word).map_err(|_| AllocError)
}

/// Copies a checked word into the name of a client or a topic.
pub fn short_name_in<const SORT: u8>(
    alloc: Global,
    word: &[u8],
) -> Result<ShortName<SORT>, AllocError>
    requires { IsTrue (is_name NAME_BYTES_MAX word.now) }
    ensures { IfOk result (λ name. name ≡ word.now) }
{
    ShortName::from_bytes(alloc, word).map_err(|_| AllocError)
}

/// Copies a checked word into a name. Returns `None` for `-`.
#[tactic(auto, unfolding(crate::specs::Fields::is_optional, crate::specs::Fields::optional_in))]
pub fn optional_in<const MAX: usize, const SORT: u8>(
    alloc: Global,
    word: &[u8],
) -> Result<Option<Name<MAX, SORT>>, AllocError>
    requires { IsTrue (is_optional MAX word.now) }
    ensures { IfOk result (λ name. name ≡ optional_in word.now) }
{
    if is_dash(word) {
        return Ok(None);
    }
    let name = name_in(alloc, word)?;
    Ok(Some(name))
}
