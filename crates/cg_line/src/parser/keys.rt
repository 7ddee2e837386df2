//! Words of a key, `=` and bytes. No function here allocates.
ghost use Rattle.std.specs.Prelude.{◌≡◌, map};
ghost use Rattle.std.specs.List.{list_any};
ghost use Rattle.cg_request.specs.Names.{are_distinct, is_same};
ghost use Rattle.cg_line.specs.Parsing.{given_to, key_of};

use crate::parser::word_split::{before, behind};

/// Returns the part before `=`.
pub fn key_of(word: &[u8]) -> &[u8]
    ensures { result.now ≡ key_of word.now }
{
    before(word, b'=')
}

/// Returns the part after `=`.
pub fn given_to(word: &[u8]) -> &[u8]
    ensures { result.now ≡ given_to word.now }
{
    behind(word, b'=')
}

fn has_key(word: &[u8], key: &[u8]) -> bool
    ensures { result ≡ is_same key.now (key_of word.now) }
{
    key == key_of(word)
}

fn is_key_of_one(key: &[u8], words: &[&[u8]]) -> bool
    ensures { result ≡ list_any (λ w. is_same key.now (key_of w.now)) words.now }
{
    words.iter().any(|word| has_key(word, key))
}

// Returns whether one of the words has the key.
fn is_key_among(key: &[u8], words: &[&[u8]]) -> bool
    ensures { result ≡ list_any (is_same key.now) (map key_of (map (λ w. w.now) words.now)) }
{
    is_key_of_one(key, words)
}

/// Returns whether no key comes twice. Quadratic in the words, of which there are at most 64.
#[tactic(auto, unfolding(cg_request::specs::Names::are_distinct))]
pub fn have_own_keys(words: &[&[u8]]) -> bool
    ensures { result ≡ are_distinct (map key_of (map (λ w. w.now) words.now)) }
{
    match words {
        [] => true,
        [first, others @ ..] => !is_key_among(key_of(first), others) && have_own_keys(others),
    }
}
