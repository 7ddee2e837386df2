//! The numbers and generations of a request line. No function here allocates.
ghost use Rattle.std.specs.Prelude.{◌≡◌, ◌-◌, ◌≤◌, ◌&&◌, true, false, negsuc, nat_le, drop, IsTrue, MatchOption};
ghost use Rattle.cg_line.specs.Numbers.{generation_in, is_generation, is_negative, is_number, value_of};

use crate::decimal::number;

/// Greatest generation on a line.
pub const GENERATION_LINE_MAX: u64 = 2_147_483_647;

/// Greatest number after the minus of a generation.
pub const GENERATION_LINE_BELOW_MAX: u64 = 2_147_483_648;

/// Returns whether the word is a number from 0 to `most`.
#[tactic(auto, unfolding(crate::specs::Numbers::number_of))]
pub fn is_number(word: &[u8], most: u64) -> bool
    ensures { result ≡ is_number most word.now }
{
    number(word, most).is_some()
}

/// Returns the number of a checked word.
#[tactic(auto, unfolding(crate::specs::Numbers::number_of))]
pub fn number_in(word: &[u8], most: u64) -> u64
    requires { IsTrue (is_number most word.now) }
    ensures value { result ≡ value_of word.now }
    ensures within { result ≤ most }
{
    match number(word, most) {
        Some(number) => number,
        None => unreachable!(),
    }
}

// Returns the digits after a minus, or `None` if the word does not begin with one.
fn behind_minus(word: &[u8]) -> Option<&[u8]>
    ensures { MatchOption result
        (is_negative word.now ≡ false)
        (λ digits. (is_negative word.now ≡ true) × (digits.now ≡ drop 1 word.now)) }
{
    match word {
        [first, digits @ ..] if *first == b'-' => Some(digits),
        _ => None,
    }
}

// Returns whether the digits may follow a minus.
#[tactic(auto, unfolding(crate::specs::Numbers::number_of))]
fn is_below_zero(digits: &[u8]) -> bool
    ensures { result ≡ (is_number GENERATION_LINE_BELOW_MAX digits.now && nat_le 1 (value_of digits.now)) }
{
    match number(digits, GENERATION_LINE_BELOW_MAX) {
        Some(number) => 1 <= number,
        None => false,
    }
}

/// Returns whether the word is a generation: a signed 32-bit number, where zero has no minus.
#[tactic(auto, unfolding(crate::specs::Numbers::is_generation))]
pub fn is_generation(word: &[u8]) -> bool
    ensures { result ≡ is_generation word.now }
{
    match behind_minus(word) {
        Some(digits) => is_below_zero(digits),
        None => is_number(word, GENERATION_LINE_MAX),
    }
}

// Returns the negative number whose digits follow a minus.
fn below_zero(digits: &[u8]) -> i32
    requires number { IsTrue (is_number GENERATION_LINE_BELOW_MAX digits.now) }
    requires some { 1 ≤ value_of digits.now }
    ensures { result ≡ negsuc (value_of digits.now - 1) }
{
    let further = (number_in(digits, GENERATION_LINE_BELOW_MAX) - 1) as i32;
    -1 - further
}

/// Returns the generation of a checked word.
#[tactic(auto, unfolding(crate::specs::Numbers::is_generation, crate::specs::Numbers::generation_in))]
pub fn generation_in(word: &[u8]) -> i32
    requires { IsTrue (is_generation word.now) }
    ensures { result ≡ generation_in word.now }
{
    match behind_minus(word) {
        Some(digits) => below_zero(digits),
        None => number_in(word, GENERATION_LINE_MAX) as i32,
    }
}
