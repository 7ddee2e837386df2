//! Words on a line. No function here allocates.
ghost use Rattle.std.specs.Prelude.{◌≡◌, IsTrue};
ghost use Rattle.std.specs.Option.{option_map};
ghost use Rattle.cg_line.specs.Numbers.{value_of};
ghost use Rattle.cg_sim.specs.Text.{behind_of, cut_of, is_session, session_of};

use cg_line::decimal::{are_digits, value};
use memchr::memchr;

/// Greatest number on a line.
pub const NUMBER_MAX: u64 = u64::MAX;

/// Greatest number of digits of a session.
pub const SESSION_DIGITS_MAX: usize = 6;

/// Returns the text before the first `mark` and the text after it, or `None` without a mark.
pub fn cut(text: &[u8], mark: u8) -> Option<(&[u8], &[u8])>
    ensures { option_map (λ parts. (parts.0.now, parts.1.now)) result ≡ cut_of mark text.now }
{
    let at = memchr(mark, text)?;
    Some((&text[..at], &text[at + 1..]))
}

/// Returns the text after `front`, or `None` if the text does not begin with it.
pub fn behind<'a>(text: &'a [u8], front: &[u8]) -> Option<&'a [u8]>
    ensures { option_map (λ rest. rest.now) result ≡ behind_of front.now text.now }
{
    text.strip_prefix(front)
}

/// Parses a session: `s` and one to six digits, with leading zeros allowed.
#[tactic(auto, unfolding(crate::specs::Text::session_of))]
pub fn session_number(word: &[u8]) -> Option<u64>
    ensures { result ≡ session_of word.now }
{
    let digits = behind(word, b"s")?;
    if is_session(digits) {
        Some(session_value(digits))
    } else {
        None
    }
}

fn session_value(digits: &[u8]) -> u64
    requires { IsTrue (is_session digits.now) }
    ensures { result ≡ value_of digits.now }
{
    match value(digits) {
        Some(number) => number,
        None => unreachable!(),
    }
}

fn is_session(digits: &[u8]) -> bool
    ensures { result ≡ is_session digits.now }
{
    !digits.is_empty() && digits.len() <= SESSION_DIGITS_MAX && are_digits(digits)
}
