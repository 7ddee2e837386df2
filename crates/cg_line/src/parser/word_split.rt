//! Splitting text at a mark. No function here allocates: the parts are slices of the text.
ghost use Rattle.std.specs.Prelude.{◌≡◌, ◌+◌, ◌<◌, [], ◌∷◌, map, length, MatchOption, IfSome};
ghost use Rattle.cg_line.specs.Splitting.{before, behind, words_of};

use arrayvec::ArrayVec;
use cg_record::ENTRIES_MAX;
use memchr::memchr;

/// Greatest number of words of a request: a COMMIT has its kind, four words and `ENTRIES_MAX` entries.
pub const WORDS_MAX: usize = 5 + ENTRIES_MAX;

/// Number of words that suffices for most lines: only a SYNC, COMMIT, FETCH or DROP of more than 11 entries can have more.
pub const FEW_WORDS: usize = 16;

// Returns the text before the first mark and the text after it, or `None` without a mark.
fn cut(text: &[u8], mark: u8) -> Option<(&[u8], &[u8])>
    ensures { MatchOption result
        ((before mark text.now ≡ text.now) × (behind mark text.now ≡ []))
        (λ parts. (parts.0.now ≡ before mark text.now) × (parts.1.now ≡ behind mark text.now)) }
{
    let at = memchr(mark, text)?;
    Some((&text[..at], &text[at + 1..]))
}

/// Returns the text before the first mark, or the whole text without a mark.
pub fn before(text: &[u8], mark: u8) -> &[u8]
    ensures { result.now ≡ before mark text.now }
{
    match cut(text, mark) {
        Some((front, _)) => front,
        None => text,
    }
}

/// Returns the text after the first mark, or the empty text without a mark.
pub fn behind(text: &[u8], mark: u8) -> &[u8]
    ensures { result.now ≡ behind mark text.now }
{
    match cut(text, mark) {
        Some((_, rest)) => rest,
        None => b"".as_slice(),
    }
}

// Returns the first word and the text of the others, or `None` if the text is one word.
fn first_word(text: &[u8]) -> Option<(&[u8], &[u8])>
    ensures words { MatchOption result
        (words_of text.now ≡ text.now ∷ [])
        (λ parts. words_of text.now ≡ parts.0.now ∷ words_of parts.1.now) }
    ensures shorter { IfSome result (λ parts. length parts.1.now < length text.now) }
{
    let at = memchr(b' ', text)?;
    Some((&text[..at], &text[at + 1..]))
}

/// Returns the words between the spaces of a line, or `None` if there are more than `MOST`. Fills an array of `MOST` slices.
pub fn words<const MOST: usize>(line: &[u8]) -> Option<ArrayVec<&[u8], MOST>>
    ensures { MatchOption result
        (MOST < length (words_of line.now))
        (λ words. map (λ w. w.now) words.items ≡ words_of line.now) }
{
    let mut words = ArrayVec::new();
    let mut rest = line;
    while let Some((word, others)) = first_word(rest) {
        if words.is_full() {
            return None;
        }
        words.push(word);
        rest = others;
    }
    if words.is_full() {
        return None;
    }
    words.push(rest);
    Some(words)
}
