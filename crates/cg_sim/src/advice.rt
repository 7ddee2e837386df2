//! What is wrong with a bad script line, and what would be right: text for a person, on standard error.
use crate::line::{Line, SCRIPT_LINE_BYTES_MAX};
use crate::text::{self, NUMBER_MAX};
use cg_disk::SECTOR_BYTES;
use cg_gate::{FIRST_SEGMENT_SECTOR, SEGMENT_SECTORS};
use std::fmt;

/// Requests, each with the form of its line.
const REQUESTS: [(&[u8], &str); 10] = [
    (
        b"JOIN",
        "JOIN group member instance client session-ms rebalance-ms type protocol=xBYTES ..",
    ),
    (
        b"SYNC",
        "SYNC group generation member instance member=xBYTES ..",
    ),
    (b"BEAT", "BEAT group generation member instance"),
    (b"LEAVE", "LEAVE group member instance"),
    (
        b"COMMIT",
        "COMMIT group generation member instance topic:partition:offset:xBYTES ..",
    ),
    (b"FETCH", "FETCH group topic:partition .."),
    (b"DESCRIBE", "DESCRIBE group"),
    (b"DELETE", "DELETE group"),
    (b"DROP", "DROP group topic:partition .."),
    (b"LIST", "LIST"),
];

/// Problem of a bad script line.
#[derive(Clone, Copy, Debug, PartialEq, Eq)]
pub enum Problem {
    /// The line is longer than any may be.
    TooLong,
    /// The line ends with a carriage return.
    CarriageReturn,
    /// The line begins or ends with a space, or has two in a row.
    Spaces,
    /// `load` while something is loaded.
    AlreadyLoaded,
    /// A line that may not follow a `poke` while something is loaded.
    AfterPoke,
    /// A `poke` is not a sector and at most a sector's bytes.
    Poke,
    /// A `poke` names a sector that the disk does not have.
    NoSuchSector,
    /// A session is not `s` and 1 to 6 digits.
    Session,
    /// A number is out of range, or not in plain decimal.
    Number,
    /// The word after `compact` is not the name of one of its parts.
    Compact,
    /// The word after the session is not the name of a request.
    UnknownRequest,
    /// The request has this form, and the line has another.
    Form(&'static str),
    /// The line begins with an unknown word.
    UnknownLine,
}

impl fmt::Display for Problem {
    fn fmt<W: fmt::Write>(&self, f: &mut fmt::Formatter<W>) -> fmt::Result {
        match self {
            Problem::TooLong => write!(f, "a line has at most {SCRIPT_LINE_BYTES_MAX} bytes"),
            Problem::CarriageReturn => {
                write!(
                    f,
                    "the line ends in a carriage return; end lines with a line feed alone"
                )
            }
            Problem::Spaces => write!(f, "words are separated by one space, with none at the ends"),
            Problem::AlreadyLoaded => {
                write!(
                    f,
                    "something is loaded already; use `stop keep` or `stop lose` first, or `reload`"
                )
            }
            Problem::AfterPoke => {
                write!(
                    f,
                    "after a poke, while something is loaded, only pokes may come, and then stop keep, stop lose, reload or close"
                )
            }
            Problem::Poke => {
                write!(
                    f,
                    "the form is poke SECTOR xBYTES, with at most {SECTOR_BYTES} bytes, two lower-case digits for each"
                )
            }
            Problem::NoSuchSector => {
                write!(
                    f,
                    "the disk has no such sector; it has {FIRST_SEGMENT_SECTOR}, and {SEGMENT_SECTORS} for each segment, counted from 0"
                )
            }
            Problem::Session => write!(f, "a session is `s` and 1 to 6 digits, as in s1"),
            Problem::Number => {
                write!(
                    f,
                    "a number is decimal, from 0 to {NUMBER_MAX}, without leading zeros or a sign"
                )
            }
            Problem::Compact => write!(
                f,
                "compact stands alone, or with start, read, write, switch or abort"
            ),
            Problem::UnknownRequest => write!(
                f,
                "a request is JOIN, SYNC, BEAT, LEAVE, COMMIT, FETCH, DESCRIBE, DELETE, DROP or LIST"
            ),
            Problem::Form(form) => write!(
                f,
                "a value is missing, left over, out of range or repeated; the form is {form}"
            ),
            Problem::UnknownLine => write!(
                f,
                "a line is s<digits> REQUEST, at, tick, gone, take, append, settle, flush, compact, fuse, once, poke, stop keep, stop lose, load, reload or close"
            ),
        }
    }
}

/// Returns what is wrong with a bad line. Linear in the line. Does not allocate.
pub fn problem_of(line: &[u8]) -> Problem {
    if line.len() > SCRIPT_LINE_BYTES_MAX {
        return Problem::TooLong;
    }
    if line.ends_with(b"\r") {
        return Problem::CarriageReturn;
    }
    if has_stray_space(line) {
        return Problem::Spaces;
    }
    match text::cut(line, b' ') {
        Some((word, rest)) => problem_after(word, rest),
        None => problem_after(line, b""),
    }
}

// Returns the problem of a line that begins with `word`.
fn problem_after(word: &[u8], rest: &[u8]) -> Problem {
    if word == b"load".as_slice() && rest.is_empty() {
        return Problem::AlreadyLoaded;
    }
    if word == b"gone".as_slice() {
        return Problem::Session;
    }
    if word == b"poke".as_slice() {
        return poke_problem(rest);
    }
    if word == b"compact".as_slice() {
        return Problem::Compact;
    }
    if [b"at".as_slice(), b"tick", b"fuse", b"once"]
        .iter()
        .any(|own| *own == word)
    {
        return Problem::Number;
    }
    if text::session_number(word).is_some() {
        return request_problem(rest);
    }
    match text::behind(word, b"s") {
        Some(digits) if digits.iter().all(|b| b.is_ascii_digit()) => Problem::Session,
        _ => Problem::UnknownLine,
    }
}

// Returns the problem of a poke with these words.
fn poke_problem(rest: &[u8]) -> Problem {
    match Line::poke_line(rest) {
        Some(_) => Problem::NoSuchSector,
        None => Problem::Poke,
    }
}

// Returns the problem of a request line.
fn request_problem(line: &[u8]) -> Problem {
    let word = match text::cut(line, b' ') {
        Some((word, _)) => word,
        None => line,
    };
    match REQUESTS.iter().find(|request| request.0 == word) {
        Some(request) => Problem::Form(request.1),
        None => Problem::UnknownRequest,
    }
}

// Returns whether a space is the first or last byte, or follows another space.
fn has_stray_space(line: &[u8]) -> bool {
    let mut was_space = true;
    for byte in line {
        let is_space = *byte == b' ';
        if is_space && was_space {
            return true;
        }
        was_space = is_space;
    }
    was_space && !line.is_empty()
}
