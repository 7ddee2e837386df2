//! A line whose line feed has not been read yet.
ghost use Rattle.std.specs.Prelude.{◌≡◌, ◌∷◌, ◌++◌, ℕ, ◌+◌, ◌<◌, ◌≤◌, List, [], length, IfOk, IfSome, IsTrue, MatchOption, MatchResult, OnOk, OnErr};
ghost use Rattle.cg_line.specs.Lines.{Adds, Asks, Ended, GoesOn, IsBegun, begun_len};
ghost use Rattle.cg_line.specs.Running.{HasNoEnd, IsLine, IsTooLong, line_feed};

use crate::stream::asked_line::{Asked, Refusal, asked_by};
use crate::words::LINE_BYTES_MAX;
use memchr::memchr;
use std::alloc::Global;

/// Bytes of a line whose line feed has not been read yet.
#[derive(Drop)]
pub enum BegunLine {
    /// The bytes themselves.
    Kept(Vec<u8>),
    /// Only their number, because an allocation for them failed.
    Lost(usize),
}

/// A line has more than `LINE_BYTES_MAX` bytes.
#[derive(Clone, Copy)]
pub struct TooLong;

// Returns the bytes before the first line feed and those after it, or `None` without a line feed.
fn cut(bytes: &[u8]) -> Option<(&[u8], &[u8])>
    ensures { MatchOption result (HasNoEnd bytes.now)
        (λ parts. (bytes.now ≡ parts.0.now ++ (line_feed ∷ parts.1.now)) × HasNoEnd parts.0.now) }
{
    let at = memchr(b'\n', bytes)?;
    Some((&bytes[..at], &bytes[at + 1..]))
}

impl BegunLine {
    /// Begins a line, with no bytes. Does not allocate.
    pub fn new(alloc: Global) -> Self
        ensures { IsBegun result [] }
    {
        BegunLine::Kept(Vec::new(alloc))
    }

    fn len(&self) -> usize
        ensures { result ≡ begun_len self.now }
    {
        match self {
            BegunLine::Kept(bytes) => bytes.len(),
            BegunLine::Lost(count) => *count,
        }
    }

    fn is_empty(&self) -> bool
        ensures { IsTrue result → IsBegun self.now [] }
    {
        self.len() == 0
    }

    // Appends bytes. If an allocation fails, keeps only the number of bytes from then on.
    fn put(&mut self, part: &[u8])
        requires { begun_len self.old + length part.now ≤ LINE_BYTES_MAX }
        ensures { Adds self.old part.now self.new }
    {
        let count = self.len() + part.len();
        match self {
            BegunLine::Kept(bytes) => {
                if bytes.extend_from_slice(part).is_err() {
                    *self = BegunLine::Lost(count);
                }
            }
            BegunLine::Lost(_) => *self = BegunLine::Lost(count),
        }
    }

    // Appends bytes of the line, unless they make it too long.
    fn add(&mut self, part: &[u8]) -> Result<(), TooLong>
        ensures ok { OnOk result (Adds self.old part.now self.new) }
        ensures within { OnOk result (begun_len self.old + length part.now ≤ LINE_BYTES_MAX) }
        ensures err { OnErr result (LINE_BYTES_MAX < begun_len self.old + length part.now) }
    {
        let len = self.len();
        if len > LINE_BYTES_MAX || part.len() > LINE_BYTES_MAX - len {
            return Err(TooLong);
        }
        self.put(part);
        Ok(())
    }

    // Begins the next line.
    fn clear(&mut self, alloc: Global)
        ensures { IsBegun self.new [] }
    {
        match self {
            BegunLine::Kept(bytes) => bytes.clear(),
            BegunLine::Lost(_) => *self = BegunLine::Kept(Vec::new(alloc)),
        }
    }

    // Returns what the line asks for, if it ends with the bytes so far.
    fn asked(&self, alloc: Global) -> Asked
        ensures { (line : List ℕ) → IsBegun self.now line → IsLine line → Asks line result }
    {
        match self {
            BegunLine::Kept(bytes) => asked_by(alloc, bytes),
            BegunLine::Lost(_) => Asked::Refusal(Refusal::Memory),
        }
    }

    // Ends the line with `front`, and begins the next. A line that lies whole in `front` is parsed there, without a copy.
    fn end(&mut self, alloc: Global, front: &[u8]) -> Result<Asked, TooLong>
        ensures { (line : List ℕ) → IsBegun self.old line → IsLine line → HasNoEnd front.now → MatchResult result
            (λ asked. IsLine (line ++ front.now) × Asks (line ++ front.now) asked × IsBegun self.new [])
            (λ _. LINE_BYTES_MAX < length (line ++ front.now)) }
    {
        if self.is_empty() && front.len() <= LINE_BYTES_MAX {
            return Ok(asked_by(alloc, front));
        }
        self.add(front)?;
        let asked = self.asked(alloc);
        self.clear(alloc);
        Ok(asked)
    }

    /// Takes bytes up to the first line feed. Returns what the line that it ends asks for, and the bytes after it; `None`
    /// if the line goes on. A line that lies whole in `bytes` is parsed there, without a copy. A line of more than
    /// `LINE_BYTES_MAX` bytes is an error, with or without its line feed. If an allocation for a line fails, its refusal
    /// is what it asks for. Linear in the bytes taken, besides parsing.
    pub fn next<'a>(
        &mut self,
        alloc: Global,
        bytes: &'a [u8],
    ) -> Result<Option<(Asked, &'a [u8])>, TooLong>
        ensures next { (line : List ℕ) → IsBegun self.old line → IsLine line → MatchResult result
            (λ next. MatchOption next (GoesOn line bytes.now self.new) (λ found. Ended line bytes.now found.0 found.1.now self.new))
            (λ _. IsTooLong (line ++ bytes.now)) }
        ensures behind { IfOk result (λ next. IfSome next (λ found. length found.1.now < length bytes.now)) }
    {
        let Some((front, behind)) = cut(bytes) else {
            self.add(bytes)?;
            return Ok(None);
        };
        let asked = self.end(alloc, front)?;
        Ok(Some((asked, behind)))
    }
}
