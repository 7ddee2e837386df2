//! Reading one line of a script: no more than the longest line is kept.
ghost use Rattle.std.specs.Prelude.{◌≡◌, ◌≢◌, ◌⊎◌, ◌≤◌, ◌<◌, ◌+◌, ℕ, true, false, Some, List, All, length, take, drop, IfErr, IfOk};
ghost use Rattle.std.specs.Io.{StartsWith, StopsAt};
ghost use Rattle.std.specs.Io.KnownBytes.{Consumes};
ghost use Rattle.cg_sim.specs.Reading.{EndsLine, HasNoEnd, IsNext, IsOver, IsWithoutEnd};
ghost use Rattle.cg_sim.specs.Watching.{HasFailed};

use crate::line::SCRIPT_LINE_BYTES_MAX;
use crate::stop::Stop;
use crate::watched::Watched;
use memchr::memchr;
use std::io::{BufRead, ErrorKind};

/// Returns how many bytes of the part belong to a line with room for `room` more: through the first line feed.
pub fn part_of_line(bytes: &[u8], room: usize) -> usize
    ensures within { result ≤ length bytes.now }
    ensures room { result ≤ room }
    ensures before { StopsAt (take result bytes.now) 10 }
    ensures whole { result < room → All (λ x. x ≢ 10) (take result bytes.now) → result ≡ length bytes.now }
{
    let end = match memchr(b'\n', bytes) {
        Some(at) => at + 1,
        None => bytes.len(),
    };
    if end < room { end } else { room }
}

/// Returns whether no more bytes belong to the line: it has its line feed, or is longer than a line may be.
pub fn is_whole(line: &[u8]) -> bool
    requires { StopsAt line.now 10 }
    ensures whole { result ≡ true → EndsLine line.now ⊎ ((SCRIPT_LINE_BYTES_MAX < length line.now) × HasNoEnd line.now) }
    ensures part { result ≡ false → (length line.now ≤ SCRIPT_LINE_BYTES_MAX) × HasNoEnd line.now }
{
    match line.last() {
        Some(last) if *last == b'\n' => true,
        _ => line.len() > SCRIPT_LINE_BYTES_MAX,
    }
}

// Appends what the reader shows of the line, which is nothing if the read is interrupted. Returns whether the line is over.
fn read_part<R: BufRead>(reader: &mut Watched<R>, line: &mut Vec<u8>) -> Result<bool, Stop>
    requires room { length line.old.items ≤ SCRIPT_LINE_BYTES_MAX }
    requires begun { HasNoEnd line.old.items }
    ensures appends { StartsWith line.new.items line.old.items }
    ensures consumed { Consumes (R.remaining reader.old.inner) (R.remaining reader.new.inner) (drop (length line.old.items) line.new.items) }
    ensures bound { length line.new.items ≤ SCRIPT_LINE_BYTES_MAX + 1 }
    ensures more { IfOk result (λ is_over. is_over ≡ false → (length line.new.items ≤ SCRIPT_LINE_BYTES_MAX) × HasNoEnd line.new.items) }
    ensures over { (left : List ℕ) → R.remaining reader.old.inner ≡ Some left → IfOk result (λ is_over. is_over ≡ true → IsOver line.new.items (R.remaining reader.new.inner)) }
    ensures grows { IfOk result (λ is_over. is_over ≡ false → HasFailed reader.new ⊎ (length line.old.items < length line.new.items)) }
    ensures io { IfErr result (λ stop. stop ≡ Stop.Io → HasFailed reader.new) }
    ensures noted { HasFailed reader.old → HasFailed reader.new }
{
    match reader.append_part(line) {
        Ok(part) => Ok(part?),
        Err(error) => match error.kind() {
            ErrorKind::Interrupted => Ok(false),
            _ => Err(Stop::from(error)),
        },
    }
}

/// Reads the next line, with its line feed if it has one, and no more than the longest line and one byte. Returns false
/// at the end of the input.
pub fn read_line<R: BufRead>(reader: &mut Watched<R>, line: &mut Vec<u8>) -> Result<bool, Stop>
    ensures next { (left : List ℕ) → R.remaining reader.old.inner ≡ Some left → IfOk result (λ more. IsNext left more line.new.items (R.remaining reader.new.inner)) }
    ensures io { IfErr result (λ stop. stop ≡ Stop.Io → HasFailed reader.new) }
{
    line.clear();
    for _ in 0..u64::MAX {
        if read_part(reader, line)? {
            return Ok(!line.is_empty());
        }
    }
    // A part without a failure has a byte, and no line has so many.
    Err(Stop::Io)
}

/// Returns the line without its line feed.
pub fn without_end(line: &[u8]) -> &[u8]
    ensures { IsWithoutEnd line.now result.now }
{
    let Some((last, front)) = line.split_last() else {
        return line;
    };
    if *last == b'\n' { front } else { line }
}
