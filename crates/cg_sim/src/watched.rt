//! A reader or a writer that notes a failed call. The traits of `std` say nothing of a failure, so no clause over them could
//! tell an error that was met from one that was made up.
ghost use Rattle.std.specs.Prelude.{◌≡◌, ◌≤◌, ◌<◌, ◌+◌, ℕ, List, Ok, Some, true, false, length, drop, OnErr, OnOk};
ghost use Rattle.std.specs.Io.{StartsWith};
ghost use Rattle.std.specs.Io.KnownBytes.{Appends, Consumes, Keeps};
ghost use Rattle.cg_sim.specs.Reading.{HasNoEnd, IsOver};
ghost use Rattle.cg_sim.specs.Watching.{Notes};

use crate::line::SCRIPT_LINE_BYTES_MAX;
use crate::script_line::{is_whole, part_of_line};
use std::alloc::AllocError;
use std::io::{self, BufRead, Write};

/// Reader or writer, and whether a call of it failed.
#[derive(Drop)]
pub struct Watched<T> {
    inner: T,
    failed: bool,
}

impl<T> Watched<T> {
    /// Watches the calls from here on.
    pub fn new(inner: T) -> Self
        ensures inner { result.inner ≡ inner }
        ensures failed { result.failed ≡ false }
    {
        Watched {
            inner,
            failed: false,
        }
    }
}

impl<W: Write> Watched<W> {
    /// Writes all of the bytes.
    pub fn write_all(&mut self, bytes: &[u8]) -> io::Result<()>
        ensures bytes { OnOk result (Appends (W.contents self.old.inner) (W.contents self.new.inner) bytes.now) }
        ensures failed { Notes self.old self.new result }
    {
        let written = self.inner.write_all(bytes);
        if written.is_err() {
            self.failed = true;
        }
        written
    }

    /// Flushes what was written.
    pub fn flush(&mut self) -> io::Result<()>
        ensures bytes { Keeps (W.contents self.old.inner) (W.contents self.new.inner) }
        ensures failed { Notes self.old self.new result }
    {
        let flushed = self.inner.flush();
        if flushed.is_err() {
            self.failed = true;
        }
        flushed
    }
}

impl<R: BufRead> Watched<R> {
    /// Appends what the reader shows of the line, and consumes it. Returns whether the line is over, which it is if it is whole
    /// or the input ends; or that memory ran out. An error is that of the read.
    pub fn append_part(&mut self, line: &mut Vec<u8>) -> io::Result<Result<bool, AllocError>>
        requires room { length line.old.items ≤ SCRIPT_LINE_BYTES_MAX }
        requires begun { HasNoEnd line.old.items }
        ensures failed { Notes self.old self.new result }
        ensures appends { StartsWith line.new.items line.old.items }
        ensures consumed { Consumes (R.remaining self.old.inner) (R.remaining self.new.inner) (drop (length line.old.items) line.new.items) }
        ensures bound { length line.new.items ≤ SCRIPT_LINE_BYTES_MAX + 1 }
        ensures same { OnErr result (line.new.items ≡ line.old.items) }
        ensures grows { result ≡ Ok (Ok false) → length line.old.items < length line.new.items }
        ensures more { result ≡ Ok (Ok false) → (length line.new.items ≤ SCRIPT_LINE_BYTES_MAX) × HasNoEnd line.new.items }
        ensures over { (left : List ℕ) → R.remaining self.old.inner ≡ Some left → result ≡ Ok (Ok true) → IsOver line.new.items (R.remaining self.new.inner) }
    {
        let available = match self.inner.fill_buf() {
            Ok(available) => available,
            Err(error) => {
                self.failed = true;
                return Err(error);
            }
        };
        let size = part_of_line(available, SCRIPT_LINE_BYTES_MAX + 1 - line.len());
        if let Err(error) = line.extend_from_slice(&available[..size]) {
            return Ok(Err(error));
        }
        let is_over = size == 0 || is_whole(line);
        self.inner.consume(size);
        Ok(Ok(is_over))
    }
}
