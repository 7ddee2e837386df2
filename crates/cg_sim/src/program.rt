//! The whole program, from the words of its command line to its exit status.
ghost use Rattle.std.specs.Prelude.{◌≡◌, ◌≢◌, ◌⊎◌, map, []};
ghost use Rattle.clap.specs.Words.{kind_of};
ghost use Rattle.cg_sim.specs.CommandLine.{IsRefused, RefusesWords, ShowsVersion, faults_of};
ghost use Rattle.cg_sim.specs.Ending.{Ends};
ghost use Rattle.cg_sim.specs.Watching.{HasFailed};

use crate::advice::Problem;
use crate::command_line;
use crate::script::{self, STATUS_DONE, STATUS_IO, STATUS_USAGE};
use crate::stop::Stop;
use crate::version::VERSION;
use crate::watched::Watched;
use clap::Error;
use clap::error::ErrorKind;
use std::alloc::Global;
use std::convert::AsStr;
use std::io::{BufRead, Write};

/// Runs the script of the reader as the words ask for it, which are those of the command line without the program's name.
/// Returns the exit status, `STATUS_IO` only if a call of the reader or the writer failed. Prints what is wrong with the words,
/// and help, to `faults`, and what is wrong with a bad script line.
pub fn command<E: Alloc<A = Global>, S: AsStr, R: BufRead, W: Write, F: Write>(
    rt: &E,
    words: &[S],
    reader: &mut Watched<R>,
    writer: &mut Watched<W>,
    faults: &mut F,
) -> u8
    ensures serves { faults_of (map S.text words.now) ≡ [] → Ends result (W.contents writer.old.inner) (W.contents writer.new.inner) }
    ensures refuses { faults_of (map S.text words.now) ≢ [] → IsRefused (faults_of (map S.text words.now)) result (W.contents writer.old.inner) (W.contents writer.new.inner) }
    ensures io { result ≡ STATUS_IO → HasFailed reader.new ⊎ HasFailed writer.new }
{
    match command_line::segments(rt.alloc(), words) {
        Ok(segments) => run(rt.alloc(), segments, reader, writer, faults),
        Err(error) => refuse_words(rt.alloc(), &error, writer, faults),
    }
}

// Runs the script, and explains a bad line.
fn run<R: BufRead, W: Write, F: Write>(
    alloc: Global,
    segments: u64,
    reader: &mut Watched<R>,
    writer: &mut Watched<W>,
    faults: &mut F,
) -> u8
    ensures ends { Ends result (W.contents writer.old.inner) (W.contents writer.new.inner) }
    ensures io { result ≡ STATUS_IO → HasFailed reader.new ⊎ HasFailed writer.new }
{
    let (status, played) = script::play(alloc, reader, writer, segments);
    if let Some((number, problem)) = played.problem {
        explain(faults, number, problem);
    }
    status
}

// Prints what is wrong with a script line. A write that fails is no failure of the script.
fn explain<F: Write>(faults: &mut F, number: u64, problem: Problem) {
    let _unwritten = write!(faults, "cg_sim: line {number}: {problem}\n");
}

// Prints the version, and returns the exit status.
fn show_version<W: Write>(alloc: Global, writer: &mut Watched<W>) -> u8
    ensures shows { ShowsVersion result (W.contents writer.old.inner) (W.contents writer.new.inner) }
    ensures io { result ≡ STATUS_IO → HasFailed writer.new }
{
    let Ok(line) = format!(in alloc; "cg_sim {VERSION}\n") else {
        return script::end_early(writer, Stop::Memory);
    };
    if writer.write_all(line.as_bytes()).is_err() || writer.flush().is_err() {
        return STATUS_IO;
    }
    STATUS_DONE
}

// Prints the version if it was asked for, and otherwise the text of `clap` for words that it refused, unless memory ran out.
fn refuse_words<W: Write, F: Write>(
    alloc: Global,
    error: &Error,
    writer: &mut Watched<W>,
    faults: &mut F,
) -> u8
    ensures refuses { RefusesWords (kind_of error.now) result (W.contents writer.old.inner) (W.contents writer.new.inner) }
    ensures io { result ≡ STATUS_IO → HasFailed writer.new }
{
    match error.kind() {
        ErrorKind::OutOfMemory => script::end_early(writer, Stop::Memory),
        ErrorKind::DisplayVersion => show_version(alloc, writer),
        _ => {
            let _unwritten = write!(faults, "{error}");
            STATUS_USAGE
        }
    }
}
