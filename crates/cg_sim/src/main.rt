//! Runs a script of requests and steps against a coordinator over a disk in memory (docs/PROTOCOL.md): reads script
//! lines from standard input, and prints the replies to standard output.
#![tactic(auto)]

ghost use Rattle.std.specs.Prelude.{◌≡◌};
ghost use Rattle.cg_sim.specs.Watching.{HasFailed};

mod advice;
mod command_line;
mod compaction;
mod line;
mod loaded;
mod output_lines;
mod player;
mod poke;
mod poked;
mod poked_disk;
mod program;
mod request_line;
mod script;
mod script_line;
mod sector_text;
mod session_request;
mod stage;
mod stop;
mod text;
mod unloaded;
mod version;
mod watched;

pub use command_line::SEGMENTS_DEFAULT;
pub use program::command;
pub use script::{STATUS_BAD_LINE, STATUS_DONE, STATUS_IO, STATUS_SHORT, STATUS_USAGE, script};
use std::env;
use std::io::{self, BufReader, ErrorKind, Write};
use std::process::ExitCode;
use stop::Stop;
pub use watched::Watched;

fn main(rt: HostRuntime) -> ExitCode {
    let mut writer = Watched::new(io::writer(&rt));
    let stderr = rt.stderr();
    let mut faults = &stderr;
    let words = match words(&rt) {
        Ok(words) => words,
        Err(error) => return ExitCode::from(refuse_encoding(&error, &mut writer, &mut faults)),
    };
    let Ok(reader) = BufReader::new(rt.alloc(), rt.reader()) else {
        return ExitCode::from(script::end_early(&mut writer, Stop::Memory));
    };
    let mut reader = Watched::new(reader);
    let words = after_name(words.as_slice());
    ExitCode::from(command(&rt, words, &mut reader, &mut writer, &mut faults))
}

// Copies the words of the command line.
fn words(rt: &HostRuntime) -> io::Result<Vec<String>> {
    Ok(env::args(rt)?.collect(rt.alloc())?)
}

// Returns the words after the program's name.
fn after_name(words: &[String]) -> &[String] {
    match words {
        [_, rest @ ..] => rest,
        [] => words,
    }
}

// Reports why the words could not be copied: one is not text, or an allocation failed.
fn refuse_encoding<W: Write, F: Write>(
    error: &io::Error,
    writer: &mut Watched<W>,
    faults: &mut F,
) -> u8
    ensures { result ≡ STATUS_IO → HasFailed writer.new }
{
    match error.kind() {
        ErrorKind::OutOfMemory => script::end_early(writer, Stop::Memory),
        _ => {
            let _unwritten = faults.write_all(b"error: a word on the command line is not UTF-8\n");
            STATUS_USAGE
        }
    }
}
