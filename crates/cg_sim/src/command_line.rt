//! The words of the command line.
ghost use Rattle.std.specs.Prelude.{◌≡◌, false, map, codes, IfOk};
ghost use Rattle.clap.specs.Words.{FailsBy, app_of, found_of, one_text, rule_of};
ghost use Rattle.cg_sim.specs.CommandLine.{AsksFor, WordsAskFor, faults_of, segments_rule, sim_app};

use crate::version::VERSION;
use cg_gate::SEGMENTS_MAX;
use clap::{Arg, ArgMatches, Command, Error, value_parser};
use std::alloc::{AllocError, Global};
use std::convert::AsStr;

/// Number of segments of the disk without `--segments`.
pub const SEGMENTS_DEFAULT: u64 = 8;

/// What help says of script lines.
const SCRIPT_HELP: &str = "\
Script lines (blank lines and lines that begin with # are skipped):
  s<digits> REQUEST           a request of that session: JOIN, SYNC, BEAT, LEAVE,
                              COMMIT, FETCH, DESCRIBE, DELETE, DROP or LIST
  at M, tick M                set the moment in milliseconds; tick also runs timeouts
  gone s<digits>              the session is closed
  take, append, settle        hand out a batch, store it, release its replies
  flush                       take, append and settle
  compact                     rewrite the log: start, reads, writes and switch
  compact start, read, write, switch, abort
                              one step of it, or its end
  fuse K                      the disk passes K more calls, then fails each
  once K                      the disk passes K more calls, then fails one; a write that
                              it fails leaves the byte 01 everywhere in its range
  poke S xBYTES               sector S holds these bytes, then zeros; on a loaded
                              disk only pokes may follow before stop, reload or close
  stop keep, stop lose        power loss; unsynced writes are kept or lost
  load                        open the store, and print LOADED or FAULT
  reload                      stop keep, then load
  close                       refuse every pending request, then stop keep

Exit status: 0 the script ended, or the version was printed; 1 a bad line; 2 usage;
3 a failed read or write; 4 out of memory, or the disk failed in a format or a poke.";

fn segments_arg<'a>(alloc: Global) -> Arg<'a>
    ensures rule { rule_of result ≡ segments_rule }
    ensures local { result.global ≡ false }
{
    Arg::new(alloc, "segments")
        .long("segments")
        .value_name("N")
        .value_parser(value_parser!(u64).range(1..=SEGMENTS_MAX as i64))
        .help("Segments of 1 MiB on the disk, 1 to 200 [default: 8]")
}

fn command<'a>(alloc: Global) -> Result<Command<'a>, AllocError>
    ensures { IfOk result (λ command. app_of command ≡ sim_app) }
{
    let command = Command::new(alloc, "cg_sim")
        .no_binary_name(true)
        .about("Runs a script of requests and steps, read from standard input, on a disk in memory")
        .version(VERSION)
        .after_help(SCRIPT_HELP)
        .arg(segments_arg(alloc))?;
    Ok(command)
}

// Returns the number of segments that a parse found.
fn segments_in(matches: &ArgMatches<'_>) -> u64
    ensures { AsksFor (one_text (found_of matches.now) (codes "segments")) result }
{
    match matches.get_one::<u64>("segments") {
        Some(segments) => segments,
        None => SEGMENTS_DEFAULT,
    }
}

/// Returns the number of segments that these words ask for, without the program's name. Refuses words that `clap` does not take,
/// a call for help or for the version among them.
pub fn segments<S: AsStr>(alloc: Global, words: &[S]) -> Result<u64, Error>
    ensures value { IfOk result (WordsAskFor (map S.text words.now)) }
    ensures fails { FailsBy (faults_of (map S.text words.now)) result }
{
    let matches = command(alloc)?.try_get_matches_from(words)?;
    Ok(segments_in(&matches))
}
