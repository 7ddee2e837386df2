//! The words of the command line.
ghost use Rattle.std.specs.Prelude.{◌≡◌, None, Some, false, map, codes, IfErr, IfOk, IfSome, option_map};
ghost use Rattle.clap.specs.Words.{FailsBy, app_of, first_value, found_of, one_text, rows_of, rule_of};
ghost use Rattle.cg_server.specs.CommandLine.{AreAsked, AsksFor, HasNumbers, asked_port, compact_free_rule, connections_rule, disk_rule, exit_rule, faults_of, format_rule, listen_rule, overwrite_rule, port_in, rows_in, segments_rule, server_app, status_rule, text_rule, tick_rule, with_number_rules, with_place_rules, with_report_rules};
ghost use Rattle.cg_server.specs.Places.{ChoosesPlace, PlaceFor};
ghost use Rattle.cg_server.specs.Refusing.{RefusesBy};

use crate::address::{PORT_DEFAULT, port_of};
use crate::options::Options;
use crate::version::VERSION;
use cg_gate::SEGMENTS_MAX;
use clap::{Arg, ArgAction, ArgMatches, Command, Error, value_parser};
use std::alloc::{AllocError, Global};
use std::convert::AsStr;

/// Number of segments of a new disk without `--segments`.
pub const SEGMENTS_DEFAULT: u64 = 8;

/// Milliseconds between ticks without `--tick-ms`.
pub const TICK_MS_DEFAULT: u64 = 500;

/// Least number of milliseconds between ticks.
pub const TICK_MS_MIN: u64 = 10;

/// Greatest number of milliseconds between ticks.
pub const TICK_MS_MAX: u64 = 60_000;

/// Free segments below which the log is compacted, without `--compact-free`.
pub const COMPACT_FREE_DEFAULT: u64 = 4;

/// Greatest number for `--compact-free`.
pub const COMPACT_FREE_MAX: u64 = SEGMENTS_MAX - 1;

/// Greatest number of connections to serve.
pub const CONNECTIONS_MAX: u64 = 4_294_967_295;

/// Seconds between two statuses without `--status-seconds`: none is printed.
pub const STATUS_SECONDS_DEFAULT: u64 = 0;

/// Greatest number of seconds between two statuses: a day.
pub const STATUS_SECONDS_MAX: u64 = 86_400;

/// What help says after the options.
const EXAMPLES: &str = "\
The server listens on the loopback address alone. It prints LISTENING, LOADED and,
at its end, CLOSED; FAULT and a name say why it ends early or that the disk failed,
and standard error says more. A log is locked while a server has it.

Examples:
  cg_server --disk berymohi.log --format --segments 64
      makes the file, formats it with 64 segments and serves on port 9192; if the
      file has anything already, it leaves it as it is and ends with FAULT File
  cg_server --disk berymohi.log --listen 127.0.0.1:9200 --tick-ms 100
      opens the file as it is and serves on port 9200

Exit status: 0 the connections were served, or the version was printed; 1 the disk
was not opened, formatted or loaded, it failed and the server was to end then, or no
memory or thread was to be had; 2 usage; 3 the address was not bound, no connection
could be accepted, or a line could not be written.";

/// Where the log is.
#[derive(Clone, Copy)]
pub enum LogPlace<'a> {
    /// A new disk in memory.
    Memory,
    /// A file that is made and formatted, also where it is not empty if that is true.
    NewFile(&'a str, bool),
    /// A file that is opened as it is.
    File(&'a str),
}

/// What the words ask for.
#[derive(Drop)]
pub struct Arguments<'a> {
    /// Port on loopback; 0 lets the system choose.
    pub port: u16,
    pub place: LogPlace<'a>,
    /// Segments of a disk that is formatted.
    pub segments: u64,
    pub options: Options,
}

/// Why words were refused.
#[derive(Drop)]
pub enum Refusal {
    /// `clap` refused them, or an allocation failed.
    Words(Error),
    /// The text of `--listen` is no address on loopback.
    Address,
}

// An option with a text.
fn text_arg<'a>(alloc: Global, name: &'a str, value: &'a str, help: &'a str) -> Arg<'a>
    ensures rule { rule_of result ≡ text_rule name.now }
    ensures local { result.global ≡ false }
{
    Arg::new(alloc, name)
        .long(name)
        .value_name(value)
        .help(help)
}

fn listen_arg<'a>(alloc: Global) -> Arg<'a>
    ensures rule { rule_of result ≡ listen_rule }
    ensures local { result.global ≡ false }
{
    text_arg(
        alloc,
        "listen",
        "ADDR",
        "Address to listen on: 127.0.0.1: and a port, 0 to 65535; 0 takes a free one [default: 127.0.0.1:9192]",
    )
}

fn disk_arg<'a>(alloc: Global) -> Arg<'a>
    ensures rule { rule_of result ≡ disk_rule }
    ensures local { result.global ≡ false }
{
    text_arg(
        alloc,
        "disk",
        "PATH",
        "File of the log [default: none; the log is in memory, and lost at the end]",
    )
}

fn format_arg<'a>(alloc: Global) -> Arg<'a>
    ensures rule { rule_of result ≡ format_rule }
    ensures local { result.global ≡ false }
{
    Arg::new(alloc, "format")
        .long("format")
        .action(ArgAction::SetTrue)
        .help(
            "Makes the file with an empty log; a file that is not empty is refused [default: opens it as it is]",
        )
}

fn overwrite_arg<'a>(alloc: Global) -> Arg<'a>
    ensures rule { rule_of result ≡ overwrite_rule }
    ensures local { result.global ≡ false }
{
    Arg::new(alloc, "overwrite")
        .long("overwrite")
        .action(ArgAction::SetTrue)
        .help("As --format, but a file that is not empty is overwritten: what it has is lost")
}

fn segments_arg<'a>(alloc: Global) -> Arg<'a>
    ensures rule { rule_of result ≡ segments_rule }
    ensures local { result.global ≡ false }
{
    text_arg(
        alloc,
        "segments",
        "N",
        "Segments of 1 MiB of a log that is formatted, 1 to 200 [default: 8]",
    )
    .value_parser(value_parser!(u64).range(1..=SEGMENTS_MAX as i64))
}

fn tick_arg<'a>(alloc: Global) -> Arg<'a>
    ensures rule { rule_of result ≡ tick_rule }
    ensures local { result.global ≡ false }
{
    text_arg(
        alloc,
        "tick-ms",
        "N",
        "Milliseconds between two runs of the timeouts, 10 to 60000 [default: 500]",
    )
    .value_parser(value_parser!(u64).range(TICK_MS_MIN as i64..=TICK_MS_MAX as i64))
}

fn compact_free_arg<'a>(alloc: Global) -> Arg<'a>
    ensures rule { rule_of result ≡ compact_free_rule }
    ensures local { result.global ≡ false }
{
    text_arg(
        alloc,
        "compact-free",
        "N",
        "Compacts the log where fewer segments than this are free, 0 to 199 [default: 4]",
    )
    .value_parser(value_parser!(u64).range(0..=COMPACT_FREE_MAX as i64))
}

fn connections_arg<'a>(alloc: Global) -> Arg<'a>
    ensures rule { rule_of result ≡ connections_rule }
    ensures local { result.global ≡ false }
{
    text_arg(
        alloc,
        "connections",
        "N",
        "Connections to serve before the end, 0 to 4294967295; 0 only loads the log [default: no end]",
    )
    .value_parser(value_parser!(u64).range(0..=CONNECTIONS_MAX as i64))
}

fn exit_arg<'a>(alloc: Global) -> Arg<'a>
    ensures rule { rule_of result ≡ exit_rule }
    ensures local { result.global ≡ false }
{
    Arg::new(alloc, "exit-on-fault")
        .long("exit-on-fault")
        .action(ArgAction::SetTrue)
        .help(
            "Ends after FAULT Device with status 1 [default: goes on, and refuses each request with 15]",
        )
}

fn status_arg<'a>(alloc: Global) -> Arg<'a>
    ensures rule { rule_of result ≡ status_rule }
    ensures local { result.global ≡ false }
{
    text_arg(
        alloc,
        "status-seconds",
        "N",
        "Prints a STATUS line every N seconds, 0 to 86400; 0 prints none [default: 0]",
    )
    .value_parser(value_parser!(u64).range(0..=STATUS_SECONDS_MAX as i64))
}

// Adds the options that say where to listen and where the log is.
fn with_place_args<'a>(alloc: Global, command: Command<'a>) -> Result<Command<'a>, AllocError>
    ensures { IfOk result (λ more. app_of more ≡ with_place_rules (app_of command.entry)) }
{
    let command = command
        .arg(listen_arg(alloc))?
        .arg(disk_arg(alloc))?
        .arg(format_arg(alloc))?
        .arg(overwrite_arg(alloc))?;
    Ok(command)
}

// Adds the options with numbers.
fn with_number_args<'a>(alloc: Global, command: Command<'a>) -> Result<Command<'a>, AllocError>
    ensures { IfOk result (λ more. app_of more ≡ with_number_rules (app_of command.entry)) }
{
    let command = command
        .arg(segments_arg(alloc))?
        .arg(tick_arg(alloc))?
        .arg(compact_free_arg(alloc))?
        .arg(connections_arg(alloc))?;
    Ok(command)
}

// Adds the options that say what the server reports.
fn with_report_args<'a>(alloc: Global, command: Command<'a>) -> Result<Command<'a>, AllocError>
    ensures { IfOk result (λ more. app_of more ≡ with_report_rules (app_of command.entry)) }
{
    let command = command.arg(exit_arg(alloc))?.arg(status_arg(alloc))?;
    Ok(command)
}

fn command<'a>(alloc: Global) -> Result<Command<'a>, AllocError>
    ensures { IfOk result (λ command. app_of command ≡ server_app) }
{
    let command = Command::new(alloc, "cg_server")
        .no_binary_name(true)
        .about("A coordinator of consumer groups on the loopback address")
        .version(VERSION)
        .after_help(EXAMPLES);
    let command = with_place_args(alloc, command)?;
    let command = with_number_args(alloc, command)?;
    let command = with_report_args(alloc, command)?;
    Ok(command)
}

// Returns the number of an option, or the default.
fn number_in(matches: &ArgMatches<'_>, name: &str, default: u64) -> u64
    ensures { AsksFor default (one_text (found_of matches.now) name.now) result }
{
    match matches.get_one::<u64>(name) {
        Some(number) => number,
        None => default,
    }
}

// Returns the port to listen on, or `None` if the text is no address on loopback.
fn port_in(matches: &ArgMatches<'_>) -> Option<u16>
    ensures { result ≡ asked_port (first_value (found_of matches.now) (codes "listen")) }
{
    match matches.get_str("listen") {
        Some(address) => port_of(address.as_bytes()),
        None => Some(PORT_DEFAULT),
    }
}

// Returns where the log is.
fn place_in<'a>(matches: &ArgMatches<'a>) -> LogPlace<'a>
    ensures { PlaceFor (first_value (found_of matches.now) (codes "disk")) (one_text (found_of matches.now) (codes "overwrite")) (one_text (found_of matches.now) (codes "format")) result }
{
    match matches.get_str("disk") {
        None => LogPlace::Memory,
        Some(path) if matches.get_flag("overwrite") => LogPlace::NewFile(path, true),
        Some(path) if matches.get_flag("format") => LogPlace::NewFile(path, false),
        Some(path) => LogPlace::File(path),
    }
}

// Returns the options.
fn options_in(matches: &ArgMatches<'_>) -> Options
    ensures tick { AsksFor TICK_MS_DEFAULT (one_text (found_of matches.now) (codes "tick-ms")) result.tick_ms }
    ensures free { AsksFor COMPACT_FREE_DEFAULT (one_text (found_of matches.now) (codes "compact-free")) result.compact_free }
    ensures status { AsksFor STATUS_SECONDS_DEFAULT (one_text (found_of matches.now) (codes "status-seconds")) result.status_seconds }
{
    Options {
        tick_ms: number_in(matches, "tick-ms", TICK_MS_DEFAULT),
        compact_free: number_in(matches, "compact-free", COMPACT_FREE_DEFAULT),
        connections: matches.get_one::<u32>("connections"),
        exit_on_fault: matches.get_flag("exit-on-fault"),
        status_seconds: number_in(matches, "status-seconds", STATUS_SECONDS_DEFAULT),
    }
}

// Returns what `clap` finds in the words.
fn matched<'a, S: AsStr>(alloc: Global, words: &'a [S]) -> Result<ArgMatches<'a>, Error>
    ensures fails { FailsBy (faults_of (map S.text words.now)) result }
    ensures rows { IfOk result (λ matches. rows_of (found_of matches) ≡ rows_in (map S.text words.now)) }
{
    let matches = command(alloc)?.try_get_matches_from(words)?;
    Ok(matches)
}

// Returns what the matches ask for, or `None` if the address is not on loopback.
fn arguments_in<'a>(matches: &ArgMatches<'a>) -> Option<Arguments<'a>>
    ensures port { option_map (λ arguments. arguments.port) result ≡ asked_port (first_value (found_of matches.now) (codes "listen")) }
    ensures place { IfSome result (λ arguments. PlaceFor (first_value (found_of matches.now) (codes "disk")) (one_text (found_of matches.now) (codes "overwrite")) (one_text (found_of matches.now) (codes "format")) arguments.place) }
    ensures numbers { IfSome result (HasNumbers (one_text (found_of matches.now))) }
{
    Some(Arguments {
        port: port_in(matches)?,
        place: place_in(matches),
        segments: number_in(matches, "segments", SEGMENTS_DEFAULT),
        options: options_in(matches),
    })
}

/// Returns what these words ask for, without the program's name. Refuses words that `clap` does not take, a call for
/// help or for the version among them, and an address that is not on loopback.
pub fn parse_words<'a, S: AsStr>(alloc: Global, words: &'a [S]) -> Result<Arguments<'a>, Refusal>
    ensures refuses { RefusesBy (faults_of (map S.text words.now)) result }
    ensures address { IfErr result (λ refusal. refusal ≡ Refusal.Address → port_in (map S.text words.now) ≡ None) }
    ensures port { IfOk result (λ arguments. port_in (map S.text words.now) ≡ Some arguments.port) }
    ensures place { IfOk result (λ arguments. ChoosesPlace (map S.text words.now) arguments.place) }
    ensures numbers { IfOk result (AreAsked (map S.text words.now)) }
{
    match matched(alloc, words) {
        Ok(matches) => match arguments_in(&matches) {
            Some(arguments) => Ok(arguments),
            None => Err(Refusal::Address),
        },
        Err(error) => Err(Refusal::Words(error)),
    }
}
