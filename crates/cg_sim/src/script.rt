//! Running a script, line by line, until its end, a bad line or a fault.
ghost use Rattle.std.specs.Prelude.{◌≡◌, ◌⊎◌, ℕ, Ok, Err, Some, true, [], IfOk, IfErr, IfSome, OnOk, List, is_some, option_map};
ghost use Rattle.std.specs.Io.KnownBytes.{Appends};
ghost use Rattle.cg_disk.specs.Mem.{mem_size};
ghost use Rattle.cg_sim.specs.Disk.{disk_sectors};
ghost use Rattle.cg_sim.specs.Ending.{Ends, EndsEarly, status_of};
ghost use Rattle.cg_sim.specs.Stages.{size_of};
ghost use Rattle.cg_sim.specs.Telling.{bad_line, stop_text};
ghost use Rattle.cg_sim.specs.Watching.{HasFailed, Notes};

use crate::advice::{Problem, problem_of};
use crate::line::Line;
use crate::player::Player;
use crate::script_line::{read_line, without_end};
use crate::stage::Stage;
use crate::stop::Stop;
use crate::unloaded::Unloaded;
use crate::watched::Watched;
use cg_disk::MemDisk;
use cg_gate::{FIRST_SEGMENT_SECTOR, SEGMENT_SECTORS};
use cg_names::Moment;
use cg_store::LogFault;
use itoa::Buffer;
use std::alloc::Global;
use std::io::{self, BufRead, Write};

/// Exit status of a script that came to its end.
pub const STATUS_DONE: u8 = 0;

/// Exit status after a script line that is bad, or that may not come where it stands.
pub const STATUS_BAD_LINE: u8 = 1;

/// Exit status after words on the command line that are not understood, and after a call for help.
pub const STATUS_USAGE: u8 = 2;

/// Exit status after a failed read or write.
pub const STATUS_IO: u8 = 3;

/// Exit status if an allocation failed outside a request, or the disk failed in a format or a `poke`.
pub const STATUS_SHORT: u8 = 4;

// Writes and flushes what was printed.
fn emit<W: Write>(writer: &mut Watched<W>, out: &mut Vec<u8>) -> Result<(), Stop>
    ensures written { OnOk result (Appends (W.contents writer.old.inner) (W.contents writer.new.inner) out.old.items) }
    ensures empty { OnOk result (out.new.items ≡ []) }
    ensures io { IfErr result (λ stop. stop ≡ Stop.Io) }
    ensures failed { Notes writer.old writer.new result }
{
    if writer.write_all(out).is_err() || writer.flush().is_err() {
        return Err(Stop::Io);
    }
    out.clear();
    Ok(())
}

// Returns the number of sectors of a disk with this many segments, if it is a number of sectors.
fn disk_sectors(segments: u64) -> Option<u64>
    ensures { IfSome result (λ sectors. sectors ≡ disk_sectors segments) }
{
    SEGMENT_SECTORS
        .checked_mul(segments)?
        .checked_add(FIRST_SEGMENT_SECTOR)
}

// Makes a formatted disk in memory with this many segments.
fn formatted(alloc: Global, segments: u64) -> Result<MemDisk, Stop>
    ensures size { IfOk result (λ disk. mem_size disk ≡ disk_sectors segments) }
    ensures err { IfErr result (λ stop. (stop ≡ Stop.Memory) ⊎ (stop ≡ Stop.Device)) }
{
    let sectors = disk_sectors(segments).ok_or(Stop::Memory)?;
    let mut disk = MemDisk::new(alloc, sectors)?;
    match cg_store::format(alloc, &mut disk) {
        Ok(()) => Ok(disk),
        Err(LogFault::Memory) => Err(Stop::Memory),
        Err(_) => Err(Stop::Device),
    }
}

// Writes what was printed. Ends with the cause `played` if there is one and the write succeeded.
fn emit_before<W: Write>(
    writer: &mut Watched<W>,
    out: &mut Vec<u8>,
    played: Result<(), Stop>,
) -> Result<(), Stop>
    ensures ok { OnOk result (Appends (W.contents writer.old.inner) (W.contents writer.new.inner) out.old.items) }
    ensures err { IfErr result (λ stop. (stop ≡ Stop.Io) ⊎ Appends (W.contents writer.old.inner) (W.contents writer.new.inner) out.old.items) }
    ensures io { IfErr result (λ stop. stop ≡ Stop.Io → HasFailed writer.new ⊎ (played ≡ Err Stop.Io)) }
{
    emit(writer, out)?;
    played?;
    Ok(())
}

// Returns the number of a bad line and its problem, if the script stopped there.
fn problem_at(stop: Stop, stage: &Stage, line: &[u8]) -> Option<(u64, Problem)> {
    match stop {
        Stop::BadLine(number) => Some((number, problem_on(stage, line))),
        Stop::Io | Stop::Memory | Stop::Device => None,
    }
}

// Returns what is wrong with a line that is bad on this stage.
fn problem_on(stage: &Stage, line: &[u8]) -> Problem {
    match Line::read(line) {
        Some(read) if stage.refuses(&read) => Problem::AfterPoke,
        _ => problem_of(line),
    }
}

/// What a script left.
#[derive(Drop)]
pub struct Played {
    /// Why it ended early.
    pub ended: Result<(), Stop>,
    /// The number of a bad line, and what is wrong with it.
    pub problem: Option<(u64, Problem)>,
    /// Its disk, without fault injections and without the pokes that wait. None if it was not made or not formatted.
    pub disk: Option<MemDisk>,
}

// Plays the remaining lines, after what was printed so far.
fn serve_lines<R: BufRead, W: Write>(
    alloc: Global,
    mut stage: Stage,
    before: Result<(), Stop>,
    out: &mut Vec<u8>,
    reader: &mut Watched<R>,
    writer: &mut Watched<W>,
    problem: &mut Option<(u64, Problem)>,
) -> (Stage, Result<(), Stop>)
    requires { IfErr before (λ stop. stop ≡ Stop.Memory) }
    ensures written { (result.1 ≡ Err Stop.Io) ⊎ ((said : List ℕ) × Appends (W.contents writer.old.inner) (W.contents writer.new.inner) said) }
    ensures end { (input : List ℕ) → R.remaining reader.old.inner ≡ Some input → result.1 ≡ Ok tt → R.remaining reader.new.inner ≡ Some [] }
    ensures io { result.1 ≡ Err Stop.Io → HasFailed reader.new ⊎ HasFailed writer.new }
    ensures same_size { size_of result.0 ≡ size_of stage }
{
    let mut player = Player::new(alloc);
    let mut line = Vec::new(alloc);
    let mut played = before;
    for number in 1..u64::MAX {
        if let Err(stop) = emit_before(writer, out, played) {
            *problem = problem_at(stop, &stage, without_end(&line));
            return (stage, Err(stop));
        }
        match read_line(reader, &mut line) {
            Ok(true) => {}
            Ok(false) => return (stage, Ok(())),
            Err(stop) => return (stage, Err(stop)),
        }
        (stage, played) = player.play(stage, number, without_end(&line), out);
    }
    // No line has the number u64::MAX.
    (stage, Err(Stop::BadLine(u64::MAX)))
}

// Plays a script on a disk.
fn play_on<R: BufRead, W: Write>(
    alloc: Global,
    disk: MemDisk,
    reader: &mut Watched<R>,
    writer: &mut Watched<W>,
) -> Played
    ensures written { (result.ended ≡ Err Stop.Io) ⊎ ((said : List ℕ) × Appends (W.contents writer.old.inner) (W.contents writer.new.inner) said) }
    ensures end { (input : List ℕ) → R.remaining reader.old.inner ≡ Some input → result.ended ≡ Ok tt → R.remaining reader.new.inner ≡ Some [] }
    ensures io { result.ended ≡ Err Stop.Io → HasFailed reader.new ⊎ HasFailed writer.new }
    ensures disk { option_map mem_size result.disk ≡ Some (mem_size disk) }
{
    let (mut out, mut problem) = (Vec::new(alloc), None);
    let unloaded = Unloaded::new(alloc, disk);
    let (stage, loaded) = unloaded.load(alloc, Moment::from_millis(0), &mut out);
    let (stage, ended) = serve_lines(alloc, stage, loaded, &mut out, reader, writer, &mut problem);
    let (_refused, disk) = stage.end(alloc);
    Played {
        ended,
        problem,
        disk: Some(disk.into_disk()),
    }
}

fn run<R: BufRead, W: Write>(
    alloc: Global,
    reader: &mut Watched<R>,
    writer: &mut Watched<W>,
    segments: u64,
) -> Played
    ensures written { (result.ended ≡ Err Stop.Io) ⊎ ((said : List ℕ) × Appends (W.contents writer.old.inner) (W.contents writer.new.inner) said) }
    ensures end { (input : List ℕ) → R.remaining reader.old.inner ≡ Some input → result.ended ≡ Ok tt → R.remaining reader.new.inner ≡ Some [] }
    ensures io { result.ended ≡ Err Stop.Io → HasFailed reader.new ⊎ HasFailed writer.new }
    ensures size { IfSome result.disk (λ disk. mem_size disk ≡ disk_sectors segments) }
    ensures disk { result.ended ≡ Ok tt → is_some result.disk ≡ true }
{
    match formatted(alloc, segments) {
        Ok(disk) => play_on(alloc, disk, reader, writer),
        Err(stop) => Played {
            ended: Err(stop),
            problem: None,
            disk: None,
        },
    }
}

fn tell_bad_line<W: Write>(writer: &mut Watched<W>, number: u64) -> io::Result<()>
    ensures written { OnOk result (Appends (W.contents writer.old.inner) (W.contents writer.new.inner) (bad_line number)) }
    ensures failed { Notes writer.old writer.new result }
{
    let mut buffer = Buffer::new();
    writer.write_all(b"BAD SCRIPT LINE ")?;
    writer.write_all(buffer.format(number).as_bytes())?;
    writer.write_all(b"\n")?;
    Ok(())
}

// Prints why a script ends early. Nothing is printed for a failed read or write.
fn tell_stop<W: Write>(writer: &mut Watched<W>, stop: Stop) -> io::Result<()>
    ensures written { OnOk result (Appends (W.contents writer.old.inner) (W.contents writer.new.inner) (stop_text stop)) }
    ensures failed { Notes writer.old writer.new result }
{
    match stop {
        Stop::BadLine(number) => tell_bad_line(writer, number)?,
        Stop::Memory => writer.write_all(b"FAULT Memory\n")?,
        Stop::Device => writer.write_all(b"FAULT Device\n")?,
        Stop::Io => {}
    }
    writer.flush()
}

fn status_of(stop: Stop) -> u8
    ensures { result ≡ status_of stop }
{
    match stop {
        Stop::BadLine(_) => STATUS_BAD_LINE,
        Stop::Io => STATUS_IO,
        Stop::Memory | Stop::Device => STATUS_SHORT,
    }
}

/// Prints why a script ends early, and returns the exit status. It is `STATUS_IO` only after a failed write, or if that is why.
pub fn end_early<W: Write>(writer: &mut Watched<W>, stop: Stop) -> u8
    ensures ends { EndsEarly stop result (W.contents writer.old.inner) (W.contents writer.new.inner) }
    ensures io { result ≡ STATUS_IO → HasFailed writer.new ⊎ (stop ≡ Stop.Io) }
    ensures noted { HasFailed writer.old → HasFailed writer.new }
{
    match tell_stop(writer, stop) {
        Ok(()) => status_of(stop),
        Err(_) => STATUS_IO,
    }
}

/// Runs a script over a disk in memory with this many segments. Returns the exit status, and what the script left. The status is
/// `STATUS_DONE` at its end, `STATUS_BAD_LINE` after a line `BAD SCRIPT LINE`, `STATUS_SHORT` after a last line `FAULT`, and
/// `STATUS_IO` only if a read or a write failed.
pub fn play<R: BufRead, W: Write>(
    alloc: Global,
    reader: &mut Watched<R>,
    writer: &mut Watched<W>,
    segments: u64,
) -> (u8, Played)
    ensures ends { Ends result.0 (W.contents writer.old.inner) (W.contents writer.new.inner) }
    ensures io { result.0 ≡ STATUS_IO → HasFailed reader.new ⊎ HasFailed writer.new }
    ensures end { (input : List ℕ) → R.remaining reader.old.inner ≡ Some input → result.0 ≡ STATUS_DONE → R.remaining reader.new.inner ≡ Some [] }
    ensures size { IfSome result.1.disk (λ disk. mem_size disk ≡ disk_sectors segments) }
    ensures disk { result.0 ≡ STATUS_DONE → is_some result.1.disk ≡ true }
{
    let played = run(alloc, reader, writer, segments);
    let Err(stop) = played.ended else {
        return (STATUS_DONE, played);
    };
    (end_early(writer, stop), played)
}

/// Runs a script as `play` does, and returns the exit status.
pub fn script<R: BufRead, W: Write>(
    alloc: Global,
    reader: &mut Watched<R>,
    writer: &mut Watched<W>,
    segments: u64,
) -> u8
    ensures ends { Ends result (W.contents writer.old.inner) (W.contents writer.new.inner) }
    ensures io { result ≡ STATUS_IO → HasFailed reader.new ⊎ HasFailed writer.new }
    ensures end { (input : List ℕ) → R.remaining reader.old.inner ≡ Some input → result ≡ STATUS_DONE → R.remaining reader.new.inner ≡ Some [] }
{
    let (status, _played) = play(alloc, reader, writer, segments);
    status
}
