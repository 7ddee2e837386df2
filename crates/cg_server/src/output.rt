//! The lines that the server prints. Each is flushed at once.
ghost use Rattle.std.specs.Prelude.{◌≡◌, IfErr, IfOk, OnOk, string_bytes};
ghost use Rattle.std.specs.Io.KnownBytes.{Appends};
ghost use Rattle.std.specs.Net.Text.{socket_text};
ghost use Rattle.cg_server.specs.Ending.{Prints, TellsStatus, closed_text, done_text, groups_text, listening_text, loaded_text, requests_text, room_text, status_text, stop_text, version_text};

use crate::status::Status;
use crate::stop::Stop;
use crate::version::VERSION;
use std::alloc::{AllocError, Global};
use std::io::Write;
use std::net::SocketAddr;

// Writes and flushes a line.
fn print_line<W: Write>(writer: &mut W, line: &[u8]) -> Result<(), Stop>
    ensures ok { OnOk result (Appends (W.contents writer.old) (W.contents writer.new) line.now) }
    ensures err { IfErr result (λ cause. cause ≡ Stop.Write) }
{
    if writer.write_all(line).is_err() || writer.flush().is_err() {
        return Err(Stop::Write);
    }
    Ok(())
}

/// Prints the address that is listened on.
#[tactic(auto, using(crate::proofs::Written::appends_nothing))]
pub fn print_listening<W: Write>(
    alloc: Global,
    writer: &mut W,
    address: SocketAddr,
) -> Result<(), Stop>
    ensures { Prints result (listening_text (socket_text address)) (W.contents writer.old) (W.contents writer.new) }
{
    let line = format!(in alloc; "LISTENING {address}\n")?;
    print_line(writer, line.as_bytes())?;
    Ok(())
}

/// Prints how many commands, group records and offsets a load found.
#[tactic(auto, using(crate::proofs::Written::appends_nothing))]
pub fn print_loaded<W: Write>(
    alloc: Global,
    writer: &mut W,
    found: (u64, u64, u64),
) -> Result<(), Stop>
    ensures { Prints result (loaded_text found) (W.contents writer.old) (W.contents writer.new) }
{
    let (number, records, offsets) = found;
    let line = format!(in alloc; "LOADED {number} {records} {offsets}\n")?;
    print_line(writer, line.as_bytes())?;
    Ok(())
}

// Returns the first part of a status: the groups, and what they have.
fn groups_part(alloc: Global, status: &Status) -> Result<String, AllocError>
    ensures { IfOk result (λ text. string_bytes text ≡ groups_text status.now) }
{
    let (groups, members, offsets) = (status.groups, status.members, status.offsets);
    let text = format!(in alloc; "STATUS groups={groups} members={members} offsets={offsets} ")?;
    Ok(text)
}

// Returns the second part: the clients, and what they asked for.
fn requests_part(alloc: Global, status: &Status) -> Result<String, AllocError>
    ensures { IfOk result (λ text. string_bytes text ≡ requests_text status.now) }
{
    let (connections, pending, settled) = (status.connections, status.pending, status.settled);
    let text = format!(in alloc; "connections={connections} pending={pending} settled={settled} ")?;
    Ok(text)
}

// Returns the third part: the room of the log.
fn room_part(alloc: Global, status: &Status) -> Result<String, AllocError>
    ensures { IfOk result (λ text. string_bytes text ≡ room_text status.now) }
{
    let (free, of, compactions) = (status.free, status.of, status.compactions);
    let text = format!(in alloc; "free={free} of={of} compactions={compactions} ")?;
    Ok(text)
}

// Returns the last part: what was done since the log was loaded.
fn done_part(alloc: Global, status: &Status) -> Result<String, AllocError>
    ensures { IfOk result (λ text. string_bytes text ≡ done_text status.now) }
{
    let (commits, seconds) = (status.commits, status.seconds);
    let text = format!(in alloc; "commits={commits} seconds={seconds}\n")?;
    Ok(text)
}

// Returns the line of a status.
fn status_line(alloc: Global, status: &Status) -> Result<String, AllocError>
    ensures { IfOk result (λ text. string_bytes text ≡ status_text status.now) }
{
    let mut line = groups_part(alloc, status)?;
    line.push_str(&requests_part(alloc, status)?)?;
    line.push_str(&room_part(alloc, status)?)?;
    line.push_str(&done_part(alloc, status)?)?;
    Ok(line)
}

/// Prints a status, unless there is no memory for its line.
pub fn print_status<W: Write>(alloc: Global, writer: &mut W, status: &Status) -> Result<(), Stop>
    ensures { TellsStatus status.now result (W.contents writer.old) (W.contents writer.new) }
{
    let Ok(line) = status_line(alloc, status) else {
        return Ok(());
    };
    print_line(writer, line.as_bytes())?;
    Ok(())
}

/// Prints the version.
#[tactic(auto, using(crate::proofs::Written::appends_nothing))]
pub fn print_version<W: Write>(alloc: Global, writer: &mut W) -> Result<(), Stop>
    ensures { Prints result version_text (W.contents writer.old) (W.contents writer.new) }
{
    let line = format!(in alloc; "cg_server {VERSION}\n")?;
    print_line(writer, line.as_bytes())?;
    Ok(())
}

/// Prints the number of the last stored command.
#[tactic(auto, using(crate::proofs::Written::appends_nothing))]
pub fn print_closed<W: Write>(alloc: Global, writer: &mut W, front: u64) -> Result<(), Stop>
    ensures { Prints result (closed_text front) (W.contents writer.old) (W.contents writer.new) }
{
    let line = format!(in alloc; "CLOSED {front}\n")?;
    print_line(writer, line.as_bytes())?;
    Ok(())
}

// Returns the line for a cause; a line that could not be written has none.
fn stop_line(stop: Stop) -> &'static [u8]
    ensures { result.now ≡ stop_text stop }
{
    match stop {
        Stop::File => b"FAULT File\n",
        Stop::Memory => b"FAULT Memory\n",
        Stop::Device => b"FAULT Device\n",
        Stop::NoRoot => b"FAULT NoRoot\n",
        Stop::BadRoot => b"FAULT BadRoot\n",
        Stop::BadFrame => b"FAULT BadFrame\n",
        Stop::BadRecord => b"FAULT BadRecord\n",
        Stop::Loaded => b"FAULT Loaded\n",
        Stop::Clock => b"FAULT Clock\n",
        Stop::Net => b"FAULT Net\n",
        Stop::Write => b"",
    }
}

/// Prints a fault.
pub fn print_stop<W: Write>(writer: &mut W, stop: Stop) -> Result<(), Stop>
    ensures ok { OnOk result (Appends (W.contents writer.old) (W.contents writer.new) (stop_text stop)) }
    ensures err { IfErr result (λ cause. cause ≡ Stop.Write) }
{
    print_line(writer, stop_line(stop))
}
