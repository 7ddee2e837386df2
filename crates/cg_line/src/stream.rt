//! Serving a stream of lines.
ghost use Rattle.std.specs.Prelude.{◌≡◌, ◌≤◌, ℕ, List, ◌++◌, []};
ghost use Rattle.cg_line.specs.Calls.{Made, TransportCall, reads_in};
ghost use Rattle.cg_line.specs.Running.{IsRun};
ghost use Rattle.cg_line.specs.Stream.{Far, Goes, IsRefused, Stopped};

use crate::backend::Backend;
use crate::stream_end::{RunEnd, RunFault};
use crate::transport::Transport;
use std::alloc::Global;

mod asked_line;
mod begun;
mod line_reply;
mod reader;
mod stop;
mod writer;

pub use asked_line::{Asked, Refusal};
pub use begun::{BegunLine, TooLong};
use line_reply::reply;
use reader::read;
use stop::Stop;
use writer::{flush, put};

/// Greatest number of reads of a run, interrupted reads included.
pub const READS_MAX: u64 = 4_294_967_296;

/// Bytes that a read asks for.
const BUFFER_BYTES: usize = 8_192;

// Serves the lines that end within `bytes`, and keeps the rest as the beginning of the next line.
fn serve_bytes<T: Transport, B: Backend>(
    alloc: Global,
    begun: &mut BegunLine,
    bytes: &[u8],
    text: &mut Vec<u8>,
    transport: &mut T,
    backend: &mut B,
) -> Result<(), Stop>
    ensures { (calls : List TransportCall) → (before : B) → Far B.gives calls before backend.old bytes.now begun.old
        → (more : List TransportCall) × Made T.does transport.old more transport.new × (reads_in more ≡ 0)
        × Goes B.gives result (calls ++ more) before backend.new [] begun.new }
{
    let mut rest = bytes;
    while let Some((asked, behind)) = begun.next(alloc, rest)? {
        reply(asked, text, transport, backend)?;
        rest = behind;
    }
    Ok(())
}

// Serves lines until the stream ends, a line is too long, or a fault occurs.
fn serve_stream<T: Transport, B: Backend>(
    alloc: Global,
    transport: &mut T,
    backend: &mut B,
) -> Result<(), Stop>
    ensures { (calls : List TransportCall) × Made T.does transport.old calls transport.new × (reads_in calls ≤ READS_MAX)
        × Stopped B.gives result calls backend.old backend.new }
{
    let mut room = vec![in alloc; 0; BUFFER_BYTES]?;
    let buffer = room.as_mut_slice();
    let mut begun = BegunLine::new(alloc);
    let mut text = Vec::new(alloc);
    for _ in 0..READS_MAX {
        flush(transport)?;
        let Some(count) = read(transport, buffer)? else {
            continue;
        };
        if count == 0 {
            return Ok(());
        }
        serve_bytes(
            alloc,
            &mut begun,
            &buffer[..count],
            &mut text,
            transport,
            backend,
        )?;
    }
    Err(Stop::Fault(RunFault::Read))
}

fn refuse_too_long<T: Transport>(transport: &mut T) -> Result<(), RunFault>
    ensures { (calls : List TransportCall) × Made T.does transport.old calls transport.new × IsRefused calls result }
{
    put(transport, Refusal::Malformed.line())?;
    flush(transport)?;
    Ok(())
}

/// Serves a stream of request lines. Each line gets one reply line, in order, and the transport is flushed before each
/// read. A malformed line gets `ERR 42 INVALID_REQUEST`, and a line for which an allocation fails `ERR -1
/// UNKNOWN_SERVER_ERROR`. A line of more than `LINE_BYTES_MAX` bytes, with or without its line feed, gets `ERR 42
/// INVALID_REQUEST` and ends the run. A shorter last line without its line feed is dropped. Interrupted reads and writes
/// are made again. Keeps at most `LINE_BYTES_MAX` bytes of a line, makes at most `READS_MAX` reads, and at most 2^32
/// writes for one reply. Besides the backend, each line costs time linear in its length. Over a reader and a writer of
/// std, `std_calls_move_known_bytes` says what the calls do to their bytes.
pub fn run<T: Transport, B: Backend>(
    alloc: Global,
    transport: &mut T,
    backend: &mut B,
) -> Result<RunEnd, RunFault>
    ensures calls { (calls : List TransportCall) × Made T.does transport.old calls transport.new × IsRun B.gives result calls backend.old backend.new }
{
    match serve_stream(alloc, transport, backend) {
        Ok(()) => Ok(RunEnd::End),
        Err(Stop::TooLong) => {
            refuse_too_long(transport)?;
            Ok(RunEnd::TooLong)
        }
        Err(Stop::Fault(fault)) => Err(fault),
    }
}
