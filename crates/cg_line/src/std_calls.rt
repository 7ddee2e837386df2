//! What calls on a reader and a writer of std do to their bytes.
ghost use Rattle.std.specs.Prelude.{List, [], Ok};
ghost use Rattle.std.specs.Io.KnownBytes.{Appends, Consumes, IsAtEnd};
ghost use Rattle.cg_line.specs.declared.std_transport.StdTransport.{StdTransport};
ghost use Rattle.cg_line.specs.Calls.{EndedBy, Made, Reads, TransportCall, bytes_read, bytes_written};

use crate::std_transport::StdTransport;
use crate::transport::Transport;
use std::io::{Read, Write};

/// States that calls on a reader and a writer of std take the bytes that they read from those that the reader has left, and
/// append the bytes that they wrote to those that the writer holds, where these are known; and that nothing is left where
/// the last call is a read that gave no bytes.
pub fn std_calls_move_known_bytes<R: Read, W: Write>()
    ensures read { (before after : StdTransport R W) (calls : List TransportCall) → Made ⟦<StdTransport<R, W> as Transport>⟧.does before calls after
        → Consumes (R.remaining before.reader) (R.remaining after.reader) (bytes_read calls) }
    ensures written { (before after : StdTransport R W) (calls : List TransportCall) → Made ⟦<StdTransport<R, W> as Transport>⟧.does before calls after
        → Appends (W.contents before.writer) (W.contents after.writer) (bytes_written calls) }
    ensures end { (before after : StdTransport R W) (calls : List TransportCall) → Made ⟦<StdTransport<R, W> as Transport>⟧.does before calls after
        → EndedBy (Reads (Ok [])) calls → IsAtEnd (R.remaining after.reader) }
{}
