//! The transport of a run: requests are read from it, and replies are written to it.
ghost use Rattle.std.specs.Prelude.{ℕ, ◌<◌, ◌≤◌, length, IfOk};
ghost use Rattle.cg_line.specs.Calls.{Flushes, Reads, TransportCall, Writes, given};

use crate::transport_fault::TransportFault;

/// Reader and writer of a stream of lines, as a socket is.
pub trait Transport {
    /// Relation of the transport before a call, the call with its outcome, and the transport after it.
    ghost does: { Self → TransportCall → Self → Type 0 };

    /// Reads bytes into the buffer. Returns how many: 0 at the end of the stream.
    fn read(&mut self, buffer: &mut [u8]) -> Result<usize, TransportFault>
        requires { 0 < length buffer.old }
        ensures call { does self.old (Reads (given result buffer.new)) self.new }
        ensures within { IfOk result (λ count. count ≤ length buffer.new) };

    /// Writes the first of the bytes. Returns how many.
    fn write(&mut self, bytes: &[u8]) -> Result<usize, TransportFault>
        ensures call { does self.old (Writes bytes.now result) self.new }
        ensures within { IfOk result (λ count. count ≤ length bytes.now) };

    /// Flushes what was written. An interrupted flush is a failure, as any other.
    fn flush(&mut self) -> Result<(), TransportFault>
        ensures call { does self.old (Flushes result) self.new };
}
