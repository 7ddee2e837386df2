//! Reading the stream.
ghost use Rattle.std.specs.Prelude.{ℕ, ◌<◌, ◌≤◌, List, Result, length, IfOk, IfSome};
ghost use Rattle.cg_line.specs.declared.transport_fault.TransportFault.{TransportFault};
ghost use Rattle.cg_line.specs.Calls.{Reads};
ghost use Rattle.cg_line.specs.Stream.{Gives};

use crate::stream_end::RunFault;
use crate::transport::Transport;
use crate::transport_fault::TransportFault;

/// Reads bytes into the buffer. Returns how many: 0 at the end of the stream, and `None` if the read was interrupted.
pub fn read<T: Transport>(transport: &mut T, buffer: &mut [u8]) -> Result<Option<usize>, RunFault>
    requires { 0 < length buffer.old }
    ensures call { (got : Result (List ℕ) TransportFault) × T.does transport.old (Reads got) transport.new × Gives got buffer.new result }
    ensures within { IfOk result (λ count. IfSome count (λ n. n ≤ length buffer.new)) }
{
    match transport.read(buffer) {
        Ok(count) => Ok(Some(count)),
        Err(TransportFault::Interrupted) => Ok(None),
        Err(TransportFault::Failed) => Err(RunFault::Read),
    }
}
