//! Writing replies.
ghost use Rattle.std.specs.Prelude.{◌≡◌, ◌≤◌, true, List, Ok, length, take, IfOk, MatchResult};
ghost use Rattle.cg_line.specs.Calls.{Flushes, Made, TransportCall, fails_to_write, goes_on, is_write, written_by};
ghost use Rattle.cg_line.specs.Stream.{IsPut};

use crate::stream_end::RunFault;
use crate::transport::Transport;
use crate::transport_fault::TransportFault;

/// Greatest number of writes for one reply, interrupted writes included.
pub const WRITES_MAX: u64 = 4_294_967_296;

// Writes once. Returns how many bytes were written: 0 if the write was interrupted.
fn write_some<T: Transport>(transport: &mut T, bytes: &[u8]) -> Result<usize, RunFault>
    ensures call { (call : TransportCall) × T.does transport.old call transport.new × (is_write call ≡ true) × MatchResult result
        (λ count. (written_by call ≡ take count bytes.now) × (goes_on call ≡ true))
        (λ fault. (fault ≡ RunFault.Write) × (fails_to_write call ≡ true)) }
    ensures within { IfOk result (λ count. count ≤ length bytes.now) }
{
    match transport.write(bytes) {
        Ok(0) => Err(RunFault::Write),
        Ok(count) => Ok(count),
        Err(TransportFault::Interrupted) => Ok(0),
        Err(TransportFault::Failed) => Err(RunFault::Write),
    }
}

/// Writes all bytes. After an error, a prefix of them may have been written.
pub fn put<T: Transport>(transport: &mut T, bytes: &[u8]) -> Result<(), RunFault>
    ensures { (writes : List TransportCall) × Made T.does transport.old writes transport.new × IsPut bytes.now writes result }
{
    let mut rest = bytes;
    for _ in 0..WRITES_MAX {
        if rest.is_empty() {
            return Ok(());
        }
        let count = write_some(transport, rest)?;
        rest = &rest[count..];
    }
    Err(RunFault::Write)
}

/// Flushes the transport.
pub fn flush<T: Transport>(transport: &mut T) -> Result<(), RunFault>
    ensures { (call : TransportCall) × T.does transport.old call transport.new × MatchResult result (λ _. call ≡ Flushes (Ok tt))
        (λ fault. (fault ≡ RunFault.Write) × (fails_to_write call ≡ true)) }
{
    transport.flush().map_err(|_| RunFault::Write)
}
