//! The transport of a reader and a writer of std.
ghost use Rattle.std.specs.Prelude.{◌≡◌, ◌↔◌};
ghost use Rattle.std.specs.IoError.{error_kind};

use crate::transport::Transport;
use crate::transport_fault::TransportFault;
use std::io::{Error, ErrorKind, Read, Write};

/// Reader and writer of std as one transport, so that their calls have one order.
#[derive(Drop)]
pub struct StdTransport<R, W> {
    /// The requests are read from it.
    pub reader: R,
    /// The replies are written to it.
    pub writer: W,
}

fn transport_fault(error: Error) -> TransportFault
    ensures interrupted { (result ≡ TransportFault.Interrupted) ↔ (error_kind error ≡ ErrorKind.Interrupted) }
{
    match error.kind() {
        ErrorKind::Interrupted => TransportFault::Interrupted,
        _ => TransportFault::Failed,
    }
}

impl<R: Read, W: Write> Transport for StdTransport<R, W> {
    ghost use Rattle.cg_line.specs.StdCalls.{StdCall};

    ghost does = { λ before call after. StdCall call (R.remaining before.reader) (R.remaining after.reader) (W.contents before.writer) (W.contents after.writer) };

    fn read(&mut self, buffer: &mut [u8]) -> Result<usize, TransportFault> {
        self.reader.read(buffer).map_err(transport_fault)
    }

    fn write(&mut self, bytes: &[u8]) -> Result<usize, TransportFault> {
        self.writer.write(bytes).map_err(transport_fault)
    }

    fn flush(&mut self) -> Result<(), TransportFault> {
        self.writer.flush().map_err(transport_fault)
    }
}
