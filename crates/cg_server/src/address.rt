//! The address to listen on, as a word of the command line.
ghost use Rattle.std.specs.Prelude.{◌≡◌};
ghost use Rattle.std.specs.Net.Socket.{socket_port};
ghost use Rattle.cg_server.specs.Address.{IsOnLoopback, port_of};

use cg_line::decimal;
use std::net::{Ipv4Addr, SocketAddr};

/// What an address begins with: the loopback address, on which alone the server listens.
pub const LOOPBACK: &[u8] = b"127.0.0.1:";

/// Greatest port.
pub const PORT_MAX: u64 = 65_535;

/// Port without `--listen`.
pub const PORT_DEFAULT: u16 = 9_192;

/// Returns the port of an address on loopback, or `None` if the text is no such address.
pub fn port_of(text: &[u8]) -> Option<u16>
    ensures { result ≡ port_of text.now }
{
    let digits = text.strip_prefix(LOOPBACK)?;
    let port = decimal::number(digits, PORT_MAX)?;
    Some(port as u16)
}

/// Returns the address on loopback with this port.
pub fn listen_address(port: u16) -> SocketAddr
    ensures loopback { IsOnLoopback result }
    ensures port { socket_port result ≡ port }
{
    SocketAddr::from((Ipv4Addr::LOCALHOST, port))
}
