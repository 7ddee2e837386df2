//! The line protocol (docs/PROTOCOL.md): parses request lines, prints reply lines, and serves a stream of lines over
//! any transport and backend. Requests and replies are those of `cg_group`.
#![tactic(auto)]

mod backend;
pub mod decimal;
mod line_fault;
mod parser;
mod printer;
mod std_calls;
mod std_transport;
mod stream;
mod stream_end;
mod transport;
mod transport_fault;
mod words;

pub use backend::Backend;
pub use line_fault::LineFault;
pub use parser::{bytes_in, is_opaque, parse};
pub use printer::{print, print_into, put_reply};
pub use std_calls::std_calls_move_known_bytes;
pub use std_transport::StdTransport;
pub use stream::{Asked, BegunLine, READS_MAX, Refusal, TooLong, run};
pub use stream_end::{RunEnd, RunFault};
pub use transport::Transport;
pub use transport_fault::TransportFault;
pub use words::LINE_BYTES_MAX;
