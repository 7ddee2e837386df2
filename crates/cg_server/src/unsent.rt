//! Replies that are not yet sent.
ghost use Rattle.std.specs.Prelude.{◌≡◌, ◌+◌, ◌≤◌, vec_len, drop};
ghost use Rattle.cg_server.specs.Unsent.{SendsFirstOf};

use cg_group::Reply;
use cg_line::{Refusal, put_reply};
use std::alloc::{AllocError, Global};
use std::io::{self, ErrorKind, Write};

/// Bytes of replies from which on no line is served before some were sent.
const UNSENT_MAX: usize = 65_536;

/// Greatest room that is kept for the next replies, in bytes. A larger one is given back.
const KEPT_MAX: usize = 2 * UNSENT_MAX;

/// The replies of one connection that are not yet sent. The lines of one read are answered by few writes.
///
/// What was sent of them stays until it is at least as much as what is left. So a client that reads a long reply in small pieces
/// costs a constant number of moves for each byte.
#[derive(Drop)]
pub struct Unsent {
    alloc: Global,
    bytes: Vec<u8>,
    /// How many of the bytes were sent.
    sent: usize,
    ghost within: { sent ≤ vec_len bytes },
}

impl Unsent {
    /// Creates an empty list of replies.
    pub fn new(alloc: Global) -> Unsent {
        Unsent {
            alloc,
            bytes: Vec::new(alloc),
            sent: 0,
        }
    }

    // Returns the number of bytes that are not yet sent.
    fn left(&self) -> usize
        ensures { self.now.sent + result ≡ vec_len self.now.bytes }
    {
        self.bytes.len() - self.sent
    }

    /// Returns whether every reply was sent.
    pub fn is_empty(&self) -> bool {
        self.left() == 0
    }

    /// Returns whether so much is unsent that no line is to be served.
    pub fn is_full(&self) -> bool {
        self.left() >= UNSENT_MAX
    }

    /// Adds the line of a reply, or of -1 if there is no memory for it.
    pub fn add(&mut self, reply: &Reply) -> Result<(), AllocError> {
        match put_reply(reply, &mut self.bytes) {
            Ok(()) => Ok(()),
            Err(_) => self.add_refusal(Refusal::Memory),
        }
    }

    // Adds the line of a refusal.
    fn add_refusal(&mut self, refusal: Refusal) -> Result<(), AllocError> {
        self.bytes.extend_from_slice(refusal.line())
    }

    // Gives the room of what was sent back for the next replies, once it is at least as much as what is left.
    fn give_back(&mut self)
        ensures { drop self.new.sent self.new.bytes.items ≡ drop self.old.sent self.old.bytes.items }
    {
        let left = self.left();
        if self.sent < left {
            return;
        }
        self.bytes.as_mut_slice().copy_within(self.sent.., 0);
        self.bytes.truncate(left);
        self.sent = 0;
        if left == 0 && self.bytes.capacity() > KEPT_MAX {
            self.bytes = Vec::new(self.alloc);
        }
    }

    // Counts bytes that were sent, and gives their room back for the next replies.
    fn remove(&mut self, count: usize)
        ensures { drop self.new.sent self.new.bytes.items ≡ drop count (drop self.old.sent self.old.bytes.items) }
    {
        self.sent += count.min(self.left());
        self.give_back();
    }

    /// Sends as much as the stream takes now: the first of the bytes that are to be sent. The others are left.
    pub fn send<W: Write>(&mut self, stream: &mut W) -> io::Result<()>
        ensures sends { SendsFirstOf (drop self.old.sent self.old.bytes.items) (drop self.new.sent self.new.bytes.items) (W.contents stream.old) (W.contents stream.new) }
    {
        if self.is_empty() {
            return Ok(());
        }
        match stream.write(&self.bytes.as_slice()[self.sent..]) {
            Ok(count) => {
                self.remove(count);
                Ok(())
            }
            Err(error) => match error.kind() {
                ErrorKind::WouldBlock | ErrorKind::Interrupted => Ok(()),
                _ => Err(error),
            },
        }
    }
}
