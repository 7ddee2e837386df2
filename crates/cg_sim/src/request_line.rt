//! Request lines in a script.
ghost use Rattle.std.specs.Prelude.{◌≡◌, List, ℕ};

use std::marker::Model;

/// Request part of a script line, not parsed yet. Contracts see its bytes.
#[derive(Drop)]
pub struct RequestLine<'a> {
    bytes: &'a [u8],
}

impl<'a> Model for RequestLine<'a> {
    ghost Value = { List ℕ };

    ghost view = { λ l. l.bytes.now };
}

impl<'a> RequestLine<'a> {
    pub fn new(bytes: &'a [u8]) -> Self
        ensures { result ≡ bytes.now }
    {
        RequestLine { bytes }
    }

    pub fn as_bytes(&self) -> &'a [u8]
        ensures { result.now ≡ self.now }
    {
        self.bytes
    }
}
