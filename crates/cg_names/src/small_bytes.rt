//! Bytes that are stored in the value itself as long as they are few.
ghost use Rattle.std.specs.Prelude.{◌≡◌, ℕ, ◌<◌, ◌≤◌, List, length, take, IfOk, MatchOption, OnErr};
ghost use Rattle.cg_names.specs.Storage.{bytes_of, Fits};

use std::alloc::{AllocError, Global};
use std::fmt;
use std::marker::Model;

/// Where the bytes lie.
#[derive(Drop)]
enum Storage<const ROOM: usize> {
    /// That many of the bytes of the array, its first ones.
    Inline(u8, [u8; ROOM]),
    Heap(Vec<u8>),
}

/// Bytes: up to `ROOM` of them in the value itself, more in an allocation. `ROOM` is at most 255. Contracts see a list.
#[derive(Drop)]
pub struct SmallBytes<const ROOM: usize> {
    storage: Storage<ROOM>,
}

impl<const ROOM: usize> Model for SmallBytes<ROOM> {
    ghost use Rattle.std.specs.Prelude.{ℕ, List};
    ghost use Rattle.cg_names.specs.Storage.{bytes_of, Fits};

    ghost Value = { List ℕ };

    ghost view = { λ b. bytes_of b.storage };

    ghost invariant = { λ b. Fits b.storage };
}

// Copies the bytes to the front of an array.
fn filled<const ROOM: usize>(bytes: &[u8]) -> [u8; ROOM]
    requires { length bytes.now ≤ ROOM }
    ensures { take (length bytes.now) result ≡ bytes.now }
{
    let mut array = [0; ROOM];
    array[..bytes.len()].copy_from_slice(bytes);
    array
}

impl<const ROOM: usize> SmallBytes<ROOM> {
    /// Copies the bytes. Allocates only if there are more than `ROOM`.
    pub fn from_slice(alloc: Global, bytes: &[u8]) -> Result<Self, AllocError>
        ensures ok { IfOk result (λ copy. copy ≡ bytes.now) }
        ensures err { ROOM ≤ 255 → OnErr result (ROOM < length bytes.now) }
    {
        match u8::try_from(bytes.len()) {
            Ok(len) if bytes.len() <= ROOM => {
                let storage = Storage::Inline(len, filled(bytes));
                Ok(SmallBytes { storage })
            }
            _ => {
                let storage = Storage::Heap(Vec::from_slice(alloc, bytes)?);
                Ok(SmallBytes { storage })
            }
        }
    }

    /// Moves the bytes to the value itself if they are few, and keeps their allocation otherwise. No allocation.
    pub fn from_vec(bytes: Vec<u8>) -> Self
        ensures { result ≡ bytes.items }
    {
        match u8::try_from(bytes.len()) {
            Ok(len) if bytes.len() <= ROOM => {
                let storage = Storage::Inline(len, filled(bytes.as_slice()));
                SmallBytes { storage }
            }
            _ => SmallBytes {
                storage: Storage::Heap(bytes),
            },
        }
    }

    /// Returns the allocation of the bytes, if they have one: more than `ROOM` of them do.
    pub fn into_vec(self) -> Option<Vec<u8>>
        ensures { MatchOption result (length self.entry ≤ ROOM) (λ bytes. bytes.items ≡ self.entry) }
    {
        let SmallBytes { storage } = self;
        match storage {
            Storage::Inline(_len, _array) => None,
            Storage::Heap(bytes) => Some(bytes),
        }
    }

    /// Returns the bytes.
    pub fn as_slice(&self) -> &[u8]
        ensures { result.now ≡ self.now }
    {
        match &self.storage {
            Storage::Inline(len, bytes) => &bytes[..usize::from(*len)],
            Storage::Heap(bytes) => bytes.as_slice(),
        }
    }
}

impl<const ROOM: usize> Clone for SmallBytes<ROOM> {
    ghost is_clone = { λ bytes copy. copy ≡ bytes };

    fn clone(&self) -> Result<Self, AllocError> {
        let storage = match &self.storage {
            Storage::Inline(len, bytes) => Storage::Inline(*len, *bytes),
            Storage::Heap(bytes) => Storage::Heap(bytes.clone()?),
        };
        Ok(SmallBytes { storage })
    }
}

impl<const ROOM: usize> fmt::Debug for SmallBytes<ROOM> {
    fn fmt<W: fmt::Write>(&self, f: &mut fmt::Formatter<W>) -> fmt::Result {
        self.as_slice().fmt(f)
    }
}
