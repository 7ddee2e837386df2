//! The metadata of a committed offset.
ghost use Rattle.std.specs.Prelude.{◌≡◌, ℕ, ◌<◌, ◌≤◌, List, length, IfOk, MatchResult, OnErr};
ghost use Rattle.cg_record.specs.declared.metadata.TheConstants.{METADATA_BYTES_MAX, METADATA_ROOM};

use cg_names::SmallBytes;
use std::alloc::{AllocError, Global};
use std::marker::Model;

/// Maximum size of the metadata of one committed offset, in bytes.
pub const METADATA_BYTES_MAX: usize = 4_096;

/// Bytes of metadata that are stored without an allocation.
pub const METADATA_ROOM: usize = 30;

// Memory of this many bytes or fewer is used again for any metadata that fit it.
const SMALL_BYTES: usize = 64;

// Returns whether memory of this capacity is large enough for these bytes, and less than half of it would be wasted.
fn is_fit(capacity: usize, bytes: usize) -> bool {
    bytes <= capacity && (capacity <= SMALL_BYTES || capacity / 2 <= bytes)
}

// Overwrites a vector by other bytes.
fn rewritten(mut memory: Vec<u8>, bytes: &[u8]) -> Result<SmallBytes<METADATA_ROOM>, AllocError>
    ensures { IfOk result (λ after. after ≡ bytes.now) }
{
    memory.clear();
    memory.extend_from_slice(bytes)?;
    Ok(SmallBytes::from_vec(memory))
}

/// The metadata of a committed offset: bytes that only clients read. Contracts see a list.
#[derive(Debug, Drop)]
pub struct Metadata {
    bytes: SmallBytes<METADATA_ROOM>,
}

impl Model for Metadata {
    ghost Value = { List ℕ };

    ghost view = { λ m. m.bytes };

    ghost invariant = { λ m. length m.bytes ≤ METADATA_BYTES_MAX };
}

impl Metadata {
    /// Copies the bytes. Allocates only if there are more than `METADATA_ROOM`.
    pub fn from_bytes(alloc: Global, bytes: &[u8]) -> Result<Self, AllocError>
        requires { length bytes.now ≤ METADATA_BYTES_MAX }
        ensures ok { IfOk result (λ metadata. metadata ≡ bytes.now) }
        ensures err { OnErr result (METADATA_ROOM < length bytes.now) }
    {
        Ok(Metadata {
            bytes: SmallBytes::from_slice(alloc, bytes)?,
        })
    }

    /// Copies the bytes as `from_bytes` does, into the memory of the last of `room`, which is removed: metadata that are no
    /// longer needed. Allocates only if that memory is too small, or so large that much of it would be wasted.
    pub(crate) fn from_bytes_in(
        alloc: Global,
        room: &mut Vec<Metadata>,
        bytes: &[u8],
    ) -> Result<Self, AllocError>
        requires { length bytes.now ≤ METADATA_BYTES_MAX }
        ensures { IfOk result (λ metadata. metadata ≡ bytes.now) }
    {
        match room.pop() {
            Some(spent) => {
                let metadata = spent.refilled(alloc, bytes)?;
                Ok(metadata)
            }
            None => {
                let metadata = Metadata::from_bytes(alloc, bytes)?;
                Ok(metadata)
            }
        }
    }

    fn refilled(self, alloc: Global, bytes: &[u8]) -> Result<Self, AllocError>
        requires { length bytes.now ≤ METADATA_BYTES_MAX }
        ensures { IfOk result (λ metadata. metadata ≡ bytes.now) }
    {
        let Metadata { bytes: spent } = self;
        match spent.into_vec() {
            Some(memory) if METADATA_ROOM < bytes.len() && is_fit(memory.capacity(), bytes.len()) =>
                {
                    let bytes = rewritten(memory, bytes)?;
                    Ok(Metadata { bytes })
                }
            _ => {
                let metadata = Metadata::from_bytes(alloc, bytes)?;
                Ok(metadata)
            }
        }
    }

    /// Wraps the bytes, without an allocation. Returns them unchanged if they are too long.
    pub fn from_vec(bytes: Vec<u8>) -> Result<Self, Vec<u8>>
        ensures cases { MatchResult result
            (λ metadata. (length bytes.items ≤ METADATA_BYTES_MAX) × (metadata ≡ bytes.items))
            (λ back. (METADATA_BYTES_MAX < length bytes.items) × (back ≡ bytes)) }
    {
        if bytes.len() <= METADATA_BYTES_MAX {
            let bytes = SmallBytes::from_vec(bytes);
            Ok(Metadata { bytes })
        } else {
            Err(bytes)
        }
    }

    /// Returns the bytes.
    pub fn as_bytes(&self) -> &[u8]
        ensures bytes { result.now ≡ self.now }
        ensures in_range { length self.now ≤ METADATA_BYTES_MAX }
    {
        self.bytes.as_slice()
    }
}

impl Clone for Metadata {
    ghost is_clone = { λ metadata copy. copy ≡ metadata };

    fn clone(&self) -> Result<Self, AllocError> {
        Ok(Metadata {
            bytes: self.bytes.clone()?,
        })
    }
}
