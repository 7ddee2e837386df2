//! Opaque bytes of clients: subscriptions and assignments.
ghost use Rattle.std.specs.Prelude.{◌≡◌, ℕ, ◌<◌, ◌≤◌, List, [], length, nat_eq, IfOk, MatchResult};
ghost use Rattle.std.specs.Cmp.Lexicographic.{pointwise, nat_list_eq_equiv};
ghost use Rattle.std.specs.Cmp.{partial_equiv_from_equiv};

use std::alloc::{AllocError, Global};
use std::marker::Model;

/// Maximum size of a member's subscription for one protocol, in bytes.
pub const SUBSCRIPTION_BYTES_MAX: usize = 1_024;

/// Maximum size of a member's assignment, in bytes.
pub const ASSIGNMENT_BYTES_MAX: usize = 4_096;

/// At most `MAX` bytes that only clients read. Bytes with a different `SORT` have a different type. Contracts see a
/// list.
#[derive(Debug, Drop)]
pub struct Opaque<const MAX: usize, const SORT: u8> {
    bytes: Vec<u8>,
}

/// Subscription of a member, in the encoding of its protocol.
pub type Subscription = Opaque<SUBSCRIPTION_BYTES_MAX, 0>;

/// Assignment of a member, from the leader.
pub type Assignment = Opaque<ASSIGNMENT_BYTES_MAX, 1>;

impl<const MAX: usize, const SORT: u8> Model for Opaque<MAX, SORT> {
    ghost Value = { List ℕ };

    ghost view = { λ o. o.bytes.items };

    ghost invariant = { λ o. length o.bytes.items ≤ MAX };
}

impl<const MAX: usize, const SORT: u8> Opaque<MAX, SORT> {
    /// Creates an empty value, without an allocation.
    pub fn empty(alloc: Global) -> Self
        ensures { result ≡ [] }
    {
        Opaque {
            bytes: Vec::new(alloc),
        }
    }

    /// Wraps the bytes without a copy. Returns them unchanged if they are too long.
    pub fn from_vec(bytes: Vec<u8>) -> Result<Self, Vec<u8>>
        ensures cases { MatchResult result
            (λ opaque. (length bytes.items ≤ MAX) × (opaque ≡ bytes.items))
            (λ back. (MAX < length bytes.items) × (back ≡ bytes)) }
    {
        if bytes.len() <= MAX {
            Ok(Opaque { bytes })
        } else {
            Err(bytes)
        }
    }

    /// Copies the bytes.
    pub fn from_bytes(alloc: Global, bytes: &[u8]) -> Result<Self, AllocError>
        requires { length bytes.now ≤ MAX }
        ensures { IfOk result (λ copy. copy ≡ bytes.now) }
    {
        Ok(Opaque {
            bytes: Vec::from_slice(alloc, bytes)?,
        })
    }

    /// Returns the bytes.
    pub fn as_bytes(&self) -> &[u8]
        ensures bytes { result.now ≡ self.now }
        ensures in_range { length self.now ≤ MAX }
    {
        self.bytes.as_slice()
    }
}

impl<const MAX: usize, const SORT: u8> Clone for Opaque<MAX, SORT> {
    ghost is_clone = { λ opaque copy. copy ≡ opaque };

    fn clone(&self) -> Result<Self, AllocError> {
        let bytes = self.bytes.clone()?;
        Ok(Opaque { bytes })
    }
}

impl<const MAX: usize, const SORT: u8> PartialEq for Opaque<MAX, SORT> {
    ghost eq = { pointwise nat_eq };

    ghost laws = { partial_equiv_from_equiv nat_list_eq_equiv };

    fn eq(&self, other: &Self) -> bool {
        self.as_bytes() == other.as_bytes()
    }
}

impl<const MAX: usize, const SORT: u8> Eq for Opaque<MAX, SORT> {
    ghost laws = { nat_list_eq_equiv };
}
