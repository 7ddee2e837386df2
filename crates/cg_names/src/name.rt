//! The names of groups, members, instances and protocols.
ghost use Rattle.std.specs.Prelude.{◌≡◌, ℕ, List, IfOk, IfErr, Some, length, string_bytes};
ghost use Rattle.std.specs.List.{list_all};
ghost use Rattle.cg_names.specs.Grammar.{IsName, fault_of, told, is_name_byte, is_dash};

use crate::NameFault;
use std::alloc::{AllocError, Global};
use std::marker::Model;
use std::{fmt, str};

mod order;

/// Maximum length of a name, in bytes.
pub const NAME_BYTES_MAX: usize = 100;

/// Maximum length of a member id, in bytes: a name, a dash and the 36 characters of a UUID.
pub const MEMBER_ID_BYTES_MAX: usize = 137;

/// A name of 1 to `MAX` bytes. Names with a different `SORT` have different types, so that one is never used for
/// another. Contracts see the bytes.
#[derive(Drop)]
pub struct Name<const MAX: usize, const SORT: u8> {
    // Std compares texts many bytes at a time, and slices of bytes one at a time.
    text: String,
}

impl<const MAX: usize, const SORT: u8> Model for Name<MAX, SORT> {
    ghost Value = { List ℕ };

    ghost view = { λ n. string_bytes n.text };

    ghost invariant = { λ n. IsName MAX (string_bytes n.text) };
}

/// The id of a consumer group.
pub type GroupId = Name<NAME_BYTES_MAX, 0>;

/// The id of a member, which the coordinator draws.
pub type MemberId = Name<MEMBER_ID_BYTES_MAX, 1>;

/// The id that a static member gives itself (KIP-345, `group.instance.id`).
pub type InstanceId = Name<NAME_BYTES_MAX, 2>;

/// The name of an assignment protocol, or the protocol type of a group.
pub type ProtocolName = Name<NAME_BYTES_MAX, 5>;

fn has_name_bytes_alone(bytes: &[u8]) -> bool
    ensures { result ≡ list_all is_name_byte bytes.now }
{
    bytes.iter().all(|b| is_name_byte(*b))
}

fn is_name_byte(b: u8) -> bool
    ensures { result ≡ is_name_byte b }
{
    b.is_ascii_alphabetic() || b.is_ascii_digit() || b == b'.' || b == b'_' || b == b'-'
}

fn is_dash(bytes: &[u8]) -> bool
    ensures { result ≡ is_dash bytes.now }
{
    match bytes {
        [b] => *b == b'-',
        _ => false,
    }
}

impl<const MAX: usize, const SORT: u8> Name<MAX, SORT> {
    /// Returns the first fault of the bytes as a name of this type, if they have one. Never `Memory`. Linear in the
    /// bytes, no allocation.
    #[tactic(auto, unfolding(crate::specs::Grammar::fault_of))]
    pub fn fault(bytes: &[u8]) -> Option<NameFault>
        ensures { result ≡ fault_of MAX bytes.now }
    {
        if bytes.is_empty() {
            return Some(NameFault::Empty);
        }
        if bytes.len() > MAX {
            return Some(NameFault::TooLong);
        }
        if !has_name_bytes_alone(bytes) {
            return Some(NameFault::BadByte);
        }
        if is_dash(bytes) {
            Some(NameFault::Reserved)
        } else {
            None
        }
    }

    /// Checks the bytes and copies them.
    #[tactic(auto, using(crate::proofs::Names::told_fault))]
    pub fn from_bytes(alloc: Global, bytes: &[u8]) -> Result<Self, NameFault>
        ensures ok { IfOk result (λ name. (name ≡ bytes.now) × IsName MAX bytes.now) }
        ensures err { IfErr result (λ fault. fault_of MAX bytes.now ≡ told fault) }
    {
        if let Some(fault) = Self::fault(bytes) {
            return Err(fault);
        }
        let name = Self::from_lawful(alloc, bytes).map_err(|_| NameFault::Memory)?;
        Ok(name)
    }

    /// Copies bytes that are known to be a name of this type. Costs a check for UTF-8, linear in the bytes.
    #[tactic(auto, using(crate::proofs::Names::text_from_name))]
    pub fn from_lawful(alloc: Global, bytes: &[u8]) -> Result<Self, AllocError>
        requires { IsName MAX bytes.now }
        ensures { IfOk result (λ name. name ≡ bytes.now) }
    {
        // The precondition makes the `unwrap` safe.
        let text = str::from_utf8(bytes).unwrap();
        let text = String::from_str(alloc, text)?;
        Ok(Name { text })
    }

    /// Checks the text and copies it.
    pub fn parse(alloc: Global, text: &str) -> Result<Self, NameFault>
        ensures ok { IfOk result (λ name. (name ≡ text.now) × IsName MAX text.now) }
        ensures err { IfErr result (λ fault. fault_of MAX text.now ≡ told fault) }
    {
        Self::from_bytes(alloc, text.as_bytes())
    }

    /// Returns the bytes of the name: 1 to `MAX` ASCII characters.
    pub fn as_bytes(&self) -> &[u8]
        ensures value { result.now ≡ self.now }
        ensures name { IsName MAX self.now }
    {
        self.text.as_bytes()
    }

    /// Returns the name as a string.
    pub fn as_str(&self) -> &str
        ensures value { result.now ≡ self.now }
        ensures name { IsName MAX self.now }
    {
        self.text.as_str()
    }

    /// Returns the number of bytes.
    pub fn len(&self) -> usize
        ensures { result ≡ length self.now }
    {
        self.as_bytes().len()
    }
}

impl<const MAX: usize, const SORT: u8> Clone for Name<MAX, SORT> {
    ghost is_clone = { λ name copy. copy ≡ name };

    fn clone(&self) -> Result<Self, AllocError> {
        let text = self.text.clone()?;
        Ok(Name { text })
    }
}

impl<const MAX: usize, const SORT: u8> fmt::Debug for Name<MAX, SORT> {
    fn fmt<W: fmt::Write>(&self, f: &mut fmt::Formatter<W>) -> fmt::Result {
        f.write_str(self.as_str())
    }
}

impl<const MAX: usize, const SORT: u8> fmt::Display for Name<MAX, SORT> {
    ghost output = { λ name. Some name };

    fn fmt<W: fmt::Write>(&self, f: &mut fmt::Formatter<W>) -> fmt::Result {
        f.write_str(self.as_str())
    }
}
