//! Names that are mostly short and stored many times: those of clients and topics.
ghost use Rattle.std.specs.Prelude.{◌≡◌, ℕ, ◌<◌, List, IfOk, IfErr, IsErrOf, OnErr, Some, length, nat_eq, refl};
ghost use Rattle.std.specs.Ordering.{nat_cmp};
ghost use Rattle.std.specs.Cmp.Lexicographic.{pointwise, slice_cmp, nat_list_eq_equiv, nat_list_cmp_total, texts_ties, texts_po};
ghost use Rattle.std.specs.Cmp.{partial_equiv_from_equiv};
ghost use Rattle.cg_names.specs.Grammar.{IsName, fault_of, told};

use crate::name::{NAME_BYTES_MAX, Name};
use crate::{NameFault, SmallBytes};
use std::alloc::{AllocError, Global};
use std::cmp::Ordering;
use std::marker::Model;
use std::{fmt, str};

/// Bytes of a short name that are stored without an allocation: with them it takes 32 bytes.
pub const SHORT_NAME_ROOM: usize = 30;

/// A name of 1 to `NAME_BYTES_MAX` bytes, of which up to `SHORT_NAME_ROOM` are stored without an allocation. Names with a
/// different `SORT` have different types. Contracts see the bytes.
#[derive(Drop)]
pub struct ShortName<const SORT: u8> {
    bytes: SmallBytes<SHORT_NAME_ROOM>,
}

impl<const SORT: u8> Model for ShortName<SORT> {
    ghost use Rattle.std.specs.Prelude.{ℕ, List};
    ghost use Rattle.cg_names.specs.Grammar.{IsName};
    ghost use Rattle.cg_names.specs.declared.name.TheConstants.{NAME_BYTES_MAX};

    ghost Value = { List ℕ };

    ghost view = { λ n. n.bytes };

    ghost invariant = { λ n. IsName NAME_BYTES_MAX n.bytes };
}

/// The id that a client gives itself.
pub type ClientId = ShortName<3>;

/// The name of a topic.
pub type Topic = ShortName<4>;

impl<const SORT: u8> ShortName<SORT> {
    /// Checks the bytes and copies them. The first fault of the bytes is reported, and `Memory` only if they have none.
    #[tactic(auto, using(crate::proofs::Names::told_fault))]
    pub fn from_bytes(alloc: Global, bytes: &[u8]) -> Result<Self, NameFault>
        ensures ok { IfOk result (λ name. (name ≡ bytes.now) × IsName NAME_BYTES_MAX bytes.now) }
        ensures err { IfErr result (λ fault. fault_of NAME_BYTES_MAX bytes.now ≡ told fault) }
        ensures memory { IsErrOf result NameFault.Memory → SHORT_NAME_ROOM < length bytes.now }
    {
        if let Some(fault) = Name::<NAME_BYTES_MAX, SORT>::fault(bytes) {
            return Err(fault);
        }
        let name = Self::from_lawful(alloc, bytes).map_err(|_| NameFault::Memory)?;
        Ok(name)
    }

    /// Copies bytes that are known to be a name of this type. Allocates only if there are more than `SHORT_NAME_ROOM`.
    pub fn from_lawful(alloc: Global, bytes: &[u8]) -> Result<Self, AllocError>
        requires { IsName NAME_BYTES_MAX bytes.now }
        ensures ok { IfOk result (λ name. name ≡ bytes.now) }
        ensures err { OnErr result (SHORT_NAME_ROOM < length bytes.now) }
    {
        let bytes = SmallBytes::from_slice(alloc, bytes)?;
        Ok(ShortName { bytes })
    }

    /// Checks the text and copies it.
    pub fn parse(alloc: Global, text: &str) -> Result<Self, NameFault>
        ensures ok { IfOk result (λ name. (name ≡ text.now) × IsName NAME_BYTES_MAX text.now) }
        ensures err { IfErr result (λ fault. fault_of NAME_BYTES_MAX text.now ≡ told fault) }
        ensures memory { IsErrOf result NameFault.Memory → SHORT_NAME_ROOM < length text.now }
    {
        Self::from_bytes(alloc, text.as_bytes())
    }

    /// Returns the bytes of the name: 1 to `NAME_BYTES_MAX` ASCII characters.
    pub fn as_bytes(&self) -> &[u8]
        ensures value { result.now ≡ self.now }
        ensures name { IsName NAME_BYTES_MAX self.now }
    {
        self.bytes.as_slice()
    }

    /// Returns the name as a string.
    #[tactic(auto, using(crate::proofs::Names::text_from_name))]
    pub fn as_str(&self) -> &str
        ensures value { result.now ≡ self.now }
        ensures name { IsName NAME_BYTES_MAX self.now }
    {
        // That the bytes are UTF-8, which this call requires, is proved: a name is ASCII.
        unsafe { str::from_utf8_unchecked(self.as_bytes()) }
    }

    /// Returns the number of bytes.
    pub fn len(&self) -> usize
        ensures { result ≡ length self.now }
    {
        self.as_bytes().len()
    }
}

impl<const SORT: u8> Clone for ShortName<SORT> {
    ghost is_clone = { λ name copy. copy ≡ name };

    fn clone(&self) -> Result<Self, AllocError> {
        let bytes = self.bytes.clone()?;
        Ok(ShortName { bytes })
    }
}

impl<const SORT: u8> fmt::Debug for ShortName<SORT> {
    fn fmt<W: fmt::Write>(&self, f: &mut fmt::Formatter<W>) -> fmt::Result {
        f.write_str(self.as_str())
    }
}

impl<const SORT: u8> fmt::Display for ShortName<SORT> {
    ghost output = { λ name. Some name };

    fn fmt<W: fmt::Write>(&self, f: &mut fmt::Formatter<W>) -> fmt::Result {
        f.write_str(self.as_str())
    }
}

impl<const SORT: u8> PartialEq for ShortName<SORT> {
    ghost eq = { pointwise nat_eq };

    ghost laws = { partial_equiv_from_equiv nat_list_eq_equiv };

    fn eq(&self, other: &Self) -> bool {
        self.as_str() == other.as_str()
    }
}

impl<const SORT: u8> Eq for ShortName<SORT> {
    ghost laws = { nat_list_eq_equiv };
}

impl<const SORT: u8> PartialOrd for ShortName<SORT> {
    ghost partial_cmp = { λ x y. Some (slice_cmp nat_cmp x y) };

    ghost laws = { texts_po };

    fn partial_cmp(&self, other: &Self) -> Option<Ordering> {
        Some(self.cmp(other))
    }
}

impl<const SORT: u8> Ord for ShortName<SORT> {
    ghost cmp = { slice_cmp nat_cmp };

    ghost total = { nat_list_cmp_total };

    ghost matches_partial_cmp = { λ x y. refl };

    ghost matches_eq = { texts_ties };

    fn cmp(&self, other: &Self) -> Ordering {
        self.as_str().cmp(other.as_str())
    }
}
