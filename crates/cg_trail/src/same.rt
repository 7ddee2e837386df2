//! Equality of values as contracts see them.
ghost use Rattle.std.specs.Prelude.{◌≡◌, ◌↔◌, IsTrue};

use cg_group_state::Few;
use cg_names::{Code, Name, ShortName};
use cg_record::{Metadata, Opaque};
use cg_request::{Listed, Ticket};

/// A type whose values can be compared.
pub trait Same {
    /// Returns whether both values are the same. No allocation.
    fn is_same(&self, other: &Self) -> bool
        ensures { IsTrue result ↔ (self.now ≡ other.now) };
}

/// Returns whether both lists have the same values in the same order. No allocation.
pub fn are_same<T: Same>(a: &[T], b: &[T]) -> bool
    ensures { IsTrue result ↔ (a.now ≡ b.now) }
{
    let mut left = a;
    let mut right = b;
    while let [x, xs @ ..] = left {
        let [y, ys @ ..] = right else {
            return false;
        };
        if !x.is_same(y) {
            return false;
        }
        left = xs;
        right = ys;
    }
    right.is_empty()
}

impl<const MAX: usize, const SORT: u8> Same for Name<MAX, SORT> {
    fn is_same(&self, other: &Self) -> bool {
        self.as_bytes() == other.as_bytes()
    }
}

impl<const SORT: u8> Same for ShortName<SORT> {
    fn is_same(&self, other: &Self) -> bool {
        self.as_bytes() == other.as_bytes()
    }
}

impl<const MAX: usize, const SORT: u8> Same for Opaque<MAX, SORT> {
    fn is_same(&self, other: &Self) -> bool {
        self.as_bytes() == other.as_bytes()
    }
}

impl Same for Metadata {
    fn is_same(&self, other: &Self) -> bool {
        self.as_bytes() == other.as_bytes()
    }
}

impl Same for Ticket {
    fn is_same(&self, other: &Self) -> bool {
        self.session == other.session && self.number == other.number
    }
}

impl Same for Code {
    fn is_same(&self, other: &Self) -> bool {
        *self == *other
    }
}

impl<T: Same> Same for Option<T> {
    fn is_same(&self, other: &Self) -> bool {
        match (self, other) {
            (None, None) => true,
            (Some(a), Some(b)) => a.is_same(b),
            _ => false,
        }
    }
}

impl<T: Same> Same for Listed<T> {
    fn is_same(&self, other: &Self) -> bool {
        are_same(self.as_slice(), other.as_slice())
    }
}

impl<T: Same> Same for Few<T> {
    fn is_same(&self, other: &Self) -> bool {
        are_same(self.as_slice(), other.as_slice())
    }
}

impl<S: Same, T: Same> Same for (S, T) {
    fn is_same(&self, other: &Self) -> bool {
        self.0.is_same(&other.0) && self.1.is_same(&other.1)
    }
}
