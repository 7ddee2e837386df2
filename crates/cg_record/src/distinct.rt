//! Lists in which no key comes twice.
ghost use Rattle.std.specs.Prelude.{◌≡◌, ◌↔◌, [], length, IsTrue, MatchResult};
ghost use Rattle.std.specs.List.{list_any, IsDistinct};
ghost use Rattle.cg_record.specs.Distinct.{AreDistinct};

use std::alloc::Global;
use std::marker::Model;

/// A value with a key, as an entry of a commit has a partition.
pub trait Keyed {
    ghost use Rattle.std.specs.Prelude.{◌≡◌, Bool};

    ghost shares: { Self → Self → Bool };

    /// Returns whether both values have the same key. No allocation.
    fn shares_key(&self, other: &Self) -> bool
        ensures { result ≡ shares self.now other.now };
}

/// `LEAST` to `MOST` values in their order, all with different keys. Contracts see the list.
#[derive(Debug, Drop)]
pub struct Distinct<T: Keyed, const LEAST: usize, const MOST: usize> {
    items: Vec<T>,
}

impl<T: Keyed, const LEAST: usize, const MOST: usize> Model for Distinct<T, LEAST, MOST> {
    ghost use Rattle.std.specs.Prelude.{List};
    ghost use Rattle.cg_record.specs.Distinct.{AreDistinct};

    ghost Value = { List T };

    ghost view = { λ d. d.items.items };

    ghost invariant = { λ d. AreDistinct T.shares LEAST MOST d.items.items };
}

fn is_among<T: Keyed>(value: &T, others: &[T]) -> bool
    ensures { result ≡ list_any (T.shares value.now) others.now }
{
    others.iter().any(|other| value.shares_key(other))
}

/// Returns whether no two values have the same key. Quadratic in the values, no allocation.
pub fn are_distinct<T: Keyed>(values: &[T]) -> bool
    ensures { IsTrue result ↔ IsDistinct T.shares values.now }
{
    match values {
        [] => true,
        [first, others @ ..] => !is_among(first, others) && are_distinct(others),
    }
}

impl<T: Keyed, const LEAST: usize, const MOST: usize> Distinct<T, LEAST, MOST> {
    /// Wraps the values without a copy. Returns the vector unchanged if it has fewer than `LEAST`, more than `MOST`, or a
    /// key twice. Compares each value with each other one.
    pub fn from_vec(items: Vec<T>) -> Result<Self, Vec<T>>
        ensures cases { MatchResult result
            (λ distinct. AreDistinct T.shares LEAST MOST items.items × (distinct ≡ items.items))
            (λ back. (¬ AreDistinct T.shares LEAST MOST items.items) × (back ≡ items)) }
    {
        if LEAST <= items.len() && items.len() <= MOST && are_distinct(items.as_slice()) {
            Ok(Distinct { items })
        } else {
            Err(items)
        }
    }

    /// Wraps values that the caller knows to be lawful, in constant time.
    pub fn from_lawful(items: Vec<T>) -> Self
        requires { AreDistinct T.shares LEAST MOST items.items }
        ensures { result ≡ items.items }
    {
        Distinct { items }
    }

    /// Returns the values in their order.
    pub fn as_slice(&self) -> &[T]
        ensures value { result.now ≡ self.now }
        ensures lawful { AreDistinct T.shares LEAST MOST self.now }
    {
        self.items.as_slice()
    }

    /// Returns the values in their order, without a copy.
    pub fn into_vec(self) -> Vec<T>
        ensures { result.items ≡ self }
    {
        let Distinct { items } = self;
        items
    }

    /// Returns the number of values.
    pub fn len(&self) -> usize
        ensures value { result ≡ length self.now }
        ensures lawful { AreDistinct T.shares LEAST MOST self.now }
    {
        self.items.len()
    }
}

impl<T: Keyed, const MOST: usize> Distinct<T, 0, MOST> {
    /// Creates an empty list, without an allocation.
    #[tactic(auto, using(crate::proofs::Keys::nil_is_distinct))]
    pub fn none(alloc: Global) -> Self
        ensures { result ≡ [] }
    {
        let items = Vec::new(alloc);
        Distinct { items }
    }
}
