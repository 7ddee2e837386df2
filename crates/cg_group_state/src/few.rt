//! A list that stores a single value without an allocation.
ghost use Rattle.std.specs.Prelude.{◌≡◌, ◌≤◌, [], ◌∷◌, ◌++◌, length, OnOk, OnErr};
ghost use Rattle.cg_group_state.specs.Few.{AreFirst, items_of};

use std::alloc::{AllocError, Global};
use std::marker::Model;
use std::mem;

/// The storage of the list.
#[derive(Debug, Drop)]
pub enum Items<T> {
    /// A single value, without an allocation.
    One([T; 1]),
    Many(Vec<T>),
}

/// A list that mostly has at most one value. Contracts see the list.
#[derive(Debug, Drop)]
pub struct Few<T> {
    alloc: Global,
    items: Items<T>,
}

impl<T> Model for Few<T> {
    ghost use Rattle.std.specs.Prelude.{List};
    ghost use Rattle.cg_group_state.specs.Few.{items_of};

    ghost Value = { List T };

    ghost view = { λ f. items_of f.items };
}

impl<T> Few<T> {
    /// Creates an empty list, without an allocation.
    pub fn new(alloc: Global) -> Self
        ensures { result ≡ [] }
    {
        let items = Items::Many(Vec::new(alloc));
        Few { alloc, items }
    }

    /// Creates a list of one value, without an allocation.
    pub fn one(alloc: Global, value: T) -> Self
        ensures { result ≡ value ∷ [] }
    {
        let items = Items::One([value]);
        Few { alloc, items }
    }

    /// Returns the values in their order.
    pub fn as_slice(&self) -> &[T]
        ensures { result.now ≡ self.now }
    {
        match &self.items {
            Items::One(values) => values.as_slice(),
            Items::Many(values) => values.as_slice(),
        }
    }

    /// Returns the number of values.
    pub fn len(&self) -> usize
        ensures { result ≡ length self.now }
    {
        self.as_slice().len()
    }

    /// Returns the storage, without a copy.
    pub fn into_items(self) -> Items<T>
        ensures { items_of result ≡ self }
    {
        let Few { items, .. } = self;
        items
    }
}

impl<T: Drop> Few<T> {
    /// Appends a value. The first value takes no allocation. If an allocation fails, the list is unchanged.
    pub fn push(&mut self, value: T) -> Result<(), AllocError>
        ensures ok { OnOk result (self.new ≡ self.old ++ value ∷ []) }
        ensures err { OnErr result (self.new ≡ self.old) }
        ensures err_later { OnErr result (1 ≤ length self.old) }
    {
        if self.len() == 0 {
            self.items = Items::One([value]);
            return Ok(());
        }
        put_last(self.alloc, &mut self.items, value)?;
        Ok(())
    }

    /// Appends the values of another list. If an allocation fails, a prefix of them was appended.
    pub fn append(&mut self, other: Few<T>) -> Result<(), AllocError>
        ensures ok { OnOk result (self.new ≡ self.old ++ other) }
        ensures err { OnErr result (AreFirst self.new (self.old ++ other)) }
    {
        match other.into_items() {
            Items::One([value]) => {
                self.push(value)?;
            }
            Items::Many(values) => {
                for value in values {
                    self.push(value)?;
                }
            }
        }
        Ok(())
    }
}

// Moves a single value to a new vector first. The vector has its room before the value moves, so an allocation failure
// changes nothing.
fn put_last<T: Drop>(alloc: Global, items: &mut Items<T>, value: T) -> Result<(), AllocError>
    ensures ok { OnOk result (items_of items.new ≡ items_of items.old ++ value ∷ []) }
    ensures err { OnErr result (items_of items.new ≡ items_of items.old) }
{
    if let Items::Many(values) = items {
        values.push(value)?;
        return Ok(());
    }
    let mut values = Vec::with_capacity(alloc, 2)?;
    match mem::replace(items, Items::Many(Vec::new(alloc))) {
        Items::One([first]) => values.push_reserved(first),
        Items::Many(_others) => unreachable!(),
    }
    values.push_reserved(value);
    *items = Items::Many(values);
    Ok(())
}
