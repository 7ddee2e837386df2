//! A value in an allocation of its own.
ghost use Rattle.std.specs.Prelude.{◌≡◌, IfOk};

use std::alloc::{AllocError, Global};
use std::marker::Model;

/// A value in an allocation of its own, so that a type with room for it stays small. Contracts see the value.
#[derive(Debug, Drop)]
pub struct Boxed<T> {
    inside: Box<T>,
}

impl<T> Model for Boxed<T> {
    ghost Value = { T };

    ghost view = { λ b. b.inside.value };
}

impl<T> Boxed<T> {
    /// Returns the value.
    pub fn get(&self) -> &T
        ensures { result.now ≡ self.now }
    {
        &self.inside
    }
}

impl<T: Drop> Boxed<T> {
    /// Moves a value into an allocation of its own.
    pub fn new(alloc: Global, value: T) -> Result<Self, AllocError>
        ensures { IfOk result (λ boxed. boxed ≡ value) }
    {
        let inside = Box::new(alloc, value)?;
        Ok(Boxed { inside })
    }
}
