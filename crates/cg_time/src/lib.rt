//! An index of deadlines: a map from keys to moments that finds the keys that are due at a moment, in the order of the
//! keys. A search tree by key, in which each branch knows the earliest moment below it. Room for new keys can be
//! reserved.
#![tactic(auto)]

mod balance;
mod changes;
mod deadlines;
mod due;
#[cfg(test)]
mod tests;
mod tree;

pub use deadlines::Deadlines;
