//! Units of the ledger. A unit is worth one stored command: only an append books units.
ghost use Rattle.std.specs.Prelude.{◌≡◌, ◌+◌, ◌<◌, ◌≤◌, ◌^◌};

use std::sync::ledger::{Book, Ledger, Share};

/// A part of the ledger without units. Units can be paid onto it.
#[derive(Drop)]
pub struct Part<L: Ledger> {
    share: Share<L>,
    ghost one_part: { share.parts ≡ 1 },
    ghost none: { share.amount ≡ 0 },
}

/// Units on one part of the ledger.
#[derive(Drop)]
pub struct Units<L: Ledger> {
    count: u64,
    share: Share<L>,
    ghost one_part: { share.parts ≡ 1 },
    ghost counted: { share.amount ≡ count },
}

impl<L: Ledger> Part<L> {
    ghost use Rattle.cg_engine.specs.Units.{count_of};

    fn new(share: Share<L>) -> Self
        requires one_part { share.parts ≡ 1 }
        requires none { share.amount ≡ 0 }
    {
        Part { share }
    }

    /// Books new units in the ledger. The caller owes the book one stored command for each.
    pub fn book(self, book: &mut Book<L>, count: u64) -> Units<L>
        ensures units { count_of result ≡ count }
        ensures total { book.new.total ≡ book.old.total + count }
    {
        let Part { mut share } = self;
        book.add(&mut share, count);
        Units { count, share }
    }

    /// Returns no units on this part.
    pub fn without_units(self) -> Units<L>
        ensures { count_of result ≡ 0 }
    {
        let Part { share } = self;
        Units { count: 0, share }
    }
}

impl<L: Ledger> Units<L> {
    ghost use Rattle.cg_engine.specs.Units.{count_of};

    /// Returns the number of units.
    pub fn count(&self) -> u64
        ensures { result ≡ count_of self.now }
    {
        self.count
    }

    /// Takes the units off another part, and returns that part.
    pub fn take_over(&mut self, other: Units<L>) -> Part<L>
        requires { count_of self.old + count_of other < 2 ^ 64 }
        ensures { count_of self.new ≡ count_of self.old + count_of other }
    {
        let Units {
            count: more,
            share: mut source,
        } = other;
        let Units { count, share } = self;
        source.transfer(share, more);
        *count += more;
        Part::new(source)
    }
}

/// The units that no answer has yet, and the parts for passes and batches.
#[derive(Drop)]
pub struct Pool<L: Ledger> {
    count: u64,
    parts: u64,
    share: Share<L>,
    ghost counted: { share.amount ≡ count },
    ghost cut: { share.parts ≡ parts },
    ghost some_part: { 0 < parts },
}

impl<L: Ledger> Pool<L> {
    ghost use Rattle.cg_engine.specs.Units.{count_of, parts_in, units_in};

    /// Creates the pool of these parts, without units.
    pub fn new(share: Share<L>, parts: u64) -> Self
        requires parts { share.parts ≡ parts }
        requires some { 0 < parts }
        requires none { share.amount ≡ 0 }
        ensures units { units_in result ≡ 0 }
        ensures parts { parts_in result ≡ parts }
    {
        Pool {
            count: 0,
            parts,
            share,
        }
    }

    /// Returns the number of units.
    pub fn count(&self) -> u64
        ensures { result ≡ units_in self.now }
    {
        self.count
    }

    /// Returns the number of parts.
    pub fn parts(&self) -> u64
        ensures { result ≡ parts_in self.now }
    {
        self.parts
    }

    /// Splits off a part without units.
    pub fn lend(&mut self) -> Part<L>
        requires { 1 < parts_in self.old }
        ensures units { units_in self.new ≡ units_in self.old }
        ensures parts { parts_in self.new + 1 ≡ parts_in self.old }
    {
        let Pool {
            count: _,
            parts,
            share,
        } = self;
        let part = share.split_off(1, 0);
        *parts -= 1;
        Part::new(part)
    }

    /// Pays units onto a part.
    pub fn pay(&mut self, part: Part<L>, count: u64) -> Units<L>
        requires { count ≤ units_in self.old }
        ensures paid { count_of result ≡ count }
        ensures left { units_in self.new + count ≡ units_in self.old }
        ensures parts { parts_in self.new ≡ parts_in self.old }
    {
        let Part { share: mut target } = part;
        let Pool {
            count: counted,
            parts: _,
            share,
        } = self;
        share.transfer(&mut target, count);
        *counted -= count;
        Units {
            count,
            share: target,
        }
    }

    /// Takes the units off a part, and returns the part.
    pub fn collect(&mut self, units: Units<L>) -> Part<L>
        requires { units_in self.old + count_of units < 2 ^ 64 }
        ensures units { units_in self.new ≡ units_in self.old + count_of units }
        ensures parts { parts_in self.new ≡ parts_in self.old }
    {
        let Units {
            count,
            share: mut source,
        } = units;
        let Pool {
            count: counted,
            parts: _,
            share,
        } = self;
        source.transfer(share, count);
        *counted += count;
        Part::new(source)
    }
}
