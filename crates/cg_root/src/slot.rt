//! The two root slots.
ghost use Rattle.std.specs.Prelude.{◌≡◌};
ghost use Rattle.cg_root.specs.Slots.{gate_of, other_slot};

use cg_gate::ROOT_SLOT_SECTORS;

/// One of the two places of a root on a disk: a gate, and the body after it.
#[derive(Clone, Copy, Debug, PartialEq, Eq)]
pub enum Slot {
    /// Sectors 0 and 1.
    Zero,
    /// Sectors 2 and 3.
    One,
}

impl Slot {
    /// Returns the sector of its gate.
    pub fn gate(self) -> u64
        ensures { result ≡ gate_of self }
    {
        match self {
            Slot::Zero => 0,
            Slot::One => ROOT_SLOT_SECTORS,
        }
    }

    /// Returns the other slot, which the next root takes.
    pub fn other(self) -> Slot
        ensures { result ≡ other_slot self }
    {
        match self {
            Slot::Zero => Slot::One,
            Slot::One => Slot::Zero,
        }
    }
}
