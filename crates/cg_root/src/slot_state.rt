//! What a slot holds, as its two sectors show it.
ghost use Rattle.cg_root.specs.declared.slot_state.TheConstants.{SLOTS_BYTES};
ghost use Rattle.cg_disk.specs.declared.disk.TheConstants.{SECTOR_BYTES};
ghost use Rattle.std.specs.Prelude.{◌≡◌, ◌+◌, length};
ghost use Rattle.cg_disk.specs.Disk.{sector};
ghost use Rattle.cg_root.specs.Decoding.{IsState, counting_slot, greater_epoch};
ghost use Rattle.cg_root.specs.Slots.{gate_of};

use crate::root_decoder::{head_of, is_root_body};
use crate::{RootFault, Slot};
use cg_disk::SECTOR_BYTES;
use cg_gate::OPEN;

/// Bytes of both slots, which are read at once.
pub(crate) const SLOTS_BYTES: usize = 2048;

/// What a slot holds.
#[derive(Clone, Copy)]
pub(crate) enum SlotState {
    /// Its gate is closed.
    Closed,
    /// Its gate is open, and its body breaks a rule.
    Broken,
    /// A root of this epoch.
    Stored(u64),
}

/// Returns the body of a slot.
pub(crate) fn body_of_slot(slots: &[u8], slot: Slot) -> &[u8]
    requires { length slots.now ≡ SLOTS_BYTES }
    ensures body { result.now ≡ sector slots.now (gate_of slot + 1) }
    ensures long { length result.now ≡ SECTOR_BYTES }
{
    let at = (slot.gate() as usize + 1) * SECTOR_BYTES;
    &slots[at..at + SECTOR_BYTES]
}

/// Returns what a slot holds.
pub(crate) fn state_of_slot(slots: &[u8], slot: Slot, sectors: u64) -> SlotState
    requires { length slots.now ≡ SLOTS_BYTES }
    ensures { IsState (sector slots.now) sectors slot result }
{
    if slots[slot.gate() as usize * SECTOR_BYTES] != OPEN {
        return SlotState::Closed;
    }
    let body = body_of_slot(slots, slot);
    let head = head_of(body);
    if is_root_body(body, head, sectors) {
        SlotState::Stored(head.epoch)
    } else {
        SlotState::Broken
    }
}

/// Returns the slot of the root that counts.
pub(crate) fn counting_slot(zero: SlotState, one: SlotState) -> Result<Slot, RootFault>
    ensures { result ≡ counting_slot zero one }
{
    match (zero, one) {
        (SlotState::Broken, _) | (_, SlotState::Broken) => Err(RootFault::BadRoot),
        (SlotState::Closed, SlotState::Closed) => Err(RootFault::NoRoot),
        (SlotState::Closed, SlotState::Stored(_)) => Ok(Slot::One),
        (SlotState::Stored(_), SlotState::Closed) => Ok(Slot::Zero),
        (SlotState::Stored(zero), SlotState::Stored(one)) => greater_epoch(zero, one),
    }
}

fn greater_epoch(zero: u64, one: u64) -> Result<Slot, RootFault>
    ensures { result ≡ greater_epoch zero one }
{
    if zero == one {
        Err(RootFault::BadRoot)
    } else if zero < one {
        Ok(Slot::One)
    } else {
        Ok(Slot::Zero)
    }
}
