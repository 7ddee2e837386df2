//! Bounds of an engine.
use cg_desk::{SPARE_NUMBERS, SPARE_NUMBERS_PER_GROUP};
use cg_group::GROUPS_MAX;
use cg_store::COMMAND_NUMBER_MAX;

/// Most passes of an engine.
pub const PASSES_MAX: usize = 65_536;

/// Parts of the ledger that an engine needs: two for each pass, one for a batch, and one that stays are 131,074; these are
/// the next power of two.
pub const PARTS: u64 = 262_144;

/// Fewest parts that the pool has before a new pass: two for the pass, and one that stays.
pub const PARTS_FOR_PASS: u64 = 3;

/// Command number up to which a desk never runs short of numbers, however many groups it has.
pub const NUMBERED_SURELY: u64 = COMMAND_NUMBER_MAX
    - SPARE_NUMBERS
    - SPARE_NUMBERS_PER_GROUP * GROUPS_MAX as u64;

/// Most calls of a pass.
pub const CALLS_MAX: u64 = 9_223_372_036_854_775_807;
