//! The command numbers that a desk keeps in reserve.
/// Command numbers in reserve: with fewer left than this plus `SPARE_NUMBERS_PER_GROUP` for each loaded group, the desk
/// refuses requests with 15.
pub const SPARE_NUMBERS: u64 = 4_294_967_296;

/// Command numbers that each loaded group adds to `SPARE_NUMBERS`.
pub const SPARE_NUMBERS_PER_GROUP: u64 = 64;
