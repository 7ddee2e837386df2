//! The numbers of a root's body: version, positions and limits.
ghost use Rattle.std.specs.Prelude.{◌≡◌, ◌-◌, ◌^◌};
ghost use Rattle.cg_root.specs.declared.root_layout.TheConstants.{VERSION, EPOCH_MAX, BASE_NUMBER_MAX, EPOCH_AT, BASE_NUMBER_AT, BASE_COUNT_AT, TAIL_COUNT_AT, IDS_AT, ID_BYTES};

/// The version of the bodies that are written, and the only one that is read.
pub const VERSION: u32 = 1;

/// The greatest epoch.
pub const EPOCH_MAX: u64 = (1 << 63) - 1;

/// The greatest base number.
pub const BASE_NUMBER_MAX: u64 = (1 << 63) - 1;

/// Where the fields of a body begin; the version is at 0.
pub(crate) const EPOCH_AT: usize = 4;

pub(crate) const BASE_NUMBER_AT: usize = 12;

pub(crate) const BASE_COUNT_AT: usize = 20;

pub(crate) const TAIL_COUNT_AT: usize = 22;

pub(crate) const IDS_AT: usize = 24;

/// Bytes of one segment id.
pub(crate) const ID_BYTES: usize = 2;

/// States the numbers of the format, on which the disks that exist depend. It does nothing.
pub fn root_numbers()
    ensures version { VERSION ≡ 1 }
    ensures epoch { EPOCH_MAX ≡ 2 ^ 63 - 1 }
    ensures base_number { BASE_NUMBER_MAX ≡ 2 ^ 63 - 1 }
    ensures epoch_at { EPOCH_AT ≡ 4 }
    ensures base_number_at { BASE_NUMBER_AT ≡ 12 }
    ensures base_count_at { BASE_COUNT_AT ≡ 20 }
    ensures tail_count_at { TAIL_COUNT_AT ≡ 22 }
    ensures ids_at { IDS_AT ≡ 24 }
    ensures id { ID_BYTES ≡ 2 }
{}
