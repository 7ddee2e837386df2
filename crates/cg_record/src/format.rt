//! The version byte and the kind bytes of the format.
ghost use Rattle.std.specs.Prelude.{◌≡◌};
ghost use Rattle.cg_record.specs.Reading.{version_of, Gives};
ghost use Rattle.cg_record.specs.Versions.{byte_of, has_dropped, has_expired, has_long_counts, has_moments, newest};
ghost use Rattle.cg_record.specs.declared.entries.TheConstants.{SHORT_COUNT_MAX};
ghost use Rattle.cg_record.specs.declared.format.TheConstants.{ASSIGNED_KIND, COMMITTED_KIND, DELETED_KIND, DROPPED_KIND, EMPTIED_KIND, EXPIRED_KIND, REPLACED_KIND, VERSION_ONE, VERSION_THREE, VERSION_TWO};

use crate::fault::RecordFault;

/// First byte of a payload in version 1.
pub const VERSION_ONE: u8 = 1;

/// First byte of a payload in version 2.
pub const VERSION_TWO: u8 = 2;

/// First byte of a payload in version 3.
pub const VERSION_THREE: u8 = 3;

/// Kind byte of `Assigned`.
pub const ASSIGNED_KIND: u8 = 1;

/// Kind byte of `Emptied`.
pub const EMPTIED_KIND: u8 = 2;

/// Kind byte of `Replaced`.
pub const REPLACED_KIND: u8 = 3;

/// Kind byte of `Committed`.
pub const COMMITTED_KIND: u8 = 4;

/// Kind byte of `Deleted`.
pub const DELETED_KIND: u8 = 5;

/// Kind byte of `Expired`, in versions 2 and 3.
pub const EXPIRED_KIND: u8 = 6;

/// Kind byte of `Dropped`, in version 3.
pub const DROPPED_KIND: u8 = 7;

/// A version of the format. Each is decoded; `write` encodes the newest.
#[derive(Clone, Copy, Debug, PartialEq, Eq)]
pub enum Version {
    One,
    Two,
    Three,
}

impl Version {
    /// Returns the version of a payload's first byte. Reports `BadKind` for an unknown one.
    #[tactic(auto, unfolding(crate::specs::Reading::version_of))]
    pub fn of(byte: u8) -> Result<Version, RecordFault>
        ensures { Gives (λ v. v) result (version_of byte) }
    {
        if byte == VERSION_ONE {
            Ok(Version::One)
        } else if byte == VERSION_TWO {
            Ok(Version::Two)
        } else if byte == VERSION_THREE {
            Ok(Version::Three)
        } else {
            Err(RecordFault::BadKind)
        }
    }

    /// The version that `write` encodes.
    pub fn newest() -> Version
        ensures { result ≡ newest }
    {
        Version::Three
    }

    /// Returns the first byte of a payload in this version.
    pub fn byte(self) -> u8
        ensures { result ≡ byte_of self }
    {
        match self {
            Version::One => VERSION_ONE,
            Version::Two => VERSION_TWO,
            Version::Three => VERSION_THREE,
        }
    }

    /// Returns whether `Emptied` and `Committed` have a moment.
    pub fn has_moments(self) -> bool
        ensures { result ≡ has_moments self }
    {
        match self {
            Version::One => false,
            Version::Two | Version::Three => true,
        }
    }

    /// Returns whether `Expired` is a command.
    pub fn has_expired(self) -> bool
        ensures { result ≡ has_expired self }
    {
        match self {
            Version::One => false,
            Version::Two | Version::Three => true,
        }
    }

    /// Returns whether `Dropped` is a command.
    pub fn has_dropped(self) -> bool
        ensures { result ≡ has_dropped self }
    {
        match self {
            Version::One | Version::Two => false,
            Version::Three => true,
        }
    }

    /// Returns whether the number of entries or partitions has two bytes.
    pub fn has_long_counts(self) -> bool
        ensures { result ≡ has_long_counts self }
    {
        match self {
            Version::One | Version::Two => false,
            Version::Three => true,
        }
    }
}

/// The numbers of the format, on which the definitions rest by name: whoever changes one is refused here.
pub fn format_has_these_bytes()
    ensures version_one { VERSION_ONE ≡ 1 }
    ensures version_two { VERSION_TWO ≡ 2 }
    ensures version_three { VERSION_THREE ≡ 3 }
    ensures assigned { ASSIGNED_KIND ≡ 1 }
    ensures emptied { EMPTIED_KIND ≡ 2 }
    ensures replaced { REPLACED_KIND ≡ 3 }
    ensures committed { COMMITTED_KIND ≡ 4 }
    ensures deleted { DELETED_KIND ≡ 5 }
    ensures expired { EXPIRED_KIND ≡ 6 }
    ensures dropped { DROPPED_KIND ≡ 7 }
    ensures short_counts { SHORT_COUNT_MAX ≡ 64 }
{}
