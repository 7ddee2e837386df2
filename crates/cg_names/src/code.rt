//! The error codes of replies.
ghost use Rattle.std.specs.Prelude.{◌≡◌};
ghost use Rattle.cg_names.specs.Codes.{number_of, name_of};

/// The error code of a reply, with the number and the name of the protocol guide ("Error codes").
#[derive(Clone, Copy, Debug, PartialEq, Eq)]
pub enum Code {
    /// -1: the server failed for another reason, for example an allocation failed.
    UnknownServerError,
    /// 0: no error.
    NoError,
    /// 12: the metadata of an offset is longer than 4,096 bytes, or that of a COMMIT together longer than 262,144.
    OffsetMetadataTooLarge,
    /// 14: the coordinator is loading its log.
    CoordinatorLoadInProgress,
    /// 15: the coordinator cannot serve the request; the client retries.
    CoordinatorNotAvailable,
    /// 22: the generation is not that of the group.
    IllegalGeneration,
    /// 23: the protocol type is not the group's, or no protocol is common to all members.
    InconsistentGroupProtocol,
    /// 24: the request names no group: its group id is `-`.
    InvalidGroupId,
    /// 25: the group does not have this member.
    UnknownMemberId,
    /// 26: the session timeout is outside its limits.
    InvalidSessionTimeout,
    /// 27: a rebalance is under way, so the member has to join again.
    RebalanceInProgress,
    /// 42: the request is malformed.
    InvalidRequest,
    /// 68: the group has members.
    NonEmptyGroup,
    /// 69: no such group is loaded.
    GroupIdNotFound,
    /// 81: the group has the maximum number of members.
    GroupMaxSizeReached,
    /// 82: another member has the instance id (KIP-345, fencing).
    FencedInstanceId,
}

impl Code {
    /// Returns the number of the code in the protocol guide.
    pub fn number(self) -> i32
        ensures { result ≡ number_of self }
    {
        match self {
            Code::UnknownServerError => -1,
            Code::NoError => 0,
            Code::OffsetMetadataTooLarge => 12,
            Code::CoordinatorLoadInProgress => 14,
            Code::CoordinatorNotAvailable => 15,
            Code::IllegalGeneration => 22,
            Code::InconsistentGroupProtocol => 23,
            Code::InvalidGroupId => 24,
            Code::UnknownMemberId => 25,
            Code::InvalidSessionTimeout => 26,
            Code::RebalanceInProgress => 27,
            Code::InvalidRequest => 42,
            Code::NonEmptyGroup => 68,
            Code::GroupIdNotFound => 69,
            Code::GroupMaxSizeReached => 81,
            Code::FencedInstanceId => 82,
        }
    }

    /// Returns the name of the code in the protocol guide.
    pub fn name(self) -> &'static str
        ensures { result.now ≡ name_of self }
    {
        match self {
            Code::UnknownServerError => "UNKNOWN_SERVER_ERROR",
            Code::NoError => "NONE",
            Code::OffsetMetadataTooLarge => "OFFSET_METADATA_TOO_LARGE",
            Code::CoordinatorLoadInProgress => "COORDINATOR_LOAD_IN_PROGRESS",
            Code::CoordinatorNotAvailable => "COORDINATOR_NOT_AVAILABLE",
            Code::IllegalGeneration => "ILLEGAL_GENERATION",
            Code::InconsistentGroupProtocol => "INCONSISTENT_GROUP_PROTOCOL",
            Code::InvalidGroupId => "INVALID_GROUP_ID",
            Code::UnknownMemberId => "UNKNOWN_MEMBER_ID",
            Code::InvalidSessionTimeout => "INVALID_SESSION_TIMEOUT",
            Code::RebalanceInProgress => "REBALANCE_IN_PROGRESS",
            Code::InvalidRequest => "INVALID_REQUEST",
            Code::NonEmptyGroup => "NON_EMPTY_GROUP",
            Code::GroupIdNotFound => "GROUP_ID_NOT_FOUND",
            Code::GroupMaxSizeReached => "GROUP_MAX_SIZE_REACHED",
            Code::FencedInstanceId => "FENCED_INSTANCE_ID",
        }
    }
}
