//! The phases of a compaction, and whether a call ended its phase.

/// What a compaction does next.
#[derive(Clone, Copy, Debug, Drop, PartialEq, Eq)]
pub enum Phase {
    /// Nothing: there is no compaction.
    Idle,
    /// It folds the frames before its cut, one a call.
    Reading,
    /// It writes the snapshot of their state, one frame a call.
    Writing,
    /// It publishes the root that names what it wrote.
    Ready,
}

/// Whether a call of a compaction ended its phase.
#[derive(Clone, Copy, Debug, Drop, PartialEq, Eq)]
pub enum Progress {
    /// The call read or wrote one frame.
    More,
    /// The next phase begins.
    Done,
}
