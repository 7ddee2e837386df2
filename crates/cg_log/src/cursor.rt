//! A position among the frames of a log.
ghost use Rattle.std.specs.Prelude.{◌<◌, [], List};
ghost use Rattle.cg_gate.specs.declared.layout.TheConstants.{SEGMENT_SECTORS};

/// A position among the frames of a log. It stays valid as the log grows, until a switch changes the base.
#[derive(Clone, Copy, Debug, PartialEq, Eq)]
pub struct Cursor {
    // Index of the segment, among those of the base and then the tails.
    pub(crate) segment: usize,
    // Position of the gate of the next frame.
    pub(crate) pos: u64,
    ghost inside: { pos < SEGMENT_SECTORS },
}

impl Cursor {
    ghost use Rattle.cg_log.specs.Cursors.{IsAt};
    ghost use Rattle.cg_log.specs.Segments.{Filled};

    /// Returns the position before the first frame.
    pub fn start() -> Cursor
        ensures { (segments : List Filled) → IsAt segments result [] }
    {
        Cursor { segment: 0, pos: 0 }
    }
}
