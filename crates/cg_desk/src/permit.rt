//! Permission to release replies.
ghost use Rattle.std.specs.Prelude.{◌≡◌};

/// Permission to release the replies whose need is at most `front`. Only a desk makes one, and it stays
/// inside the desk.
#[derive(Clone, Copy, Debug)]
pub struct Permit {
    front: u64,
}

impl Permit {
    ghost use Rattle.cg_desk.specs.Permits.{front_of};

    /// Creates a permit for the replies that depend on commands up to number `settled`.
    pub(crate) fn new(settled: u64) -> Self
        ensures { front_of result ≡ settled }
    {
        Permit { front: settled }
    }

    /// Returns the greatest need of a reply that may leave.
    pub(crate) fn front(&self) -> u64
        ensures { result ≡ front_of self.now }
    {
        self.front
    }
}
