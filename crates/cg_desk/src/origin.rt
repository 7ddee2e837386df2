//! The step that made replies.
ghost use Rattle.std.specs.Prelude.{◌≡◌};

use cg_group::Ticket;

/// The step of the machine that made replies: the commands they depend on, and the request that made commands.
#[derive(Clone, Copy, Debug, Drop)]
pub struct Origin {
    /// Number of the last command once the commands of the step were numbered.
    pub need: u64,
    /// Ticket of the request that the step took; `None` for a Tick and a closed session.
    pub own: Option<Ticket>,
    /// Number of commands that the step made.
    pub made: u64,
}

impl Origin {
    ghost use Rattle.cg_desk.specs.Origins.{made_for};

    /// Returns how many commands the request with this ticket made in the step.
    pub fn made_for(&self, ticket: Ticket) -> u64
        ensures { result ≡ made_for self.now ticket }
    {
        match self.own {
            Some(own) if ticket == own => self.made,
            _ => 0,
        }
    }
}
