//! What a call may do to the durable state.
ghost use Rattle.std.specs.Prelude.{◌≡◌};
ghost use Rattle.cg_engine.specs.Worth.{kind_of, worth};

use cg_group::{Reply, Request};

/// What a request may store.
#[derive(Clone, Copy, Debug, Drop, PartialEq, Eq)]
pub enum CallKind {
    /// A COMMIT or a DELETE: OK says that a command was made.
    Write,
    /// A JOIN, a SYNC, a LEAVE or a DROP: it may make a command.
    Changing,
    /// A BEAT, a FETCH, a DESCRIBE or a LIST: it makes no command.
    Read,
}

impl CallKind {
    /// Returns the kind of a request.
    pub fn of(request: &Request) -> Self
        ensures { result ≡ kind_of request.now }
    {
        match request {
            Request::Commit(_) | Request::Delete(_) => CallKind::Write,
            Request::Join(_) | Request::Sync(_) | Request::Leave(_) | Request::Drop(_) => {
                CallKind::Changing
            }
            Request::Beat(_) | Request::Fetch(_) | Request::Describe(_) | Request::List => {
                CallKind::Read
            }
        }
    }

    /// Returns how many units an answer to a call of this kind is worth, whose step made this many commands.
    pub fn worth(self, reply: &Reply, made: u64) -> u64
        ensures { result ≡ worth self reply.now made }
    {
        match (self, reply) {
            (CallKind::Write, Reply::Done) => 1,
            (CallKind::Changing, Reply::Refused(_)) => 0,
            (CallKind::Changing, _) => made.min(1),
            (_, _) => 0,
        }
    }
}
