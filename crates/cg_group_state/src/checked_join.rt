//! A JOIN with a valid session timeout.
ghost use Rattle.std.specs.Prelude.{◌≡◌, true, false, MatchOption};
ghost use Rattle.cg_group_state.specs.JoinTerms.{is_session_refused};

use cg_record::SessionTimeout;
use cg_request::JoinRequest;
use std::marker::Model;

/// A JOIN whose session timeout is within the coordinator's limits (KIP-62). Contracts see the request.
#[derive(Debug, Drop)]
pub struct CheckedJoin {
    pub request: JoinRequest,
    pub session: SessionTimeout,
    ghost is_own: { session ≡ request.session_ms },
}

impl Model for CheckedJoin {
    ghost use Rattle.cg_request.specs.declared.request_fields.JoinRequest.{JoinRequest};

    ghost Value = { JoinRequest };

    ghost view = { λ c. c.request };
}

impl CheckedJoin {
    /// Checks the session timeout. Returns `None` if it is outside its limits (error 26).
    pub fn new(request: JoinRequest) -> Option<Self>
        ensures { MatchOption result
            (is_session_refused request ≡ true)
            (λ checked. (is_session_refused request ≡ false) × (checked ≡ request)) }
    {
        let session = SessionTimeout::new(request.session_ms)?;
        Some(CheckedJoin { request, session })
    }
}
