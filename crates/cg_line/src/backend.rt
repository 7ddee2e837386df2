//! The backend of a stream: it returns a reply for each request.
ghost use Rattle.cg_request.specs.declared.request.Request.{Request};
ghost use Rattle.cg_group_state.specs.declared.reply.Reply.{Reply};

use cg_group::{Reply, Request};

/// Source of the replies to a stream of request lines, as a coordinator is.
pub trait Backend {
    /// Relation of the backend before a request, the request, its reply, and the backend after it.
    ghost gives: { Self → Request → Reply → Self → Type 0 };

    /// Returns the reply to one request.
    fn answer(&mut self, request: Request) -> Reply
        ensures { gives self.old request result self.new };
}
