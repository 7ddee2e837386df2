//! The session of a connection: its pass, and the replies that it owes.
use crate::server::Server;
use cg_disk::SectorDisk;
use cg_engine::{BegunCall, PendingCall, Requests, SessionPass};
use cg_group::{Reply, Request};
use cg_names::Code;
use std::alloc::{AllocError, Global};
use std::collections::VecDeque;
use std::mem;
use std::random::RandomSource;
use std::sync::Wait;
use std::sync::ledger::Ledger;
use std::time::Clock;
use uuid::Uuid;

/// Most replies that a connection owes before another of its lines is served.
const OWED_MAX: usize = 64;

/// Bytes of the lines whose replies it owes from which on no other is served.
const OWED_BYTES_MAX: usize = 65_536;

/// A reply that is owed.
#[derive(Drop)]
enum Due<L: Ledger> {
    /// That to a call which waits for its answer.
    Answer(PendingCall<L>),
    /// One that is there.
    Reply(Reply),
}

/// What a connection owes for a line that was served.
#[derive(Drop)]
struct Owed<L: Ledger> {
    /// Length of the line.
    bytes: usize,
    /// Whether the line is a COMMIT.
    is_commit: bool,
    due: Due<L>,
}

/// The session of a connection. Its calls are begun in the order of their lines, without a wait for the answers to those
/// before, and each has a pass of its own. Replies leave in the same order.
#[derive(Drop)]
pub struct Session<L: Ledger> {
    // The pass for the next call. A session that owes nothing has it.
    pass: Option<SessionPass<L>>,
    owed: VecDeque<Owed<L>>,
    // Bytes of the lines whose replies are owed.
    bytes: usize,
    // Whether the reply that is owed last has to leave before another line is served.
    is_last: bool,
    // Whether no pass, or no memory, was to be had for another call. It is tried again once a reply has left.
    is_short: bool,
    // How many COMMITs were answered by OK since this was last asked for.
    commits: u64,
}

// Returns the UUID for a request: a random one for a JOIN, from which a member id may be drawn. `None` if the system
// gives no random bytes.
fn fresh_for<R: RandomSource>(rt: &R, request: &Request) -> Option<Uuid> {
    match request {
        Request::Join(_) => Uuid::try_new_v4(rt).ok(),
        _ => Some(Uuid::nil()),
    }
}

// Returns whether the reply to a request has to leave before the next line is served: it may be parked, or may be long.
fn is_last(request: &Request) -> bool {
    match request {
        Request::Beat(_)
        | Request::Commit(_)
        | Request::Leave(_)
        | Request::Delete(_)
        | Request::Drop(_) => false,
        Request::Join(_) | Request::Sync(_) => true,
        Request::Fetch(_) | Request::Describe(_) | Request::List => true,
    }
}

impl<L: Ledger> Session<L> {
    /// Creates a session that owes nothing.
    pub fn new(alloc: Global, pass: SessionPass<L>) -> Self {
        Session {
            pass: Some(pass),
            owed: VecDeque::new(alloc),
            bytes: 0,
            is_last: false,
            is_short: false,
            commits: 0,
        }
    }

    /// Returns whether a reply is owed.
    pub fn owes(&self) -> bool {
        !self.owed.is_empty()
    }

    /// Returns how many replies are owed.
    pub fn owed(&self) -> usize {
        self.owed.len()
    }

    /// Returns whether another line may be served before a reply leaves.
    pub fn takes_more(&self) -> bool {
        let is_ahead = self.owed.len() >= OWED_MAX || self.bytes >= OWED_BYTES_MAX;
        !self.is_last && !self.is_short && !is_ahead
    }

    /// Makes room for what another line is owed, and takes a pass for its call. Returns whether there are both, or nothing
    /// is owed: then the line is served all the same.
    pub fn reserve<D: SectorDisk + Drop, R: Wait>(
        &mut self,
        rt: &R,
        server: &Server<'_, D, L>,
    ) -> bool {
        let has_room = self.owed.reserve(1).is_ok();
        if self.pass.is_none() {
            self.pass = server.passes.take_extra(rt, server.engine);
        }
        self.is_short = self.owes() && !(has_room && self.pass.is_some());
        !self.is_short
    }

    // Adds to what is owed.
    fn add(&mut self, owed: Owed<L>) -> Result<(), AllocError> {
        self.owed.reserve(1)?;
        self.bytes = self.bytes.saturating_add(owed.bytes);
        self.owed.push_back_reserved(owed);
        Ok(())
    }

    /// Owes a reply that is there, to a line of this many bytes.
    pub fn owe(&mut self, bytes: usize, reply: Reply) -> Result<(), AllocError> {
        self.add(Owed {
            bytes,
            is_commit: false,
            due: Due::Reply(reply),
        })
    }

    /// Begins the call of a request, which came in a line of this many bytes: adds it to a list, which is to be handed over.
    pub fn begin<D: SectorDisk + Drop, R: Wait + Clock + RandomSource>(
        &mut self,
        rt: &R,
        server: &Server<'_, D, L>,
        bytes: usize,
        request: Request,
        requests: &mut Requests<L>,
    ) -> Result<(), Code> {
        let Ok(()) = self.owed.reserve(1) else {
            return Err(Code::UnknownServerError);
        };
        let Some(fresh) = fresh_for(rt, &request) else {
            return Err(Code::UnknownServerError);
        };
        let Some(pass) = self.pass.take() else {
            return Err(Code::CoordinatorNotAvailable);
        };
        self.is_last = is_last(&request);
        let is_commit = matches!(request, Request::Commit(_));
        let now = server.moments.now(rt);
        let due = match requests.begin_call(pass, request, now, fresh) {
            BegunCall::Ended(pass, outgoing) => {
                self.keep(rt, server, pass);
                Due::Reply(outgoing.into_reply())
            }
            BegunCall::Waits(call) => Due::Answer(call),
        };
        // There is room.
        let _ = self.add(Owed {
            bytes,
            is_commit,
            due,
        });
        Ok(())
    }

    // Keeps the pass of a call that has ended for the next one, or gives it back if there is one.
    fn keep<D: SectorDisk + Drop, R: Wait>(
        &mut self,
        rt: &R,
        server: &Server<'_, D, L>,
        pass: SessionPass<L>,
    ) {
        if self.pass.is_none() {
            self.pass = Some(pass);
        } else {
            server.passes.give_extra(rt, pass);
        }
    }

    // Returns whether the reply that is owed first is there.
    fn has_reply(&self) -> bool {
        match self.owed.front() {
            None => false,
            Some(owed) => match &owed.due {
                Due::Answer(call) => call.has_answer(),
                Due::Reply(_) => true,
            },
        }
    }

    // Returns the reply to the call that was begun first, whose line had this many bytes. If its answer has not come, the call
    // is owed as before.
    fn answer<D: SectorDisk + Drop, R: Wait>(
        &mut self,
        rt: &R,
        server: &Server<'_, D, L>,
        bytes: usize,
        is_commit: bool,
        call: PendingCall<L>,
    ) -> Option<Reply> {
        match server.engine.try_end_call(rt, call) {
            Ok((pass, outgoing)) => {
                self.keep(rt, server, pass);
                Some(outgoing.into_reply())
            }
            Err(call) => {
                let _ = self.owed.push_front(Owed {
                    bytes,
                    is_commit,
                    due: Due::Answer(call),
                });
                None
            }
        }
    }

    /// Removes the reply that is owed first, if it is there.
    pub fn next_reply<D: SectorDisk + Drop, R: Wait>(
        &mut self,
        rt: &R,
        server: &Server<'_, D, L>,
    ) -> Option<Reply> {
        if !self.has_reply() {
            return None;
        }
        let Owed {
            bytes,
            is_commit,
            due,
        } = self.owed.pop_front()?;
        let reply = match due {
            Due::Answer(call) => self.answer(rt, server, bytes, is_commit, call)?,
            Due::Reply(reply) => reply,
        };
        if is_commit && matches!(&reply, Reply::Done) {
            self.commits = self.commits.saturating_add(1);
        }
        self.bytes = self.bytes.saturating_sub(bytes);
        self.is_short = false;
        self.is_last = self.is_last && self.owes();
        Some(reply)
    }

    /// Returns how many COMMITs were answered by OK since it was last asked.
    pub fn take_commits(&mut self) -> u64 {
        mem::take(&mut self.commits)
    }

    /// Ends the session, and returns its pass, unless a call has it.
    pub fn into_pass(self) -> Option<SessionPass<L>> {
        let Session { pass, .. } = self;
        pass
    }
}
