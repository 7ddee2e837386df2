//! The trail of an engine, as the desk lock keeps it: each step of the desk in the machine's own order.
ghost use Rattle.std.specs.Prelude.{◌≡◌, IfOk};

use crate::engine_limits::NUMBERED_SURELY;
use crate::trail::Noted;
use crate::trail::reply_copies::{copied_replies, copied_reply};
use cg_desk::{Desk, Outgoing};
use cg_group::{Few, Listed, Reply, Request, Ticket};
use cg_names::{Code, Moment};
use cg_trail::{Replies, RequestEntry, TickEntry, Trail, TrailEntry, copied_request};
use std::alloc::{AllocError, Global};
use uuid::Uuid;

/// The trail, if one is kept.
#[derive(Drop)]
pub enum Recorder {
    /// No trail is kept.
    Off,
    /// A trail begins when a disk is loaded.
    Waiting,
    On(Trail),
    /// An allocation failed, so that a step is missing.
    Lost,
}

// Copies replies that left.
fn copied_out(alloc: Global, out: &[Outgoing]) -> Result<Replies, AllocError> {
    let mut copies = Few::new(alloc);
    for outgoing in out {
        let copy = copied_reply(alloc, outgoing.reply())?;
        copies.push((outgoing.ticket(), copy))?;
    }
    Ok(copies)
}

// Copies the replies that the last step of a desk made. Before it, this many steps were held. Where any was, no reply
// leaves in a step; where none was, the step is held or its replies left.
fn made_replies(
    alloc: Global,
    desk: &Desk,
    held: u64,
    out: &[Outgoing],
) -> Result<Replies, AllocError> {
    if desk.held() > held {
        return copied_replies(alloc, desk.last_held());
    }
    copied_out(alloc, out)
}

// Returns whether a desk that serves handled a request by its machine. With few command numbers left it may have refused
// the request.
fn is_event(desk: &Desk, out: &[Outgoing]) -> bool {
    match out {
        [only] if desk.numbered() > NUMBERED_SURELY => !matches!(
            only.reply(),
            Reply::Refused(Code::CoordinatorNotAvailable)
        ),
        _ => true,
    }
}

/// A request that is to be recorded, and how many steps the desk held before it.
#[derive(Drop)]
pub struct Begun {
    pub entry: RequestEntry,
    pub held: u64,
}

impl Recorder {
    ghost use Rattle.cg_engine.specs.Recorders.{trail_of};

    /// Creates the recorder of an engine with nothing loaded.
    pub fn new(trail: bool) -> Self {
        if trail {
            Recorder::Waiting
        } else {
            Recorder::Off
        }
    }

    /// Begins a trail with this state, a snapshot.
    pub fn load(&mut self, alloc: Global, loaded: Vec<cg_record::Command>, now: Moment) {
        *self = Recorder::On(Trail::new(alloc, Listed::from_vec(loaded), now));
    }

    /// Returns what a new pass notes.
    pub fn noted(&self, alloc: Global) -> Noted {
        match self {
            Recorder::Off => Noted::Off,
            Recorder::Waiting | Recorder::On(_) | Recorder::Lost => {
                Noted::Kept(Listed::new(alloc))
            }
        }
    }

    // Makes room for one more entry, if a trail is kept. Returns whether one is.
    fn reserve(&mut self) -> Result<bool, AllocError> {
        match self {
            Recorder::On(trail) => {
                trail.reserve()?;
                Ok(true)
            }
            Recorder::Off | Recorder::Waiting | Recorder::Lost => Ok(false),
        }
    }

    /// Prepares for a request: where a trail is kept, makes room and copies it. Returns the request.
    pub fn begin(
        &mut self,
        alloc: Global,
        desk: &Desk,
        ticket: Ticket,
        request: Request,
        now: Moment,
        fresh: Uuid,
    ) -> Result<(Request, Option<Begun>), AllocError>
        ensures { IfOk result (λ begun. begun.0 ≡ request) }
    {
        if !self.reserve()? {
            return Ok((request, None));
        }
        let entry = RequestEntry {
            ticket,
            request: copied_request(alloc, &request)?,
            now,
            fresh,
            replies: Few::new(alloc),
        };
        let held = desk.held();
        Ok((request, Some(Begun { entry, held })))
    }

    /// Makes room for a tick. Returns how many steps the desk holds before it.
    pub fn begin_tick(&mut self, desk: &Desk) -> Result<u64, AllocError> {
        self.reserve()?;
        Ok(desk.held())
    }

    fn push(&mut self, entry: TrailEntry) {
        if let Recorder::On(trail) = self {
            match trail.reserve() {
                Ok(()) => trail.push(entry),
                Err(_) => *self = Recorder::Lost,
            }
        }
    }

    /// Records a request that the desk handled.
    pub fn end(&mut self, alloc: Global, desk: &Desk, begun: Option<Begun>, out: &[Outgoing]) {
        let Some(Begun { mut entry, held }) = begun else {
            return;
        };
        if !is_event(desk, out) {
            return;
        }
        match made_replies(alloc, desk, held, out) {
            Ok(replies) => {
                entry.replies = replies;
                self.push(TrailEntry::Request(entry));
            }
            Err(_) => *self = Recorder::Lost,
        }
    }

    /// Returns the trail, if one was kept to the end.
    pub fn into_trail(self) -> Option<Trail>
        ensures { result ≡ trail_of self }
    {
        match self {
            Recorder::On(trail) => Some(trail),
            Recorder::Off | Recorder::Waiting | Recorder::Lost => None,
        }
    }

    /// Records a tick that the desk handled.
    pub fn end_tick(
        &mut self,
        alloc: Global,
        desk: &Desk,
        held: u64,
        now: Moment,
        out: &[Outgoing],
    ) {
        if !matches!(self, Recorder::On(_)) || desk.numbered() > NUMBERED_SURELY {
            return;
        }
        match made_replies(alloc, desk, held, out) {
            Ok(replies) => self.push(TrailEntry::Tick(TickEntry { now, replies })),
            Err(_) => *self = Recorder::Lost,
        }
    }
}
