//! A connection of a worker.
use crate::server::Server;
use crate::session::Session;
use crate::unsent::Unsent;
use cg_disk::SectorDisk;
use cg_engine::{Requests, SessionPass};
use cg_group::{Reply, Request};
use cg_line::{Asked, BegunLine, Refusal};
use cg_names::Code;
use mio::net::TcpStream;
use mio::{Interest, Registry, Token};
use std::alloc::{AllocError, Global};
use std::io::{self, ErrorKind, Read};
use std::random::RandomSource;
use std::sync::Wait;
use std::sync::ledger::Ledger;
use std::time::Clock;

/// Greatest number of lines of one visit.
const LINES_MAX: u32 = 8_192;

/// A connection.
#[derive(Drop)]
pub struct Connection<L: Ledger> {
    stream: TcpStream,
    line: BegunLine,
    // Bytes that were read, and how many of them are served.
    read: Vec<u8>,
    served: usize,
    // Bytes of the line that is being served which came before.
    begun: usize,
    unsent: Unsent,
    session: Session<L>,
    // Whether there may be bytes to read.
    is_readable: bool,
    // Whether the other end sends no more: the end of the stream is to be read then.
    is_closed_there: bool,
    // Whether no more is read.
    is_ending: bool,
    // Whether no more is sent.
    is_broken: bool,
    // Whether no more is served, and it is over once no reply is owed.
    is_leaving: bool,
    // Whether the worker looks for the answers to its calls.
    is_listed: bool,
    // What it waits for since its last visit.
    next: Next,
}

/// What a connection waits for after a visit.
#[derive(Clone, Copy, Debug, Drop, PartialEq, Eq)]
pub enum Next {
    /// Its stream.
    Stream,
    /// The answer to a call, and its stream if it may have another call.
    Answer,
    /// Another visit: there is more to serve.
    Visit,
    /// Nothing: it is over.
    Over,
}

// Returns the code of a line's refusal.
fn code_of(refusal: Refusal) -> Code {
    match refusal {
        Refusal::Malformed => Code::InvalidRequest,
        Refusal::Memory => Code::UnknownServerError,
    }
}

impl<L: Ledger> Connection<L> {
    /// Creates the connection of a stream that does not block.
    pub fn new(alloc: Global, stream: TcpStream, pass: SessionPass<L>) -> Self {
        Connection {
            stream,
            line: BegunLine::new(alloc),
            read: Vec::new(alloc),
            served: 0,
            begun: 0,
            unsent: Unsent::new(alloc),
            session: Session::new(alloc, pass),
            is_readable: true,
            is_closed_there: false,
            is_ending: false,
            is_broken: false,
            is_leaving: false,
            is_listed: false,
            next: Next::Stream,
        }
    }

    /// Has the registry report under this key when there is something to read, or room to send.
    pub fn register(&mut self, registry: &Registry, key: usize) -> io::Result<()> {
        let both = Interest::READABLE | Interest::WRITABLE;
        registry.register(&mut self.stream, Token(key), both)
    }

    /// Notes that there may be bytes to read, or the end of the stream.
    pub fn note_readable(&mut self, is_closed_there: bool) {
        self.is_readable = true;
        self.is_closed_there = self.is_closed_there || is_closed_there;
    }

    /// Returns what it waits for since its last visit.
    pub fn next(&self) -> Next {
        self.next
    }

    /// Reads and serves no more. Sends the replies that are there, and later those to the calls that wait for answers, as far as
    /// the stream takes them at once; then it is over.
    pub fn shut_down(&mut self) {
        self.is_ending = true;
        self.is_leaving = true;
        self.send();
        self.next = self.after_visit();
    }

    /// Returns whether a reply is owed: a call waits for its answer then.
    pub fn is_calling(&self) -> bool {
        self.session.owes()
    }

    /// Returns whether the worker looks for the answers to its calls.
    pub fn is_listed(&self) -> bool {
        self.is_listed
    }

    /// Notes whether the worker looks for the answers to its calls.
    pub fn note_listed(&mut self, is_listed: bool) {
        self.is_listed = is_listed;
    }

    /// Ends the connection, and returns its pass, unless a call has it.
    pub fn into_pass(self) -> Option<SessionPass<L>> {
        let Connection { session, .. } = self;
        session.into_pass()
    }

    fn break_off(&mut self) {
        self.is_ending = true;
        self.is_broken = true;
    }

    // Ends the connection if there is no memory for a reply.
    fn keep(&mut self, added: Result<(), AllocError>) {
        if added.is_err() {
            self.break_off();
        }
    }

    /// Sends as much as the stream takes.
    pub fn send(&mut self) {
        if !self.is_broken && self.unsent.send(&mut self.stream).is_err() {
            self.break_off();
        }
    }

    // Takes the bytes of a read.
    fn take(&mut self, bytes: &[u8]) {
        self.read.clear();
        self.served = 0;
        if self.read.extend_from_slice(bytes).is_err() {
            self.break_off();
        }
    }

    // Reads once.
    fn receive(&mut self, buffer: &mut [u8]) {
        match self.stream.read(buffer) {
            Ok(0) => self.is_ending = true,
            Ok(count) => {
                // A stream that has no more is reported again once it has.
                self.is_readable = count == buffer.len() || self.is_closed_there;
                self.take(&buffer[..count]);
            }
            Err(error) => match error.kind() {
                ErrorKind::WouldBlock => self.is_readable = false,
                ErrorKind::Interrupted => {}
                _ => self.break_off(),
            },
        }
    }

    fn has_unserved(&self) -> bool {
        self.served < self.read.len()
    }

    fn may_serve(&self) -> bool {
        self.has_unserved()
            && !self.is_broken
            && !self.is_leaving
            && self.session.takes_more()
            && !self.unsent.is_full()
    }

    // Begins the call of a request, which came in a line of this many bytes.
    fn call<D: SectorDisk + Drop, R: Wait + Clock + RandomSource>(
        &mut self,
        rt: &R,
        server: &Server<'_, D, L>,
        bytes: usize,
        request: Request,
        requests: &mut Requests<L>,
    ) {
        if let Err(code) = self.session.begin(rt, server, bytes, request, requests) {
            self.refuse(bytes, code);
        }
    }

    // Refuses a line, after the replies that are owed for those before.
    fn refuse(&mut self, bytes: usize, code: Code) {
        let owed = self.session.owe(bytes, Reply::Refused(code));
        self.keep(owed);
    }

    // Notes that the bytes before this place are served. Returns how many of the line are.
    fn advance(&mut self, to: usize) -> usize {
        let more = to.saturating_sub(self.served);
        self.served = to;
        self.begun.saturating_add(more)
    }

    // Serves the next line that was read, or keeps the begin of one.
    fn serve_line<D: SectorDisk + Drop, R: Wait + Clock + RandomSource>(
        &mut self,
        rt: &R,
        server: &Server<'_, D, L>,
        requests: &mut Requests<L>,
    ) {
        let len = self.read.len();
        let from = self.served.min(len);
        match self.line.next(server.alloc, &self.read.as_slice()[from..]) {
            Ok(None) => self.begun = self.advance(len),
            Ok(Some((asked, after))) => {
                let to = len.saturating_sub(after.len());
                let bytes = self.advance(to);
                self.begun = 0;
                match asked {
                    Asked::Request(request) => self.call(rt, server, bytes, request, requests),
                    Asked::Refusal(refusal) => self.refuse(bytes, code_of(refusal)),
                }
            }
            Err(_too_long) => {
                let bytes = self.advance(len);
                self.is_ending = true;
                self.refuse(bytes, Code::InvalidRequest);
            }
        }
    }

    /// Takes the replies that are there, as far as none before them is missing. Returns whether there were any.
    pub fn take_replies<D: SectorDisk + Drop, R: Wait>(
        &mut self,
        rt: &R,
        server: &Server<'_, D, L>,
    ) -> bool {
        let owed = self.session.owed();
        for _ in 0..owed {
            let Some(reply) = self.session.next_reply(rt, server) else {
                break;
            };
            let added = self.unsent.add(&reply);
            self.keep(added);
        }
        server.tally.add_commits(self.session.take_commits());
        self.session.owed() < owed
    }

    // Serves the lines that were read, until no more may be served before a reply leaves, or much is unsent.
    fn serve<D: SectorDisk + Drop, R: Wait + Clock + RandomSource>(
        &mut self,
        rt: &R,
        server: &Server<'_, D, L>,
        requests: &mut Requests<L>,
    ) {
        for _ in 0..LINES_MAX {
            if !self.may_serve() || !self.session.reserve(rt, server) {
                return;
            }
            self.serve_line(rt, server, requests);
            self.take_replies(rt, server);
        }
    }

    fn after_visit(&self) -> Next {
        let is_calling = self.session.owes();
        let is_leaving = self.is_leaving || self.is_broken;
        if is_calling && (is_leaving || !self.session.takes_more()) {
            return Next::Answer;
        }
        let has_ended = self.is_ending && !self.has_unserved() && self.unsent.is_empty();
        if !is_calling && (is_leaving || has_ended) {
            return Next::Over;
        }
        let has_more = self.has_unserved() || (self.is_readable && !self.is_ending);
        if has_more && !self.unsent.is_full() {
            Next::Visit
        } else if is_calling {
            Next::Answer
        } else {
            Next::Stream
        }
    }

    /// Sends what is unsent, reads once, and serves what was read until no more may be served before a reply leaves. Adds the
    /// requests to a list, which is to be handed over.
    pub fn visit<D: SectorDisk + Drop, R: Wait + Clock + RandomSource>(
        &mut self,
        rt: &R,
        server: &Server<'_, D, L>,
        buffer: &mut [u8],
        requests: &mut Requests<L>,
    ) -> Next {
        if self.unsent.is_full() {
            self.send();
        }
        if self.session.takes_more() && !self.unsent.is_full() {
            if !self.has_unserved() && self.is_readable && !self.is_ending {
                self.receive(buffer);
            }
            self.serve(rt, server, requests);
        }
        self.send();
        self.next = self.after_visit();
        self.next
    }
}
