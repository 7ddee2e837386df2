//! A worker: a thread that serves many connections.
use crate::connection::{Connection, Next};
use crate::inbox::{Inbox, WOKEN, Watch};
use crate::server::Server;
use cg_disk::SectorDisk;
use cg_engine::{Requests, RoundEnd, SessionPass};
use mio::Registry;
use mio::event::Event;
use slab::Slab;
use std::mem;
use std::net::TcpStream;
use std::random::RandomSource;
use std::sync::Wait;
use std::sync::ledger::Ledger;
use std::time::{Clock, Duration};

/// Bytes of a read.
const READ_BYTES: usize = 8_192;

/// Most streams that are entered before the others have their turn.
const ENTERED_MAX: u32 = 64;

/// Requests that are read before they are handed over together. A visit may read some more.
const REQUESTS: usize = 32;

/// Longest wait while an allocation has failed, in milliseconds.
const RETRY_MS: u64 = 10;

/// The connections of one thread.
#[derive(Drop)]
struct Worker<'a, D: SectorDisk, L: Ledger, R> {
    rt: &'a R,
    server: &'a Server<'a, D, L>,
    inbox: &'a Inbox,
    connections: Slab<Connection<L>>,
    // Connections with calls that wait for answers.
    calling: Vec<usize>,
    // Connections that have more to serve.
    unserved: Vec<usize>,
    // Room for either list while it is gone through.
    spare: Vec<usize>,
    // What `Engine::answered` was when the worker last took the answers that were there.
    taken_at: u64,
    // Whether a list had no memory for a connection.
    has_missed: bool,
    // The requests that were read and not handed over.
    requests: Requests<L>,
    // Whether commands wait for a batch, none is in flight, and no thread was notified.
    has_pending: bool,
    // Whether a connection was listed since the worker last began to lie down.
    has_begun: bool,
    is_closed: bool,
}

impl<'a, D: SectorDisk + Drop, L: Ledger, R: Wait + Clock + RandomSource> Worker<'a, D, L, R> {
    fn new(rt: &'a R, server: &'a Server<'a, D, L>, inbox: &'a Inbox) -> Self {
        let alloc = server.alloc;
        Worker {
            rt,
            server,
            inbox,
            connections: Slab::new(alloc),
            calling: Vec::new(alloc),
            unserved: Vec::new(alloc),
            spare: Vec::new(alloc),
            taken_at: 0,
            has_missed: false,
            requests: Requests::new(alloc),
            has_pending: false,
            has_begun: false,
            is_closed: false,
        }
    }

    // Looks for the answers to the calls of a connection from now on.
    fn list(&mut self, key: usize) {
        if self.calling.push(key).is_err() {
            self.has_missed = true;
        }
    }

    // Visits a connection, and notes what it waits for.
    fn visit(&mut self, key: usize, buffer: &mut [u8]) {
        let Some(connection) = self.connections.get_mut(key) else {
            return;
        };
        let next = connection.visit(self.rt, self.server, buffer, &mut self.requests);
        let is_listed = connection.is_listed();
        let begins = connection.is_calling() && !is_listed;
        if begins {
            connection.note_listed(true);
            self.has_begun = true;
            self.list(key);
        }
        if self.requests.len() >= REQUESTS {
            self.hand_over();
        }
        match next {
            Next::Stream | Next::Answer => {}
            Next::Visit => {
                if self.unserved.push(key).is_err() {
                    self.has_missed = true;
                }
            }
            // One that is listed ends when its turn comes there.
            Next::Over => {
                if !is_listed {
                    self.leave(key);
                }
            }
        }
    }

    // Ends a connection.
    fn leave(&mut self, key: usize) {
        if let Some(connection) = self.connections.try_remove(key) {
            self.server.tally.end_connection();
            if let Some(pass) = connection.into_pass() {
                self.server.passes.give(self.rt, pass);
            }
        }
    }

    // Takes the answers to a connection's calls that are there, and serves it further.
    fn take_answer(&mut self, key: usize, buffer: &mut [u8]) {
        let Some(connection) = self.connections.get_mut(key) else {
            return;
        };
        let has_taken = connection.take_replies(self.rt, self.server);
        let is_calling = connection.is_calling();
        let next = connection.next();
        connection.note_listed(is_calling);
        if is_calling {
            self.list(key);
        }
        // One that has more to serve is visited anyway.
        if has_taken && next != Next::Visit {
            self.visit(key, buffer);
        } else if next == Next::Over {
            self.leave(key);
        }
    }

    // Takes the answers that are there, if some were sent since the last time.
    fn take_answers(&mut self, buffer: &mut [u8]) {
        let answered = self.server.engine.answered();
        if mem::replace(&mut self.taken_at, answered) == answered {
            return;
        }
        mem::swap(&mut self.calling, &mut self.spare);
        for _ in 0..self.spare.len() {
            if let Some(key) = self.spare.pop() {
                self.take_answer(key, buffer);
            }
        }
    }

    // Serves the connections that have more to serve.
    fn serve_more(&mut self, buffer: &mut [u8]) {
        mem::swap(&mut self.unserved, &mut self.spare);
        for _ in 0..self.spare.len() {
            if let Some(key) = self.spare.pop() {
                self.visit(key, buffer);
            }
        }
    }

    // Looks at a connection, whatever it waits for.
    fn look_at(&mut self, key: usize, buffer: &mut [u8]) {
        let Some(connection) = self.connections.get_mut(key) else {
            return;
        };
        connection.note_listed(false);
        connection.take_replies(self.rt, self.server);
        self.visit(key, buffer);
    }

    // Looks at every connection, after a list had no memory for one.
    fn serve_missed(&mut self, buffer: &mut [u8]) {
        if mem::replace(&mut self.has_missed, false) {
            self.calling.clear();
            self.unserved.clear();
            for key in 0..self.connections.capacity() {
                self.look_at(key, buffer);
            }
        }
    }

    // Registers a connection and serves it.
    fn begin(&mut self, registry: &Registry, key: usize, buffer: &mut [u8]) {
        let is_registered = match self.connections.get_mut(key) {
            Some(connection) => connection.register(registry, key).is_ok(),
            None => false,
        };
        if is_registered {
            self.visit(key, buffer);
        } else {
            self.leave(key);
        }
    }

    // Enters a stream with this pass.
    fn enter_with(
        &mut self,
        registry: &Registry,
        stream: TcpStream,
        pass: SessionPass<L>,
        buffer: &mut [u8],
    ) {
        // Without it a reply may wait for the client's next packet.
        let _ = stream.set_nodelay(true);
        let stream = mio::net::TcpStream::from_std(stream);
        let connection = Connection::new(self.server.alloc, stream, pass);
        match self.connections.insert(connection) {
            Ok(key) => {
                self.server.tally.begin_connection();
                self.begin(registry, key, buffer);
            }
            Err(refused) => {
                if let Some(pass) = refused.value.into_pass() {
                    self.server.passes.give(self.rt, pass);
                }
            }
        }
    }

    // Enters a stream. Closes it if there is no pass to be had, or the server closes.
    fn enter(&mut self, registry: &Registry, stream: TcpStream, buffer: &mut [u8]) {
        if self.server.is_closing() || stream.set_nonblocking(true).is_err() {
            return;
        }
        if let Some(pass) = self.server.passes.take(self.rt, self.server.engine) {
            self.enter_with(registry, stream, pass, buffer);
        }
    }

    // Enters streams that were handed over.
    fn enter_some(&mut self, registry: &Registry, buffer: &mut [u8]) {
        for _ in 0..ENTERED_MAX {
            let Some(stream) = self.inbox.take(self.rt) else {
                return;
            };
            self.enter(registry, stream, buffer);
        }
    }

    // Serves a stream that is ready.
    fn serve_event(&mut self, event: &Event, buffer: &mut [u8]) {
        let key = event.token().0;
        let Some(connection) = self.connections.get_mut(key) else {
            return;
        };
        if event.is_readable() {
            connection.note_readable(event.is_read_closed());
        }
        // One that has more to serve is visited anyway.
        if connection.next() != Next::Visit {
            self.visit(key, buffer);
        }
    }

    // Serves the streams that are ready.
    fn serve_events(&mut self, watch: &Watch, buffer: &mut [u8]) {
        for event in watch.events() {
            if event.token() != WOKEN {
                self.serve_event(event, buffer);
            }
        }
    }

    // Hands the requests that were read to the desk, all together: then the memory of the desk moves to this processor once for
    // all.
    fn hand_over(&mut self) {
        if self.server.hand_over(self.rt, &mut self.requests) {
            self.has_pending = true;
        }
    }

    // Hands requests over, and sees that what waits for the disk is stored. The flusher does that if it is awake. If it sleeps, this
    // thread stores it if all its connections wait for answers, which saves two switches to another thread; else it notifies
    // the flusher.
    fn flush(&mut self) {
        self.hand_over();
        if !mem::replace(&mut self.has_pending, false) || self.server.is_flushing() {
            return;
        }
        let is_idle = self.unserved.is_empty() && self.server.engine.answered() == self.taken_at;
        let waits = is_idle && self.calling.len() >= self.connections.len();
        if self.server.room.is_full()
            || !waits
            || self.server.room.is_tight(self.rt, self.server.engine)
        {
            self.server.engine.notify_flusher();
            return;
        }
        if self.server.flush_round(self.rt) != Ok(RoundEnd::Done) {
            // The flusher finds out why.
            self.server.engine.wake(self.rt);
            return;
        }
        self.server.room.watch(self.rt, self.server.engine);
    }

    // Returns whether something is to be done that no stream and no other thread will report.
    fn has_work(&self) -> bool {
        let is_to_close = self.server.is_closing() && !self.is_closed;
        let has_new = !self.inbox.is_empty(self.rt);
        let has_more = self.has_begun || self.has_pending || !self.unserved.is_empty();
        is_to_close || has_new || has_more || self.is_over()
    }

    // Returns how long the worker may wait. `None`: without a limit.
    fn most_wait(&self) -> Option<Duration> {
        if self.has_work() {
            Some(Duration::ZERO)
        } else if self.has_missed {
            Some(Duration::from_millis(RETRY_MS))
        } else {
            None
        }
    }

    // Sends the replies that are there and ends every connection, once the server closes. One that is listed ends when its turn
    // comes there.
    fn close(&mut self) {
        if !self.server.is_closing() || mem::replace(&mut self.is_closed, true) {
            return;
        }
        self.hand_over();
        for key in 0..self.connections.capacity() {
            let Some(connection) = self.connections.get_mut(key) else {
                continue;
            };
            connection.take_replies(self.rt, self.server);
            connection.shut_down();
            if !connection.is_listed() {
                self.leave(key);
            }
        }
    }

    // Returns whether the last connection has ended, and no more come.
    fn is_over(&self) -> bool {
        self.connections.is_empty() && self.server.is_done() && self.inbox.is_empty(self.rt)
    }

    // Takes the answers that are there, then waits for something to do.
    fn rest(&mut self, watch: &mut Watch, buffer: &mut [u8]) {
        self.has_begun = false;
        self.inbox.lie_down(!self.calling.is_empty());
        self.take_answers(buffer);
        self.flush();
        watch.wait(self.most_wait());
        self.inbox.get_up();
    }

    // Does what there is to do.
    fn work(&mut self, watch: &Watch, buffer: &mut [u8]) {
        self.close();
        self.enter_some(watch.registry(), buffer);
        self.serve_events(watch, buffer);
        self.serve_more(buffer);
        self.serve_missed(buffer);
        self.flush();
        self.take_answers(buffer);
    }
}

/// Serves the connections of an inbox until no more come and the last has ended.
pub fn serve_inbox<'a, D: SectorDisk + Drop, L: Ledger, R: Wait + Clock + RandomSource>(
    rt: &'a R,
    server: &'a Server<'a, D, L>,
    inbox: &'a Inbox,
) {
    let Some(mut watch) = inbox.take_watch(rt) else {
        return;
    };
    let mut worker = Worker::new(rt, server, inbox);
    let mut buffer = [0; READ_BYTES];
    for _ in rt.forever() {
        if worker.is_over() {
            return;
        }
        worker.rest(&mut watch, &mut buffer);
        worker.work(&watch, &mut buffer);
    }
}
