//! What other threads hand to a worker, and what wakes it.
use mio::{Events, Poll, Registry, Token, Waker};
use std::alloc::Global;
use std::collections::VecDeque;
use std::io;
use std::net::{Net, TcpStream};
use std::sync::atomic::{AtomicBool, Ordering};
use std::sync::{Mutex, Wait};
use std::time::Duration;

/// The token of the event by which a worker learns that it was woken. Keys of connections are smaller.
pub const WOKEN: Token = Token(usize::MAX);

/// Most events of one wait.
const EVENTS: usize = 256;

/// What a worker waits with for its streams.
#[derive(Drop)]
pub struct Watch {
    poll: Poll,
    events: Events<Global>,
}

impl Watch {
    fn new<R: Net>(rt: &R, alloc: Global) -> io::Result<Watch> {
        Ok(Watch {
            poll: Poll::new(rt)?,
            events: Events::with_capacity(alloc, EVENTS)?,
        })
    }

    /// Returns the streams that are waited for.
    pub fn registry(&self) -> &Registry {
        self.poll.registry()
    }

    /// Waits until a stream is ready, the worker is woken, or the time is up. `None`: without a limit.
    pub fn wait(&mut self, most: Option<Duration>) {
        // After an error there are no events, and the worker looks again.
        let _ = self.poll.poll(&mut self.events, most);
    }

    /// Returns what the last wait found.
    pub fn events(&self) -> &Events<Global> {
        &self.events
    }
}

/// The streams that a worker has still to serve, and what wakes it while it waits.
#[derive(Drop)]
pub struct Inbox {
    streams: Mutex<VecDeque<TcpStream>>,
    // What the worker waits with, until it begins.
    watch: Mutex<Option<Watch>>,
    waker: Waker,
    // Whether the worker waits, or is about to.
    is_asleep: AtomicBool,
    // Whether it waits for answers to calls then.
    is_calling: AtomicBool,
}

impl Inbox {
    /// Creates the inbox of a worker.
    pub fn new<R: Net>(rt: &R, alloc: Global) -> io::Result<Inbox> {
        let watch = Watch::new(rt, alloc)?;
        let waker = Waker::new(watch.registry(), WOKEN)?;
        Ok(Inbox {
            streams: Mutex::new(VecDeque::new(alloc)),
            watch: Mutex::new(Some(watch)),
            waker,
            is_asleep: AtomicBool::new(false),
            is_calling: AtomicBool::new(false),
        })
    }

    /// Takes what the worker waits with. Returns `None` the second time.
    pub fn take_watch<R: Wait>(&self, rt: &R) -> Option<Watch> {
        self.watch.lock(rt).take()
    }

    /// Hands a stream to the worker. If an allocation fails, the stream is closed.
    pub fn put<R: Wait>(&self, rt: &R, stream: TcpStream) {
        let _ = self.streams.lock(rt).push_back(stream);
        self.wake();
    }

    /// Takes the first stream that is still to be served.
    pub fn take<R: Wait>(&self, rt: &R) -> Option<TcpStream> {
        self.streams.lock(rt).pop_front()
    }

    /// Returns whether no stream is still to be served.
    pub fn is_empty<R: Wait>(&self, rt: &R) -> bool {
        self.streams.lock(rt).is_empty()
    }

    /// Wakes the worker, if it waits or is about to. The wake adds to a counter of the system's, and reads it first if it is
    /// full, so it has no error but that of a descriptor which is no such counter: the waker is made with its own, and has it
    /// until it is dropped, after the workers have ended.
    pub fn wake(&self) {
        if self.is_asleep.swap(false, Ordering::SeqCst) {
            let _ = self.waker.wake();
        }
    }

    /// Wakes the worker, if it waits for answers to calls too, or is about to.
    pub fn wake_caller(&self) {
        if self.is_calling.load(Ordering::SeqCst) {
            self.wake();
        }
    }

    /// Notes that the worker is about to wait, with calls under way or without. What it looks at between this and its wait
    /// it does not miss: whoever changes that afterwards wakes it.
    pub fn lie_down(&self, is_calling: bool) {
        self.is_calling.store(is_calling, Ordering::SeqCst);
        self.is_asleep.store(true, Ordering::SeqCst);
    }

    /// Notes that the worker waits no longer.
    pub fn get_up(&self) {
        self.is_asleep.store(false, Ordering::SeqCst);
    }
}
