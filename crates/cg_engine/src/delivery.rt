//! Answers on their way to the passes that wait for them.
ghost use Rattle.std.specs.Prelude.{◌≢◌, ◌⊎◌, ◌↔◌, [], true, ◌≡◌, IsTrue};

use crate::answer::Answer;
use crossbeam_channel::Sender;
use std::alloc::Global;
use std::sync::Wait;
use std::sync::ledger::Ledger;

/// An answer, and the channel to the pass that waits for it.
#[derive(Drop)]
pub struct Delivery<L: Ledger> {
    pub to: Sender<Answer<L>>,
    pub answer: Answer<L>,
}

// Sends an answer. This fails only if the pass was dropped.
fn send<L: Ledger, R: Wait>(rt: &R, to: &Sender<Answer<L>>, answer: Answer<L>) {
    let _ = to.send(rt, answer);
}

/// Answers that are sent once the desk lock is free again, so that a thread that wakes up finds it free.
#[derive(Drop)]
pub struct Deliveries<L: Ledger> {
    list: Vec<Delivery<L>>,
    // Whether an answer was sent already.
    has_sent: bool,
}

impl<L: Ledger> Deliveries<L> {
    /// Creates an empty list.
    pub fn new(alloc: Global) -> Self {
        Deliveries {
            list: Vec::new(alloc),
            has_sent: false,
        }
    }

    /// Adds an answer. If an allocation fails, the answer is sent at once.
    pub fn add<R: Wait>(&mut self, rt: &R, delivery: Delivery<L>)
        ensures { (self.new.has_sent ≡ true) ⊎ (self.new.list.items ≢ []) }
    {
        let _ = self.list.reserve(1);
        if self.list.len() < self.list.capacity() {
            self.list.push_reserved(delivery);
        } else {
            let Delivery { to, answer } = delivery;
            self.send(rt, &to, answer);
        }
    }

    /// Sends an answer at once.
    pub fn send<R: Wait>(&mut self, rt: &R, to: &Sender<Answer<L>>, answer: Answer<L>)
        ensures { self.new.has_sent ≡ true }
    {
        self.has_sent = true;
        send(rt, to, answer);
    }

    /// Sends the answers, in their order. Returns whether there were any, with those that were sent at once.
    pub fn send_all<R: Wait>(self, rt: &R) -> bool
        ensures { IsTrue result ↔ ((self.has_sent ≡ true) ⊎ (self.list.items ≢ [])) }
    {
        let Deliveries { list, has_sent } = self;
        let sends = has_sent || !list.is_empty();
        for Delivery { to, answer } in list {
            send(rt, &to, answer);
        }
        sends
    }
}
