//! A bell that wakes one thread.
use std::sync::{Condvar, Mutex, Wait};
use std::time::{Clock, Duration};

/// A bell that one thread waits for and any thread rings. A ring that comes while no thread waits ends the next wait.
#[derive(Drop)]
pub struct Bell {
    rung: Mutex<bool>,
    changed: Condvar,
}

impl Bell {
    /// Creates a bell that has not been rung.
    pub fn new() -> Bell {
        Bell {
            rung: Mutex::new(false),
            changed: Condvar::new(),
        }
    }

    /// Rings the bell.
    pub fn ring<R: Wait>(&self, rt: &R) {
        *self.rung.lock(rt) = true;
        self.changed.notify_one();
    }

    /// Forgets a ring.
    pub fn hush<R: Wait>(&self, rt: &R) {
        *self.rung.lock(rt) = false;
    }

    /// Waits until the bell is rung, at most for this time. Returns whether it was rung.
    pub fn wait<R: Wait + Clock>(&self, rt: &R, most: Duration) -> bool {
        let (mut rung, _) = self
            .changed
            .wait_timeout_while(rt, self.rung.lock(rt), most, |rung| !*rung);
        let was_rung = *rung;
        *rung = false;
        was_rung
    }
}
