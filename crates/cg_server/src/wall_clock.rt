//! The moments of calls and ticks: milliseconds since the beginning of 1970 (UTC), so that moments in the log mean the same in
//! each life of the server.
ghost use Rattle.std.specs.Prelude.{◌≡◌, IfErr};
ghost use Rattle.cg_server.specs.declared.stop.Stop.TheVariants as stop;

use crate::stop::Stop;
use cg_names::Moment;
use std::sync::atomic::{AtomicU64, Ordering};
use std::time::{Clock, Duration};

const SECOND_MS: u64 = 1_000;

// Returns the whole milliseconds of a time, or the greatest number if they are more.
fn millis_of(time: Duration) -> u64 {
    time.as_secs()
        .saturating_mul(SECOND_MS)
        .saturating_add(u64::from(time.subsec_millis()))
}

// Returns the milliseconds of the monotonic clock, or `None` if it cannot be read.
fn monotonic_millis<R: Clock>(rt: &R) -> Option<u64> {
    match rt.monotonic() {
        Ok(time) => Some(millis_of(time)),
        Err(_) => None,
    }
}

/// Returns the present moment by the system's clock.
pub fn present<R: Clock>(rt: &R) -> Result<Moment, Stop>
    ensures { IfErr result (λ cause. cause ≡ stop.Clock) }
{
    match rt.since_1970() {
        Ok(time) => Ok(Moment::from_millis(millis_of(time))),
        Err(_) => Err(Stop::Clock),
    }
}

/// A clock that shows the moment of loading until it begins, once the log is loaded: so the session timeouts of loaded members
/// run from the end of the load, however long that takes. From then on it goes with the monotonic clock: setting the system's
/// clock does not move it. While the monotonic clock cannot be read it shows the moment of loading. An engine takes an earlier
/// moment as its last one, so that time stands still for it then.
#[derive(Drop)]
pub struct Moments {
    loading: Moment,
    // What the monotonic clock showed at the moment of loading, in milliseconds.
    created: u64,
    // What it showed when this one began; before that the greatest number.
    start: AtomicU64,
}

impl Moments {
    /// Creates a clock that has not begun, and shows the present moment. Reports a clock that cannot be read.
    pub fn new<R: Clock>(rt: &R) -> Result<Moments, Stop>
        ensures { IfErr result (λ cause. cause ≡ stop.Clock) }
    {
        let loading = present(rt)?;
        match monotonic_millis(rt) {
            Some(created) => Ok(Moments {
                loading,
                created,
                start: AtomicU64::new(u64::MAX),
            }),
            None => Err(Stop::Clock),
        }
    }

    /// Returns the moment at which the log is loaded.
    pub fn loading(&self) -> Moment {
        self.loading
    }

    /// Begins; if the monotonic clock cannot be read, as if it had begun at the moment of loading.
    pub fn begin<R: Clock>(&self, rt: &R) {
        let start = monotonic_millis(rt).unwrap_or(self.created);
        self.start.store(start, Ordering::SeqCst);
    }

    // Returns the milliseconds since it began; 0 if the monotonic clock cannot be read.
    fn elapsed<R: Clock>(&self, rt: &R) -> u64 {
        match monotonic_millis(rt) {
            Some(millis) => millis.saturating_sub(self.start.load(Ordering::SeqCst)),
            None => 0,
        }
    }

    /// Returns the present moment.
    pub fn now<R: Clock>(&self, rt: &R) -> Moment {
        let elapsed = self.elapsed(rt);
        Moment::from_millis(self.loading.as_millis().saturating_add(elapsed))
    }

    /// Returns the whole seconds since it began.
    pub fn seconds<R: Clock>(&self, rt: &R) -> u64 {
        self.elapsed(rt) / SECOND_MS
    }
}
