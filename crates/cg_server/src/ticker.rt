//! The ticker.
use crate::server::Server;
use cg_disk::SectorDisk;
use std::sync::Wait;
use std::sync::ledger::Ledger;
use std::time::{Clock, Duration};

/// Runs the timeouts every tick until the server is over.
pub fn tick_until_over<D: SectorDisk + Drop, L: Ledger, R: Wait + Clock>(
    rt: &R,
    server: &Server<'_, D, L>,
) {
    let pause = Duration::from_millis(server.options.tick_ms);
    for _ in rt.forever() {
        server.tick.wait(rt, pause);
        if server.is_over() {
            return;
        }
        // A tick that found no memory is made up for by the next one.
        let _ = server.engine.tick(rt, server.moments.now(rt));
        server.wake_callers();
    }
}
