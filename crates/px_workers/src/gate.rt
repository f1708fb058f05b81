//! What a server's workers wait for between their steps.

use px_types::{ConnId, SinkId};
use std::rt::Clock;
use std::sync::Wait;
use std::thread::sleep;
use std::time::Duration;

/// How long a sink's worker sleeps before each turn, in milliseconds.
const PACE: u64 = 5;

/// What the workers call between their steps, so that who runs the server says when they go on. Own.
pub trait Gate {
    /// Before each turn of a sink.
    fn before_turn(&self, sink: SinkId);

    /// After each packet of a client was handled.
    fn after_packet(&self, conn: ConnId);
}

/// The gate of the program: 5 milliseconds before each turn, so that a history in memory holds some minutes of turns.
#[derive(Clone, Copy, Drop)]
pub struct PaceGate<R> {
    rt: R,
}

impl<R: Clock> PaceGate<R> {
    /// The gate that sleeps by this runtime's clock. Takes no memory.
    pub fn new(rt: R) -> PaceGate<R> {
        PaceGate { rt }
    }
}

impl<R: Clock> Gate for PaceGate<R> {
    fn before_turn(&self, _sink: SinkId) {
        sleep(&self.rt, Duration::from_millis(PACE));
    }

    fn after_packet(&self, _conn: ConnId) {}
}
