// The system's clock.
ghost use Rattle.std.specs.Prelude.{◌≡◌};

use px_ends::Clock;
use std::rt;
use std::time::Duration;

/// The clock of a runtime that doesn't go back. Where it can't be read, its last moment is returned again.
#[derive(Drop)]
pub struct SystemClock<R: rt::Clock + Drop> {
    rt: R,
    latest: u64,
}

// A duration in microseconds; beyond 64 bits, in half a million years, the greatest number of 64 bits.
fn microseconds(time: Duration) -> u64 {
    time.as_micros().min(u64::MAX as u128) as u64
}

impl<R: rt::Clock + Drop> SystemClock<R> {
    /// The clock of this runtime, which was never read. Takes no memory.
    pub fn new(rt: R) -> SystemClock<R>
        ensures { result.latest ≡ 0 }
    {
        SystemClock { rt, latest: 0 }
    }
}

impl<R: rt::Clock + Drop> Clock for SystemClock<R> {
    ghost latest = { λ c. c.latest };

    fn now(&mut self) -> u64 {
        if let Ok(time) = self.rt.monotonic() {
            self.latest = self.latest.max(microseconds(time));
        }
        self.latest
    }
}
