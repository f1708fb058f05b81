// A clock over a list of moments in memory.
ghost use Rattle.std.specs.Prelude.{◌≡◌, ◌≤◌, slice_get};
ghost use Rattle.px_ends.specs.MemoryClock.{moment_in, clock_after};

use crate::Clock;
use std::marker::Model;

/// Moments in microseconds, in order.
#[derive(Debug, Drop)]
pub struct Moments {
    moments: Vec<u64>,
}

impl Model for Moments {
    ghost use Rattle.std.specs.Prelude.{List, ℕ};

    ghost Value = { List ℕ };

    ghost view = { λ m. m.moments.items };
}

impl Moments {
    /// These moments. Takes no memory.
    pub fn from_vec(moments: Vec<u64>) -> Moments
        ensures { result ≡ moments.items }
    {
        Moments { moments }
    }

    /// The moment at place `number`, from 0; `None` exactly where there are no more than that.
    pub fn get(&self, number: usize) -> Option<u64>
        ensures { result ≡ slice_get self.now number }
    {
        self.moments.get(number).copied()
    }
}

/// A clock that answers these moments one after the other, and then the last one again. A moment earlier than the one answered before is
/// replaced by that one.
#[derive(Debug, Drop)]
pub struct MemClock {
    moments: Moments,
    calls: usize,
    latest: u64,
}

impl Model for MemClock {
    ghost use Rattle.px_ends.specs.MemoryClock.{MemoryClock};

    ghost Value = { MemoryClock };

    ghost view = { λ c. record { moments = c.moments; calls = c.calls; latest = c.latest } };
}

impl MemClock {
    /// A clock of these moments that hasn't been read yet. Takes no memory.
    pub fn new(moments: Moments) -> MemClock
        ensures { result ≡ record { moments = moments; calls = 0; latest = 0 } }
    {
        MemClock {
            moments,
            calls: 0,
            latest: 0,
        }
    }
}

impl Clock for MemClock {
    ghost latest = { λ c. c.latest };

    fn now(&mut self) -> u64
        ensures value { result ≡ self.new.latest }
        ensures later { self.old.latest ≤ self.new.latest }
        ensures answer { result ≡ moment_in self.old }
        ensures after { self.new ≡ clock_after self.old }
    {
        let next = self.moments.get(self.calls).unwrap_or(self.latest);
        self.latest = self.latest.max(next);
        self.calls = self.calls.saturating_add(1);
        self.latest
    }
}
