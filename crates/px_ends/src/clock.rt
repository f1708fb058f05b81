// The source of the time.
ghost use Rattle.std.specs.Prelude.{◌≡◌, ℕ, ◌≤◌};

/// A clock, seen by contracts as its latest answer.
pub trait Clock {
    /// The last moment that it answered: 0 before the first.
    ghost latest: { Self → ℕ };

    /// The time in microseconds since an arbitrary start of the clock's own. It never falls.
    fn now(&mut self) -> u64
        ensures value { result ≡ latest self.new }
        ensures later { latest self.old ≤ latest self.new };
}
