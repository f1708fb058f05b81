// Bytes in and bytes out: the traits of the program's input, output and log.
ghost use Rattle.std.specs.Prelude.{◌≡◌, ℕ, ◌<◌, List, Option, length};
ghost use Rattle.px_ends.specs.Bytes.{ReadGives, ReadCounts, WriteTakes, WriteCounts};

/// What a read answers.
#[derive(Clone, Copy, Debug, PartialEq, Eq)]
pub enum Got {
    /// This many bytes, at least one, moved into the front of the buffer.
    Bytes(usize),
    /// Nothing is left.
    End,
    /// The read failed. Nothing moved.
    Failed,
}

/// Where bytes come from.
pub trait Source {
    /// The bytes that are left, where they are visible.
    ghost left: { Self → Option (List ℕ) };

    /// How many of its calls failed. Never falls.
    ghost faults: { Self → ℕ };

    /// Moves the first bytes that are left into the front of the buffer.
    fn read(&mut self, buffer: &mut [u8]) -> Got
        requires { 0 < length buffer.old }
        ensures bytes { ReadGives result buffer.new (left self.old) (left self.new) }
        ensures count { ReadCounts result (faults self.old) (faults self.new) };
}

/// What a write answers.
#[derive(Clone, Copy, Debug, PartialEq, Eq)]
pub enum Took {
    /// This many bytes, at least one, were taken from the front of those given.
    Bytes(usize),
    /// The write failed, or there is no room. Nothing was taken.
    Failed,
}

/// Where bytes go.
pub trait Sink {
    /// The bytes that it has taken, where they are visible.
    ghost held: { Self → Option (List ℕ) };

    /// How many of its calls failed. Never falls.
    ghost faults: { Self → ℕ };

    /// Takes the first of these bytes, or none.
    fn write(&mut self, bytes: &[u8]) -> Took
        requires { 0 < length bytes.now }
        ensures bytes { WriteTakes result bytes.now (held self.old) (held self.new) }
        ensures count { WriteCounts result (faults self.old) (faults self.new) };
}
