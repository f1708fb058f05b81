// A source over bytes in memory.
ghost use Rattle.std.specs.Prelude.{◌≡◌, ◌<◌, ◌++◌, length, min, take, drop};
ghost use Rattle.px_ends.specs.Bytes.{ReadGives, ReadCounts};
ghost use Rattle.px_ends.specs.Memory.{read_answer, source_after};

use crate::{Calls, Got, Source};
use px_types::Text;
use std::marker::Model;

/// A source that has these bytes, whose listed calls fail. What is left is visible.
#[derive(Debug, Drop)]
pub struct MemSource {
    bytes: Text,
    at: usize,
    failing: Calls,
    calls: u64,
    faults: u64,
}

impl Model for MemSource {
    ghost use Rattle.std.specs.Prelude.{◌≤◌, length, drop};
    ghost use Rattle.px_ends.specs.Memory.{MemorySource};

    ghost Value = { MemorySource };

    ghost view = { λ s. record { left = drop s.at s.bytes; failing = s.failing; calls = s.calls; faults = s.faults } };

    ghost invariant = { λ s. s.at ≤ length s.bytes };
}

// Copies bytes to the front of the buffer until either ends, and answers how many.
pub fn copy_front(from: &[u8], buffer: &mut [u8]) -> usize
    ensures count { result ≡ min (length buffer.old) (length from.now) }
    ensures front { take result buffer.new ≡ take result from.now }
{
    let count = buffer.len().min(from.len());
    buffer[..count].copy_from_slice(&from[..count]);
    count
}

impl MemSource {
    /// A source of `bytes` whose calls numbered in `failing` fail. Takes no memory.
    pub fn new(bytes: Text, failing: Calls) -> MemSource
        ensures { result ≡ record { left = bytes; failing = failing; calls = 0; faults = 0 } }
    {
        MemSource {
            bytes,
            at: 0,
            failing,
            calls: 0,
            faults: 0,
        }
    }
}

impl Source for MemSource {
    ghost use Rattle.std.specs.Prelude.{Some};

    ghost left = { λ s. Some s.left };

    ghost faults = { λ s. s.faults };

    fn read(&mut self, buffer: &mut [u8]) -> Got
        requires { 0 < length buffer.old }
        ensures bytes { ReadGives result buffer.new (Some self.old.left) (Some self.new.left) }
        ensures count { ReadCounts result self.old.faults self.new.faults }
        ensures answer { result ≡ read_answer self.old (length buffer.old) }
        ensures after { self.new ≡ source_after self.old result }
    {
        self.calls = self.calls.saturating_add(1);
        if self.failing.has(self.calls) {
            self.faults = self.faults.saturating_add(1);
            return Got::Failed;
        }
        let left = &self.bytes.as_slice()[self.at..];
        if left.is_empty() {
            return Got::End;
        }
        let count = copy_front(left, buffer);
        self.at += count;
        Got::Bytes(count)
    }
}
