// A sink that stores what it takes in memory.
ghost use Rattle.std.specs.Prelude.{◌≡◌, ◌<◌, [], length, IfOk};
ghost use Rattle.px_ends.specs.Bytes.{WriteTakes, WriteCounts};
ghost use Rattle.px_ends.specs.Memory.{write_answer, sink_after};

use crate::{Calls, Sink, Took};
use px_types::{Mem, NoMemory};
use std::alloc::Global;
use std::marker::Model;

/// A sink with a fixed room, taken when it is made, whose listed calls fail. What it took is visible.
#[derive(Debug, Drop)]
pub struct MemSink {
    taken: Vec<u8>,
    room: usize,
    failing: Calls,
    calls: u64,
    faults: u64,
}

impl Model for MemSink {
    ghost use Rattle.std.specs.Prelude.{◌≤◌, length, vec_capacity};
    ghost use Rattle.px_ends.specs.Memory.{MemorySink};

    ghost Value = { MemorySink };

    ghost view = { λ s. record { held = s.taken.items; room = s.room; failing = s.failing; calls = s.calls; faults = s.faults } };

    ghost invariant = { λ s. (length s.taken.items ≤ s.room) × (s.room ≤ vec_capacity s.taken) };
}

impl MemSink {
    /// A sink that takes up to `room` bytes in all. A write that finds it full fails, and so do the calls numbered in `failing`.
    pub fn new(alloc: Global, room: usize, failing: Calls) -> Mem<MemSink>
        ensures { IfOk result (λ s. s ≡ record { held = []; room = room; failing = failing; calls = 0; faults = 0 }) }
    {
        Ok(MemSink {
            taken: Vec::with_capacity(alloc, room)?,
            room,
            failing,
            calls: 0,
            faults: 0,
        })
    }

    /// The bytes that it took.
    pub fn bytes(&self) -> &[u8]
        ensures { result.now ≡ self.now.held }
    {
        self.taken.as_slice()
    }
}

impl Sink for MemSink {
    ghost use Rattle.std.specs.Prelude.{Some};

    ghost held = { λ s. Some s.held };

    ghost faults = { λ s. s.faults };

    fn write(&mut self, bytes: &[u8]) -> Took
        requires { 0 < length bytes.now }
        ensures bytes { WriteTakes result bytes.now (Some self.old.held) (Some self.new.held) }
        ensures count { WriteCounts result self.old.faults self.new.faults }
        ensures answer { result ≡ write_answer self.old (length bytes.now) }
        ensures after { self.new ≡ sink_after self.old result bytes.now }
    {
        self.calls = self.calls.saturating_add(1);
        let room = self.room - self.taken.len();
        if self.failing.has(self.calls) || room == 0 {
            self.faults = self.faults.saturating_add(1);
            return Took::Failed;
        }
        let count = room.min(bytes.len());
        self.taken.extend_from_slice(&bytes[..count]).unwrap();
        Took::Bytes(count)
    }
}
