// A link over bytes in memory.
ghost use Rattle.std.specs.Prelude.{◌≡◌, ◌<◌, [], length, IfOk};
ghost use Rattle.px_ends.specs.Links.{RecvGives, RecvCounts, SendTakes, SendCounts};
ghost use Rattle.px_ends.specs.Memory.{recv_answer, link_after_recv, send_answer, link_after_send};

use crate::memory_source::copy_front;
use crate::{Calls, Link, Recv, Sent};
use px_types::{Mem, NoMemory, Text};
use std::alloc::Global;
use std::marker::Model;

/// A link that gives these bytes and then the end, and has limited room for sent bytes. Of its calls, those listed as late find it not
/// ready, and those listed as failing fail. What is left and what was sent are visible.
#[derive(Debug, Drop)]
pub struct MemLink {
    bytes: Text,
    at: usize,
    taken: Vec<u8>,
    room: usize,
    late: Calls,
    failing: Calls,
    calls: u64,
    faults: u64,
    ends: u64,
    not_yets: u64,
}

impl Model for MemLink {
    ghost use Rattle.std.specs.Prelude.{◌≤◌, length, drop, vec_capacity};
    ghost use Rattle.px_ends.specs.Memory.{MemoryLink};

    ghost Value = { MemoryLink };

    ghost view = { λ l. record {
      left = drop l.at l.bytes;
      sent = l.taken.items;
      room = l.room;
      late = l.late;
      failing = l.failing;
      calls = l.calls;
      faults = l.faults;
      ends = l.ends;
      not_yets = l.not_yets;
    } };

    ghost invariant = { λ l. (l.at ≤ length l.bytes) × (length l.taken.items ≤ l.room) × (l.room ≤ vec_capacity l.taken) };
}

impl MemLink {
    /// A link that gives `bytes` and takes up to `room` bytes. A send that finds it full fails. A call that is listed as late and as
    /// failing fails.
    pub fn new(alloc: Global, bytes: Text, room: usize, late: Calls, failing: Calls) -> Mem<MemLink>
        ensures { IfOk result (λ l. l ≡ record {
          left = bytes;
          sent = [];
          room = room;
          late = late;
          failing = failing;
          calls = 0;
          faults = 0;
          ends = 0;
          not_yets = 0;
        }) }
    {
        Ok(MemLink {
            bytes,
            at: 0,
            taken: Vec::with_capacity(alloc, room)?,
            room,
            late,
            failing,
            calls: 0,
            faults: 0,
            ends: 0,
            not_yets: 0,
        })
    }

    /// How often its calls failed.
    pub fn faults(&self) -> u64
        ensures { result ≡ self.now.faults }
    {
        self.faults
    }

    /// How often its calls answered the end.
    pub fn ends(&self) -> u64
        ensures { result ≡ self.now.ends }
    {
        self.ends
    }

    /// How often its calls found it not ready.
    pub fn not_yets(&self) -> u64
        ensures { result ≡ self.now.not_yets }
    {
        self.not_yets
    }

    /// The bytes that were sent.
    pub fn sent(&self) -> &[u8]
        ensures { result.now ≡ self.now.sent }
    {
        self.taken.as_slice()
    }
}

impl Link for MemLink {
    ghost use Rattle.std.specs.Prelude.{Some};

    ghost left = { λ l. Some l.left };

    ghost sent = { λ l. Some l.sent };

    ghost counts = { λ l. record { faults = l.faults; ends = l.ends; not_yets = l.not_yets } };

    fn recv(&mut self, buffer: &mut [u8]) -> Recv
        requires { 0 < length buffer.old }
        ensures bytes { RecvGives result buffer.new (Some self.old.left) (Some self.new.left) }
        ensures other { Some self.new.sent ≡ Some self.old.sent }
        ensures count { RecvCounts result
            (record { faults = self.old.faults; ends = self.old.ends; not_yets = self.old.not_yets })
            (record { faults = self.new.faults; ends = self.new.ends; not_yets = self.new.not_yets }) }
        ensures answer { result ≡ recv_answer self.old (length buffer.old) }
        ensures after { self.new ≡ link_after_recv self.old result }
    {
        self.calls = self.calls.saturating_add(1);
        if self.failing.has(self.calls) {
            self.faults = self.faults.saturating_add(1);
            return Recv::Failed;
        }
        if self.late.has(self.calls) {
            self.not_yets = self.not_yets.saturating_add(1);
            return Recv::NotYet;
        }
        let left = &self.bytes.as_slice()[self.at..];
        if left.is_empty() {
            self.ends = self.ends.saturating_add(1);
            return Recv::End;
        }
        let count = copy_front(left, buffer);
        self.at += count;
        Recv::Bytes(count)
    }

    fn send(&mut self, bytes: &[u8]) -> Sent
        requires { 0 < length bytes.now }
        ensures bytes { SendTakes result bytes.now (Some self.old.sent) (Some self.new.sent) }
        ensures other { Some self.new.left ≡ Some self.old.left }
        ensures count { SendCounts result
            (record { faults = self.old.faults; ends = self.old.ends; not_yets = self.old.not_yets })
            (record { faults = self.new.faults; ends = self.new.ends; not_yets = self.new.not_yets }) }
        ensures answer { result ≡ send_answer self.old (length bytes.now) }
        ensures after { self.new ≡ link_after_send self.old result bytes.now }
    {
        self.calls = self.calls.saturating_add(1);
        if self.failing.has(self.calls) {
            self.faults = self.faults.saturating_add(1);
            return Sent::Failed;
        }
        if self.late.has(self.calls) {
            self.not_yets = self.not_yets.saturating_add(1);
            return Sent::NotYet;
        }
        let room = self.room - self.taken.len();
        if room == 0 {
            self.faults = self.faults.saturating_add(1);
            return Sent::Failed;
        }
        let count = room.min(bytes.len());
        self.taken.extend_from_slice(&bytes[..count]).unwrap();
        Sent::Bytes(count)
    }
}
