// A link in memory that shares what it was sent.
ghost use Rattle.std.specs.Prelude.{◌≡◌, ◌<◌, ◌≤◌, length, min, take, None};
ghost use Rattle.px_ends.specs.Links.{RecvGives, RecvCounts, SendTakes, SendCounts};
ghost use Rattle.px_mem_host.specs.SharedLink.{GivesFront, Answers, new_link, recv_answer, after_recv, send_answer, after_send};

use crate::LinkPlan;
use px_ends::{Calls, Link, Recv, Sent};
use px_types::Text;
use std::marker::Model;
use std::sync::{Arc, Mutex, Wait};

/// A link that gives some bytes and then the end, but not before `end_after` bytes were sent: until then it isn't ready. What it was sent is in a
/// list shared with its test, and not visible to contracts. Own.
#[derive(Drop)]
pub struct SharedLink<R: Wait> {
    rt: R,
    bytes: Text,
    at: usize,
    shared: Arc<Mutex<Text>>,
    sent: usize,
    room: usize,
    end_after: usize,
    late: Calls,
    failing: Calls,
    calls: u64,
    faults: u64,
    ends: u64,
    not_yets: u64,
}

impl<R: Wait> Model for SharedLink<R> {
    ghost use Rattle.std.specs.Prelude.{◌≤◌, length, drop};
    ghost use Rattle.px_mem_host.specs.SharedLink.{SharedState};

    ghost Value = { SharedState };

    ghost view = { λ l. record {
      left = drop l.at l.bytes;
      sent = l.sent;
      room = l.room;
      end_after = l.end_after;
      late = l.late;
      failing = l.failing;
      calls = l.calls;
      faults = l.faults;
      ends = l.ends;
      not_yets = l.not_yets;
    } };

    ghost invariant = { λ l. (l.at ≤ length l.bytes) × (l.sent ≤ l.room) };
}

// Copies the front of `from` to the front of `buffer`, as far as both reach, and returns the number of bytes.
fn copy_front(from: &[u8], buffer: &mut [u8]) -> usize
    ensures count { result ≡ min (length buffer.old) (length from.now) }
    ensures front { take result buffer.new ≡ take result from.now }
{
    let count = buffer.len().min(from.len());
    buffer[..count].copy_from_slice(&from[..count]);
    count
}

impl<R: Wait> SharedLink<R> {
    /// The link of these settings. Takes no memory.
    pub fn new(rt: R, plan: LinkPlan) -> SharedLink<R>
        ensures { result ≡ new_link plan }
    {
        SharedLink {
            rt,
            bytes: plan.bytes,
            at: 0,
            shared: plan.sent,
            sent: 0,
            room: plan.room,
            end_after: plan.end_after,
            late: plan.late,
            failing: plan.fail,
            calls: 0,
            faults: 0,
            ends: 0,
            not_yets: 0,
        }
    }

    /// How often its calls failed.
    pub fn faults(&self) -> u64
        ensures { result ≡ self.now.faults }
    {
        self.faults
    }

    /// How often its calls answered the end.
    pub fn ends(&self) -> u64
        ensures { result ≡ self.now.ends }
    {
        self.ends
    }

    /// How often its calls found it not ready.
    pub fn not_yets(&self) -> u64
        ensures { result ≡ self.now.not_yets }
    {
        self.not_yets
    }
}

impl<R: Wait> Link for SharedLink<R> {
    ghost left = { λ _. None };

    ghost sent = { λ _. None };

    ghost counts = { λ l. record { faults = l.faults; ends = l.ends; not_yets = l.not_yets } };

    fn recv(&mut self, buffer: &mut [u8]) -> Recv
        requires { 0 < length buffer.old }
        ensures bytes { RecvGives result buffer.new None None }
        ensures count { RecvCounts result
            (record { faults = self.old.faults; ends = self.old.ends; not_yets = self.old.not_yets })
            (record { faults = self.new.faults; ends = self.new.ends; not_yets = self.new.not_yets }) }
        ensures front { GivesFront result buffer.new self.old.left }
        ensures answer { result ≡ recv_answer self.old (length buffer.old) }
        ensures after { self.new ≡ after_recv self.old result }
    {
        self.calls = self.calls.saturating_add(1);
        if self.failing.has(self.calls) {
            self.faults = self.faults.saturating_add(1);
            return Recv::Failed;
        }
        if self.late.has(self.calls) {
            self.not_yets = self.not_yets.saturating_add(1);
            return Recv::NotYet;
        }
        let left = &self.bytes.as_slice()[self.at..];
        if !left.is_empty() {
            let count = copy_front(left, buffer);
            self.at += count;
            return Recv::Bytes(count);
        }
        if self.sent < self.end_after {
            self.not_yets = self.not_yets.saturating_add(1);
            return Recv::NotYet;
        }
        self.ends = self.ends.saturating_add(1);
        Recv::End
    }

    // The shared list has room for all that is sent, unless its other owner put another in its place.
    fn send(&mut self, bytes: &[u8]) -> Sent
        requires { 0 < length bytes.now }
        ensures bytes { SendTakes result bytes.now None None }
        ensures count { SendCounts result
            (record { faults = self.old.faults; ends = self.old.ends; not_yets = self.old.not_yets })
            (record { faults = self.new.faults; ends = self.new.ends; not_yets = self.new.not_yets }) }
        ensures answer { Answers result (send_answer self.old (length bytes.now)) }
        ensures after { self.new ≡ after_send self.old result }
    {
        self.calls = self.calls.saturating_add(1);
        if self.failing.has(self.calls) {
            self.faults = self.faults.saturating_add(1);
            return Sent::Failed;
        }
        if self.late.has(self.calls) {
            self.not_yets = self.not_yets.saturating_add(1);
            return Sent::NotYet;
        }
        let count = (self.room - self.sent).min(bytes.len());
        if count == 0 || self.shared.lock(&self.rt).extend(&bytes[..count]).is_err() {
            self.faults = self.faults.saturating_add(1);
            return Sent::Failed;
        }
        self.sent += count;
        Sent::Bytes(count)
    }
}
