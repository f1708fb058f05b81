// A device that plays by a clock.
ghost use Rattle.std.specs.Prelude.{◌≡◌, ◌+◌, ◌-◌, ◌^◌, ◌<◌, ◌≤◌, IfOk, OnOk, OnErr, IsTrue, IsFalse};
ghost use Rattle.px_types.specs.Faults.{Rose};
ghost use Rattle.px_ends.specs.Visible.{after_adding};
ghost use Rattle.px_ends.specs.Whole.{AddsFront};
ghost use Rattle.px_ends.specs.Device.{HoldsFrames, IsShape, Plays, Fails, IsPut, put_at};
ghost use Rattle.px_paced.specs.Paced.{frames_of, state_of, new_paced, bytes_at, synced, begun_at, sync_failed, fails_again, after_put};

use crate::rate::{bytes_of, frames_of};
use crate::ring::{put_behind, remove_front, write_front};
use circular_buffer::HeapCircularBuffer;
use px_ends::{Clock, Device, DeviceFault, DeviceShape, Sink, WriteFailed};
use px_types::{Mem, NoMemory};
use std::alloc::Global;
use std::marker::Model;

/// A device that consumes frames as its clock says and writes their bytes to a sink. A frame that is due but not in the buffer is skipped: silence,
/// which isn't written. Own.
#[derive(Drop)]
pub struct PacedSink<K, C> {
    frame: u32,
    rate: u32,
    guard: u32,
    depth: u32,
    consumed: u64,
    filled: u64,
    skipped: u64,
    began: Option<u64>,
    ring: HeapCircularBuffer<u8>,
    faults: u64,
    failed: bool,
    out: K,
    clock: C,
}

impl<K, C> Model for PacedSink<K, C> {
    ghost use Rattle.std.specs.Prelude.{◌≡◌, ◌+◌, ◌*◌, ◌≤◌, ◌^◌, length};
    ghost use Rattle.px_paced.specs.Paced.{Paced};

    ghost Value = { Paced K C };

    ghost view = { λ d. record {
      frame = d.frame;
      rate = d.rate;
      guard = d.guard;
      depth = d.depth;
      consumed = d.consumed;
      filled = d.filled;
      skipped = d.skipped;
      began = d.began;
      buffer = d.ring.items;
      faults = d.faults;
      failed = d.failed;
      out = d.out;
      clock = d.clock;
    } };

    ghost invariant = { λ d. (1 ≤ d.frame) × (d.frame ≤ 128) × (d.rate ≤ 192000) × (d.depth ≤ 65536) × (d.consumed ≤ d.filled)
        × (d.filled ≤ d.consumed + d.depth) × (d.filled ≤ 2 ^ 61)
        × (length d.ring.items + d.consumed * d.frame ≡ d.filled * d.frame)
        × (d.ring.capacity ≡ d.depth * d.frame) };
}

// The frames due, less those skipped and those consumed.
fn due(rate: u32, microseconds: u64, skipped: u64, consumed: u64) -> u64
    requires { rate ≤ 192000 }
    ensures value { result ≡ frames_of rate microseconds - skipped - consumed }
    ensures fits { skipped + result < 2 ^ 64 }
{
    frames_of(rate, microseconds)
        .saturating_sub(skipped)
        .saturating_sub(consumed)
}

impl<K: Sink + Drop, C: Clock + Drop> PacedSink<K, C> {
    /// A device of this shape over a sink and a clock, with nothing consumed and nothing put. Its time begins with its first sync. Takes the room of
    /// its buffer.
    pub fn new(alloc: Global, shape: &DeviceShape, out: K, clock: C) -> Mem<PacedSink<K, C>>
        requires { IsShape shape.now }
        ensures { IfOk result (λ d. d ≡ new_paced shape.now out clock) }
    {
        let room = bytes_of(shape.depth as u64, shape.frame);
        Ok(PacedSink {
            frame: shape.frame,
            rate: shape.rate,
            guard: shape.guard,
            depth: shape.depth,
            consumed: 0,
            filled: 0,
            skipped: 0,
            began: None,
            ring: HeapCircularBuffer::with_capacity(alloc, room)?,
            faults: 0,
            failed: false,
            out,
            clock,
        })
    }

    /// The number of frames that were due but not in the buffer.
    pub fn skipped(&self) -> u64
        ensures { result ≡ self.now.skipped }
    {
        self.skipped
    }

    /// The number of its failed syncs.
    pub fn faults(&self) -> u64
        ensures { result ≡ self.now.faults }
    {
        self.faults
    }

    /// The sink that its bytes go to.
    pub fn out(&self) -> &K
        ensures { result.now ≡ self.now.out }
    {
        &self.out
    }
}

impl<K: Sink, C: Clock> PacedSink<K, C> {
    // Consumes what is due by the clock's latest moment, as far as it is in the buffer, and skips the rest of it. Where the write of its bytes fails,
    // it has begun, and nothing else has changed.
    fn play_due(&mut self) -> Result<(), WriteFailed>
        ensures after { OnOk result (self.new ≡ synced (C.latest self.new.clock) self.new.out self.new.clock self.old) }
        ensures out { OnOk result (K.held self.new.out ≡ after_adding (K.held self.old.out) (bytes_at (C.latest self.new.clock) self.old)) }
        ensures ok_count { OnOk result (K.faults self.new.out ≡ K.faults self.old.out) }
        ensures cause { OnErr result (Rose (K.faults self.old.out) (K.faults self.new.out)) }
        ensures front { OnErr result (AddsFront (bytes_at (C.latest self.new.clock) self.old) (K.held self.old.out) (K.held self.new.out)) }
        ensures begun { OnErr result (self.new ≡ begun_at (C.latest self.new.clock) self.new.out self.new.clock self.old) }
    {
        let moment = self.clock.now();
        let began = self.began.unwrap_or(moment);
        self.began = Some(began);
        let due = due(
            self.rate,
            moment.saturating_sub(began),
            self.skipped,
            self.consumed,
        );
        let frames = due.min(self.filled - self.consumed);
        let bytes = bytes_of(frames, self.frame);
        write_front(&self.ring, bytes, &mut self.out)?;
        remove_front(&mut self.ring, bytes);
        self.skipped += due - frames;
        self.consumed += frames;
        Ok(())
    }
}

impl<K: Sink, C: Clock> Device for PacedSink<K, C> {
    ghost now = { λ d. state_of d };

    fn sync(&mut self) -> Result<u64, DeviceFault>
        ensures ok { IfOk result (λ consumed. Plays consumed (state_of self.old) (state_of self.new)) }
        ensures err { OnErr result (Fails (state_of self.old) (state_of self.new)) }
        ensures full { HoldsFrames (state_of self.old) × HoldsFrames (state_of self.new) }
        // What is due by the clock's latest moment is consumed, as far as it is in the buffer, and the rest of it is skipped.
        ensures after { OnOk result (self.new ≡ synced (C.latest self.new.clock) self.new.out self.new.clock self.old) }
        ensures out { OnOk result (K.held self.new.out ≡ after_adding (K.held self.old.out) (bytes_at (C.latest self.new.clock) self.old)) }
        ensures ok_count { OnOk result (K.faults self.new.out ≡ K.faults self.old.out) }
        // The first Err comes only where a write failed.
        ensures cause { OnErr result (IsFalse self.old.failed → Rose (K.faults self.old.out) (K.faults self.new.out)) }
        ensures front { OnErr result (IsFalse self.old.failed → AddsFront (bytes_at (C.latest self.new.clock) self.old) (K.held self.old.out) (K.held self.new.out)) }
        ensures after_fault { OnErr result (IsFalse self.old.failed → self.new ≡ sync_failed (C.latest self.new.clock) self.new.out self.new.clock self.old) }
        ensures again { IsTrue self.old.failed → (self.new ≡ fails_again self.old) }
    {
        if self.failed {
            self.faults = self.faults.saturating_add(1);
            return Err(DeviceFault);
        }
        if self.play_due().is_err() {
            self.failed = true;
            self.faults = self.faults.saturating_add(1);
            return Err(DeviceFault);
        }
        Ok(self.consumed)
    }

    fn put(&mut self, at: u64, bytes: &[u8])
        requires { IsPut (state_of self.old) at bytes.now }
        ensures state { state_of self.new ≡ put_at at bytes.now (state_of self.old) }
        ensures full { HoldsFrames (state_of self.old) × HoldsFrames (state_of self.new) }
        ensures after { self.new ≡ after_put at bytes.now self.old }
    {
        let from = bytes_of(at - self.consumed, self.frame);
        put_behind(&mut self.ring, from, bytes);
        self.filled = at + bytes.len() as u64 / self.frame as u64;
    }
}
