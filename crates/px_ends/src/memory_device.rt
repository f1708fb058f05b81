// A device in memory.
ghost use Rattle.std.specs.Prelude.{◌≡◌, ◌+◌, ◌-◌, ◌*◌, ◌^◌, ◌<◌, ◌≤◌, ◌||◌, min, true, None, Some, IfOk, OnOk, OnErr, IsErr, IsTrue, ◌↔◌};
ghost use Rattle.std.specs.Option.{unwrap_or};
ghost use Rattle.px_ends.specs.Device.{DeviceState, HoldsFrames, IsShape, Plays, Fails, IsPut, put_at};
ghost use Rattle.px_ends.specs.MemoryDevice.{MemoryDevice, state_of, new_memory_device, due_of, due_in, left_after, synced, sync_failed, after_put, taken, set_in};

use crate::device_buffer::DeviceBuffer;
use crate::{Device, DeviceFault, DeviceShape, Played};
use px_types::{Mem, NoMemory};
use std::alloc::Global;
use std::marker::Model;
use std::mem;

/// A device that consumes what it was set to and holds what it played. Its buffer is visible, and so is what was played since it was last
/// taken. A sync that nothing was set for consumes nothing.
#[derive(Debug, Drop)]
pub struct MemDevice {
    frame: u32,
    guard: u32,
    depth: u32,
    consumed: u64,
    filled: u64,
    buffer: DeviceBuffer,
    played: Vec<u8>,
    faults: u64,
    failed: bool,
    stopping: bool,
    armed: Option<u32>,
    each: u32,
    left: u32,
}

impl Model for MemDevice {
    ghost use Rattle.std.specs.Prelude.{◌≡◌, ◌+◌, ◌*◌, ◌≤◌, ◌^◌, length, vec_capacity};
    ghost use Rattle.std.specs.Option.{unwrap_or};
    ghost use Rattle.px_ends.specs.MemoryDevice.{MemoryDevice};

    ghost Value = { MemoryDevice };

    ghost view = { λ d. record {
      frame = d.frame;
      guard = d.guard;
      depth = d.depth;
      consumed = d.consumed;
      filled = d.filled;
      buffer = d.buffer.bytes;
      played = d.played.items;
      faults = d.faults;
      failed = d.failed;
      stopping = d.stopping;
      armed = d.armed;
      each = d.each;
      left = d.left;
    } };

    ghost invariant = { λ d. (1 ≤ d.frame) × (d.frame ≤ 128) × (d.depth ≤ 65536) × (d.consumed ≤ d.filled)
        × (d.filled ≤ d.consumed + d.depth) × (d.filled ≤ 2 ^ 61)
        × (length d.buffer.bytes + d.consumed * d.frame ≡ d.filled * d.frame)
        × (d.buffer.room ≡ d.depth * d.frame)
        × (length d.played.items + (unwrap_or d.armed 0 + d.left) * d.frame ≤ vec_capacity d.played) };
}

// How many bytes `frames` frames are.
fn bytes_of(frames: u64, frame: u32) -> usize
    requires few { frames ≤ 2 ^ 33 }
    requires small { frame ≤ 128 }
    ensures { result ≡ frames * frame }
{
    frames as usize * frame as usize
}

// How many frames a sync consumes where `waiting` frames wait.
fn due(armed: Option<u32>, each: u32, left: u32, waiting: u64) -> u64
    ensures { result ≡ due_of armed each left waiting }
{
    match armed {
        Some(frames) => (frames as u64).min(waiting),
        None => (each.min(left) as u64).min(waiting),
    }
}

// How many frames are left for later syncs after one that consumed `consumed` frames.
fn left_of(armed: Option<u32>, left: u32, consumed: u64) -> u32
    requires { consumed ≤ unwrap_or armed left }
    ensures { result ≡ left_after armed left consumed }
{
    match armed {
        Some(_) => left,
        None => left - consumed as u32,
    }
}

impl MemDevice {
    /// A device of this shape that has consumed and played nothing, with nothing put and nothing set. Takes the room of its buffer.
    pub fn new(alloc: Global, shape: &DeviceShape) -> Mem<MemDevice>
        requires { IsShape shape.now }
        ensures { IfOk result (λ d. d ≡ new_memory_device shape.now) }
    {
        Ok(MemDevice {
            frame: shape.frame,
            guard: shape.guard,
            depth: shape.depth,
            consumed: 0,
            filled: 0,
            buffer: DeviceBuffer::new(alloc, bytes_of(shape.depth as u64, shape.frame))?,
            played: Vec::new(alloc),
            faults: 0,
            failed: false,
            stopping: false,
            armed: None,
            each: 0,
            left: 0,
        })
    }

    /// Sets the next sync to consume `frames` frames, or what is buffered if that is less. Takes the room to play them; without it nothing
    /// is set.
    pub fn arm(&mut self, frames: u32) -> Mem<()>
        ensures ok { OnOk result (self.new ≡ record self.old { armed = Some (min frames self.old.depth) }) }
        ensures err { OnErr result (self.new ≡ self.old) }
    {
        let frames = frames.min(self.depth);
        let due = frames as u64 + self.left as u64;
        self.played.reserve(bytes_of(due, self.frame))?;
        self.armed = Some(frames);
        Ok(())
    }

    /// Lets every later sync consume `each` frames, or what is buffered if that is less, until `total` frames were consumed so. Takes
    /// the room to play them; without it nothing is set.
    pub fn run_on(&mut self, each: u32, total: u32) -> Mem<()>
        ensures ok { OnOk result (self.new ≡ record self.old { each = each; left = total }) }
        ensures err { OnErr result (self.new ≡ self.old) }
    {
        let due = self.armed.unwrap_or(0) as u64 + total as u64;
        self.played.reserve(bytes_of(due, self.frame))?;
        self.each = each;
        self.left = total;
        Ok(())
    }

    /// How many of its syncs failed.
    pub fn faults(&self) -> u64
        ensures { result ≡ self.now.faults }
    {
        self.faults
    }

    /// Makes the next sync fail, and with it all later ones. That sync plays nothing.
    pub fn stop_next(&mut self)
        ensures { self.new ≡ record self.old { stopping = true } }
    {
        self.stopping = true;
    }

    /// Hands out the bytes played since the last take. What is set stays set: the room to play it is taken anew, so the call takes memory
    /// only where frames are still set. Without memory nothing changes.
    pub fn take_played(&mut self, alloc: Global) -> Mem<Played>
        ensures ok { IfOk result (λ played. played ≡ self.old.played) }
        ensures after { OnOk result (self.new ≡ taken self.old) }
        ensures err { OnErr result (self.new ≡ self.old) }
        ensures still_set { OnErr result (0 < set_in self.old) }
    {
        let due = self.armed.unwrap_or(0) as u64 + self.left as u64;
        let mut room = Vec::new(alloc);
        if due > 0 {
            room.reserve(bytes_of(due, self.frame))?;
        }
        Ok(Played::from_vec(mem::replace(&mut self.played, room)))
    }

    // Whether the next sync fails.
    fn is_failing(&self) -> bool
        ensures { result ≡ (self.now.stopping || self.now.failed) }
    {
        self.stopping || self.failed
    }
}

impl Device for MemDevice {
    ghost now = { λ d. state_of d };

    fn sync(&mut self) -> Result<u64, DeviceFault>
        ensures ok { IfOk result (λ consumed. Plays consumed (state_of self.old) (state_of self.new)) }
        ensures err { OnErr result (Fails (state_of self.old) (state_of self.new)) }
        ensures full { HoldsFrames (state_of self.old) × HoldsFrames (state_of self.new) }
        ensures fails { IsErr result ↔ IsTrue (self.old.stopping || self.old.failed) }
        ensures value { IfOk result (λ consumed. consumed ≡ self.old.consumed + due_in self.old) }
        ensures after { OnOk result (self.new ≡ synced (due_in self.old) self.old) }
        ensures after_fault { OnErr result (self.new ≡ sync_failed self.old) }
    {
        if self.is_failing() {
            self.failed = true;
            self.faults = self.faults.saturating_add(1);
            return Err(DeviceFault);
        }
        let frames = due(
            self.armed,
            self.each,
            self.left,
            self.filled - self.consumed,
        );
        let bytes = bytes_of(frames, self.frame);
        self.buffer.play(bytes, &mut self.played);
        self.left = left_of(self.armed, self.left, frames);
        self.armed = None;
        self.consumed += frames;
        Ok(self.consumed)
    }

    fn put(&mut self, at: u64, bytes: &[u8])
        requires { IsPut (state_of self.old) at bytes.now }
        ensures state { state_of self.new ≡ put_at at bytes.now (state_of self.old) }
        ensures full { HoldsFrames (state_of self.old) × HoldsFrames (state_of self.new) }
        ensures after { self.new ≡ after_put at bytes.now self.old }
    {
        let from = bytes_of(at - self.consumed, self.frame);
        self.buffer.put(from, bytes);
        self.filled = at + bytes.len() as u64 / self.frame as u64;
    }
}
