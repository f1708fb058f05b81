// The bytes that wait in a device in memory.
ghost use Rattle.std.specs.Prelude.{◌≡◌, ◌+◌, ◌≤◌, ◌^◌, ◌++◌, [], take, drop, length, vec_capacity, IfOk};
ghost use Rattle.px_ends.specs.DeviceBuffer.{BufferedBytes};

use px_types::{Mem, NoMemory};
use std::alloc::Global;
use std::marker::Model;

/// Bytes that leave at the front, and are put anew from any place on. They follow those that left in memory, with room for as many of these, so that a byte is
/// moved only once per `room` bytes that left.
#[derive(Debug, Drop)]
pub(crate) struct DeviceBuffer {
    bytes: Vec<u8>,
    gone: usize,
    room: usize,
}

impl Model for DeviceBuffer {
    ghost use Rattle.std.specs.Prelude.{◌≤◌, ◌*◌, drop, length, vec_capacity};
    ghost use Rattle.px_ends.specs.DeviceBuffer.{BufferedBytes};

    ghost Value = { BufferedBytes };

    ghost view = { λ b. record { room = b.room; bytes = drop b.gone b.bytes.items } };

    ghost invariant = { λ b. (b.gone ≤ b.room) × (b.gone ≤ length b.bytes.items) × (2 * b.room ≤ vec_capacity b.bytes) };
}

// Replaces all bytes from place `from` on by `more`. There is room for them.
fn put_from(bytes: &mut Vec<u8>, from: usize, more: &[u8])
    requires inside { from ≤ length bytes.old.items }
    requires fits { from + length more.now ≤ vec_capacity bytes.old }
    ensures bytes { bytes.new.items ≡ take from bytes.old.items ++ more.now }
    ensures room { vec_capacity bytes.old ≤ vec_capacity bytes.new }
{
    bytes.truncate(from);
    bytes.extend_from_slice(more).unwrap();
}

impl DeviceBuffer {
    /// An empty buffer with room for `room` bytes. Takes that room.
    pub(crate) fn new(alloc: Global, room: usize) -> Mem<DeviceBuffer>
        requires { room ≤ 2 ^ 40 }
        ensures { IfOk result (λ b. b ≡ record { room = room; bytes = [] }) }
    {
        Ok(DeviceBuffer {
            bytes: Vec::with_capacity(alloc, 2 * room)?,
            gone: 0,
            room,
        })
    }

    /// Moves the first `count` bytes to the end of `played`. Takes no memory: there is room for them.
    pub(crate) fn play(&mut self, count: usize, played: &mut Vec<u8>)
        requires inside { count ≤ length self.old.bytes }
        requires fits { length played.old.items + count ≤ vec_capacity played.old }
        ensures rest { self.new ≡ record self.old { bytes = drop count self.old.bytes } }
        ensures played { played.new.items ≡ played.old.items ++ take count self.old.bytes }
        ensures played_room { vec_capacity played.old ≤ vec_capacity played.new }
    {
        played.extend_from_slice(&self.waiting()[..count]).unwrap();
        self.advance(count);
    }

    // The bytes that wait.
    fn waiting(&self) -> &[u8]
        ensures { result.now ≡ self.now.bytes }
    {
        &self.bytes.as_slice()[self.gone..]
    }

    // Drops the first `count` bytes.
    fn advance(&mut self, count: usize)
        requires { count ≤ length self.old.bytes }
        ensures { self.new ≡ record self.old { bytes = drop count self.old.bytes } }
    {
        self.gone += count;
        if self.gone > self.room {
            let left = self.bytes.len() - self.gone;
            self.bytes.copy_within(self.gone.., 0);
            self.bytes.truncate(left);
            self.gone = 0;
        }
    }

    /// Replaces all bytes from place `from` on by `bytes`. Takes no memory: there is room for them.
    pub(crate) fn put(&mut self, from: usize, bytes: &[u8])
        requires inside { from ≤ length self.old.bytes }
        requires fits { from + length bytes.now ≤ self.old.room }
        ensures { self.new ≡ record self.old { bytes = take from self.old.bytes ++ bytes.now } }
    {
        put_from(&mut self.bytes, self.gone + from, bytes);
    }
}
