// The frames of a stream that wait to be played.
ghost use Rattle.std.specs.Prelude.{◌≡◌, ◌≤◌, ◌<◌, nat_lt, ◌&&◌, IsTrue, OnOk};
ghost use Rattle.px_block.specs.Given.{after_giving};
ghost use Rattle.px_model.specs.Queue.{end_of, edge_of, left_of, is_short};
ghost use Rattle.px_model.specs.Going.{queue_given, queue_after};
ghost use Rattle.px_model.specs.Control.{new_queue, emptied, with_prebuf};
ghost use Rattle.px_queue.specs.HeldQueue.{with_hold};
ghost use Rattle.px_queue.specs.Framed.{step_by};

use crate::chunks::Chunks;
use crate::index::Index;
use px_block::BlockSource;
use px_types::{Mem, NoMemory};
use std::alloc::Global;
use std::marker::Model;

/// A queue of frames (PulseAudio: `pa_memblockq`). Indices count frames, and its bytes are whole frames of one size. `held` counts the places from
/// the read index to the last frame held; `room` and `block_room` are the writes and blocks that it has room for.
#[derive(Debug, Drop)]
pub struct FrameQueue {
    pub(crate) frame: u32,
    pub(crate) chunks: Chunks,
    pub(crate) room: u32,
    pub(crate) block_room: u32,
    pub(crate) read: Index,
    pub(crate) write: Index,
    pub(crate) held: u64,
    pub(crate) hold: bool,
    pub(crate) prebuf: u32,
}

impl Model for FrameQueue {
    ghost use Rattle.std.specs.Prelude.{◌≡◌, length};
    ghost use Rattle.px_model.specs.Queue.{IsQueue};
    ghost use Rattle.px_queue.specs.HeldQueue.{HeldQueue};
    ghost use Rattle.px_queue.specs.Framed.{held_from, queue_of, IsLaid};

    ghost Value = { HeldQueue };

    ghost view = { λ q. record {
      queue = queue_of q.frame q.chunks.before q.read q.held q.write q.hold q.prebuf;
      frame = q.frame;
      room = q.room;
      block_room = q.block_room;
      blocks = q.chunks.blocks;
    } };

    ghost invariant = { λ q. (q.held ≡ length (held_from q.frame q.chunks.before q.read q.held))
        × IsQueue (queue_of q.frame q.chunks.before q.read q.held q.write q.hold q.prebuf)
        × IsLaid q.frame q.chunks q.read q.held q.room q.block_room };
}

impl FrameQueue {
    /// An empty queue of frames of `frame_size` bytes, at least 1, with both indices at 0 and without prebuffering. Takes no memory.
    pub fn new(alloc: Global, frame_size: u32) -> FrameQueue
        requires { 1 ≤ frame_size }
        ensures queue { result.queue ≡ new_queue 0 }
        ensures frame { result.frame ≡ frame_size }
        ensures blocks { result.blocks ≡ 0 }
    {
        FrameQueue {
            frame: frame_size,
            chunks: Chunks::new(alloc),
            room: 0,
            block_room: 0,
            read: Index::zero(),
            write: Index::zero(),
            held: 0,
            hold: false,
            prebuf: 0,
        }
    }

    /// Makes room for `writes` more writes, with `blocks` blocks in all. Without memory nothing changes. (A write brings the memory of its blocks:
    /// the room is for chunks.) Where the newest block has few bytes it gets room for more, if there is memory.
    pub fn reserve(&mut self, writes: u32, blocks: u32) -> Mem<()>
        ensures ok { OnOk result ((writes ≤ self.new.room) × (blocks ≤ self.new.block_room)) }
        ensures queue { self.new.queue ≡ self.old.queue }
        ensures frame { self.new.frame ≡ self.old.frame }
        ensures blocks { self.new.blocks ≡ self.old.blocks }
        ensures room { self.old.room ≤ self.new.room }
        ensures block_room { self.old.block_room ≤ self.new.block_room }
    {
        let writes = self.room.max(writes);
        let most = self.block_room.max(blocks);
        let chunks = writes as usize + most as usize;
        if self.chunks.reserve(chunks, most as usize).is_err() {
            return Err(NoMemory);
        }
        if blocks > 0 {
            self.chunks.open_at(self.write.byte_index(self.frame));
        }
        self.room = writes;
        self.block_room = most;
        Ok(())
    }

    /// The next frame to read.
    pub fn read_index(&self) -> i64
        ensures { result ≡ self.now.queue.read }
    {
        self.read.number()
    }

    /// The next frame to write.
    pub fn write_index(&self) -> i64
        ensures { result ≡ self.now.queue.write }
    {
        self.write.number()
    }

    /// Where the queue ends: the greater of the write index and one past the last frame held, the write index where none is held.
    pub fn end_index(&self) -> i64
        ensures { result ≡ edge_of self.now.queue }
    {
        if self.held == 0 {
            return self.write.number();
        }
        self.write.number().max(self.end().number())
    }

    // One past the last frame held; the read index where none is held.
    pub(crate) fn end(&self) -> Index
        ensures { result ≡ end_of self.now.queue }
    {
        self.read.onward(self.held)
    }

    // How many frames wait, up to the write index or the last frame held.
    pub(crate) fn left(&self) -> u64
        ensures { result ≡ left_of self.now.queue }
    {
        self.write.above(self.read).max(self.held)
    }

    // Whether it is short: it waits for prebuf frames before it plays.
    pub(crate) fn is_short(&self) -> bool
        ensures { result ≡ is_short self.now.queue }
    {
        self.hold && self.write.above(self.read) < self.prebuf as u64
    }

    /// How many of the next `frames` frames of its sink it gives, always the first ones.
    pub fn given(&self, frames: u64) -> u64
        ensures { result ≡ queue_given self.now.queue frames }
    {
        if self.is_short() {
            0
        } else {
            frames.min(self.left())
        }
    }

    /// Its read index after `frames` more frames of its sink.
    pub fn ahead_index(&self, frames: u64) -> i64
        ensures { result ≡ (queue_after self.now.queue frames).read }
    {
        self.ahead(frames).number()
    }

    // Its read index after `frames` more frames of its sink.
    fn ahead(&self, frames: u64) -> Index
        ensures { result ≡ (queue_after self.now.queue frames).read }
    {
        if frames == 0 || self.is_short() {
            return self.read;
        }
        let step = step(
            self.prebuf,
            frames,
            Index::last().above(self.read),
            self.left(),
        );
        self.read.onward(step)
    }

    /// Moves `frames` frames of its sink forward, and answers how many of them it gave, always the first ones. What lies before the read index is
    /// dropped. Takes no memory. (PulseAudio: `pa_memblockq_drop`.)
    pub fn settle<B: BlockSource>(&mut self, frames: u64, blocks: &mut B) -> u64
        ensures value { result ≡ queue_given self.old.queue frames }
        ensures queue { self.new.queue ≡ queue_after self.old.queue frames }
        ensures frame { self.new.frame ≡ self.old.frame }
        ensures room { self.old.room ≤ self.new.room }
        ensures block_room { self.old.block_room ≤ self.new.block_room }
        ensures given { after_giving (B.given blocks.new) self.new.blocks ≡ after_giving (B.given blocks.old) self.old.blocks }
    {
        let given = self.given(frames);
        self.go(frames);
        self.forget(blocks);
        given
    }

    // Moves the read index `frames` frames of its sink forward.
    fn go(&mut self, frames: u64)
        ensures queue { self.new.queue ≡ queue_after self.old.queue frames }
        ensures frame { self.new.frame ≡ self.old.frame }
        ensures room { self.new.room ≡ self.old.room }
        ensures block_room { self.new.block_room ≡ self.old.block_room }
        ensures blocks { self.new.blocks ≡ self.old.blocks }
    {
        if frames == 0 || self.is_short() {
            return;
        }
        let left = self.left();
        let step = step(self.prebuf, frames, Index::last().above(self.read), left);
        self.hold = runs_out(self.prebuf, frames, left);
        self.held = self.held.saturating_sub(step);
        self.read = self.read.onward(step);
    }

    // Drops the bytes before the read index.
    fn forget<B: BlockSource>(&mut self, blocks: &mut B)
        ensures queue { self.new.queue ≡ self.old.queue }
        ensures frame { self.new.frame ≡ self.old.frame }
        ensures room { self.old.room ≤ self.new.room }
        ensures block_room { self.old.block_room ≤ self.new.block_room }
        ensures given { after_giving (B.given blocks.new) self.new.blocks ≡ after_giving (B.given blocks.old) self.old.blocks }
    {
        self.chunks.forget(self.read.byte_index(self.frame), blocks);
    }

    /// Drops all that is held, and waits again, where it has prebuffering. Each block goes back to its source. Takes no memory.
    /// (PulseAudio: `pa_memblockq_flush_write`.)
    pub fn flush<B: BlockSource>(&mut self, blocks: &mut B)
        ensures queue { self.new.queue ≡ emptied self.old.queue }
        ensures frame { self.new.frame ≡ self.old.frame }
        ensures room { self.old.room ≤ self.new.room }
        ensures block_room { self.old.block_room ≤ self.new.block_room }
        ensures none { self.new.blocks ≡ 0 }
        ensures given { B.given blocks.new ≡ after_giving (B.given blocks.old) self.old.blocks }
    {
        self.chunks.forget_all(blocks);
        self.held = 0;
        self.write = self.read;
        self.hold = self.prebuf > 0;
    }

    /// Sets whether it waits for prebuf frames before it plays; it does only where prebuf is above 0. (PulseAudio: `pa_memblockq_prebuf_force` and
    /// `pa_memblockq_prebuf_disable`.)
    pub fn set_hold(&mut self, on: bool)
        requires { IsTrue on → 0 < self.old.queue.prebuf }
        ensures queue { self.new.queue ≡ with_hold self.old.queue on }
        ensures frame { self.new.frame ≡ self.old.frame }
        ensures room { self.new.room ≡ self.old.room }
        ensures block_room { self.new.block_room ≡ self.old.block_room }
        ensures blocks { self.new.blocks ≡ self.old.blocks }
    {
        self.hold = on;
    }

    /// Sets prebuf to `frames`; at 0 it waits for none.
    pub fn set_prebuf(&mut self, frames: u32)
        ensures queue { self.new.queue ≡ with_prebuf self.old.queue frames }
        ensures frame { self.new.frame ≡ self.old.frame }
        ensures room { self.new.room ≡ self.old.room }
        ensures block_room { self.new.block_room ≡ self.old.block_room }
        ensures blocks { self.new.blocks ≡ self.old.blocks }
    {
        self.hold = self.hold && frames > 0;
        self.prebuf = frames;
    }
}

// How far the read index goes: up to the last index (`room`) without prebuffering, and up to the last frame (`left`) with it.
fn step(prebuf: u32, frames: u64, room: u64, left: u64) -> u64
    ensures { result ≡ step_by prebuf frames room left }
{
    if prebuf == 0 {
        frames.min(room)
    } else {
        frames.min(left)
    }
}

// Whether it runs out within `frames` frames, with prebuffering.
fn runs_out(prebuf: u32, frames: u64, left: u64) -> bool
    ensures { result ≡ (nat_lt 0 prebuf && nat_lt left frames) }
{
    prebuf > 0 && left < frames
}
