// Writing frames.
ghost use Rattle.std.specs.Prelude.{◌≡◌, ℤ, List, ◌<◌, ◌+◌, ◌*◌, ◌≤◌, ◌-ℤ◌, int_lt, length, ◌==◌, ◌&&◌, ◌||◌, if◌then◌else◌, nat_lt, IfOk, IfErr};
ghost use Rattle.px_block.specs.Given.{after_giving, blocks_for};
ghost use Rattle.px_model.specs.Frame.{Frame, frames_of};
ghost use Rattle.px_model.specs.Index.{above, onward, IsIndex};
ghost use Rattle.px_model.specs.Queue.{end_of, is_short};
ghost use Rattle.px_model.specs.Write.{stored, overflow, seek_of, origin_of, target_of, outcome_of, queue_with};
ghost use Rattle.px_queue.specs.Heard.{is_other, unaltered_by};
ghost use Rattle.px_queue.specs.Pushed.{outcome_for, Carries, IsPlaced, IsMissed};

use crate::FrameQueue;
use crate::index::Index;
use px_block::{BlockSource, Blocks};

/// How a write ended.
#[derive(Clone, Copy, Debug, PartialEq, Eq)]
pub enum Pushed {
    /// The frames are held.
    Stored,
    /// They would end at index `end`, past the end of what is held and more than `limit` past the ahead index. They aren't held, and the write index
    /// goes to `end`.
    Overflow { end: i64, limit: i64 },
    /// They would begin or end at `at`, which is no index. Nothing changes.
    Outside { at: i128 },
}

impl FrameQueue {
    /// Writes `frames` frames where a seek goes, with at most `limit` frames waiting past the index `ahead`. `seek` is its mode as on the wire, 0 to
    /// 3, and `offset` is in frames. They replace what is held there; those before the read index are dropped. A block that isn't used, or no longer,
    /// goes back to the source: of frames that aren't held, that are copied into another block, or that are all overwritten. Takes room for one write
    /// with its blocks, and no memory. (PulseAudio: `pa_memblockq_seek` and `pa_memblockq_push`; own: the limit counts from the ahead index.)
    pub fn push<B: BlockSource>(
        &mut self,
        seek: u8,
        offset: i64,
        bytes: Blocks,
        frames: u32,
        ahead: i64,
        limit: i64,
        blocks: &mut B,
    ) -> Pushed
        requires room { 1 ≤ self.old.room }
        requires block_room { blocks_for (length bytes) ≤ self.old.block_room }
        requires seek { seek ≤ 3 }
        requires whole { length bytes ≡ frames * self.old.frame }
        ensures outcome { outcome_for result ≡ outcome_of self.old.queue limit (target_of self.old.queue (seek_of seek) offset) frames ahead }
        ensures carries { Carries (target_of self.old.queue (seek_of seek) offset) frames limit result }
        ensures queue { self.new.queue ≡ queue_with (outcome_for result) self.old.queue (target_of self.old.queue (seek_of seek) offset) (frames_of self.old.frame frames bytes) }
        ensures frame { self.new.frame ≡ self.old.frame }
        ensures room { self.old.room ≤ self.new.room + 1 }
        ensures block_room { self.old.block_room ≤ self.new.block_room + blocks_for (length bytes) }
        ensures given { after_giving (B.given blocks.new) self.new.blocks ≡ after_giving (B.given blocks.old) (self.old.blocks + blocks_for (length bytes)) }
    {
        let (at, end) = match self.place(seek, offset, frames) {
            Ok(both) => both,
            Err(at) => {
                bytes.give_back(blocks);
                return Pushed::Outside { at };
            }
        };
        if self.overflows(end, ahead, limit) {
            self.skip_to(end);
            bytes.give_back(blocks);
            return Pushed::Overflow {
                end: end.number(),
                limit,
            };
        }
        self.store(at, end, frames, bytes, blocks);
        Pushed::Stored
    }

    /// How many of the next `mixed` frames sound as before once `frames` frames are written with this seek. At most `limit` may wait past the index
    /// `ahead`. It is all of them where the frames aren't held, else those before the frames; none where the write changes whether the queue is
    /// short.
    pub fn unaltered(
        &self,
        seek: u8,
        offset: i64,
        frames: u32,
        ahead: i64,
        limit: i64,
        mixed: u64,
    ) -> u64
        requires { seek ≤ 3 }
        ensures { (written : List Frame) → length written ≡ frames
            → result ≡ unaltered_by (outcome_of self.now.queue limit (target_of self.now.queue (seek_of seek) offset) frames ahead) self.now.queue (target_of self.now.queue (seek_of seek) offset) written mixed }
    {
        match self.place(seek, offset, frames) {
            Err(_) => mixed,
            Ok(both) => {
                let refused = self.overflows(both.1, ahead, limit);
                self.unaltered_between(both.0, both.1, refused, mixed)
            }
        }
    }

    // The same for frames from index `at` to `end`; `refused` is whether they go past the limit.
    fn unaltered_between(&self, at: Index, end: Index, refused: bool, mixed: u64) -> u64
        ensures { (written : List Frame) → end ≡ onward at (length written)
            → result ≡ unaltered_by (if refused then overflow else stored) self.now.queue at written mixed }
    {
        if is_other(self.is_short_at(end), self.is_short()) {
            return 0;
        }
        if refused {
            return mixed;
        }
        at.above(self.read).min(mixed)
    }

    // Whether it would be short of prebuf with its write index at `write`.
    fn is_short_at(&self, write: Index) -> bool
        ensures { result ≡ is_short (record self.now.queue { write = write }) }
    {
        self.hold && write.above(self.read) < self.prebuf as u64
    }

    // The indices at which `frames` frames begin and end; an error with the first of them that is no index.
    fn place(&self, seek: u8, offset: i64, frames: u32) -> Result<(Index, Index), i128>
        ensures ok { IfOk result (λ both. IsPlaced (target_of self.now.queue (seek_of seek) offset) frames both.0 both.1) }
        ensures err { IfErr result (λ at. IsMissed (target_of self.now.queue (seek_of seek) offset) frames at) }
    {
        let at = self.origin(seek).shifted(offset)?;
        let end = at.after(frames)?;
        Ok((at, end))
    }

    // The index from which a seek of this mode counts its offset.
    fn origin(&self, seek: u8) -> Index
        ensures { result ≡ origin_of self.now.queue (seek_of seek) }
    {
        match seek {
            0 => self.write,
            1 => Index::zero(),
            2 => self.read,
            _ => self.end(),
        }
    }

    // Whether frames that end at `end` go past the end of what is held and past the limit.
    fn overflows(&self, end: Index, ahead: i64, limit: i64) -> bool
        ensures { result ≡ ((length self.now.queue.held == 0 || int_lt (end_of self.now.queue) end) && int_lt limit (end -ℤ ahead)) }
    {
        (self.held == 0 || self.end().is_below(end)) && end.is_past(ahead, limit)
    }

    // Moves the write index to `end`, and stores nothing.
    fn skip_to(&mut self, end: Index)
        ensures queue { (p : ℤ) (frames : List Frame) → end ≡ onward p (length frames) → self.new.queue ≡ queue_with overflow self.old.queue p frames }
        ensures frame { self.new.frame ≡ self.old.frame }
        ensures room { self.new.room ≡ self.old.room }
        ensures block_room { self.new.block_room ≡ self.old.block_room }
        ensures blocks { self.new.blocks ≡ self.old.blocks }
    {
        self.write = end;
    }

    // Stores frames over what is held, and moves the write index to `end`.
    fn store<B: BlockSource>(
        &mut self,
        at: Index,
        end: Index,
        frames: u32,
        bytes: Blocks,
        blocks: &mut B,
    )
        requires room { 1 ≤ self.old.room }
        requires block_room { blocks_for (length bytes) ≤ self.old.block_room }
        requires whole { length bytes ≡ frames * self.old.frame }
        requires first { IsIndex at }
        requires last { IsIndex end }
        requires end { end ≡ onward at frames }
        ensures queue { self.new.queue ≡ queue_with stored self.old.queue at (frames_of self.old.frame frames bytes) }
        ensures frame { self.new.frame ≡ self.old.frame }
        ensures room { self.old.room ≤ self.new.room + 1 }
        ensures block_room { self.old.block_room ≤ self.new.block_room + blocks_for (length bytes) }
        ensures given { after_giving (B.given blocks.new) self.new.blocks ≡ after_giving (B.given blocks.old) (self.old.blocks + blocks_for (length bytes)) }
    {
        let reach = reach(frames, end, self.read);
        let brought = bytes.count() as u32;
        self.chunks.write(
            at.byte_index(self.frame),
            end.byte_index(self.frame),
            bytes,
            blocks,
        );
        self.chunks.forget(self.read.byte_index(self.frame), blocks);
        self.room -= 1;
        self.block_room -= brought;
        self.held = self.held.max(reach);
        self.write = end;
    }
}

// How far past the read index frames reach that end at `end`, 0 for no frames.
fn reach(frames: u32, end: Index, read: Index) -> u64
    ensures { result ≡ (if nat_lt 0 frames then above end read else 0) }
{
    if frames > 0 { end.above(read) } else { 0 }
}

// Whether both differ.
fn is_other(one: bool, other: bool) -> bool
    ensures { result ≡ is_other one other }
{
    if one { !other } else { other }
}
