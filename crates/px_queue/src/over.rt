// Laying bytes over others.
ghost use Rattle.std.specs.Prelude.{◌≡◌, ℕ, ◌+◌, ◌<◌, ◌≤◌, [], ◌++◌, length, IsTrue, IsFalse};
ghost use Rattle.px_block.specs.Given.{after_giving, blocks_for};
ghost use Rattle.px_queue.specs.Pieces.{byte_in, byte_at, end_of, first_of, last_of, Rise};
ghost use Rattle.px_queue.specs.Laid.{TOP};

use crate::chunks::Chunks;
use px_block::{BlockSource, Blocks};

impl Chunks {
    /// Lays bytes from byte index `at` to `end`, over what is held there. A block whose last chunk goes returns to its source.
    pub(crate) fn write<B: BlockSource>(
        &mut self,
        at: u128,
        end: u128,
        bytes: Blocks,
        source: &mut B,
    )
        requires rest { self.old.behind ≡ [] }
        requires rising { Rise 0 TOP self.old.before }
        requires end { end ≡ at + length bytes }
        requires top { end ≤ TOP }
        requires room { blocks_for (length bytes) + 1 ≤ self.old.room }
        requires block_room { blocks_for (length bytes) ≤ self.old.block_room }
        ensures rest { self.new.behind ≡ [] }
        ensures rising { Rise 0 TOP self.new.before }
        ensures bytes { (i : ℕ) → byte_at self.new.before i ≡ first_of (byte_in (record { at = at; bytes = bytes }) i) (byte_at self.old.before i) }
        ensures room { self.old.room ≤ self.new.room + (blocks_for (length bytes) + 1) }
        ensures block_room { self.old.block_room ≤ self.new.block_room + blocks_for (length bytes) }
        ensures given { after_giving (B.given source.new) self.new.blocks ≡ after_giving (B.given source.old) (self.old.blocks + blocks_for (length bytes)) }
    {
        self.clear(at, end, source);
        self.put(at, bytes, source);
        self.join();
    }

    // Takes out what lies from byte index `from` to `to`, and leaves `before` and `behind` split there.
    fn clear<B: BlockSource>(&mut self, from: u128, to: u128, source: &mut B)
        requires rest { self.old.behind ≡ [] }
        requires rising { Rise 0 TOP self.old.before }
        requires order { from ≤ to }
        requires top { to ≤ TOP }
        requires room { 1 ≤ self.old.room }
        ensures before { Rise 0 from self.new.before }
        ensures behind { Rise to TOP self.new.behind }
        ensures low { (i : ℕ) → i < from → byte_at self.new.before i ≡ byte_at self.old.before i }
        ensures high { (i : ℕ) → to ≤ i → byte_at self.new.behind i ≡ byte_at self.old.before i }
        ensures room { self.old.room ≤ self.new.room + 1 }
        ensures block_room { self.old.block_room ≤ self.new.block_room }
        ensures given { after_giving (B.given source.new) self.new.blocks ≡ after_giving (B.given source.old) self.old.blocks }
    {
        if !self.goes_past(from) {
            return;
        }
        self.part(to);
        self.split(to);
        self.drop_from(from, source);
        self.cut(from);
    }

    // Whether the last chunk of `before` begins at or past byte index `at`.
    fn begins_from(&self, at: u128) -> bool
        ensures some { IsTrue result → 0 < length self.now.before }
        ensures yes { IsTrue result → at ≤ (last_of self.now.before).at }
        ensures no { IsFalse result → 0 < length self.now.before → (last_of self.now.before).at < at }
    {
        if self.len() == 0 {
            return false;
        }
        self.last_first() >= at
    }

    // Whether the last chunk of `before` goes past byte index `at`.
    fn goes_past(&self, at: u128) -> bool
        ensures some { IsTrue result → 0 < length self.now.before }
        ensures yes { IsTrue result → at ≤ end_of (last_of self.now.before) }
        ensures no { IsFalse result → (high : ℕ) → Rise 0 high self.now.before → Rise 0 at self.now.before }
    {
        if self.len() == 0 {
            return false;
        }
        self.last_end() > at
    }

    // Moves the chunks to `behind` that begin at or past byte index `at`.
    fn part(&mut self, at: u128)
        requires rest { self.old.behind ≡ [] }
        requires rising { Rise 0 TOP self.old.before }
        requires top { at ≤ TOP }
        ensures all { self.new.before ++ self.new.behind ≡ self.old.before }
        ensures last { 0 < length self.new.before → (last_of self.new.before).at < at }
        ensures behind { Rise at TOP self.new.behind }
        ensures blocks { self.new.blocks ≡ self.old.blocks }
        ensures room { self.new.room ≡ self.old.room }
        ensures block_room { self.new.block_room ≡ self.old.block_room }
    {
        let count = self.begun(at);
        self.leave(count);
    }

    // Splits the last chunk of `before` at byte index `at`, where it goes past it.
    fn split(&mut self, at: u128)
        requires rising { Rise 0 TOP (self.old.before ++ self.old.behind) }
        requires last { 0 < length self.old.before → (last_of self.old.before).at < at }
        requires behind { Rise at TOP self.old.behind }
        requires room { 1 ≤ self.old.room }
        ensures bytes { (i : ℕ) → byte_at (self.new.before ++ self.new.behind) i ≡ byte_at (self.old.before ++ self.old.behind) i }
        ensures before { Rise 0 at self.new.before }
        ensures behind { Rise at TOP self.new.behind }
        ensures blocks { self.new.blocks ≡ self.old.blocks }
        ensures room { self.old.room ≤ self.new.room + 1 }
        ensures block_room { self.new.block_room ≡ self.old.block_room }
    {
        if self.goes_past(at) {
            self.split_last(at);
        }
    }

    // Drops the last chunks of `before` that begin at or past byte index `from`.
    fn drop_from<B: BlockSource>(&mut self, from: u128, source: &mut B)
        requires { (to : ℕ) × (from ≤ to) × Rise 0 to self.old.before }
        ensures before { (to : ℕ) → Rise 0 to self.old.before → Rise 0 to self.new.before }
        ensures last { 0 < length self.new.before → (last_of self.new.before).at < from }
        ensures low { (i : ℕ) → i < from → byte_at self.new.before i ≡ byte_at self.old.before i }
        ensures behind { self.new.behind ≡ self.old.behind }
        ensures room { self.old.room ≤ self.new.room }
        ensures block_room { self.old.block_room ≤ self.new.block_room }
        ensures given { after_giving (B.given source.new) self.new.blocks ≡ after_giving (B.given source.old) self.old.blocks }
    {
        while self.begins_from(from) {
            self.drop_last(source);
        }
    }

    // Cuts the last chunk of `before` at byte index `at`, where it goes past it.
    fn cut(&mut self, at: u128)
        requires rising { (to : ℕ) × (at ≤ to) × Rise 0 to self.old.before }
        requires last { 0 < length self.old.before → (last_of self.old.before).at < at }
        ensures before { Rise 0 at self.new.before }
        ensures low { (i : ℕ) → i < at → byte_at self.new.before i ≡ byte_at self.old.before i }
        ensures behind { self.new.behind ≡ self.old.behind }
        ensures blocks { self.new.blocks ≡ self.old.blocks }
        ensures room { self.new.room ≡ self.old.room }
        ensures block_room { self.new.block_room ≡ self.old.block_room }
    {
        if self.goes_past(at) {
            self.cut_last(at);
        }
    }
}
