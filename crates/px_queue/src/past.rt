// Dropping the bytes before a byte index.
ghost use Rattle.std.specs.Prelude.{◌≡◌, ℕ, ◌<◌, ◌≤◌, [], length, slice_index_or, IsTrue, IsFalse};
ghost use Rattle.px_block.specs.Given.{after_giving};
ghost use Rattle.px_queue.specs.Pieces.{Piece, byte_at, end_of, Rise};
ghost use Rattle.px_queue.specs.Laid.{TOP};

use crate::chunks::Chunks;
use px_block::BlockSource;

impl Chunks {
    /// Drops the bytes before byte index `from`. A block whose last chunk goes returns to its source.
    pub(crate) fn forget<B: BlockSource>(&mut self, from: u128, source: &mut B)
        requires rising { Rise 0 TOP self.old.before }
        requires top { from ≤ TOP }
        ensures rising { Rise from TOP self.new.before }
        ensures bytes { (i : ℕ) → from ≤ i → byte_at self.new.before i ≡ byte_at self.old.before i }
        ensures behind { self.new.behind ≡ self.old.behind }
        ensures room { self.old.room ≤ self.new.room }
        ensures block_room { self.old.block_room ≤ self.new.block_room }
        ensures given { after_giving (B.given source.new) self.new.blocks ≡ after_giving (B.given source.old) self.old.blocks }
    {
        self.drop_past(from, source);
        self.cut_past(from);
    }

    // Drops the first chunks that end at or before byte index `from`.
    fn drop_past<B: BlockSource>(&mut self, from: u128, source: &mut B)
        requires rising { Rise 0 TOP self.old.before }
        ensures rising { Rise 0 TOP self.new.before }
        ensures first { (d : Piece) → 0 < length self.new.before → from ≤ end_of (slice_index_or self.new.before 0 d) }
        ensures bytes { (i : ℕ) → from ≤ i → byte_at self.new.before i ≡ byte_at self.old.before i }
        ensures behind { self.new.behind ≡ self.old.behind }
        ensures room { self.old.room ≤ self.new.room }
        ensures block_room { self.old.block_room ≤ self.new.block_room }
        ensures given { after_giving (B.given source.new) self.new.blocks ≡ after_giving (B.given source.old) self.old.blocks }
    {
        while self.ends_by(from) {
            self.drop_first(source);
        }
    }

    // Cuts the first chunk at byte index `from`, where it begins before it.
    fn cut_past(&mut self, from: u128)
        requires rising { Rise 0 TOP self.old.before }
        requires top { from ≤ TOP }
        requires first { (d : Piece) → 0 < length self.old.before → from ≤ end_of (slice_index_or self.old.before 0 d) }
        ensures rising { Rise from TOP self.new.before }
        ensures bytes { (i : ℕ) → from ≤ i → byte_at self.new.before i ≡ byte_at self.old.before i }
        ensures behind { self.new.behind ≡ self.old.behind }
        ensures blocks { self.new.blocks ≡ self.old.blocks }
        ensures room { self.new.room ≡ self.old.room }
        ensures block_room { self.new.block_room ≡ self.old.block_room }
    {
        if self.begins_below(from) {
            self.cut_first(from);
        }
    }

    // Whether the first chunk ends at or before byte index `from`.
    fn ends_by(&self, from: u128) -> bool
        ensures some { IsTrue result → 0 < length self.now.before }
        ensures yes { IsTrue result → (d : Piece) → end_of (slice_index_or self.now.before 0 d) ≤ from }
        ensures no { IsFalse result → (d : Piece) → 0 < length self.now.before → from ≤ end_of (slice_index_or self.now.before 0 d) }
    {
        if self.len() == 0 {
            return false;
        }
        self.end(0) <= from
    }

    // Whether the first chunk begins before byte index `from`.
    fn begins_below(&self, from: u128) -> bool
        ensures some { IsTrue result → 0 < length self.now.before }
        ensures yes { IsTrue result → (d : Piece) → (slice_index_or self.now.before 0 d).at ≤ from }
        ensures no { IsFalse result → (d : Piece) → 0 < length self.now.before → from ≤ (slice_index_or self.now.before 0 d).at }
    {
        if self.len() == 0 {
            return false;
        }
        self.first(0) < from
    }

    /// Drops all chunks. Each block goes back to its source.
    pub(crate) fn forget_all<B: BlockSource>(&mut self, source: &mut B)
        requires rest { self.old.behind ≡ [] }
        ensures before { self.new.before ≡ [] }
        ensures behind { self.new.behind ≡ [] }
        ensures none { self.new.blocks ≡ 0 }
        ensures room { self.old.room ≤ self.new.room }
        ensures block_room { self.old.block_room ≤ self.new.block_room }
        ensures given { B.given source.new ≡ after_giving (B.given source.old) self.old.blocks }
    {
        while !self.is_empty() {
            self.drop_last(source);
        }
    }
}
