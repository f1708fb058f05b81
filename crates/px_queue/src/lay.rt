// Laying bytes after those before them.
ghost use Rattle.std.specs.Prelude.{◌≡◌, ℕ, ◌+◌, ◌≤◌, length, IsTrue, IsFalse, IfSome};
ghost use Rattle.std.specs.List.{concat};
ghost use Rattle.px_block.specs.Given.{after_giving, blocks_for};
ghost use Rattle.px_block.specs.HeldBlock.{contents};
ghost use Rattle.px_queue.specs.Pieces.{byte_in, byte_at, first_of, Rise};
ghost use Rattle.px_queue.specs.Laid.{TOP};

use crate::chunks::Chunks;
use px_block::{Block, BlockSource, Blocks};
use std::collections::VecDeque;

impl Chunks {
    /// Lays bytes at the end of `before`. Few bytes are copied into the last block, where they begin at its end and it has the room; then their own
    /// goes back to its source.
    pub(crate) fn put<B: BlockSource>(&mut self, at: u128, bytes: Blocks, source: &mut B)
        requires rising { Rise 0 at self.old.before }
        requires top { at + length bytes ≤ TOP }
        requires room { blocks_for (length bytes) ≤ self.old.room }
        requires block_room { blocks_for (length bytes) ≤ self.old.block_room }
        ensures rising { Rise 0 (at + length bytes) self.new.before }
        ensures bytes { (i : ℕ) → byte_at self.new.before i ≡ first_of (byte_at self.old.before i) (byte_in (record { at = at; bytes = bytes }) i) }
        ensures behind { self.new.behind ≡ self.old.behind }
        ensures room { self.old.room ≤ self.new.room + blocks_for (length bytes) }
        ensures block_room { self.old.block_room ≤ self.new.block_room + blocks_for (length bytes) }
        ensures given { after_giving (B.given source.new) self.new.blocks ≡ after_giving (B.given source.old) (self.old.blocks + blocks_for (length bytes)) }
    {
        if self.extend(at, &bytes) {
            bytes.give_back(source);
            return;
        }
        self.close();
        self.lay_all(at, bytes);
    }

    // Copies bytes of a single block into the last block of `before`, where they begin at its end and it has the room, and answers whether it did.
    fn extend(&mut self, at: u128, bytes: &Blocks) -> bool
        requires rising { Rise 0 at self.old.before }
        requires top { at + length bytes.now ≤ TOP }
        ensures rising { IsTrue result → Rise 0 (at + length bytes.now) self.new.before }
        ensures bytes { IsTrue result → (i : ℕ) → byte_at self.new.before i ≡ first_of (byte_at self.old.before i) (byte_in (record { at = at; bytes = bytes.now }) i) }
        ensures same { IsFalse result → self.new.before ≡ self.old.before }
        ensures behind { self.new.behind ≡ self.old.behind }
        ensures blocks { self.new.blocks ≡ self.old.blocks }
        ensures room { self.new.room ≡ self.old.room }
        ensures block_room { self.new.block_room ≡ self.old.block_room }
    {
        let Some(all) = only(bytes) else {
            return false;
        };
        self.append(at, all)
    }

    // Lays the blocks of these bytes one after another.
    fn lay_all(&mut self, at: u128, bytes: Blocks)
        requires rising { Rise 0 at self.old.before }
        requires top { at + length bytes ≤ TOP }
        requires room { blocks_for (length bytes) ≤ self.old.room }
        requires block_room { blocks_for (length bytes) ≤ self.old.block_room }
        ensures rising { Rise 0 (at + length bytes) self.new.before }
        ensures bytes { (i : ℕ) → byte_at self.new.before i ≡ first_of (byte_at self.old.before i) (byte_in (record { at = at; bytes = bytes }) i) }
        ensures behind { self.new.behind ≡ self.old.behind }
        ensures blocks { self.new.blocks ≡ self.old.blocks + blocks_for (length bytes) }
        ensures room { self.old.room ≤ self.new.room + blocks_for (length bytes) }
        ensures block_room { self.old.block_room ≤ self.new.block_room + blocks_for (length bytes) }
    {
        self.lay_blocks(at, VecDeque::from_vec(bytes.into_vec()));
    }

    // The same of a list of blocks.
    fn lay_blocks(&mut self, at: u128, mut blocks: VecDeque<Block>)
        requires rising { Rise 0 at self.old.before }
        requires top { at + length (concat (contents blocks.items)) ≤ TOP }
        requires room { length blocks.items ≤ self.old.room }
        requires block_room { length blocks.items ≤ self.old.block_room }
        ensures rising { Rise 0 (at + length (concat (contents blocks.items))) self.new.before }
        ensures bytes { (i : ℕ) → byte_at self.new.before i ≡ first_of (byte_at self.old.before i) (byte_in (record { at = at; bytes = concat (contents blocks.items) }) i) }
        ensures behind { self.new.behind ≡ self.old.behind }
        ensures blocks { self.new.blocks ≡ self.old.blocks + length blocks.items }
        ensures room { self.old.room ≤ self.new.room + length blocks.items }
        ensures block_room { self.old.block_room ≤ self.new.block_room + length blocks.items }
    {
        let mut next = at;
        while let Some(block) = blocks.pop_front() {
            let len = block.bytes().len();
            self.lay(next, block);
            next += len as u128;
        }
    }
}

// The bytes, where they lie in one block; else `None`.
fn only(bytes: &Blocks) -> Option<&[u8]>
    ensures { IfSome result (λ all. all.now ≡ bytes.now) }
{
    let blocks = bytes.as_slice();
    if blocks.len() == 1 {
        Some(blocks[0].bytes())
    } else {
        None
    }
}
