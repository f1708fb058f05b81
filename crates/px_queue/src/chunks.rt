// Chunks in rising order, over a shelf of blocks.
ghost use Rattle.std.specs.Prelude.{◌≡◌, ◌+◌, ◌-◌, ◌<◌, ◌≤◌, ◌^◌, [], ◌∷◌, ◌++◌, length, take, drop, slice_index_or, if◌then◌else◌, OnOk, IsTrue, IsFalse};
ghost use Rattle.px_block.specs.Given.{after_giving};
ghost use Rattle.px_block.specs.Shelved.{under, references_to, bytes_of, released, appended, blocks_on, SetsOnly};
ghost use Rattle.px_queue.specs.Pieces.{Piece, last_of, front_of, head_to, tail_from, end_of};
ghost use Rattle.px_queue.specs.Laid.{TOP};

use crate::chunk::Chunk;
use crate::gap_buffer::GapBuffer;
use px_block::{Block, BlockSource, Mem, Shelf};
use std::alloc::Global;
use std::marker::Model;

/// The most bytes of a write that is copied into the block of an earlier one. Larger writes stay in a block of their own, which takes little more
/// than their bytes, and aren't copied. A last block of at most this size is given room for more bytes.
const FEW: usize = 1_024;

/// Chunks in rising order, over the shelf of their blocks: those before the byte index of a write (`before`), and those after it (`behind`), empty at
/// rest. `open` is the key of the last block that was given room for more bytes.
#[derive(Debug, Drop)]
pub(crate) struct Chunks {
    shelf: Shelf,
    list: GapBuffer,
    open: Option<usize>,
}

impl Model for Chunks {
    ghost use Rattle.std.specs.Prelude.{◌++◌, ◌+◌, ◌-◌, ◌≤◌, length};
    ghost use Rattle.px_block.specs.Shelved.{blocks_on};
    ghost use Rattle.px_queue.specs.Laid.{Chunked, pieces_of, IsTied};

    ghost Value = { Chunked };

    ghost view = { λ c. record {
      before = pieces_of c.shelf c.list.before;
      behind = pieces_of c.shelf c.list.behind;
      blocks = blocks_on c.shelf;
      room = c.list.capacity - (length c.list.before + length c.list.behind);
      block_room = c.shelf.room;
    } };

    ghost invariant = { λ c. IsTied c.shelf (c.list.before ++ c.list.behind)
        × (length c.list.before + length c.list.behind ≤ c.list.capacity) };
}

impl Chunks {
    /// No chunks, over an empty shelf.
    pub(crate) fn new(alloc: Global) -> Chunks
        ensures before { result.before ≡ [] }
        ensures behind { result.behind ≡ [] }
        ensures blocks { result.blocks ≡ 0 }
    {
        Chunks {
            shelf: Shelf::new(alloc),
            list: GapBuffer::new(alloc),
            open: None,
        }
    }

    /// The number of chunks in `before`.
    pub(crate) fn len(&self) -> usize
        ensures { result ≡ length self.now.before }
    {
        self.list.len()
    }

    /// Whether `before` is empty.
    pub(crate) fn is_empty(&self) -> bool
        ensures yes { IsTrue result → self.now.before ≡ [] }
        ensures no { IsFalse result → 0 < length self.now.before }
        ensures blocks { IsTrue result → self.now.behind ≡ [] → self.now.blocks ≡ 0 }
    {
        self.list.is_empty()
    }

    /// The byte index at which chunk `k` of `before` begins.
    pub(crate) fn first(&self, k: usize) -> u128
        requires { k < length self.now.before }
        ensures value { (d : Piece) → result ≡ (slice_index_or self.now.before k d).at }
        ensures few { result ≤ TOP }
    {
        self.list.get(k).first()
    }

    /// The byte index at which chunk `k` of `before` ends, one past its last byte.
    pub(crate) fn end(&self, k: usize) -> u128
        requires { k < length self.now.before }
        ensures value { (d : Piece) → result ≡ end_of (slice_index_or self.now.before k d) }
        ensures few { result ≤ TOP }
    {
        self.list.get(k).end()
    }

    /// The byte index at which the last chunk of `before` begins.
    pub(crate) fn last_first(&self) -> u128
        requires { 0 < length self.now.before }
        ensures { result ≡ (last_of self.now.before).at }
    {
        self.first(self.len() - 1)
    }

    /// The byte index at which that chunk ends, one past its last byte.
    pub(crate) fn last_end(&self) -> u128
        requires { 0 < length self.now.before }
        ensures value { result ≡ end_of (last_of self.now.before) }
        ensures few { result ≤ TOP }
    {
        self.end(self.len() - 1)
    }

    /// Leaves the first `count` chunks in `before`.
    pub(crate) fn leave(&mut self, count: usize)
        requires { count ≤ length self.old.before }
        ensures before { self.new.before ≡ take count self.old.before }
        ensures behind { self.new.behind ≡ drop count self.old.before ++ self.old.behind }
        ensures blocks { self.new.blocks ≡ self.old.blocks }
        ensures room { self.new.room ≡ self.old.room }
        ensures block_room { self.new.block_room ≡ self.old.block_room }
    {
        self.list.part(count);
    }

    /// Moves `behind` to `before`.
    pub(crate) fn join(&mut self)
        ensures before { self.new.before ≡ self.old.before ++ self.old.behind }
        ensures rest { self.new.behind ≡ [] }
        ensures blocks { self.new.blocks ≡ self.old.blocks }
        ensures room { self.new.room ≡ self.old.room }
        ensures block_room { self.new.block_room ≡ self.old.block_room }
    {
        self.list.join();
    }

    /// Drops the last chunk of `before`.
    pub(crate) fn drop_last<B: BlockSource>(&mut self, source: &mut B)
        requires some { 0 < length self.old.before }
        ensures before { self.new.before ≡ front_of self.old.before }
        ensures behind { self.new.behind ≡ self.old.behind }
        ensures room { self.old.room + 1 ≤ self.new.room }
        ensures block_room { self.old.block_room ≤ self.new.block_room }
        ensures given { after_giving (B.given source.new) self.new.blocks ≡ after_giving (B.given source.old) self.old.blocks }
    {
        let last = self.list.pop_back().unwrap();
        let_go(&mut self.shelf, last.key(), source);
    }

    /// Cuts the last chunk of `before` at byte index `to`, inside it.
    pub(crate) fn cut_last(&mut self, to: u128)
        requires some { 0 < length self.old.before }
        requires from { (last_of self.old.before).at ≤ to }
        requires to { to ≤ end_of (last_of self.old.before) }
        ensures before { self.new.before ≡ front_of self.old.before ++ head_to (last_of self.old.before) to ∷ [] }
        ensures behind { self.new.behind ≡ self.old.behind }
        ensures blocks { self.new.blocks ≡ self.old.blocks }
        ensures room { self.new.room ≡ self.old.room }
        ensures block_room { self.new.block_room ≡ self.old.block_room }
    {
        let last = self.list.pop_back().unwrap();
        self.list.push_back_reserved(last.head(to));
    }

    /// Splits the last chunk of `before` at byte index `at`, inside it, in two chunks of one block.
    pub(crate) fn split_last(&mut self, at: u128)
        requires some { 0 < length self.old.before }
        requires from { (last_of self.old.before).at ≤ at }
        requires to { at ≤ end_of (last_of self.old.before) }
        requires room { 1 ≤ self.old.room }
        ensures before { self.new.before ≡ front_of self.old.before ++ head_to (last_of self.old.before) at ∷ [] }
        ensures behind { self.new.behind ≡ tail_from (last_of self.old.before) at ∷ self.old.behind }
        ensures blocks { self.new.blocks ≡ self.old.blocks }
        ensures room { self.old.room ≤ self.new.room + 1 }
        ensures block_room { self.new.block_room ≡ self.old.block_room }
    {
        let last = self.list.pop_back().unwrap();
        self.shelf.retain(last.key());
        self.list.push_back_reserved(last.head(at));
        self.list.push_behind_reserved(last.tail(at));
    }

    /// Appends a block to `before` as a chunk, at byte index `at`.
    pub(crate) fn lay(&mut self, at: u128, block: Block)
        requires top { at + length block.bytes ≤ TOP }
        requires room { 1 ≤ self.old.room }
        requires block_room { 1 ≤ self.old.block_room }
        ensures before { self.new.before ≡ self.old.before ++ record { at = at; bytes = block.bytes } ∷ [] }
        ensures behind { self.new.behind ≡ self.old.behind }
        ensures blocks { self.new.blocks ≡ self.old.blocks + 1 }
        ensures room { self.old.room ≤ self.new.room + 1 }
        ensures block_room { self.old.block_room ≤ self.new.block_room + 1 }
    {
        let len = block.bytes().len() as u32;
        let key = self.shelf.put(block).unwrap();
        self.list.push_back_reserved(Chunk::new(at, key, len));
    }

    /// Drops the first chunk of `before`.
    pub(crate) fn drop_first<B: BlockSource>(&mut self, source: &mut B)
        requires some { 0 < length self.old.before }
        ensures before { self.new.before ≡ drop 1 self.old.before }
        ensures behind { self.new.behind ≡ self.old.behind }
        ensures room { self.old.room + 1 ≤ self.new.room }
        ensures block_room { self.old.block_room ≤ self.new.block_room }
        ensures given { after_giving (B.given source.new) self.new.blocks ≡ after_giving (B.given source.old) self.old.blocks }
    {
        let first = self.list.pop_front().unwrap();
        let_go(&mut self.shelf, first.key(), source);
    }

    /// Cuts the first chunk of `before` at byte index `from`, inside it, and leaves what follows.
    pub(crate) fn cut_first(&mut self, from: u128)
        requires some { 0 < length self.old.before }
        requires from { (d : Piece) → (slice_index_or self.old.before 0 d).at ≤ from }
        requires to { (d : Piece) → from ≤ end_of (slice_index_or self.old.before 0 d) }
        ensures before { (d : Piece) → self.new.before ≡ tail_from (slice_index_or self.old.before 0 d) from ∷ drop 1 self.old.before }
        ensures behind { self.new.behind ≡ self.old.behind }
        ensures blocks { self.new.blocks ≡ self.old.blocks }
        ensures room { self.new.room ≡ self.old.room }
        ensures block_room { self.new.block_room ≡ self.old.block_room }
    {
        let first = self.list.pop_front().unwrap();
        self.list.push_front_reserved(first.tail(from));
    }

    /// Makes room for `chunks` more chunks, in `blocks` more blocks. Without memory nothing changes.
    pub(crate) fn reserve(&mut self, chunks: usize, blocks: usize) -> Mem<()>
        ensures ok { OnOk result ((chunks ≤ self.new.room) × (blocks ≤ self.new.block_room)) }
        ensures before { self.new.before ≡ self.old.before }
        ensures behind { self.new.behind ≡ self.old.behind }
        ensures blocks { self.new.blocks ≡ self.old.blocks }
        ensures room { self.old.room ≤ self.new.room }
        ensures block_room { self.old.block_room ≤ self.new.block_room }
    {
        self.list.reserve(chunks)?;
        self.shelf.reserve(blocks)?;
        Ok(())
    }

    /// Appends bytes to the block of the last chunk of `before`, where they begin at its end and the block has the room, and answers whether it did.
    /// Takes no memory.
    pub(crate) fn append(&mut self, at: u128, bytes: &[u8]) -> bool
        requires { at + length bytes.now ≤ TOP }
        ensures some { IsTrue result → 0 < length self.old.before }
        ensures there { IsTrue result → at ≡ end_of (last_of self.old.before) }
        ensures yes { IsTrue result → self.new.before ≡ front_of self.old.before ++ record { at = (last_of self.old.before).at; bytes = (last_of self.old.before).bytes ++ bytes.now } ∷ [] }
        ensures no { IsFalse result → self.new.before ≡ self.old.before }
        ensures behind { self.new.behind ≡ self.old.behind }
        ensures blocks { self.new.blocks ≡ self.old.blocks }
        ensures room { self.new.room ≡ self.old.room }
        ensures block_room { self.new.block_room ≡ self.old.block_room }
    {
        let Some(last) = self.list.pop_back() else {
            return false;
        };
        if grow(&mut self.shelf, &last, at, bytes) {
            self.list
                .push_back_reserved(last.longer(bytes.len() as u32));
            return true;
        }
        self.list.push_back_reserved(last);
        false
    }

    /// Makes room in the block of chunk `k` of `before`, if there is memory. It does where the chunk ends with its block and that has at most `FEW`
    /// bytes.
    pub(crate) fn open(&mut self, k: usize)
        requires { k < length self.old.before }
        ensures { self.new ≡ self.old }
    {
        let chunk = self.list.get(k);
        let end = chunk.place() + chunk.len();
        let key = chunk.key();
        if end > FEW || self.shelf.len_of(key) != end {
            return;
        }
        self.shelf.open(key);
        self.open = Some(key);
    }

    /// Whether a block has such room.
    pub(crate) fn is_open(&self) -> bool {
        self.open.is_some()
    }

    /// Gives that room back.
    pub(crate) fn close(&mut self)
        ensures { self.new ≡ self.old }
    {
        if let Some(key) = self.open {
            self.shelf.fit(key);
            self.open = None;
        }
    }

    /// The `len` bytes of chunk `k` of `before` from byte index `from` on, inside it.
    pub(crate) fn bytes(&self, k: usize, from: u128, len: usize) -> &[u8]
        requires some { k < length self.now.before }
        requires from { (d : Piece) → (slice_index_or self.now.before k d).at ≤ from }
        requires inside { (d : Piece) → from + len ≤ end_of (slice_index_or self.now.before k d) }
        ensures value { (d : Piece) → result.now ≡ take len (drop (from - (slice_index_or self.now.before k d).at) (slice_index_or self.now.before k d).bytes) }
        ensures size { length result.now ≡ len }
    {
        let chunk = self.list.get(k);
        let place = chunk.place() + (from - chunk.first()) as usize;
        self.shelf.bytes(chunk.key(), place, len)
    }

    /// Fills `out` with bytes of chunk `k` of `before`, from byte index `from` on.
    pub(crate) fn copy(&self, k: usize, from: u128, out: &mut [u8])
        requires some { k < length self.now.before }
        requires from { (d : Piece) → (slice_index_or self.now.before k d).at ≤ from }
        requires inside { (d : Piece) → from + length out.old ≤ end_of (slice_index_or self.now.before k d) }
        ensures { (d : Piece) → out.new ≡ take (length out.old) (drop (from - (slice_index_or self.now.before k d).at) (slice_index_or self.now.before k d).bytes) }
    {
        out.copy_from_slice(self.bytes(k, from, out.len()));
    }
}

// Drops one reference to the block under `key`, which is there.
fn let_go<B: BlockSource>(shelf: &mut Shelf, key: usize, source: &mut B)
    requires { 1 ≤ references_to (under shelf.old key) }
    ensures slots { SetsOnly shelf.old shelf.new key (released (under shelf.old key)) }
    ensures room { shelf.old.room ≤ shelf.new.room }
    ensures given { after_giving (B.given source.new) (blocks_on shelf.new) ≡ after_giving (B.given source.old) (blocks_on shelf.old) }
{
    if let Some(block) = shelf.release(key) {
        source.give(block);
    }
}

// Appends bytes to the block of chunk `last`, where they begin at its end, it ends with its block and the block has the room, and answers whether it
// did.
fn grow(shelf: &mut Shelf, last: &Chunk, at: u128, bytes: &[u8]) -> bool
    requires { 1 ≤ references_to (under shelf.old last.now.key) }
    ensures slots { SetsOnly shelf.old shelf.new last.now.key (appended (under shelf.old last.now.key) (if result then bytes.now else [])) }
    ensures room { shelf.new.room ≡ shelf.old.room }
    ensures there { IsTrue result → at ≡ last.now.at + last.now.len }
    ensures whole { IsTrue result → last.now.place + last.now.len ≡ length (bytes_of (under shelf.old last.now.key)) }
    ensures few { IsTrue result → last.now.place + last.now.len + length bytes.now < 2 ^ 32 }
{
    if last.end() != at || bytes.len() > FEW {
        return false;
    }
    if shelf.len_of(last.key()) != last.place() + last.len() {
        return false;
    }
    shelf.append(last.key(), bytes)
}
