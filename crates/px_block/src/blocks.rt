// A run of bytes stored in blocks.

ghost use Rattle.std.specs.Prelude.{◌≡◌, ℕ, ◌+◌, ◌*◌, ◌-◌, ◌%◌, ◌^◌, ◌<◌, ◌≤◌, ◌++◌, [], ◌∷◌, length, take, drop, min, vec_len, vec_capacity, IfOk, IfSome, OnOk, OnErr, OnSome, MatchOption};
ghost use Rattle.std.specs.List.{concat};
ghost use Rattle.px_block.specs.HeldBlock.{contents};
ghost use Rattle.px_block.specs.Packed.{IsPacked, AreFull};
ghost use Rattle.px_block.specs.Given.{after_giving, blocks_for};

use crate::block::{BLOCK_SIZE, Block, Mem, NoMemory};
use crate::source::BlockSource;
use std::alloc::Global;
use std::marker::Model;

// The most first bytes that are put into a small block until more come.
const FEW: usize = BLOCK_SIZE / 4;

/// Bytes in blocks, one block after the other (`pa_memchunk`s of one write): each block but the last is
/// full, and none is empty.
#[derive(Debug, Drop)]
pub struct Blocks {
    blocks: Vec<Block>,
}

impl Model for Blocks {
    ghost use Rattle.std.specs.Prelude.{ℕ, List};
    ghost use Rattle.std.specs.List.{concat};
    ghost use Rattle.px_block.specs.HeldBlock.{contents};
    ghost use Rattle.px_block.specs.Packed.{IsPacked};

    ghost Value = { List ℕ };

    ghost view = { λ b. concat (contents b.blocks.items) };

    ghost invariant = { λ b. IsPacked (contents b.blocks.items) };
}

impl Blocks {
    /// No bytes. Takes no memory.
    pub fn new(alloc: Global) -> Blocks
        ensures { result ≡ [] }
    {
        Blocks {
            blocks: Vec::new(alloc),
        }
    }

    /// Appends the first of these bytes to the last block, or to a new one from `source` where that is full, and answers how many went in:
    /// 0 only where `bytes` is empty. After an `Err` nothing has changed.
    pub fn put<B: BlockSource>(&mut self, source: &mut B, bytes: &[u8]) -> Mem<usize>
        ensures count { IfOk result (λ count.
            count ≡ min (length bytes.now) (BLOCK_SIZE - length self.old % BLOCK_SIZE)) }
        ensures bytes { IfOk result (λ count. self.new ≡ self.old ++ take count bytes.now) }
        ensures err { OnErr result (self.new ≡ self.old) }
    {
        if bytes.is_empty() {
            return Ok(0);
        }
        if self.blocks.is_empty() && bytes.len() <= FEW {
            put_first(&mut self.blocks, source, bytes)?;
            return Ok(bytes.len());
        }
        let mut last = take_open(&mut self.blocks, source)?;
        let count = last.put(bytes);
        self.blocks.push_reserved(last);
        Ok(count)
    }

    /// Gives back the unused memory of the last block, once no more bytes are expected. Takes no memory.
    pub fn fit(&mut self)
        ensures { self.new ≡ self.old }
    {
        fit_last(&mut self.blocks);
    }

    /// How many blocks there are. Takes no memory.
    pub fn count(&self) -> usize
        ensures { result ≡ blocks_for (length self.now) }
    {
        self.blocks.len()
    }

    /// How many bytes there are. Takes no memory.
    pub fn len(&self) -> usize
        requires { length self.now < 2 ^ 64 }
        ensures { result ≡ length self.now }
    {
        len_of(&self.blocks)
    }

    /// The blocks, in order. Takes no memory.
    pub fn as_slice(&self) -> &[Block]
        ensures bytes { concat (contents result.now) ≡ self.now }
        ensures packed { IsPacked (contents result.now) }
    {
        self.blocks.as_slice()
    }

    /// Gives each block back to `source`. Takes no memory.
    pub fn give_back<B: BlockSource>(self, source: &mut B)
        ensures { B.given source.new ≡ after_giving (B.given source.old) (blocks_for (length self)) }
    {
        give_all(self.blocks, source);
    }

    /// The blocks themselves, in order. Takes no memory.
    pub fn into_vec(self) -> Vec<Block>
        ensures bytes { concat (contents result.items) ≡ self }
        ensures packed { IsPacked (contents result.items) }
    {
        self.blocks
    }
}

// Gives each of these blocks to a source.
fn give_all<B: BlockSource>(mut blocks: Vec<Block>, source: &mut B)
    ensures { B.given source.new ≡ after_giving (B.given source.old) (vec_len blocks) }
{
    while let Some(block) = blocks.pop() {
        source.give(block);
    }
}

// How many bytes these blocks have.
fn len_of(blocks: &[Block]) -> usize
    requires { length (concat (contents blocks.now)) < 2 ^ 64 }
    ensures { result ≡ length (concat (contents blocks.now)) }
{
    let mut len = 0;
    for block in blocks {
        len += block.bytes().len();
    }
    len
}

// Fits the last block to its bytes.
fn fit_last(blocks: &mut Vec<Block>)
    ensures { contents blocks.new.items ≡ contents blocks.old.items }
{
    if let Some(last) = blocks.last_mut() {
        last.fit();
    }
}

// Puts the first bytes, which are few, into a block with room for them. After an `Err` there is still no block.
fn put_first<B: BlockSource>(blocks: &mut Vec<Block>, source: &mut B, bytes: &[u8]) -> Mem<()>
    requires none { vec_len blocks.old ≡ 0 }
    requires few { length bytes.now ≤ BLOCK_SIZE }
    ensures ok { OnOk result (contents blocks.new.items ≡ bytes.now ∷ []) }
    ensures err { OnErr result (contents blocks.new.items ≡ contents blocks.old.items) }
{
    blocks.reserve_exact(1)?;
    let mut block = source.take_for(bytes.len())?;
    block.put(bytes);
    blocks.push_reserved(block);
    Ok(())
}

// Removes and answers the last block if it isn't full, so that only full ones are left.
fn take_partial(blocks: &mut Vec<Block>) -> Option<Block>
    requires { IsPacked (contents blocks.old.items) }
    ensures items { MatchOption result (blocks.new.items ≡ blocks.old.items) (λ last. blocks.old.items ≡ blocks.new.items ++ last ∷ []) }
    ensures full { AreFull (contents blocks.new.items) }
    ensures partial { IfSome result (λ last. length last.bytes < BLOCK_SIZE) }
    ensures room { OnSome result (vec_len blocks.new < vec_capacity blocks.new) }
{
    if blocks.is_empty() {
        return None;
    }
    let last = blocks.take_last();
    if last.bytes().len() < BLOCK_SIZE {
        return Some(last);
    }
    blocks.push_reserved(last);
    None
}

// Removes the last block if it isn't full, else takes a new one from `source`; only full blocks are left, with room to push it. It has room
// for `BLOCK_SIZE` bytes in all. After an `Err` no bytes have changed.
fn take_open<B: BlockSource>(blocks: &mut Vec<Block>, source: &mut B) -> Mem<Block>
    requires { IsPacked (contents blocks.old.items) }
    ensures bytes { IfOk result (λ last. concat (contents blocks.new.items) ++ last.bytes ≡ concat (contents blocks.old.items)) }
    ensures partial { IfOk result (λ last. length last.bytes < BLOCK_SIZE) }
    ensures open { IfOk result (λ last. length last.bytes + last.room ≡ BLOCK_SIZE) }
    ensures full { OnOk result (AreFull (contents blocks.new.items)) }
    ensures room { OnOk result (vec_len blocks.new < vec_capacity blocks.new) }
    ensures err { OnErr result (contents blocks.new.items ≡ contents blocks.old.items) }
{
    let Some(mut last) = take_partial(blocks) else {
        blocks.reserve(1)?;
        return source.take();
    };
    match last.open() {
        Ok(()) => Ok(last),
        Err(NoMemory) => {
            blocks.push_reserved(last);
            Err(NoMemory)
        }
    }
}
