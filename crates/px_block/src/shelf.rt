// Blocks shared by reference count.

ghost use Rattle.std.specs.Prelude.{◌≡◌, ◌+◌, ◌-◌, ◌^◌, ◌<◌, ◌≤◌, ◌==◌, ◌++◌, [], if◌then◌else◌, length, take, drop, Some, None, IfOk, IfErr, IsOk, OnOk, OnErr, OnSome, MatchOption};
ghost use Rattle.px_block.specs.Shelved.{under, references_to, bytes_of, retained, released, appended, SetsOnly};

use crate::block::{BLOCK_SIZE, Block, Mem};
use slab::Slab;
use std::alloc::Global;
use std::marker::Model;

// A block with its count of references, at least one.
#[derive(Debug, Drop)]
struct Counted {
    block: Block,
    references: usize,
}

impl Model for Counted {
    ghost use Rattle.std.specs.Prelude.{◌≤◌};
    ghost use Rattle.px_block.specs.Shelved.{Shelved};

    ghost Value = { Shelved };

    ghost view = { λ c. record { bytes = c.block.bytes; references = c.references } };

    ghost invariant = { λ c. 1 ≤ c.references };
}

impl Counted {
    fn new(block: Block) -> Counted
        ensures { result ≡ record { bytes = block.bytes; references = 1 } }
    {
        Counted {
            block,
            references: 1,
        }
    }

    fn bytes(&self) -> &[u8]
        ensures bytes { result.now ≡ self.now.bytes }
        ensures few { length self.now.bytes ≤ BLOCK_SIZE }
    {
        self.block.bytes()
    }

    fn is_last(&self) -> bool
        ensures { result ≡ (self.now.references == 1) }
    {
        self.references == 1
    }

    fn retain(&mut self)
        requires { self.old.references < 2 ^ 64 - 1 }
        ensures { self.new ≡ record self.old { references = self.old.references + 1 } }
    {
        self.references += 1;
    }

    fn release(&mut self)
        requires { 1 < self.old.references }
        ensures { self.new ≡ record self.old { references = self.old.references - 1 } }
    {
        self.references -= 1;
    }

    fn append(&mut self, bytes: &[u8]) -> bool
        ensures bytes { self.new.bytes ≡ self.old.bytes ++ (if result then bytes.now else []) }
        ensures references { self.new.references ≡ self.old.references }
    {
        if self.block.room() < bytes.len() {
            return false;
        }
        self.block.put(bytes);
        true
    }

    fn open(&mut self)
        ensures { self.new ≡ self.old }
    {
        let _opened = self.block.open();
    }

    fn fit(&mut self)
        ensures { self.new ≡ self.old }
    {
        self.block.fit();
    }

    fn into_block(self) -> Block
        ensures { result.bytes ≡ self.bytes }
    {
        self.block
    }
}

/// Blocks shared by reference count (`pa_memblock_ref` and `pa_memblock_unref`): each is stored under a key that the shelf picks, until its
/// last reference is released. `put` gives it one; `retain` adds one, and `release` takes one away.
#[derive(Debug, Drop)]
pub struct Shelf {
    blocks: Slab<Counted>,
}

impl Model for Shelf {
    ghost use Rattle.std.specs.Prelude.{◌-◌};
    ghost use Rattle.slab.specs.Slab.{slab_len};
    ghost use Rattle.px_block.specs.Shelved.{Shelves};

    ghost Value = { Shelves };

    ghost view = { λ s. record { slots = s.blocks.slots; room = s.blocks.capacity - slab_len s.blocks } };
}

impl Shelf {
    /// A shelf with no blocks. Takes no memory.
    pub fn new(alloc: Global) -> Shelf
        ensures { result ≡ record { slots = []; room = 0 } }
    {
        Shelf {
            blocks: Slab::new(alloc),
        }
    }

    /// Takes room for `more` more blocks. Without memory nothing changes.
    pub fn reserve(&mut self, more: usize) -> Mem<()>
        ensures ok { OnOk result (more ≤ self.new.room) }
        ensures slots { self.new.slots ≡ self.old.slots }
        ensures room { self.old.room ≤ self.new.room }
    {
        self.blocks.reserve(more)?;
        Ok(())
    }

    /// Stores a block under a free key, with one reference, and answers the key. Without memory it hands the block back and nothing
    /// changes; where there is room it takes no memory, and can't fail.
    pub fn put(&mut self, block: Block) -> Result<usize, Block>
        ensures free { IfOk result (λ key. under self.old key ≡ None) }
        ensures ok { IfOk result (λ key. SetsOnly self.old self.new key (Some (record { bytes = block.bytes; references = 1 }))) }
        ensures err { IfErr result (λ back. back.bytes ≡ block.bytes) }
        ensures same { OnErr result (self.new.slots ≡ self.old.slots) }
        ensures reserved { 1 ≤ self.old.room → IsOk result }
        ensures room { self.old.room ≤ self.new.room + 1 }
    {
        match self.blocks.insert(Counted::new(block)) {
            Ok(key) => Ok(key),
            Err(refused) => Err(refused.value.into_block()),
        }
    }

    /// Adds a reference to the block under `key`, which is there and has fewer than 2^64 - 1. Takes no memory.
    pub fn retain(&mut self, key: usize)
        requires there { 1 ≤ references_to (under self.old key) }
        requires countable { references_to (under self.old key) < 2 ^ 64 - 1 }
        ensures slots { SetsOnly self.old self.new key (retained (under self.old key)) }
        ensures room { self.new.room ≡ self.old.room }
    {
        self.blocks[key].retain();
    }

    /// Releases a reference to the block under `key`, which is there. With the last one the block is handed out, and the key is free; else
    /// the answer is `None`. Takes no memory.
    pub fn release(&mut self, key: usize) -> Option<Block>
        requires { 1 ≤ references_to (under self.old key) }
        ensures slots { SetsOnly self.old self.new key (released (under self.old key)) }
        ensures block { MatchOption result (1 < references_to (under self.old key)) (λ block. under self.old key ≡ Some (record { bytes = block.bytes; references = 1 })) }
        ensures room { self.old.room ≤ self.new.room }
        ensures freed { OnSome result (self.old.room + 1 ≤ self.new.room) }
    {
        if self.blocks[key].is_last() {
            return Some(self.blocks.remove(key).into_block());
        }
        self.blocks[key].release();
        None
    }

    /// The `len` bytes from place `from` on of the block under `key`, which is there and has them. Takes no memory.
    pub fn bytes(&self, key: usize, from: usize, len: usize) -> &[u8]
        requires there { 1 ≤ references_to (under self.now key) }
        requires inside { from + len ≤ length (bytes_of (under self.now key)) }
        ensures { result.now ≡ take len (drop from (bytes_of (under self.now key))) }
    {
        let bytes = self.blocks[key].bytes();
        &bytes[from..from + len]
    }

    /// How many bytes the block under `key` has, which is there. Takes no memory.
    pub fn len_of(&self, key: usize) -> usize
        requires { 1 ≤ references_to (under self.now key) }
        ensures value { result ≡ length (bytes_of (under self.now key)) }
        ensures few { result ≤ BLOCK_SIZE }
    {
        self.blocks[key].bytes().len()
    }

    /// Appends bytes to the block under `key`, which is there, and answers whether it had room for all of them; else nothing is appended.
    /// Takes no memory.
    pub fn append(&mut self, key: usize, bytes: &[u8]) -> bool
        requires { 1 ≤ references_to (under self.old key) }
        ensures slots { SetsOnly self.old self.new key (appended (under self.old key) (if result then bytes.now else [])) }
        ensures room { self.new.room ≡ self.old.room }
    {
        self.blocks[key].append(bytes)
    }

    /// Takes the room for `BLOCK_SIZE` bytes in the block under `key`, which is there, if there is memory.
    pub fn open(&mut self, key: usize)
        requires { 1 ≤ references_to (under self.old key) }
        ensures slots { SetsOnly self.old self.new key (under self.old key) }
        ensures room { self.new.room ≡ self.old.room }
    {
        self.blocks[key].open();
    }

    /// Gives back the unused memory of the block under `key`, where one is there. Takes no memory.
    pub fn fit(&mut self, key: usize)
        ensures slots { SetsOnly self.old self.new key (under self.old key) }
        ensures room { self.new.room ≡ self.old.room }
    {
        if let Some(counted) = self.blocks.get_mut(key) {
            counted.fit();
        }
    }
}
