// One block, and the answer for want of memory.

ghost use Rattle.std.specs.Prelude.{◌≡◌, ◌+◌, ◌-◌, ◌≤◌, ◌++◌, [], length, take, min, IfOk, OnOk};

use std::alloc::{AllocError, AllocFailed, Global};
use std::marker::Model;

/// There was no memory. No other failure is answered so.
#[derive(Clone, Copy, Debug, PartialEq, Eq)]
pub struct NoMemory;

/// The answer of a call that can fail only for want of memory.
pub type Mem<T> = Result<T, NoMemory>;

impl From<AllocError> for NoMemory {
    fn from(_refused: AllocError) -> NoMemory {
        NoMemory
    }
}

impl<T: Drop> From<AllocFailed<T>> for NoMemory {
    fn from(_refused: AllocFailed<T>) -> NoMemory {
        NoMemory
    }
}

/// The most bytes that one block has, as `PA_MEMPOOL_SLOT_SIZE` in `pulsecore/memblock.c`.
pub const BLOCK_SIZE: usize = 65_536;

// The least room of a block, which is as much as the heap gives for less. So a few bytes that follow find room in it.
const LEAST: usize = 24;

/// A block of bytes (`pa_memblock`): the bytes put since it was taken, at most `BLOCK_SIZE`. Its room is taken when it is made; `fit` gives
/// back the unused part, and `open` takes it again.
#[derive(Debug, Drop)]
pub struct Block {
    bytes: Vec<u8>,
}

impl Model for Block {
    ghost use Rattle.std.specs.Prelude.{◌≤◌, ◌-◌, min, vec_len, vec_capacity};
    ghost use Rattle.px_block.specs.declared.block.TheConstants.{BLOCK_SIZE};
    ghost use Rattle.px_block.specs.HeldBlock.{HeldBlock};

    ghost Value = { HeldBlock };

    ghost view = { λ b. record { bytes = b.bytes.items; room = min (vec_capacity b.bytes) BLOCK_SIZE - vec_len b.bytes } };

    ghost invariant = { λ b. vec_len b.bytes ≤ BLOCK_SIZE };
}

impl Block {
    /// An empty block. Takes the memory for `BLOCK_SIZE` bytes.
    pub fn new(alloc: Global) -> Mem<Block>
        ensures { IfOk result (λ block. block ≡ record { bytes = []; room = BLOCK_SIZE }) }
    {
        Ok(Block {
            bytes: Vec::with_capacity(alloc, BLOCK_SIZE)?,
        })
    }

    /// An empty block with the memory for `bytes` bytes, at most `BLOCK_SIZE`.
    pub fn with_room(alloc: Global, bytes: usize) -> Mem<Block>
        ensures bytes { IfOk result (λ block. block.bytes ≡ []) }
        ensures room { IfOk result (λ block. min bytes BLOCK_SIZE ≤ block.room) }
    {
        Ok(Block {
            bytes: Vec::with_capacity(alloc, bytes.max(LEAST).min(BLOCK_SIZE))?,
        })
    }

    /// Appends the first of these bytes, and answers how many went in: all of them, or the part that there was room for. Takes no memory.
    pub fn put(&mut self, bytes: &[u8]) -> usize
        ensures count { result ≡ min (length bytes.now) self.old.room }
        ensures bytes { self.new.bytes ≡ self.old.bytes ++ take result bytes.now }
        ensures room { self.old.room ≤ self.new.room + result }
        ensures size { length self.new.bytes ≤ BLOCK_SIZE }
    {
        let count = bytes.len().min(self.room());
        self.bytes.extend_from_slice(&bytes[..count]).unwrap();
        count
    }

    /// How many more bytes it takes without memory.
    pub fn room(&self) -> usize
        ensures { result ≡ self.now.room }
    {
        self.bytes.capacity().min(BLOCK_SIZE) - self.bytes.len()
    }

    /// The bytes that were put, in order. Takes no memory.
    pub fn bytes(&self) -> &[u8]
        ensures bytes { result.now ≡ self.now.bytes }
        ensures size { length self.now.bytes ≤ BLOCK_SIZE }
    {
        self.bytes.as_slice()
    }

    /// Removes all bytes, so that the block can be used again. Its room stays, and it takes no memory.
    pub fn clear(&mut self)
        ensures bytes { self.new.bytes ≡ [] }
        ensures room { self.new.room ≡ length self.old.bytes + self.old.room }
    {
        self.bytes.clear();
    }

    /// Gives back the unused memory, where that is more than half of all and more than 1,024 bytes besides: to give back a little each
    /// time would leave the heap in pieces. Its room doesn't grow. Takes no memory.
    pub fn fit(&mut self)
        ensures bytes { self.new.bytes ≡ self.old.bytes }
        ensures room { self.new.room ≤ self.old.room }
    {
        if self.bytes.capacity() / 2 > self.bytes.len() + 1_024 {
            self.bytes.shrink_to_fit();
        }
    }

    /// Takes the room for `bytes` more bytes, up to `BLOCK_SIZE` in all. Without memory nothing changes.
    pub fn reserve(&mut self, bytes: usize) -> Mem<()>
        ensures bytes { self.new.bytes ≡ self.old.bytes }
        ensures ok { OnOk result (min bytes (BLOCK_SIZE - length self.new.bytes) ≤ self.new.room) }
    {
        let most = BLOCK_SIZE - self.bytes.len();
        self.bytes.reserve_exact(bytes.min(most))?;
        Ok(())
    }

    /// Takes the room for `BLOCK_SIZE` bytes in all. Without memory nothing changes.
    pub fn open(&mut self) -> Mem<()>
        ensures bytes { self.new.bytes ≡ self.old.bytes }
        ensures ok { OnOk result (length self.new.bytes + self.new.room ≡ BLOCK_SIZE) }
    {
        self.bytes.reserve_exact(BLOCK_SIZE - self.bytes.len())?;
        Ok(())
    }
}
