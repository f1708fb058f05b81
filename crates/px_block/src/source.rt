// Where blocks come from, and where used ones go.

ghost use Rattle.std.specs.Prelude.{◌≡◌, ◌≤◌, ℕ, [], Option, None, min, IfOk};
ghost use Rattle.px_block.specs.declared.block.TheConstants.{BLOCK_SIZE};
ghost use Rattle.px_block.specs.Given.{after_giving};

use crate::block::{Block, Mem};
use std::alloc::Global;

/// Hands out blocks and takes them back, as a memory pool does (`pa_mempool`).
pub trait BlockSource {
    /// How many blocks it was given back, where that is visible.
    ghost given: { Self → Option ℕ };

    /// An empty block with room for `BLOCK_SIZE` bytes, whatever its memory held before.
    fn take(&mut self) -> Mem<Block>
        ensures block { IfOk result (λ block. block ≡ record { bytes = []; room = BLOCK_SIZE }) }
        ensures given { given self.new ≡ given self.old };

    /// An empty block too, with room for at least `bytes` bytes, at most `BLOCK_SIZE`. Where few bytes are to wait in it, a source may make
    /// a small one.
    fn take_for(&mut self, bytes: usize) -> Mem<Block>
        ensures bytes { IfOk result (λ block. block.bytes ≡ []) }
        ensures room { IfOk result (λ block. min bytes BLOCK_SIZE ≤ block.room) }
        ensures given { given self.new ≡ given self.old }
    {
        self.take()
    }

    /// Takes back a block that isn't needed any more. Takes no memory.
    fn give(&mut self, block: Block)
        ensures { given self.new ≡ after_giving (given self.old) 1 };
}

/// The source that makes each block anew and drops each one that comes back. How many came back isn't visible.
#[derive(Clone, Copy, Debug)]
pub struct Fresh {
    alloc: Global,
}

impl Fresh {
    /// A source over this allocator. Takes no memory.
    pub fn new(alloc: Global) -> Fresh {
        Fresh { alloc }
    }
}

impl BlockSource for Fresh {
    ghost given = { λ _. None };

    fn take(&mut self) -> Mem<Block> {
        Block::new(self.alloc)
    }

    fn take_for(&mut self, bytes: usize) -> Mem<Block> {
        Block::with_room(self.alloc, bytes)
    }

    fn give(&mut self, block: Block) {
        drop(block);
    }
}
