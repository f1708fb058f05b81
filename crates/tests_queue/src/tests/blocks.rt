// The blocks that a queue takes and gives back.
ghost use Rattle.std.specs.Prelude.{◌≡◌, ◌≤◌, None, IfOk, length};

use px_block::{Block, BlockSource, Blocks, Fresh};
use px_types::{Mem, NoMemory};
use std::alloc::Global;

/// A source that counts the blocks that come back.
#[derive(Drop)]
pub struct Counting {
    inner: Fresh,
    pub back: u32,
}

impl Counting {
    pub fn new(alloc: Global) -> Counting {
        Counting {
            inner: Fresh::new(alloc),
            back: 0,
        }
    }
}

impl BlockSource for Counting {
    ghost given = { λ _. None };

    fn take(&mut self) -> px_block::Mem<Block> {
        self.inner.take()
    }

    fn give(&mut self, block: Block) {
        self.back = self.back.saturating_add(1);
        self.inner.give(block);
    }
}

/// These bytes in one block.
pub fn packed(alloc: Global, bytes: &[u8]) -> Mem<Blocks>
    requires { length bytes.now ≤ 65536 }
    ensures { IfOk result (λ made. length made ≡ length bytes.now) }
{
    let mut made = Blocks::new(alloc);
    match made.put(&mut Fresh::new(alloc), bytes) {
        Ok(_) => Ok(made),
        Err(_) => Err(NoMemory),
    }
}
