//! Used blocks, and a text, held to be used again.

ghost use Rattle.std.specs.Prelude.{◌≡◌, Some, None};

use px_block::{Block, BlockSource};
use px_types::limits::MAX_INPUTS_ON_SINK;
use px_types::{Mem, Text};
use std::alloc::Global;
use std::mem;

/// Used blocks that wait to be used again (PulseAudio: the free list of a `pa_mempool`), at most 256 of them, one for each stream that a sink can
/// have. A block that is taken is one of these, emptied, or a new one where none waits; one that comes back is held, or dropped where 256 wait. How
/// many came back isn't visible. Beside them waits the text of a client's last bytes, for the session's reader.
#[derive(Drop)]
pub struct Spares {
    alloc: Global,
    blocks: Vec<Block>,
    text: Option<Text>,
}

impl Spares {
    /// Holds no blocks. Takes the memory for their places, and not for the blocks.
    pub fn new(alloc: Global) -> Mem<Spares> {
        Ok(Spares {
            alloc,
            blocks: Vec::with_capacity(alloc, MAX_INPUTS_ON_SINK)?,
            text: None,
        })
    }

    /// Takes all that is held, and holds nothing then. Takes no memory.
    pub(crate) fn take_all(&mut self) -> Spares {
        let alloc = self.alloc;
        mem::replace(
            self,
            Spares {
                alloc,
                blocks: Vec::new(alloc),
                text: None,
            },
        )
    }

    /// Holds a text whose bytes are done with, in place of the one before. Takes no memory.
    pub fn reclaim_text(&mut self, text: Text)
        ensures { self.new.text ≡ Some text }
    {
        self.text = Some(text);
    }

    /// Takes the held text, if there is one. Takes no memory.
    pub fn take_text(&mut self) -> Option<Text>
        ensures { result ≡ self.old.text }
    {
        self.text.take()
    }
}

impl BlockSource for Spares {
    ghost given = { λ _. None };

    fn take(&mut self) -> px_block::Mem<Block> {
        let Some(mut block) = self.blocks.pop() else {
            return Block::new(self.alloc);
        };
        block.clear();
        block.open()?;
        Ok(block)
    }

    fn take_for(&mut self, bytes: usize) -> px_block::Mem<Block> {
        let Some(mut block) = self.blocks.pop() else {
            return Block::with_room(self.alloc, bytes);
        };
        block.clear();
        block.reserve(bytes)?;
        Ok(block)
    }

    fn give(&mut self, block: Block) {
        if self.blocks.len() < self.blocks.capacity() {
            self.blocks.push_reserved(block);
        }
    }
}
