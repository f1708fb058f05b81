//! The memory of what a reader gives.

ghost use Rattle.std.specs.Prelude.{◌≡◌, Some, IsNone, IfOk};

use px_types::{Mem, Text};
use std::alloc::Global;

/// Where the memory of what a reader gives comes from: an allocator, and for the bytes of an event at most one text that the caller gave
/// back.
#[derive(Debug, Drop)]
pub(crate) struct Supply {
    alloc: Global,
    used: Option<Text>,
}

impl Supply {
    /// Only the allocator. Takes no memory.
    pub(crate) fn new(alloc: Global) -> Supply
        ensures { IsNone result.used }
    {
        Supply { alloc, used: None }
    }

    /// The allocator.
    pub(crate) fn alloc(&self) -> Global {
        self.alloc
    }

    /// Holds a text for the bytes of the next event, in place of the one that it held before. Takes no memory.
    pub(crate) fn reclaim(&mut self, text: Text)
        ensures { self.new.used ≡ Some text }
    {
        self.used = Some(text);
    }

    /// A copy of the bytes, in the text that it holds if there is one. Takes memory where that has too little room.
    pub(crate) fn copied(&mut self, bytes: &[u8]) -> Mem<Text>
        ensures { IfOk result (λ t. t ≡ bytes.now) }
    {
        let Some(used) = self.used.take() else {
            return Text::copied(self.alloc, bytes);
        };
        let mut copy = used.into_vec();
        copy.clear();
        copy.extend_from_slice(bytes)?;
        Ok(Text::from_vec(copy))
    }
}
