//! Blocks of bytes, all of one size, and the sources that hand them out and take them back. A stream's written bytes lie in blocks from the
//! moment they come off the wire until they are mixed.
#![tactic(auto)]

mod block;
mod blocks;
mod shelf;
mod source;

pub use block::{BLOCK_SIZE, Block, Mem, NoMemory};
pub use blocks::Blocks;
pub use shelf::Shelf;
pub use source::{BlockSource, Fresh};
