//! The rule of a pool's queue. These types are for the proofs alone: no value of them is made.

use crossbeam_queue::protocol::{Lesson, Outcome, Protocol};
use px_block::Block;

/// Each block in the pool is empty.
pub struct Emptied;

impl Protocol<Block, ()> for Emptied {
    ghost use Rattle.px_pool.specs.Pool.{AreEmpty};

    ghost holds = { λ blocks seats. AreEmpty blocks };

    ghost first = { tt };
}

/// A block is stored, or the pool is full.
pub struct Stores;

impl Outcome<Block, ()> for Stores {
    ghost use Rattle.std.specs.Prelude.{⊤};

    ghost then = { λ before block after. ⊤ };
}

impl Lesson<Block, ()> for Stores {
    ghost use Rattle.px_pool.specs.Pool.{AreEmpty};

    ghost fact = { λ seat blocks. AreEmpty blocks };
}

/// A block is found, or the pool is empty.
pub struct Finds;

impl Outcome<Block, ()> for Finds {
    ghost use Rattle.std.specs.Prelude.{◌≡◌, []};

    ghost then = { λ before block after. block.bytes ≡ [] };
}

impl Lesson<Block, ()> for Finds {
    ghost use Rattle.px_pool.specs.Pool.{AreEmpty};

    ghost fact = { λ seat blocks. AreEmpty blocks };
}
