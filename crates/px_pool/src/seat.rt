//! A thread's handle to a pool.
ghost use Rattle.std.specs.Prelude.{◌≡◌, ◌≤◌, [], None, IfOk};
ghost use Rattle.std.specs.Arc.{arc_value};
ghost use Rattle.crossbeam_queue.specs.Passes.{IsPassOf, ruled_capacity};

use crate::pool::Pool;
use crate::rule::{Finds, Stores};
use crossbeam_queue::Pass;
use px_block::{Block, BlockSource, Mem};
use std::sync::{Arc, Wait};

/// A source of blocks over a shared pool. A block that it takes is one of the pool's, or a new one where the pool is found empty; one that
/// it is given is emptied and stored, or dropped where the pool is found full. How many came back isn't visible.
#[derive(Drop)]
pub struct PoolSeat<R> {
    pub(crate) rt: R,
    pub(crate) pool: Arc<Pool>,
    pub(crate) pass: Pass<Block, ()>,
    ghost sits: { IsPassOf (arc_value pool).queue pass },
}

impl<R: Wait> PoolSeat<R> {
    /// How many blocks were free in the pool at one moment of this call, at most the number that it was made for. Takes no memory.
    pub fn spare(&mut self) -> usize
        ensures count { result ≤ ruled_capacity (arc_value self.old.pool).queue }
        ensures pool { arc_value self.new.pool ≡ arc_value self.old.pool }
    {
        self.pool.queue.len_as::<Finds, R>(&self.rt, &mut self.pass)
    }
}

impl<R: Wait> BlockSource for PoolSeat<R> {
    ghost given = { λ _. None };

    fn take(&mut self) -> Mem<Block> {
        let found = self.pool.queue.pop_as::<Finds, R>(&self.rt, &mut self.pass);
        let Some(mut block) = found else {
            return Block::new(self.pool.alloc);
        };
        block.open()?;
        Ok(block)
    }

    fn take_for(&mut self, bytes: usize) -> Mem<Block> {
        let found = self.pool.queue.pop_as::<Finds, R>(&self.rt, &mut self.pass);
        let Some(mut block) = found else {
            return Block::with_room(self.pool.alloc, bytes);
        };
        block.reserve(bytes)?;
        Ok(block)
    }

    fn give(&mut self, mut block: Block) {
        block.clear();
        let stored = self
            .pool
            .queue
            .push_as::<Stores, R>(&self.rt, &mut self.pass, block);
        drop(stored);
    }
}
