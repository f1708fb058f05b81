//! The pool.
ghost use Rattle.std.specs.Prelude.{◌≡◌, ◌<◌, IfOk};
ghost use Rattle.std.specs.Arc.{arc_value};
ghost use Rattle.crossbeam_queue.specs.Passes.{ruled_capacity};

use crate::rule::Emptied;
use crate::seat::PoolSeat;
use crossbeam_queue::RuledArrayQueue;
use px_block::{Block, Mem};
use std::alloc::Global;
use std::sync::{Arc, Wait};

/// Used blocks that wait to be used again (PulseAudio: the free list of a `pa_mempool`), at most the number that the pool was made for.
/// Each was emptied when it came. Threads take and give them through seats.
#[derive(Drop)]
pub struct Pool {
    pub(crate) alloc: Global,
    pub(crate) queue: RuledArrayQueue<Block, (), Emptied>,
}

impl Pool {
    /// An empty pool for at most `count` blocks, at least 1. Takes the memory for their places, not for the blocks.
    pub fn new(alloc: Global, count: usize) -> Mem<Arc<Pool>>
        requires { 0 < count }
        ensures { IfOk result (λ pool. ruled_capacity (arc_value pool).queue ≡ count) }
    {
        let (queue, _) = RuledArrayQueue::<Block, (), Emptied>::ruled(alloc, count)?;
        Ok(Arc::new(alloc, Pool { alloc, queue })?)
    }

    /// A thread's own seat at `pool`, which waits with the runtime `rt`. Takes no memory but the count of the pool's owners.
    pub fn seat<R: Wait + Copy>(rt: &R, pool: &Arc<Pool>) -> Mem<PoolSeat<R>>
        ensures { IfOk result (λ seat. arc_value seat.pool ≡ arc_value pool.now) }
    {
        let pass = pool.queue.pass();
        let pool = Arc::try_clone(pool)?;
        Ok(PoolSeat {
            rt: *rt,
            pool,
            pass,
        })
    }
}
