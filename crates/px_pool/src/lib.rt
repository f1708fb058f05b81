//! A pool of used blocks that threads share. `rule` has the invariant of its blocks, `pool` the pool, `seat` a thread's handle to it. It
//! exports `Pool` and `PoolSeat`, a source of blocks.
#![tactic(auto)]

mod pool;
mod rule;
mod seat;

pub use pool::Pool;
pub use rule::Emptied;
pub use seat::PoolSeat;
