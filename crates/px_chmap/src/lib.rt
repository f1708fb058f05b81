//! Channel maps, and the channel plan from a stream to a sink. `map` has the speaker positions of a stream or a sink, `planner` finds the
//! plan, and `feed` is its form: a stream channel for each sink channel. `held` stores up to 32 numbers in an array.
#![tactic(auto)]

mod feed;
mod held;
mod map;
mod planner;

pub use feed::Feed;
pub use map::Map;
pub use planner::plan;
