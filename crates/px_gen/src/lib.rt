//! Sessions generated from a number, for load tests and benchmarks: four clients play on two sinks, and each step is one client's frame and a turn of
//! its sink. It exports `generate`, which writes such a session, and the law on their sizes.
#![tactic(auto)]

mod client;
mod generator;
mod law;
mod numbers;
mod opening;
mod step;
mod writing;

pub use generator::generate;
pub use law::sizes_of_sessions;
