//! Tests of the queue of a stream: ranges that are written over and over, a frame in two blocks, and random writes compared with a list of them,
//! which is searched from the newest back, with a count of each block that comes and goes. The crate has no other items.
#![tactic(auto)]

#[cfg(test)]
mod tests;
