//! Tests of the base layer: codes and byte lists, recorders, the ends, the clock and the device in memory, blocks and their pool. They show
//! what no recorded session can. The crate has no other items.
#![tactic(auto)]

#[cfg(test)]
mod tests;
