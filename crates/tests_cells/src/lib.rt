//! Tests of cells: a sink's mixer between two threads, and one whose recorder is full for a while. The crate has no other items.
#![tactic(auto)]

#[cfg(test)]
mod tests;
