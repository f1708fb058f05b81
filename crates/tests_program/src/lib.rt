//! Tests of the program layer: runs whose input, output or log fails at any of its calls, and a sink whose device fails. The crate
//! has no other items.
#![tactic(auto)]

#[cfg(test)]
mod tests;
