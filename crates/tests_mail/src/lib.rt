//! Tests of mailboxes: one at its capacity, and one between two threads. The crate has no other items.
#![tactic(auto)]

#[cfg(test)]
mod tests;
