//! Tests of the core under its lock: a step refused while a sweep is owed, a recorder that is full and has room again, and seats among threads. The
//! crate has no other items.
#![tactic(auto)]

#[cfg(test)]
mod tests;
