//! Arithmetic on volumes, with values computed by hand, some of which no session reaches. The crate has no other items.
#![tactic(auto)]

#[cfg(test)]
mod tests;
