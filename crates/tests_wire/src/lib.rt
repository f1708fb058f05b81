//! Items that no packet of a session has, what a decoder returns after a fault, and the longest frame. Bytes were worked out by hand from the
//! protocol. The crate has no other items.
#![tactic(auto)]

#[cfg(test)]
mod tests;
