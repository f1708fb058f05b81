//! A stream of the mixer layer as plain numbers and bytes, which only a history shows. The crate has no other items.
#![tactic(auto)]

#[cfg(test)]
mod tests;
