//! Steps of a core with parcels of another kind than streams, each made once more where memory was short. The crate has no other items.
#![tactic(auto)]

#[cfg(test)]
mod tests;
