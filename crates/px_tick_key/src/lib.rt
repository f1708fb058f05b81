//! The right to make a counter of the mixer's ticks.
//!
//! `Steps::new` of px_kernel wants a `Key`, and a crate can name `Key::new` only where crates.txt lists this crate for it. The crates that
//! begin a turn do (px_world, px_lane_cell), and so does the benchmark; the crates that mix (px_mixcache, px_stream, px_kept_mix, px_lane)
//! don't, so all that they mix is counted by the one counter that a turn was handed.
#![tactic(auto)]

/// What whoever makes a counter of ticks has to hand over. It takes no bytes, and only `new` makes one: it has no `Clone`, no `Default` and
/// no public field. Source: own.
#[derive(Drop)]
pub struct Key {
    held: (),
}

impl Key {
    /// The right to make one counter. Takes no memory.
    pub fn new() -> Key {
        Key { held: () }
    }
}
