//! The numbers of PulseAudio's software volumes: their products and quotients, and their linear factors. `volume` has the arithmetic,
//! `laws` its laws, `channels` the volumes and the factors of all channels, and `held` stores up to 32 numbers in an array.
#![tactic(auto)]

mod channels;
mod held;
mod laws;
mod volume;

pub use channels::{CVolume, Factors};
pub use laws::dividing_is_undone;
pub use volume::{MAX, MUTED, NORM, cube, divide, multiply};
