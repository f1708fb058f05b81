//! The incremental mix: the sums of a sink's streams, kept from turn to turn; a stream's share is added to the kept sums, or taken away. `kept` has
//! the sums, `spans` leaves long silences out; `sums` and `laws` are the laws by which they follow the streams.
#![tactic(auto)]

mod kept;
mod laws;
mod spans;
mod sums;

pub use kept::{KeptMix, change_over};
pub use laws::{shares_are_exchanged, sums_are_kept};
pub use sums::{kept_sums_change, kept_sums_go_on};
