//! A device that plays by a clock: it consumes the frames that are due and writes their bytes to a byte sink. `paced` has it, `rate` the number of
//! frames that are due, `ring` the buffer of the bytes that wait. It exports `PacedSink`.
#![tactic(auto)]

mod paced;
mod rate;
mod ring;

pub use paced::PacedSink;
