//! The commands on volumes and mutes, of sinks and of inputs: each reads the group of a sink's volumes that it changes, and
//! gives an outcome or the reason why it is refused. It exports a call a command, and a law of the factors that are posted
//! to a sink.
#![tactic(auto)]

mod asked;
mod factors;
mod inputs;
mod laws;
mod sinks;

pub use inputs::{set_input_mute, set_input_volume};
pub use laws::factors_are_for_the_sink;
pub use sinks::{set_sink_mute, set_sink_volume};
