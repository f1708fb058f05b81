//! The control side of the server as one pure machine: a step takes the state and gives the new state, its effects in order
//! and the messages posted to each sink. Nothing of the outside is in it. It exports `Core`, its `Effect`s with the reasons of
//! ends, and the laws of its definitions.
#![tactic(auto)]

mod arriving;
mod command;
mod connecting;
mod data;
mod found;
mod frames;
mod handlers;
mod infos;
mod laws;
mod machine;
mod notice;
mod sink_handlers;
mod volumes;

pub use laws::{
    connections_end_once, indices_are_given_once, misfits_change_nothing,
    parcels_are_those_given_up, refusals_change_nothing, sinks_have_what_was_posted,
    sinks_hear_step_by_step, sinks_hear_what_is_orderly, states_are_consistent,
    subscribers_hear_what_became, what_fits_acts, what_is_there_is_found,
};
pub use machine::Core;
pub use px_outcome::Reason;
pub use px_state::{Effect, EffectRoom, Effects};
