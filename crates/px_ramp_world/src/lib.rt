//! The world of a recorded session whose volumes change by ramps: the core and the connections of a plain world, and a ramped mixer over a device in
//! memory for each sink. An event of the session is one step of it. It exports `RampWorld` and the laws of its definitions.
#![tactic(auto)]

mod law;
mod playing;
mod run;
mod sinks;
mod world;

pub use law::{
    ramped_frames_are_decided_by_a_turn, ramped_runs_go_on, ramped_sinks_replay_their_histories,
    ramps_change_only_frames,
};
pub use world::RampWorld;
