//! The world that a recorded session runs in: the core, a mixer over a device in memory for each sink, and what is under way
//! between them. An event of the session is one step of it. It exports `World`, `Outcome`, `Frames` and
//! `WorldFault`, `Spares` for used blocks, `spelled` for the bytes of a frame, and the laws of its definitions.
#![tactic(auto)]

mod connections;
mod doors;
mod fault;
mod frames;
mod law;
mod outcome;
mod parcel;
pub mod parts;
mod playing;
mod run;
mod sinks;
mod spares;
mod spelling;
mod stepping;
mod world;

pub use fault::WorldFault;
pub use frames::Frames;
pub use law::{
    continuity, played_frames_are_decided_by_a_turn, runs_go_on, runs_join,
    sinks_replay_their_histories, stops_are_events, worked_session,
};
pub use outcome::Outcome;
pub use spares::Spares;
pub use spelling::spelled;
pub use world::World;
