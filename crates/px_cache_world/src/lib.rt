//! The world of a session whose clients can upload samples and have them played: each play is a playback stream of a connection that the
//! server has of its own, whose effects aren't shown. It exports `CacheWorld`, and the laws of its definitions.
#![tactic(auto)]

mod answered;
mod course;
mod law;
mod own;
mod parts;
mod plays;
mod skips;
mod world;

pub use law::{caches_stand_before_a_world, plays_write_what_was_kept};
pub use world::CacheWorld;
