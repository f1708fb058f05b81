//! The sample cache: clients upload samples under names, and have them played on a sink. `SampleCache` holds the uploads and the samples,
//! and answers the five commands CREATE_UPLOAD_STREAM, DELETE_UPLOAD_STREAM, FINISH_UPLOAD_STREAM, PLAY_SAMPLE and REMOVE_SAMPLE; a
//! `Play` spells what the server sends to itself on a connection of its own for a sample that is played.
#![tactic(auto)]

mod answer;
mod cache;
mod checks;
mod command;
mod fields;
mod law;
mod play;
mod reply;
mod sample;
mod store;
mod upload;
mod uploads;

pub use answer::Answer;
pub use cache::Cache;
pub use command::{Request, read_request};
pub use fields::{PlayFields, UploadFields};
pub use law::{cache_is_a_map, plays_mean_commands, spelled_requests};
pub use play::{Play, Plays, delete, drain};
pub use reply::played;
pub use sample::Sample;
pub use store::SampleCache;
pub use upload::{Counter, Upload};
pub use uploads::Uploads;

/// The command number of CREATE_UPLOAD_STREAM.
pub const CREATE_UPLOAD_STREAM: u32 = 15;

/// The command number of DELETE_UPLOAD_STREAM.
pub const DELETE_UPLOAD_STREAM: u32 = 16;

/// The command number of FINISH_UPLOAD_STREAM.
pub const FINISH_UPLOAD_STREAM: u32 = 17;

/// The command number of PLAY_SAMPLE.
pub const PLAY_SAMPLE: u32 = 18;

/// The command number of REMOVE_SAMPLE.
pub const REMOVE_SAMPLE: u32 = 19;
