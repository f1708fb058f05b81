//! Record streams of monitor sources: each sink has a source that gives what the sink played. `read_request` reads the two commands
//! CREATE_RECORD_STREAM and DELETE_RECORD_STREAM, `Recorded` is the table of record streams that answers them and makes the data
//! frames of what a sink played.
#![tactic(auto)]

mod answer;
mod checks;
mod command;
mod fields;
mod fragments;
mod law;
mod monitor;
mod parts;
mod recorded;
mod recording;
mod reply;
mod skips;

pub use answer::Answer;
pub use command::{Request, read_request};
pub use fields::RecordFields;
pub use fragments::{fragments_join, push_data};
pub use law::{
    monitors_stand_before_a_world, pieces_are_of_new_bytes, record_streams_get_what_is_played,
};
pub use monitor::{MonitorOutcome, MonitorWorld};
pub use recorded::Recorded;
pub use recording::Recording;

/// The command number of CREATE_RECORD_STREAM.
pub const CREATE_RECORD_STREAM: u32 = 5;

/// The command number of DELETE_RECORD_STREAM.
pub const DELETE_RECORD_STREAM: u32 = 6;
