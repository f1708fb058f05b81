//! The model of streams, mixes, sinks and turns against which queues, streams, lanes and the whole world are proved. Its functions have empty bodies:
//! the contract of each is a law over these definitions, for every state.
#![tactic(auto)]

mod data;
mod deciding;
mod going;
mod held;
mod keeping;
mod orderly;
mod rows;
mod tracks;
mod turns;
mod writing;

pub use data::{Attr, Run, Seek};
pub use deciding::{histories_join, played_frames_are_decided};
pub use going::{going_adds_up, queue_going_adds_up};
pub use held::{going_drops_the_past, places_are_a_map, write_changes_its_indices};
pub use keeping::{queue_keeps, stream_keeps};
pub use orderly::orderly_messages_go_on;
pub use rows::worked_rows;
pub use tracks::{
    parcels_are_whole, parcels_stand_at_the_horizon, tracks_are_joined,
    tracks_go_on_from_sink_to_sink,
};
pub use turns::{sink_keeps, turn_mixes_from_its_horizon};
pub use writing::overflow_is_counted;
