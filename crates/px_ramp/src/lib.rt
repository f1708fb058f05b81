//! A sink whose volumes change by ramps: a factor goes evenly to its new number over a number of frames, from the horizon on. `ramp` has a ramp,
//! `ramps` those of an input, `table` those of all inputs of a sink, `shares` a stream's share of a frame by factors of its own, `standing` whether none runs,
//! `mixing` the frames mixed by them, `buffer` the bytes of a sink, `sink` these beside its plain mixer, `lane` the turn over a device, `rows` worked examples, `laws` the laws
//! of ramped turns and of the deciding turn.
#![tactic(auto)]

mod buffer;
mod lane;
mod laws;
mod mixing;
mod ramp;
mod ramps;
mod rows;
mod shares;
mod sink;
mod standing;
mod table;

pub use lane::RampLane;
pub use laws::{
    ramped_frames_are_decided, ramped_turn_is_the_plain_one, ramps_go_from_start_to_end,
};
pub use ramp::Ramp;
pub use ramps::{InputRamps, Ramps};
pub use rows::worked_ramps;
pub use table::RampTable;
