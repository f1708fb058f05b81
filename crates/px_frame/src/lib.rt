//! The frames of a client's byte stream, taken out of whatever pieces it comes in, and written.
//! Which frames a stream has, and where it first breaks a rule, depends on its bytes alone.
#![tactic(auto)]

mod decoder;
mod descriptor;
mod fault;
mod frame;
mod law;
mod packet;
mod pieces;
mod stage;
mod write;

pub use decoder::Decoder;
pub use fault::{FrameError, FrameFault};
pub use frame::{Body, Frame, Frames};
pub use law::{frames_add_up, one_reading, reading_from_the_front};
pub use packet::Packet;
pub use pieces::decode;
pub use write::{write_data, write_packet};
