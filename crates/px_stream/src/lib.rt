//! A stream of a sink (PulseAudio: `pa_sink_input` with its playback stream): a queue of frames with what a client and the core set. `stream` is the
//! handle, `state` its state and what a message does to that, `going` moves it forward with its sink, `values` reads its work values for a mix,
//! `lent` reads them in place, `quiet` says where it is silent, `run` is how long it has been playing or silent. It exports `Stream` with
//! `StreamMsg`, `Applied`, `Settled` and `Ahead`.
#![tactic(auto)]

mod going;
mod hearing;
mod lent;
mod message;
mod plain;
mod quiet;
mod run;
mod state;
mod stream;
mod values;

pub use going::{Ahead, Settled};
pub use message::{Applied, StreamMsg};
pub use stream::Stream;
