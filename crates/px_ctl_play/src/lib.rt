//! The commands of playback streams and the notices from their sinks: each reads the parts of the state that its handler
//! names, and gives an outcome or the reason why it is refused. It exports a call a command, and one a kind of notice, and
//! `regrouped`, which posts to a sink the factors that its group of volumes gives.
#![tactic(auto)]

mod answer;
mod arrival;
mod asked;
mod buffer_attr;
mod changes;
mod control;
mod created;
mod creation;
mod data;
mod deletion;
mod departure;
mod draining;
mod factors;
mod joining;
mod killing;
mod moving;
mod notified;
mod refusals;
mod time;
mod timing;

pub use arrival::{Arrival, arrive, hands_over};
pub use buffer_attr::attributes;
pub use control::{cork, flush, prebuf, trigger};
pub use creation::create;
pub use data::{Frames, frames_of, write};
pub use deletion::delete;
pub use departure::left;
pub use draining::{drain, drained};
pub use factors::regrouped;
pub use killing::kill_input;
pub use moving::move_input;
pub use notified::{News, notify};
pub use timing::{Progress, latency, measured};
