//! The program's top call, `run`, and what it does by the words of the command line: `replay` plays a recorded session,
//! `convert` writes it in the second form, `gen` makes one, `serve` serves live clients, `ctl` is a client of such a server.
//! It exports these, `View`, `Ending`, the `Refusal`s of a session, `report`, which writes to a log how a run ended, and the
//! laws on inputs and refusals.
#![tactic(auto)]

mod controlling;
mod convert_stage;
mod converting;
mod ending;
mod law;
mod log;
mod making;
mod monitor_stage;
mod monitoring;
mod playing;
mod program;
mod ramp_stage;
mod ramping;
mod reading;
mod records;
mod refusal;
mod replay_stage;
mod replaying;
mod sample_stage;
mod sampling;
mod serve;
mod serve_words;
mod serving;
mod stage;
mod summary;
mod tally;
mod view;
mod words;

pub use crate::log::report;
pub use converting::convert;
pub use ending::Ending;
pub use law::{
    conversions_replay_the_same, inputs_are_played_or_refused, refusals_are_final,
    replays_are_runs_of_the_world,
};
pub use monitoring::replay_monitor;
pub use program::run;
pub use ramping::replay_ramp;
pub use refusal::{Refusal, Why};
pub use replaying::replay;
pub use sampling::replay_samples;
pub use serve::{ServeEnd, header_in, serve_by};
pub use serve_words::{ServeWords, WordsFault, read_serve_words};
pub use view::View;
