//! The state of the control side: the tables that hold it, the messages queued for each sink, and each change of it, with
//! its effects on clients. An outcome is made as a whole or not at all. It exports `Tables` with the calls that change them,
//! `Effects`, and the outcomes of refusals and of ends.
#![tactic(auto)]

mod arrival;
mod awaited;
mod change;
mod clients;
mod commit;
mod connections;
mod delayed;
mod effect;
mod effects;
mod events;
mod lending;
mod out;
mod outcome;
mod queues;
mod release;
mod start;
mod tables;
mod writing;

pub use arrival::finish_arrival;
pub use change::CoreChange;
pub use commit::finish;
pub use connections::{join, mark};
pub use delayed::{Delayed, delayed_count};
pub use effect::{Effect, closed_for};
pub use effects::{EffectRoom, Effects};
pub use events::joined_events;
pub use lending::put_back_undoes_handing_out;
pub use out::{hand_out, outgoing, put_back};
pub use outcome::{broken_off, refused, requested};
pub use start::new_tables;
pub use tables::Tables;
pub use writing::post_frames;
