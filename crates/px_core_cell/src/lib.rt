//! The core under a lock, with the history of its steps: the part that a live server's threads share. `parcel` has a stream
//! that moves from one sink to another as histories see it, `plain` the plain forms of steps, `step` the steps and their
//! faults, `entry` the entries of steps, `ends` the mailboxes at one sink with `posting` for the messages and notices
//! through them, `parts` the content of the lock, `state` that with its invariants, `seat` the share of each thread,
//! `cell` the lock, and `laws` a law of the history.
#![tactic(auto)]

mod act;
mod cell;
mod ends;
mod entry;
mod kept;
mod laws;
mod log;
mod parcel;
mod parts;
mod plain;
mod posting;
mod seat;
mod state;
mod step;
mod unkept;

pub use cell::CoreCell;
pub use ends::{CoreEnd, CoreEnds};
pub use laws::entries_name_what_left;
pub use log::StepLog;
pub use parcel::{Carried, CellCore};
pub use parts::CoreParts;
pub use seat::{CoreSeat, Seats};
pub use state::CoreState;
pub use step::{CoreStep, StepFault};
