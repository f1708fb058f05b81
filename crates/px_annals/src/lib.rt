//! Histories of the server's threads: what a recorder holds of each turn and each step, as plain numbers and bytes. `recorder` defines
//! recorders, `memory` has the one that holds its entries in memory and the one that holds none; `stream`, `message`, `notice` and `step`
//! have the plain forms of what the threads work on, and `entry` the entries made of them.
#![tactic(auto)]

mod entry;
mod items;
mod memory;
mod message;
mod notice;
mod recorder;
mod step;
mod stream;

pub use entry::{CoreEntry, LaneEntry};
pub use items::{Items, Numbers};
pub use memory::{MemRecorder, NoRecorder};
pub use message::{PlainFactorList, PlainFactors, PlainMsg, PlainMsgs};
pub use notice::PlainNotice;
pub use recorder::{Entry, RecordFault, Recorder};
pub use step::{PlainBody, PlainStep};
pub use stream::{PlainFrame, PlainFrames, PlainQueue, PlainRun, PlainStream};
