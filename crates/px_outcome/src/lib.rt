//! The outcome of a command: the changes of the server's state and the packets to clients, or why it is refused. It exports
//! the parts of the state that a command reads, the `Change`s, a `StepOutcome` of them, and the checks that a command is a
//! chain of.
#![tactic(auto)]

mod change;
mod input;
mod outcome;
mod refusal;
mod sending;
mod target;
mod waiting;

pub use change::Change;
pub use input::{Connection, Input, Standing, Way};
pub use outcome::StepOutcome;
pub use refusal::{Refusal, check, present};
pub use sending::{Reason, Sending};
pub use target::{Named, Target, raw_of};
pub use waiting::{Awaited, Waiting};
