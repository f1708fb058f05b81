//! The command `ctl`, a control client of a server: what its words ask for, its call over a link that the host dials, and the line that the log
//! gains of it. It exports these, the reading of numbers in words, `ControlWords`, `WordsFault` and `ControlEnd`.
#![tactic(auto)]

mod call;
mod cookie;
mod digits;
mod end;
mod errand;
mod report;
mod words;

pub use call::control;
pub use digits::number;
pub use end::ControlEnd;
pub use report::report_control;
pub use words::{ControlWords, WordsFault, is_ctl, read_control_words};
