//! The real outside: adapters of a few lines over std's readers, writers, streams and clock. Each counts its faults, and its content isn't visible to
//! contracts. `SystemHost` and the `SoundFile` of a sink print each fault of their own on standard error, in a line of its own. It exports `Reading`,
//! `Writing`, `UnixLink` with `Outgoing`, `SystemClock`, `History`, `SoundFile` and `SystemHost`.
#![tactic(auto)]

mod dialling;
mod faults;
mod history;
mod listening;
mod retried;
mod sound_file;
mod standard;
mod system_clock;
mod system_host;
mod unix_link;

pub use history::History;
pub use sound_file::SoundFile;
pub use standard::{Reading, Writing};
pub use system_clock::SystemClock;
pub use system_host::SystemHost;
pub use unix_link::{Outgoing, UnixLink};
