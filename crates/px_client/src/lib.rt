//! A client of the server that does one errand, such as to list the sink inputs or set a volume, and ends. It exports `client`, which does
//! it over a link, the `Errand` and the `ClientEnd`, and the law on what is sent.
#![tactic(auto)]

mod answer;
mod awaited;
mod end;
mod errand;
mod hearing;
mod inputs;
mod law;
mod listing;
mod packets;
mod run;
mod waiting;

pub use end::ClientEnd;
pub use errand::Errand;
pub use law::{answers_are_read_as_written, errands_are_their_commands, replies_come_in_order};
pub use run::client;
