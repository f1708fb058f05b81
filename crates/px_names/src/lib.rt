//! The names that a server holds: its cookie, its sinks and its clients. `sinks` has the sinks' names, `client` a client
//! with its mask and property list, `source` the name of the default source, and `names` all of them, and the look-up of
//! the sink that a packet names. Beside them `input_lists` has the property lists of sink inputs.
#![tactic(auto)]

mod client;
mod input_lists;
mod names;
mod sinks;
mod source;

pub use client::{Client, forget, set_list, set_mask};
pub use input_lists::{InputList, InputLists};
pub use names::Names;
pub use sinks::SinkNames;
pub use source::{SourceName, copied_source};
