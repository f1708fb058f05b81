//! The commands on clients, names, property lists and lists: each reads the parts of the state that its handler names, and
//! gives an outcome or the reason why it is refused. It exports a call a command.
#![tactic(auto)]

mod client_list;
mod clients;
mod infos;
mod kills;
mod lists;
mod properties;
mod sinks;
mod streams;

pub use client_list::{client_info, client_info_list, client_infos};
pub use clients::{auth, set_client_name, subscribe};
pub use infos::{input_info, input_info_list, input_infos, sink_info, sink_info_list, sink_infos};
pub use kills::{connection_with, kill_client};
pub use lists::empty_list;
pub use properties::{remove_client, update_client};
pub use sinks::{lookup_sink, server_info, server_of, set_default_sink};
pub use streams::{remove_stream, set_stream_name, update_stream};
