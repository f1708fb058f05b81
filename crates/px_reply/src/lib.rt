//! The packets that the server sends: replies, errors, messages and infos, each its fields in their spelling. Infos of
//! sinks and of the server have the fields of the client's version of the protocol.
#![tactic(auto)]

mod info;
mod message;
mod played;
mod reply;
mod server;
mod stream;

pub use info::{ClientInfo, InputInfo, ServerInfo, SinkInfo};
pub use message::{event, killed, moved, overflow, request, started, underflow};
pub use played::{Created, LatencyFields};
pub use reply::{auth, client_index, error, plain, sink_index};
pub use server::{
    client_info, client_infos, input_info, input_infos, server_info, sink_info, sink_infos,
};
pub use stream::{attributes, created, latency};
