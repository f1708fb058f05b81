//! The commands of PulseAudio's native protocol at versions 13 to 18: a packet means a command exactly where its bytes are the command's
//! number, a tag and the spelling of the fields that the command has at the connection's version, and nothing more.
#![tactic(auto)]

mod command;
mod create;
mod fault;
mod fields;
mod head;
mod law;
pub mod number;
mod packet;
mod text;

pub use command::{Command, CreateFields, SinkRef};
pub use fault::CmdFault;
pub use head::{Head, read_head};
pub use law::spelled_commands;
pub use number::is_command;
pub use packet::read_command;
pub use text::{Keys, Text};
