//! The names and codes that the whole server shares: numbers of connections, inputs and sinks, byte lists, the protocol's
//! error codes, the program's statuses and the limits. It exports `ConnId`, `InputId`, `SinkId`, `Text`, `NoMemory`, `Mem`,
//! `ErrorCode` and `Status`, and the module `limits`.
#![tactic(auto)]

mod error_code;
mod ids;
pub mod limits;
mod memory;
mod status;
mod text;

pub use error_code::ErrorCode;
pub use ids::{ConnId, InputId, SinkId};
pub use memory::{Mem, NoMemory};
pub use status::Status;
pub use text::Text;
