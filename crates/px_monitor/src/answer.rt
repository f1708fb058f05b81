//! The answer to a command.

use px_tag::{Packet, TagFault};

/// The answer to a command of record streams.
#[derive(Debug, Drop)]
pub enum Answer {
    /// The reply, or the error, not framed yet.
    Packet(Packet),
    /// The first fault in the command's fields, with its offset in the packet.
    Fault(TagFault),
}
