//! The answer to a command.

use crate::play::Play;
use px_tag::{Packet, TagFault};

/// The answer to a command of the sample cache.
#[derive(Drop)]
pub enum Answer {
    /// The reply, or the error, not framed yet.
    Packet(Packet),
    /// The first fault in the command's fields, with its offset in the packet.
    Fault(TagFault),
    /// This play begins. The reply waits for that to its CREATE_PLAYBACK_STREAM.
    Begins(Play),
}
