//! What a client's output queue holds next.

use px_frame::Packet;

/// A packet whose first `sent` bytes are already sent.
#[derive(Debug, Drop)]
pub struct PartlySent {
    pub packet: Packet,
    pub sent: usize,
}

/// What a client's output queue holds next.
#[derive(Debug, Drop)]
pub enum Next {
    /// A packet to be sent.
    Packet(PartlySent),
    /// Nothing waits, or another worker sends it.
    Nothing,
    /// Nothing waits, and nothing more comes.
    Ended,
}
