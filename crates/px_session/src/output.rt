//! The records of a replay's output.

use px_types::ConnId;

/// A record of the output: what the server did. Own: PulseAudio records no sessions.
#[derive(Clone, Copy, Debug)]
pub enum OutRecord<'a> {
    /// A frame was sent to a client.
    Sent {
        conn: ConnId,
        /// The whole frame: its descriptor and its packet.
        bytes: &'a [u8],
    },
    /// The server has ended a connection.
    Closed {
        conn: ConnId,
        /// 1 protocol, 2 limit, 3 killed, 4 cut.
        reason: u8,
        /// The number of the protocol fault, and 0 for every other reason.
        fault: u8,
        /// The offset of that fault in the connection's bytes, and 0 for every other reason.
        at: u64,
    },
    /// A sink's device has consumed frames.
    Played {
        /// The sink's index in the header.
        sink: u8,
        /// How many frames.
        frames: u32,
        /// The frames' bytes.
        bytes: &'a [u8],
    },
    /// A sink has stopped, since its device failed.
    Stopped {
        /// The sink's index in the header.
        sink: u8,
        /// How many frames the sink had filled.
        filled: u64,
    },
}
