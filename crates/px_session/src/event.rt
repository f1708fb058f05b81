//! The events of a session, and the steps that a reader gives.

use px_header::Header;
use px_types::{ConnId, SinkId, Text};

/// An event of a session. A connection's number is in use from its Connect to its Close. Own: PulseAudio records no sessions.
#[derive(Debug, Drop)]
pub enum Event {
    /// A client connects.
    Connect(ConnId),
    /// Up to 65,536 bytes arrive from a client, and up to 1,048,576 in the second form.
    Bytes(ConnId, Text),
    /// A client has closed its connection.
    Close(ConnId),
    /// The server ends a connection for want of memory.
    Cut(ConnId),
    /// A render cycle of a sink.
    Turn {
        /// The sink's index in the header.
        sink: u8,
        /// How many frames its device consumes.
        frames: u64,
        /// How many of the waiting messages it takes.
        take: u64,
    },
    /// The core takes notices of a sink.
    Collect {
        /// The sink's index in the header.
        sink: u8,
        /// How many of the waiting notices it takes.
        take: u64,
    },
    /// A sink's device will fail in the sink's next turn. Only the second form has it.
    Stop(SinkId),
}

/// What a reader gives next.
#[derive(Debug, Drop)]
pub enum Step {
    /// The header, before all events.
    Header(Header),
    /// The next event.
    Event(Event),
    /// The end byte was read, and nothing follows it.
    End,
}
