//! Requests answered later.

use px_tag::TimeVal;
use px_types::InputId;

/// The notice from a stream's sink by which a request is answered.
#[derive(Clone, Copy, Debug)]
pub enum Awaited {
    /// All of the stream was played (DRAIN_PLAYBACK_STREAM).
    Drained,
    /// The stream's indices (GET_PLAYBACK_LATENCY); with the time that the client gave, which the reply repeats.
    Latency(TimeVal),
}

/// An accepted request, which is answered under its tag once the notice of the stream's sink has come.
#[derive(Clone, Copy, Debug)]
pub struct Waiting {
    /// The input of the stream that it asks about; the client is the input's.
    pub input: InputId,
    /// The tag of the request.
    pub tag: u32,
    pub awaited: Awaited,
}
