//! The server's records of a connection and of a sink input.

use px_chmap::Map;
use px_model::Attr;
use px_sample::Spec;
use px_types::{ConnId, InputId, SinkId};

/// A connection in the server's table (`pa_native_connection`).
#[derive(Clone, Copy, Debug, Drop)]
pub struct Connection {
    /// Its number.
    pub conn: ConnId,
    /// The index of its client, which no other client ever has.
    pub client: u32,
    /// The protocol version that it agreed on; `None` before a successful AUTH.
    pub version: Option<u16>,
    /// The number that its next stream gets.
    pub streams: u32,
    /// Whether it has ended, and waits to be removed.
    pub marked: bool,
}

/// Where an input's stream is between the server and the sink.
#[derive(Clone, Copy, Debug, PartialEq, Eq)]
pub enum Way {
    /// The message that brings it still waits in the sink's queue.
    Coming,
    /// The sink holds it.
    There,
    /// The message that takes it away was handed to the sink.
    Left,
}

/// Where an input belongs (PulseAudio: `sink` of `pa_sink_input`, null between `start_move` and `finish_move`, and its state
/// once it is unlinked).
#[derive(Clone, Copy, Debug, PartialEq, Eq)]
pub enum Standing {
    /// To the sink that it is on.
    Settled,
    /// To this sink, once the sink that it is on has detached its stream.
    Moving(SinkId),
    /// To none: it has ended, and stays only until its sink has detached its stream.
    Leaving,
}

/// A sink input (`pa_sink_input`) with the playback stream that it belongs to.
#[derive(Clone, Copy, Debug, Drop)]
pub struct Input {
    /// Its index, which no other input ever has.
    pub index: InputId,
    /// The connection that made it, the index of its client, and the number of the stream there.
    pub conn: ConnId,
    pub client: u32,
    pub stream: u32,
    /// The sink that it is on.
    pub sink: SinkId,
    /// The sample spec of the data written to it, and a speaker position for each of its channels.
    pub spec: Spec,
    pub map: Map,
    /// Whether it may not move, whether its channels are matched by index alone, and whether one channel may not feed
    /// several (`PA_STREAM_DONT_MOVE`, `NO_REMAP_CHANNELS`, `NO_REMIX_CHANNELS` of `pulse/def.h`).
    pub no_move: bool,
    pub no_remap: bool,
    pub no_remix: bool,
    /// Its buffer attributes, in frames, repaired.
    pub attr: Attr,
    /// Where its stream is.
    pub way: Way,
    /// Where it belongs.
    pub standing: Standing,
}
