//! The contents of the replies to the commands of playback streams.

use px_tag::{RawMap, RawSpec, TimeVal};
use px_types::Text;

/// A stream that CREATE_PLAYBACK_STREAM made. `attr` is maxlength, tlength, prebuf and minreq, in bytes; `usec` is the sink's latency in
/// microseconds.
#[derive(Drop)]
pub struct Created {
    pub stream: u32,
    pub input: u32,
    pub attr: [u32; 4],
    pub spec: RawSpec,
    pub map: RawMap,
    pub sink: u32,
    pub name: Text,
    pub usec: u64,
}

/// How far a stream has played. `usec` is what is buffered, in microseconds; the indices and the last two numbers are in bytes.
#[derive(Clone, Copy, Debug, PartialEq, Eq)]
pub struct LatencyFields {
    pub usec: u64,
    pub playing: bool,
    pub time: TimeVal,
    pub write: i64,
    pub read: i64,
    pub underrun: u64,
    pub played: u64,
}
