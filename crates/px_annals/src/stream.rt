//! A stream as plain numbers and bytes.

use crate::items::{Items, Numbers};
use px_types::Text;

/// A frame of a queue.
#[derive(Debug, Drop)]
pub struct PlainFrame {
    /// Its index.
    pub index: i64,
    /// Its bytes.
    pub bytes: Text,
}

/// Frames of a queue, in rising index.
pub type PlainFrames = Items<PlainFrame>;

/// A stream's queue of frames to be played (`pa_memblockq`): the frames held, the read and write index, whether it waits for prebuf, and
/// prebuf in frames.
#[derive(Debug, Drop)]
pub struct PlainQueue {
    pub frames: PlainFrames,
    pub read: i64,
    pub write: i64,
    pub hold: bool,
    pub prebuf: u32,
}

/// How many frames a stream has played or been silent (`playing_for` and `underrun_for` of `pa_sink_input`).
#[derive(Clone, Copy, Debug, PartialEq, Eq)]
pub enum PlainRun {
    /// It has been silent.
    Quiet(u64),
    /// It has played.
    Playing(u64),
}

/// A stream: its queue, whether it is corked, its attributes in frames, how many frames were requested of its client, the tags of pending
/// drains, its run, its sample spec, and the stream channel that feeds each channel of its sink with that channel's factor in 16.16.
#[derive(Debug, Drop)]
pub struct PlainStream {
    pub queue: PlainQueue,
    pub corked: bool,
    pub maxlength: u32,
    pub tlength: u32,
    pub minreq: u32,
    pub requested: u32,
    pub draining: Numbers,
    pub run: PlainRun,
    pub format: u8,
    pub channels: u8,
    pub rate: u32,
    pub feed: Numbers,
    pub factors: Numbers,
}
