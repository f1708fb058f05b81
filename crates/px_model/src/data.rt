/// How long a stream has been playing or silent, in frames (PulseAudio: `playing_for`, `underrun_for`).
#[derive(Clone, Copy, Debug, PartialEq, Eq)]
pub enum Run {
    /// Silent for this many frames.
    Quiet(u64),
    /// Playing for this many frames.
    Playing(u64),
}

/// What the offset of a write counts from (PulseAudio: `pa_seek_mode_t`).
#[derive(Clone, Copy, Debug, PartialEq, Eq)]
pub enum Seek {
    /// The write index.
    Relative,
    /// Index 0.
    Absolute,
    /// The read index.
    RelativeOnRead,
    /// One past the last frame held.
    RelativeEnd,
}

/// The buffer attributes of a stream, in frames (PulseAudio: `pa_buffer_attr`).
#[derive(Clone, Copy, Debug, PartialEq, Eq)]
pub struct Attr {
    /// The most frames that may wait ahead.
    pub maxlength: u32,
    /// How many frames should wait.
    pub tlength: u32,
    /// How many frames must wait before the stream plays; 0 for no prebuffering.
    pub prebuf: u32,
    /// The least number of frames that is requested at once.
    pub minreq: u32,
}
