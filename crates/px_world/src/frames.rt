//! The frame counts of a sink.

/// The frame counts of a sink, from its first frame.
#[derive(Clone, Copy, Debug, PartialEq, Eq)]
pub struct Frames {
    /// Frames that its device has consumed.
    pub consumed: u64,
    /// Frames written to its device: those after the consumed ones wait in the device's buffer.
    pub filled: u64,
}
