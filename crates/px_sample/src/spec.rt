ghost use Rattle.std.specs.Prelude.{◌≡◌};
ghost use Rattle.px_sample.specs.Format.{frame_size_of};

use crate::format::Format;

/// The sample spec of a stream or a sink, as `pa_sample_spec` in PulseAudio's `pulse/sample.h`: the format, the number of channels, and the
/// frames per second.
#[derive(Clone, Copy, Debug, PartialEq, Eq, Drop)]
pub struct Spec {
    pub format: Format,
    pub channels: u8,
    pub rate: u32,
}

impl Spec {
    /// Bytes per frame, which has one sample a channel: from 0 to 1,020. Takes no memory.
    pub fn frame_size(self) -> usize
        ensures { result ≡ frame_size_of self }
    {
        self.format.size() * self.channels as usize
    }
}
