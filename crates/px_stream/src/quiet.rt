// Where a stream is silent, for a mix that leaves long silences out.
ghost use Rattle.std.specs.Prelude.{◌≡◌, ℕ, ◌+◌, ◌<◌, ◌≤◌, ◌^◌, None};
ghost use Rattle.px_stream.specs.Heard.{heard_at};

use crate::state::StreamState;

impl StreamState {
    /// As `Stream::silent_frames`.
    pub(crate) fn silent_frames(&self, from: u32, most: u32) -> u32
        ensures few { result ≤ most }
        ensures silent { (j : ℕ) → j < result → heard_at self.now.stream (from + j) ≡ None }
    {
        if self.corked {
            most
        } else {
            self.queue.silent_places(from, most)
        }
    }

    /// As `Stream::frames_to_silence`.
    pub(crate) fn frames_to_silence(&self, from: u32, most: u32) -> u32
        requires some { 1 ≤ most }
        requires near { from + most < 2 ^ 32 }
        ensures some { 1 ≤ result }
        ensures few { result ≤ most }
    {
        self.queue.places_to_silence(from, most)
    }
}
