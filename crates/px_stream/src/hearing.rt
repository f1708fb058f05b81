// How much of a stream sounds as before once a message is applied.
ghost use Rattle.std.specs.Prelude.{◌≡◌, ◌≤◌, ◌<◌, ℕ, ℤ, List};
ghost use Rattle.px_model.specs.Applied.{applied};
ghost use Rattle.px_model.specs.Message.{StreamMessage};
ghost use Rattle.px_stream.specs.Messages.{message_of, Suits};
ghost use Rattle.px_stream.specs.Heard.{SoundsSame, none_heard, none_heard_after, unaltered_of, unaltered_unless};

use crate::StreamMsg;
use crate::state::StreamState;

impl StreamState {
    /// As `Stream::unaltered`.
    pub(crate) fn unaltered(&self, message: &StreamMsg, mixed: u64) -> u64
        requires { Suits self.now.stream (message_of message.now) }
        ensures { result ≡ unaltered_of mixed (message_of message.now) self.now.stream }
    {
        match message {
            StreamMsg::Write {
                seek,
                offset,
                frames,
                ..
            } => self.unwritten(*seek, *offset, *frames, mixed),
            StreamMsg::Query { .. } => mixed,
            StreamMsg::Attach { .. } | StreamMsg::Factors { .. } => 0,
            StreamMsg::Cork { on } => self.unless(*on || self.queue.is_silent(), mixed),
            StreamMsg::Flush => self.unless(true, mixed),
            StreamMsg::Trigger | StreamMsg::Drain { .. } => {
                self.unless(self.is_silent_with(false, self.prebuf), mixed)
            }
            StreamMsg::Prebuf => {
                self.unless(self.is_silent_with(self.prebuf > 0, self.prebuf), mixed)
            }
            StreamMsg::Attr { attr } => {
                let hold = self.queue.holds() && attr.prebuf > 0;
                self.unless(self.is_silent_with(hold, attr.prebuf), mixed)
            }
        }
    }

    // All `mixed` frames where nothing was heard and nothing is (`silent`), or the same frames were heard and are; else none.
    fn unless(&self, silent: bool, mixed: u64) -> u64
        ensures { result ≡ unaltered_unless (none_heard self.now.stream.corked self.now.stream.queue) silent mixed }
    {
        let before = self.corked || self.queue.is_silent();
        if silent == before { mixed } else { 0 }
    }

    // Whether nothing would be heard of it if it waited for `prebuf` frames, or where `hold` is false for none.
    fn is_silent_with(&self, hold: bool, prebuf: u32) -> bool
        ensures { result ≡ none_heard self.now.stream.corked (record self.now.stream.queue { hold = hold; prebuf = prebuf }) }
    {
        self.corked || self.queue.is_silent_with(hold, prebuf)
    }

    // For a write.
    fn unwritten(&self, seek: u8, offset: i64, frames: u32, mixed: u64) -> u64
        requires { seek ≤ 3 }
        ensures { (bytes : List ℕ) → result ≡ unaltered_of mixed (StreamMessage.write seek offset frames bytes) self.now.stream }
    {
        let ahead = self.ahead_index(mixed);
        self.queue
            .unaltered(seek, offset, frames, ahead, self.maxlength as i64, mixed)
    }

    /// As `Stream::resumed`.
    pub(crate) fn resumed(&self, message: &StreamMsg, unaltered: u64, mixed: u64) -> u64
        requires { unaltered ≡ unaltered_of mixed (message_of message.now) self.now.stream }
        ensures inside { result ≤ mixed }
        ensures sounds { (k : ℕ) → result ≤ k → k < mixed → SoundsSame k self.now.stream (applied mixed (message_of message.now) self.now.stream) }
    {
        match message {
            StreamMsg::Write { frames, .. } => self.resumed_after(unaltered, *frames, mixed),
            _ => mixed,
        }
    }

    // For a write of `frames` frames. Where none is unaltered they begin at the read index or before it, unless the write changes whether the queue
    // waits for frames, and then it does so before or after it.
    fn resumed_after(&self, unaltered: u64, frames: u32, mixed: u64) -> u64
        ensures inside { result ≤ mixed }
        ensures sounds { (seek : ℕ) (offset : ℤ) (bytes : List ℕ) (k : ℕ) → unaltered ≡ unaltered_of mixed (StreamMessage.write seek offset frames bytes) self.now.stream
            → result ≤ k → k < mixed → SoundsSame k self.now.stream (applied mixed (StreamMessage.write seek offset frames bytes) self.now.stream) }
    {
        if unaltered >= mixed || unaltered == 0 && self.queue.holds() {
            return mixed;
        }
        unaltered + (mixed - unaltered).min(frames as u64)
    }
}
