// A stream, as its holders use it.
ghost use Rattle.std.specs.Prelude.{◌≡◌, ◌<◌, ◌≤◌, ◌+◌, ◌*◌, ◌^◌, ◌∷◌, ◌⊎◌, [], None, ℕ, true, false, nat_lt, nat_le, length, All, FitsSigned, MatchOption, IfOk, OnOk};
ghost use Rattle.std.specs.Int.{w32};
ghost use Rattle.px_block.specs.Given.{after_giving};
ghost use Rattle.px_msg.specs.View.{sample_spec, opened};
ghost use Rattle.px_model.specs.Applied.{applied, overflows};
ghost use Rattle.px_model.specs.Control.{new_stream};
ghost use Rattle.px_model.specs.Frame.{SampleSpec};
ghost use Rattle.px_model.specs.Going.{after, ahead_of};
ghost use Rattle.px_model.specs.Orderly.{IsNewStream};
ghost use Rattle.px_model.specs.Turn.{has_ended, has_started, has_run_out, missing_of, request_of};
ghost use Rattle.px_stream.specs.Heard.{SoundsSame, heard_at, unaltered_of};
ghost use Rattle.px_stream.specs.HeldStream.{IsMixable};
ghost use Rattle.px_stream.specs.Messages.{message_of, Suits, blocks_with, room_for, answer_for};
ghost use Rattle.px_stream.specs.Plain.{plain_of};
ghost use Rattle.px_stream.specs.Values.{GivesValues};

use crate::state::StreamState;
use crate::{Ahead, Applied, Settled, StreamMsg};
use px_annals::PlainStream;
use px_block::BlockSource;
use px_kernel::Steps;
use px_msg::{NewStream, Parcel};
use px_sample::{Spec, Width};
use px_types::Mem;
use px_vol::Factors;
use std::alloc::Global;
use std::marker::Model;
use std::sync::ledger::Ledger;

/// A stream (PulseAudio: `pa_sink_input` with its playback stream). Its state lies in a place of its own, so that a stream, and each message that may
/// bring one, is cheap to move. All counts are frames.
#[derive(Debug, Drop)]
pub struct Stream {
    state: Box<StreamState>,
}

impl Model for Stream {
    ghost use Rattle.px_stream.specs.HeldStream.{HeldStream};

    ghost Value = { HeldStream };

    ghost view = { λ s. s.state.value };
}

impl Stream {
    /// A new stream, with nothing written and `tlength` frames requested. It fits a sink. Takes the memory of its state.
    pub fn new(alloc: Global, new: &NewStream) -> Mem<Stream>
        requires { (sink : SampleSpec) × IsNewStream sink (opened new.now) }
        ensures stream { IfOk result (λ s. s.stream ≡ new_stream (sample_spec new.now.spec) new.now.feed new.now.factors new.now.attr new.now.corked) }
        ensures blocks { IfOk result (λ s. s.blocks ≡ 0) }
    {
        let state = Box::new(alloc, StreamState::new(alloc, new))?;
        Ok(Stream { state })
    }

    /// Makes room for `messages` more messages, with `blocks` blocks in all. Without memory the stream stays what it is.
    pub fn reserve(&mut self, messages: u32, blocks: u32) -> Mem<()>
        ensures ok { OnOk result ((messages ≤ self.new.room) × (blocks ≤ self.new.block_room)) }
        ensures stream { self.new.stream ≡ self.old.stream }
        ensures blocks { self.new.blocks ≡ self.old.blocks }
        ensures room { self.old.room ≤ self.new.room }
        ensures block_room { self.old.block_room ≤ self.new.block_room }
    {
        self.state.reserve(messages, blocks)
    }

    /// Applies a message that fits the stream, with `mixed` frames of its sink mixed past its read index. Blocks that fall out of use go back to
    /// their source. A write uses up the room of one message with its blocks, and a drain that of one. Takes no memory.
    pub fn apply<B: BlockSource>(
        &mut self,
        message: StreamMsg,
        mixed: u64,
        blocks: &mut B,
    ) -> Applied
        requires room { room_for (message_of message) ≤ self.old.room }
        requires block_room { blocks_with (message_of message) ≤ self.old.block_room }
        requires suits { Suits self.old.stream (message_of message) }
        ensures stream { self.new.stream ≡ applied mixed (message_of message) self.old.stream }
        ensures answer { result ≡ answer_for (overflows mixed (message_of message) self.old.stream) }
        ensures room { self.old.room ≤ self.new.room + room_for (message_of message) }
        ensures block_room { self.old.block_room ≤ self.new.block_room + blocks_with (message_of message) }
        ensures given { after_giving (B.given blocks.new) self.new.blocks ≡ after_giving (B.given blocks.old) (self.old.blocks + blocks_with (message_of message)) }
    {
        self.state.apply(message, mixed, blocks)
    }

    /// How many of the next `mixed` frames, all that its sink has mixed past its read index, sound as before once a message is applied: those before
    /// the frames of a write, or all where it is refused; all where nothing is heard before and after, or what is held is heard before and after;
    /// else none. Takes no memory.
    pub fn unaltered(&self, message: &StreamMsg, mixed: u64) -> u64
        requires { Suits self.now.stream (message_of message.now) }
        ensures { result ≡ unaltered_of mixed (message_of message.now) self.now.stream }
    {
        self.state.unaltered(message, mixed)
    }

    /// From which of the next `mixed` frames on all sound as before once a message is applied that leaves the first `unaltered` of them as they are:
    /// after a write from the next one after its frames on; else from none. Takes no memory.
    pub fn resumed(&self, message: &StreamMsg, unaltered: u64, mixed: u64) -> u64
        requires { unaltered ≡ unaltered_of mixed (message_of message.now) self.now.stream }
        ensures inside { result ≤ mixed }
        ensures sounds { (k : ℕ) → result ≤ k → k < mixed → SoundsSame k self.now.stream (applied mixed (message_of message.now) self.now.stream) }
    {
        self.state.resumed(message, unaltered, mixed)
    }

    /// Moves `frames` frames of its sink forward, and answers which notices are due. Blocks that fall out of use go back to their source. Takes no
    /// memory.
    pub fn settle<B: BlockSource>(&mut self, frames: u64, blocks: &mut B) -> Settled
        ensures started { result.started ≡ has_started self.old.stream frames }
        ensures underflow { result.underflow ≡ has_run_out self.old.stream frames }
        ensures stream { self.new.stream ≡ after self.old.stream frames }
        ensures room { self.old.room ≤ self.new.room }
        ensures block_room { self.old.block_room ≤ self.new.block_room }
        ensures given { after_giving (B.given blocks.new) self.new.blocks ≡ after_giving (B.given blocks.old) self.old.blocks }
    {
        self.state.settle(frames, blocks)
    }

    /// Where it stands after `frames` more frames of its sink.
    pub fn ahead(&self, frames: u64) -> Ahead
        ensures read { result.read ≡ ahead_of self.now.stream frames }
        ensures run { result.run ≡ (after self.now.stream frames).run }
    {
        self.state.ahead(frames)
    }

    /// Requests all frames that are missing of `tlength`, where they are at least `minreq`, else 0, with `mixed` frames mixed past its read
    /// index. They count as requested from then on.
    pub fn request(&mut self, mixed: u64) -> u32
        ensures frames { result ≡ request_of self.old.stream mixed }
        ensures asked { nat_lt 0 result ≡ nat_le self.old.stream.minreq (missing_of self.old.stream mixed) }
        ensures stream { self.new.stream ≡ record self.old.stream { requested = self.old.stream.requested + request_of self.old.stream mixed } }
        ensures room { self.new.room ≡ self.old.room }
        ensures block_room { self.new.block_room ≡ self.old.block_room }
        ensures blocks { self.new.blocks ≡ self.old.blocks }
    {
        self.state.request(mixed)
    }

    /// Takes the tag of the oldest drain that waits for an answer. `None` where frames are left to play, or no drain waits. Takes no memory.
    pub fn drained(&mut self) -> Option<u32>
        ensures tag { MatchOption result (((has_ended self.old.stream ≡ false) ⊎ (self.old.stream.draining ≡ [])) × (self.new.stream ≡ self.old.stream))
            (λ tag. (has_ended self.old.stream ≡ true) × (self.old.stream.draining ≡ tag ∷ self.new.stream.draining)
            × (self.new.stream ≡ record self.old.stream { draining = self.new.stream.draining })) }
        ensures room { self.old.room ≤ self.new.room }
        ensures block_room { self.old.block_room ≤ self.new.block_room }
        ensures blocks { self.new.blocks ≡ self.old.blocks }
    {
        self.state.drained()
    }

    /// How many drains wait for an answer.
    pub fn draining(&self) -> usize
        ensures count { result ≡ length self.now.stream.draining }
        ensures holds { IsMixable self.now.stream }
    {
        self.state.draining()
    }

    /// Reads the work values of the frames from `from` past the read index on into `out`, at a width. `out` has one run for each sink channel, all of
    /// one length; the frames fill the front of each run, from the stream channel that feeds it. Silence is 0. Answers how many frames it gave, and
    /// counts a step for each of them in each run. Takes no memory.
    pub fn frame_values<T: Ledger>(
        &self,
        from: u32,
        width: Width,
        out: &mut [i32],
        steps: &mut Steps<T>,
    ) -> u32
        requires { (n : ℕ) × (length out.old ≡ n * length self.now.stream.feed) }
        ensures values { (n : ℕ) → length out.old ≡ n * length self.now.stream.feed → GivesValues width self.now.stream from n result out.old out.new }
        ensures words { All (FitsSigned w32) out.old → All (FitsSigned w32) out.new }
        ensures ticks { steps.new ≡ steps.old + length self.now.stream.feed * result }
    {
        self.state.frame_values(from, width, out, steps)
    }

    /// How many frames from `from` past the read index on are silent, at most `most`: nothing is heard there. Takes no memory.
    pub fn silent_frames(&self, from: u32, most: u32) -> u32
        ensures few { result ≤ most }
        ensures silent { (j : ℕ) → j < result → heard_at self.now.stream (from + j) ≡ None }
    {
        self.state.silent_frames(from, most)
    }

    /// How many frames from `from` past the read index on are to be mixed before the next silence that is long enough to leave out, at most `most`.
    /// Takes no memory.
    pub fn frames_to_silence(&self, from: u32, most: u32) -> u32
        requires some { 1 ≤ most }
        requires near { from + most < 2 ^ 32 }
        ensures some { 1 ≤ result }
        ensures few { result ≤ most }
    {
        self.state.frames_to_silence(from, most)
    }

    /// The next index to write.
    pub fn write_index(&self) -> i64
        ensures { result ≡ self.now.stream.queue.write }
    {
        self.state.write_index()
    }

    /// Whether it is corked.
    pub fn corked(&self) -> bool
        ensures { result ≡ self.now.stream.corked }
    {
        self.state.corked()
    }

    /// The factor of the stream for each channel of the sink, in 65536ths.
    pub fn factors(&self) -> &Factors
        ensures value { result.now ≡ self.now.stream.factors }
        ensures places { length self.now.stream.factors ≡ length self.now.stream.feed }
    {
        self.state.factors()
    }

    /// The whole stream, as plain numbers and bytes. Takes memory.
    pub fn plain(&self, alloc: Global) -> Mem<PlainStream>
        ensures { IfOk result (λ plain. plain ≡ plain_of self.now.stream) }
    {
        self.state.plain(alloc)
    }
}

impl Parcel for Stream {
    ghost spec_of = { λ s. s.stream.spec };

    fn spec(&self) -> Spec {
        self.state.spec()
    }
}
