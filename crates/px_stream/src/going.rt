// A stream moving forward with its sink, and its requests.
ghost use Rattle.std.specs.Prelude.{◌≡◌, ◌≤◌, ◌+◌, ◌∷◌, ◌⊎◌, [], true, false, length, nat_lt, nat_le, MatchOption};
ghost use Rattle.px_block.specs.Given.{after_giving};
ghost use Rattle.px_model.specs.Going.{after, given_of, ahead_of};
ghost use Rattle.px_model.specs.Index.{above};
ghost use Rattle.px_model.specs.Turn.{is_playing, has_ended, has_started, has_run_out, missing_of, request_of};
ghost use Rattle.px_stream.specs.HeldStream.{IsMixable};

use crate::run::run_after;
use crate::state::{StreamState, less};
use px_block::BlockSource;
use px_model::Run;

/// The notices due once a stream has moved forward.
#[derive(Clone, Copy, Debug, PartialEq, Eq)]
pub struct Settled {
    /// Started: it was silent, and gave a frame.
    pub started: bool,
    /// Underflow: it is silent, played or gave a frame before, and has no drain to answer.
    pub underflow: bool,
}

/// Where a stream stands after some more frames of its sink.
#[derive(Clone, Copy, Debug, PartialEq, Eq)]
pub struct Ahead {
    /// Its read index then: the ahead index.
    pub read: i64,
    /// How long it has been playing or silent then.
    pub run: Run,
}

impl StreamState {
    /// As `Stream::settle`.
    pub(crate) fn settle<B: BlockSource>(&mut self, frames: u64, blocks: &mut B) -> Settled
        ensures started { result.started ≡ has_started self.old.stream frames }
        ensures underflow { result.underflow ≡ has_run_out self.old.stream frames }
        ensures stream { self.new.stream ≡ after self.old.stream frames }
        ensures room { self.old.room ≤ self.new.room }
        ensures block_room { self.old.block_room ≤ self.new.block_room }
        ensures given { after_giving (B.given blocks.new) self.new.blocks ≡ after_giving (B.given blocks.old) self.old.blocks }
    {
        let settled = Settled {
            started: self.starts(frames),
            underflow: self.runs_out(frames),
        };
        self.go(frames, blocks);
        settled
    }

    // Moves `frames` frames of its sink forward.
    fn go<B: BlockSource>(&mut self, frames: u64, blocks: &mut B)
        ensures stream { self.new.stream ≡ after self.old.stream frames }
        ensures room { self.old.room ≤ self.new.room }
        ensures block_room { self.old.block_room ≤ self.new.block_room }
        ensures given { after_giving (B.given blocks.new) self.new.blocks ≡ after_giving (B.given blocks.old) self.old.blocks }
    {
        if frames == 0 || self.corked {
            return;
        }
        self.run = run_after(self.run, self.queue.given(frames), frames);
        self.queue.settle(frames, blocks);
    }

    // How many of the next `frames` frames it gives, always the first ones.
    fn given(&self, frames: u64) -> u64
        ensures { result ≡ given_of self.now.stream frames }
    {
        if self.corked {
            0
        } else {
            self.queue.given(frames)
        }
    }

    fn starts(&self, frames: u64) -> bool
        ensures { result ≡ has_started self.now.stream frames }
    {
        !is_playing(self.run) && self.given(frames) > 0
    }

    fn runs_out(&self, frames: u64) -> bool
        ensures { result ≡ has_run_out self.now.stream frames }
    {
        let later = self.run_after(frames);
        !is_playing(later)
            && (is_playing(self.run) || self.given(frames) > 0)
            && self.draining.is_empty()
    }

    fn run_after(&self, frames: u64) -> Run
        ensures { result ≡ (after self.now.stream frames).run }
    {
        if self.corked || frames == 0 {
            self.run
        } else {
            run_after(self.run, self.given(frames), frames)
        }
    }

    /// As `Stream::ahead`.
    pub(crate) fn ahead(&self, frames: u64) -> Ahead
        ensures read { result.read ≡ ahead_of self.now.stream frames }
        ensures run { result.run ≡ (after self.now.stream frames).run }
    {
        Ahead {
            read: self.ahead_index(frames),
            run: self.run_after(frames),
        }
    }

    pub(crate) fn ahead_index(&self, frames: u64) -> i64
        ensures { result ≡ ahead_of self.now.stream frames }
    {
        if self.corked {
            self.queue.read_index()
        } else {
            self.queue.ahead_index(frames)
        }
    }

    /// As `Stream::request`.
    pub(crate) fn request(&mut self, mixed: u64) -> u32
        ensures frames { result ≡ request_of self.old.stream mixed }
        ensures asked { nat_lt 0 result ≡ nat_le self.old.stream.minreq (missing_of self.old.stream mixed) }
        ensures stream { self.new.stream ≡ record self.old.stream { requested = self.old.stream.requested + request_of self.old.stream mixed } }
        ensures room { self.new.room ≡ self.old.room }
        ensures block_room { self.new.block_room ≡ self.old.block_room }
        ensures blocks { self.new.blocks ≡ self.old.blocks }
    {
        let frames = self.asks(mixed);
        self.requested += frames;
        frames
    }

    fn asks(&self, mixed: u64) -> u32
        ensures { result ≡ request_of self.now.stream mixed }
    {
        let missing = self.missing(mixed);
        if self.minreq <= missing { missing } else { 0 }
    }

    fn missing(&self, mixed: u64) -> u32
        ensures { result ≡ missing_of self.now.stream mixed }
    {
        let waiting = above(self.queue.write_index(), self.ahead_index(mixed));
        less(less(self.tlength, waiting), self.requested as u64)
    }

    /// As `Stream::drained`.
    pub(crate) fn drained(&mut self) -> Option<u32>
        ensures tag { MatchOption result (((has_ended self.old.stream ≡ false) ⊎ (self.old.stream.draining ≡ [])) × (self.new.stream ≡ self.old.stream))
            (λ tag. (has_ended self.old.stream ≡ true) × (self.old.stream.draining ≡ tag ∷ self.new.stream.draining)
            × (self.new.stream ≡ record self.old.stream { draining = self.new.stream.draining })) }
        ensures room { self.old.room ≤ self.new.room }
        ensures block_room { self.old.block_room ≤ self.new.block_room }
        ensures blocks { self.new.blocks ≡ self.old.blocks }
    {
        if self.draining.is_empty() || !self.has_ended() {
            return None;
        }
        self.draining.pop_front()
    }

    /// As `Stream::draining`.
    pub(crate) fn draining(&self) -> usize
        ensures count { result ≡ length self.now.stream.draining }
        ensures holds { IsMixable self.now.stream }
    {
        self.draining.len()
    }

    fn has_ended(&self) -> bool
        ensures { result ≡ has_ended self.now.stream }
    {
        self.queue.end_index() <= self.queue.read_index()
    }
}

// Whether it is playing.
fn is_playing(run: Run) -> bool
    ensures { result ≡ is_playing run }
{
    matches!(run, Run::Playing(_))
}

// How far `index` lies above `other`, 0 where it doesn't.
fn above(index: i64, other: i64) -> u64
    ensures { result ≡ above index other }
{
    if index > other {
        (index as i128 - other as i128) as u64
    } else {
        0
    }
}
