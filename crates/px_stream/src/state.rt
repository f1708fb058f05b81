// The state of a stream, and what a message does to it.
ghost use Rattle.std.specs.Prelude.{◌≡◌, ◌≤◌, ◌+◌, ◌-◌, ◌*◌, ℕ, length, All, ◌<◌, OnOk};
ghost use Rattle.px_block.specs.Given.{after_giving, blocks_for};
ghost use Rattle.px_msg.specs.View.{sample_spec, opened};
ghost use Rattle.px_model.specs.Applied.{applied, overflows, written_by, write_outcome, is_refused};
ghost use Rattle.px_model.specs.Control.{new_stream, drained_by, flushed, triggered, prebuffered, with_attr, attached, with_factors, corked_to};
ghost use Rattle.px_model.specs.Frame.{SampleSpec, frame_size};
ghost use Rattle.px_model.specs.Orderly.{IsNewStream, IsRepaired};
ghost use Rattle.px_stream.specs.Messages.{message_of, Suits, blocks_with, room_for, answer_for};

use crate::{Applied, StreamMsg};
use px_block::{BlockSource, Blocks};
use px_chmap::Feed;
use px_model::{Attr, Run};
use px_msg::NewStream;
use px_queue::{FrameQueue, Pushed};
use px_sample::Spec;
use px_types::{Mem, NoMemory};
use px_vol::Factors;
use std::alloc::Global;
use std::collections::VecDeque;
use std::marker::Model;

/// The state of a stream: a queue of frames with what a client and the core set. All counts are frames.
#[derive(Debug, Drop)]
pub(crate) struct StreamState {
    pub(crate) queue: FrameQueue,
    pub(crate) corked: bool,
    pub(crate) maxlength: u32,
    pub(crate) tlength: u32,
    pub(crate) minreq: u32,
    pub(crate) prebuf: u32,
    pub(crate) requested: u32,
    pub(crate) draining: VecDeque<u32>,
    pub(crate) run: Run,
    pub(crate) spec: Spec,
    pub(crate) feed: Feed,
    pub(crate) factors: Factors,
}

impl Model for StreamState {
    ghost use Rattle.std.specs.Prelude.{◌≡◌, ◌-◌, min};
    ghost use Rattle.std.specs.VecDeque.{deque_len, deque_capacity};
    ghost use Rattle.px_msg.specs.View.{sample_spec};
    ghost use Rattle.px_model.specs.Frame.{frame_size};
    ghost use Rattle.px_stream.specs.HeldStream.{HeldStream, stream_of, IsMixable};

    ghost Value = { HeldStream };

    ghost view = { λ s. record {
      stream = stream_of s.queue.queue s.corked s.maxlength s.tlength s.minreq s.requested s.draining.items s.run (sample_spec s.spec) s.feed s.factors;
      room = min s.queue.room (deque_capacity s.draining - deque_len s.draining);
      block_room = s.queue.block_room;
      blocks = s.queue.blocks;
    } };

    ghost invariant = { λ s. IsMixable (stream_of s.queue.queue s.corked s.maxlength s.tlength s.minreq s.requested s.draining.items s.run (sample_spec s.spec) s.feed s.factors)
        × (s.queue.frame ≡ frame_size (sample_spec s.spec)) × (s.queue.queue.prebuf ≡ s.prebuf) };
}

impl StreamState {
    /// A new stream, with nothing written and `tlength` frames requested. It fits a sink. Takes no memory.
    pub(crate) fn new(alloc: Global, new: &NewStream) -> StreamState
        requires { (sink : SampleSpec) × IsNewStream sink (opened new.now) }
        ensures stream { result.stream ≡ new_stream (sample_spec new.now.spec) new.now.feed new.now.factors new.now.attr new.now.corked }
        ensures blocks { result.blocks ≡ 0 }
    {
        let mut queue = FrameQueue::new(alloc, new.spec.frame_size() as u32);
        queue.set_prebuf(new.attr.prebuf);
        queue.set_hold(new.attr.prebuf > 0);
        StreamState {
            queue,
            corked: new.corked,
            maxlength: new.attr.maxlength,
            tlength: new.attr.tlength,
            minreq: new.attr.minreq,
            prebuf: new.attr.prebuf,
            requested: new.attr.tlength,
            draining: VecDeque::new(alloc),
            run: Run::Quiet(0),
            spec: new.spec,
            feed: new.feed,
            factors: new.factors,
        }
    }

    /// As `Stream::reserve`.
    pub(crate) fn reserve(&mut self, messages: u32, blocks: u32) -> Mem<()>
        ensures ok { OnOk result ((messages ≤ self.new.room) × (blocks ≤ self.new.block_room)) }
        ensures stream { self.new.stream ≡ self.old.stream }
        ensures blocks { self.new.blocks ≡ self.old.blocks }
        ensures room { self.old.room ≤ self.new.room }
        ensures block_room { self.old.block_room ≤ self.new.block_room }
    {
        self.queue.reserve(messages, blocks)?;
        self.draining.reserve(messages as usize)?;
        Ok(())
    }

    /// As `Stream::apply`.
    pub(crate) fn apply<B: BlockSource>(
        &mut self,
        message: StreamMsg,
        mixed: u64,
        blocks: &mut B,
    ) -> Applied
        requires room { room_for (message_of message) ≤ self.old.room }
        requires block_room { blocks_with (message_of message) ≤ self.old.block_room }
        requires suits { Suits self.old.stream (message_of message) }
        ensures stream { self.new.stream ≡ applied mixed (message_of message) self.old.stream }
        ensures answer { result ≡ answer_for (overflows mixed (message_of message) self.old.stream) }
        ensures room { self.old.room ≤ self.new.room + room_for (message_of message) }
        ensures block_room { self.old.block_room ≤ self.new.block_room + blocks_with (message_of message) }
        ensures given { after_giving (B.given blocks.new) self.new.blocks ≡ after_giving (B.given blocks.old) (self.old.blocks + blocks_with (message_of message)) }
    {
        match message {
            StreamMsg::Write {
                seek,
                offset,
                frames,
                bytes,
            } => return self.write(seek, offset, frames, bytes, mixed, blocks),
            StreamMsg::Attach { feed, factors } => self.attach(feed, factors),
            StreamMsg::Cork { on } => self.cork(on),
            StreamMsg::Flush => self.flush(blocks),
            StreamMsg::Trigger => self.trigger(),
            StreamMsg::Prebuf => self.wait_again(),
            StreamMsg::Drain { tag } => self.drain(tag),
            StreamMsg::Attr { attr } => self.set_attr(&attr),
            StreamMsg::Factors { factors } => self.set_factors(factors),
            StreamMsg::Query { tag: _ } => {}
        }
        Applied::Quiet
    }

    // Writes frames, and answers whether they were refused.
    fn write<B: BlockSource>(
        &mut self,
        seek: u8,
        offset: i64,
        frames: u32,
        bytes: Blocks,
        mixed: u64,
        blocks: &mut B,
    ) -> Applied
        requires room { 1 ≤ self.old.room }
        requires block_room { blocks_for (length bytes) ≤ self.old.block_room }
        requires seek { seek ≤ 3 }
        requires whole { length bytes ≡ frames * frame_size self.old.stream.spec }
        ensures stream { self.new.stream ≡ written_by seek offset frames bytes mixed self.old.stream }
        ensures answer { result ≡ answer_for (is_refused (write_outcome self.old.stream seek offset frames bytes mixed)) }
        ensures room { self.old.room ≤ self.new.room + 1 }
        ensures block_room { self.old.block_room ≤ self.new.block_room + blocks_for (length bytes) }
        ensures given { after_giving (B.given blocks.new) self.new.blocks ≡ after_giving (B.given blocks.old) (self.old.blocks + blocks_for (length bytes)) }
    {
        let ahead = self.ahead_index(mixed);
        let limit = self.maxlength as i64;
        match self
            .queue
            .push(seek, offset, bytes, frames, ahead, limit, blocks)
        {
            Pushed::Stored => {
                self.requested = less(self.requested, frames as u64);
                Applied::Quiet
            }
            Pushed::Overflow { .. } => {
                self.requested = less(self.requested, frames as u64);
                Applied::Overflow
            }
            Pushed::Outside { .. } => Applied::Overflow,
        }
    }

    fn attach(&mut self, feed: Feed, factors: Factors)
        requires feed { All (λ channel. channel < self.old.stream.spec.channels) feed }
        requires factors { length factors ≡ length feed }
        ensures stream { self.new.stream ≡ attached self.old.stream feed factors }
        ensures room { self.new.room ≡ self.old.room }
        ensures block_room { self.new.block_room ≡ self.old.block_room }
        ensures blocks { self.new.blocks ≡ self.old.blocks }
    {
        self.feed = feed;
        self.factors = factors;
    }

    fn cork(&mut self, on: bool)
        ensures stream { self.new.stream ≡ corked_to self.old.stream on }
        ensures room { self.new.room ≡ self.old.room }
        ensures block_room { self.new.block_room ≡ self.old.block_room }
        ensures blocks { self.new.blocks ≡ self.old.blocks }
    {
        self.corked = on;
    }

    fn flush<B: BlockSource>(&mut self, blocks: &mut B)
        ensures stream { self.new.stream ≡ flushed self.old.stream }
        ensures room { self.old.room ≤ self.new.room }
        ensures block_room { self.old.block_room ≤ self.new.block_room }
        ensures given { after_giving (B.given blocks.new) self.new.blocks ≡ after_giving (B.given blocks.old) self.old.blocks }
    {
        self.queue.flush(blocks);
    }

    fn trigger(&mut self)
        ensures stream { self.new.stream ≡ triggered self.old.stream }
        ensures room { self.new.room ≡ self.old.room }
        ensures block_room { self.new.block_room ≡ self.old.block_room }
        ensures blocks { self.new.blocks ≡ self.old.blocks }
    {
        self.queue.set_hold(false);
    }

    fn wait_again(&mut self)
        ensures stream { self.new.stream ≡ prebuffered self.old.stream }
        ensures room { self.new.room ≡ self.old.room }
        ensures block_room { self.new.block_room ≡ self.old.block_room }
        ensures blocks { self.new.blocks ≡ self.old.blocks }
    {
        self.queue.set_hold(self.prebuf > 0);
    }

    fn drain(&mut self, tag: u32)
        requires { 1 ≤ self.old.room }
        ensures stream { self.new.stream ≡ drained_by self.old.stream tag }
        ensures room { self.old.room ≤ self.new.room + 1 }
        ensures block_room { self.new.block_room ≡ self.old.block_room }
        ensures blocks { self.new.blocks ≡ self.old.blocks }
    {
        self.draining.push_back_reserved(tag);
        self.queue.set_hold(false);
    }

    fn set_attr(&mut self, attr: &Attr)
        requires { IsRepaired attr.now }
        ensures stream { self.new.stream ≡ with_attr self.old.stream attr.now }
        ensures room { self.new.room ≡ self.old.room }
        ensures block_room { self.new.block_room ≡ self.old.block_room }
        ensures blocks { self.new.blocks ≡ self.old.blocks }
    {
        self.queue.set_prebuf(attr.prebuf);
        self.prebuf = attr.prebuf;
        self.maxlength = attr.maxlength;
        self.tlength = attr.tlength;
        self.minreq = attr.minreq;
    }

    fn set_factors(&mut self, factors: Factors)
        requires { length factors ≡ length self.old.stream.feed }
        ensures stream { self.new.stream ≡ with_factors self.old.stream factors }
        ensures room { self.new.room ≡ self.old.room }
        ensures block_room { self.new.block_room ≡ self.old.block_room }
        ensures blocks { self.new.blocks ≡ self.old.blocks }
    {
        self.factors = factors;
    }

    /// As `Stream::write_index`.
    pub(crate) fn write_index(&self) -> i64
        ensures { result ≡ self.now.stream.queue.write }
    {
        self.queue.write_index()
    }

    /// Its sample spec.
    pub(crate) fn spec(&self) -> Spec
        ensures { sample_spec result ≡ self.now.stream.spec }
    {
        self.spec
    }

    /// As `Stream::corked`.
    pub(crate) fn corked(&self) -> bool
        ensures { result ≡ self.now.stream.corked }
    {
        self.corked
    }

    /// As `Stream::factors`.
    pub(crate) fn factors(&self) -> &Factors
        ensures value { result.now ≡ self.now.stream.factors }
        ensures places { length self.now.stream.factors ≡ length self.now.stream.feed }
    {
        &self.factors
    }
}

// `count` less `frames`, 0 where that is below 0.
pub(crate) fn less(count: u32, frames: u64) -> u32
    ensures { result ≡ count - frames }
{
    if frames >= count as u64 {
        0
    } else {
        count - frames as u32
    }
}
