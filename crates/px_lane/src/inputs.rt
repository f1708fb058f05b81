// The inputs of a sink.
ghost use Rattle.std.specs.Prelude.{ℕ, ◌≡◌, ◌≤◌, ◌<◌, ◌+◌, ◌-◌, ◌*◌, ◌++◌, [], length, map, flat_map, MatchOption, None, Some, OnOk};
ghost use Rattle.std.specs.List.{AllByRecursion};
ghost use Rattle.px_model.specs.Going.{after};
ghost use Rattle.px_model.specs.Sink.{IsRising, stream_at, with_input, without_input, with_change, with_stream};
ghost use Rattle.px_model.specs.Control.{with_factors};
ghost use Rattle.px_model.specs.Message.{Message, StreamMessage};
ghost use Rattle.px_msg.specs.View.{gains};
ghost use Rattle.px_model.specs.Applied.{applied};
ghost use Rattle.px_model.specs.Turn.{going_notices, asked_stream, asked_notices, with_each_factors, message_notices};
ghost use Rattle.px_kept_mix.specs.Keeping.{AreSmall, IsAsLarge, SharesThere, SharesBetweenThere, AreLittleThere, SoundsOutside};
ghost use Rattle.px_stream.specs.Messages.{message_of, blocks_with};
ghost use Rattle.px_lane.specs.Inputs.{input_of, inputs_of, HasRoom};
ghost use Rattle.px_lane.specs.Asked.{drained, drained_notices};
ghost use Rattle.px_lane.specs.Costs.{unaltered_there, has_others};
ghost use Rattle.px_lane.specs.Taking.{AreFed, FactorsFit, SuitsAt, IsRoomy, overflows_at};

use crate::NoticeList;
use crate::altered::Altered;
use crate::finding::{
    altered_at, answer_at, change_at, close_at, has_others_at, open_at, share_at, share_between_at,
};
use crate::input::Input;
use crate::memory::reserve_inputs;
use px_block::BlockSource;
use px_kept_mix::KeptMix;
use px_kernel::Steps;
use px_msg::Notice;
use px_sample::Spec;
use px_stream::{Stream, StreamMsg};
use px_types::{InputId, Mem, NoMemory};
use px_vol::Factors;
use std::alloc::Global;
use std::marker::Model;
use std::sync::ledger::Ledger;

/// The inputs of a sink (PulseAudio: the inputs of `thread_info` in pulsecore/sink.h), sorted by index, with room for messages to them.
#[derive(Debug, Drop)]
pub(crate) struct Inputs {
    items: Vec<Input>,
    room: u32,
    block_room: u32,
}

impl Model for Inputs {
    ghost use Rattle.std.specs.Prelude.{◌≤◌, ◌+◌, vec_len, vec_capacity};
    ghost use Rattle.std.specs.List.{AllByRecursion};
    ghost use Rattle.px_model.specs.Sink.{IsRising};
    ghost use Rattle.px_lane.specs.Room.{RoomyInputs};
    ghost use Rattle.px_lane.specs.Inputs.{inputs_of, HasRoom};

    ghost Value = { RoomyInputs };

    ghost view = { λ l. record { inputs = inputs_of l.items.items; room = l.room; block_room = l.block_room } };

    ghost invariant = { λ l. IsRising (inputs_of l.items.items) × AllByRecursion (HasRoom l.room l.block_room) l.items.items × (vec_len l.items + l.room ≤ vec_capacity l.items) };
}

impl Inputs {
    /// No inputs. Takes no memory.
    pub(crate) fn new(alloc: Global) -> Inputs
        ensures { result.inputs ≡ [] }
    {
        Inputs {
            items: Vec::new(alloc),
            room: 0,
            block_room: 0,
        }
    }

    /// The inputs, sorted by index.
    pub(crate) fn as_slice(&self) -> &[Input]
        ensures { inputs_of result.now ≡ self.now.inputs }
    {
        self.items.as_slice()
    }

    /// Makes room for `messages` messages, with `blocks` blocks in all. Without memory the inputs stay what they are.
    pub(crate) fn reserve(&mut self, messages: u32, blocks: u32) -> Mem<()>
        ensures inputs { self.new.inputs ≡ self.old.inputs }
        ensures ok { OnOk result ((self.new.room ≡ messages) × (self.new.block_room ≡ blocks)) }
    {
        reserve_inputs(self.items.as_mut_slice(), messages, blocks)?;
        self.items.reserve(messages as usize)?;
        self.room = messages;
        self.block_room = blocks;
        Ok(())
    }

    /// Inserts a stream at its place. It has room for as many messages as the others have left after this one.
    pub(crate) fn insert(&mut self, input: InputId, stream: Stream)
        requires room { 1 ≤ self.old.room }
        requires stream_room { IsRoomy (self.old.room - 1) self.old.block_room stream }
        ensures inputs { self.new.inputs ≡ with_input input.0 stream.stream self.old.inputs }
        ensures room { self.new.room + 1 ≡ self.old.room }
        ensures block_room { self.new.block_room ≡ self.old.block_room }
    {
        self.room -= 1;
        open_at(
            &mut self.items,
            Input {
                index: input,
                stream,
            },
        );
    }

    /// Removes a stream, if it is there.
    pub(crate) fn remove(&mut self, input: InputId) -> Option<Stream>
        ensures stream { MatchOption result (stream_at input.0 self.old.inputs ≡ None) (λ s. stream_at input.0 self.old.inputs ≡ Some s.stream) }
        ensures inputs { self.new.inputs ≡ without_input input.0 self.old.inputs }
        ensures room { self.new.room ≡ self.old.room }
        ensures block_room { self.new.block_room ≡ self.old.block_room }
    {
        close_at(&mut self.items, input)
    }

    /// Applies a message to a stream, if it is there, with `mixed` frames of the sink mixed ahead, and answers whether a write was refused. Uses up
    /// the room of one message with its blocks.
    pub(crate) fn change<B: BlockSource>(
        &mut self,
        input: InputId,
        change: StreamMsg,
        mixed: u64,
        blocks: &mut B,
    ) -> bool
        requires room { 1 ≤ self.old.room }
        requires block_room { blocks_with (message_of change) ≤ self.old.block_room }
        requires suits { SuitsAt (stream_at input.0 self.old.inputs) (message_of change) }
        ensures inputs { self.new.inputs ≡ with_change input.0 (applied mixed (message_of change)) self.old.inputs }
        ensures overflows { result ≡ overflows_at mixed (message_of change) (stream_at input.0 self.old.inputs) }
        ensures room { self.new.room + 1 ≡ self.old.room }
        ensures block_room { self.new.block_room + blocks_with (message_of change) ≡ self.old.block_room }
    {
        self.room -= 1;
        let brought = blocks_with(&change) as u32;
        self.block_room -= brought;
        change_at(self.items.as_mut_slice(), input, change, mixed, blocks)
    }

    /// Which of the next `mixed` frames of a stream a message alters, if it is there.
    pub(crate) fn altered(&self, input: InputId, change: &StreamMsg, mixed: u64) -> Altered
        requires { SuitsAt (stream_at input.0 self.now.inputs) (message_of change.now) }
        ensures from { result.from ≡ unaltered_there mixed (message_of change.now) (stream_at input.0 self.now.inputs) }
        ensures inside { result.to ≤ mixed }
        ensures sounds { SoundsOutside mixed result.from result.to (applied mixed (message_of change.now)) (stream_at input.0 self.now.inputs) }
    {
        altered_at(self.items.as_slice(), input, change, mixed)
    }

    /// Whether a stream, if it is there, has factors other than these.
    pub(crate) fn has_others(&self, input: InputId, factors: &Factors) -> bool
        ensures others { result ≡ has_others factors.now (stream_at input.0 self.now.inputs) }
        ensures rising { IsRising self.now.inputs }
    {
        has_others_at(self.items.as_slice(), input, factors)
    }

    /// Adds (`add`) the share of an input's stream, if it is there, to the kept sums from frame `from` on, or takes it away.
    pub(crate) fn share<T: Ledger>(
        &self,
        input: InputId,
        sink: &Spec,
        from: u32,
        add: bool,
        kept: &mut KeptMix,
        steps: &mut Steps<T>,
    )
        requires fed { AreFed sink.now.channels self.now.inputs }
        requires channels { length kept.old.runs ≡ sink.now.channels }
        requires from { from ≤ kept.old.frames }
        requires room { AreSmall 258 kept.old }
        ensures rising { IsRising self.now.inputs }
        ensures large { IsAsLarge kept.old kept.new }
        ensures sums { SharesThere add sink.now (stream_at input.0 self.now.inputs) from kept.old kept.new }
        ensures little { AreLittleThere sink.now (stream_at input.0 self.now.inputs) from kept.old.frames }
        ensures ticks { steps.new ≤ steps.old + 2 * (sink.now.channels * (kept.old.frames - from)) }
    {
        share_at(self.items.as_slice(), input, sink, from, add, kept, steps);
    }

    /// The same from frame `from` up to frame `to`.
    pub(crate) fn share_between<T: Ledger>(
        &self,
        input: InputId,
        sink: &Spec,
        from: u32,
        to: u32,
        add: bool,
        kept: &mut KeptMix,
        steps: &mut Steps<T>,
    )
        requires fed { AreFed sink.now.channels self.now.inputs }
        requires channels { length kept.old.runs ≡ sink.now.channels }
        requires order { from ≤ to }
        requires inside { to ≤ kept.old.frames }
        requires room { AreSmall 258 kept.old }
        ensures rising { IsRising self.now.inputs }
        ensures large { IsAsLarge kept.old kept.new }
        ensures sums { SharesBetweenThere add sink.now (stream_at input.0 self.now.inputs) from to kept.old kept.new }
        ensures little { AreLittleThere sink.now (stream_at input.0 self.now.inputs) from to }
        ensures ticks { steps.new ≤ steps.old + 2 * (sink.now.channels * (to - from)) }
    {
        share_between_at(
            self.items.as_slice(),
            input,
            sink,
            from,
            to,
            add,
            kept,
            steps,
        );
    }

    /// Replaces the factors of a stream, if it is there.
    pub(crate) fn set_one<B: BlockSource>(
        &mut self,
        input: InputId,
        factors: Factors,
        blocks: &mut B,
    )
        requires { SuitsAt (stream_at input.0 self.old.inputs) (StreamMessage.factors factors) }
        ensures inputs { self.new.inputs ≡ with_change input.0 (λ s. with_factors s factors) self.old.inputs }
        ensures room { self.new.room ≡ self.old.room }
        ensures block_room { self.new.block_room ≡ self.old.block_room }
    {
        let change = StreamMsg::Factors { factors };
        change_at(self.items.as_mut_slice(), input, change, 0, blocks);
    }

    /// Pushes a Latency notice for a stream, if it is there, with `mixed` frames mixed past the horizon and `buffered` in the sink's buffer.
    pub(crate) fn answer(
        &self,
        input: InputId,
        tag: u32,
        mixed: u64,
        buffered: u32,
        out: &mut NoticeList,
    )
        requires { length out.old.notices + length (message_notices mixed buffered (Message.query input.0 tag) self.now.inputs) ≤ out.old.capacity }
        ensures notices { out.new.notices ≡ out.old.notices ++ message_notices mixed buffered (Message.query input.0 tag) self.now.inputs }
        ensures capacity { out.new.capacity ≡ out.old.capacity }
    {
        answer_at(self.items.as_slice(), input, tag, mixed, buffered, out);
    }

    /// Moves all streams `frames` frames of their sink forward, and pushes their Started and Underflow notices.
    pub(crate) fn go<B: BlockSource>(&mut self, frames: u64, out: &mut NoticeList, blocks: &mut B)
        requires { length out.old.notices + length (flat_map (going_notices frames) self.old.inputs) ≤ out.old.capacity }
        ensures inputs { self.new.inputs ≡ map (with_stream (λ s. after s frames)) self.old.inputs }
        ensures room { self.new.room ≡ self.old.room }
        ensures block_room { self.new.block_room ≡ self.old.block_room }
        ensures notices { out.new.notices ≡ out.old.notices ++ flat_map (going_notices frames) self.old.inputs }
        ensures capacity { out.new.capacity ≡ out.old.capacity }
    {
        go_each(self.items.as_mut_slice(), frames, out, blocks);
    }

    /// Pushes the Drained notices of streams that have ended, and Request notices, with `mixed` frames mixed ahead.
    pub(crate) fn ask(&mut self, mixed: u64, out: &mut NoticeList)
        requires { length out.old.notices + length (flat_map (asked_notices mixed) self.old.inputs) ≤ out.old.capacity }
        ensures inputs { self.new.inputs ≡ map (with_stream (asked_stream mixed)) self.old.inputs }
        ensures room { self.new.room ≡ self.old.room }
        ensures block_room { self.new.block_room ≡ self.old.block_room }
        ensures notices { out.new.notices ≡ out.old.notices ++ flat_map (asked_notices mixed) self.old.inputs }
        ensures capacity { out.new.capacity ≡ out.old.capacity }
    {
        ask_each(self.items.as_mut_slice(), mixed, out);
    }
}

// How many blocks a message brings.
fn blocks_with(change: &StreamMsg) -> usize
    ensures { result ≡ blocks_with (message_of change.now) }
{
    match change {
        StreamMsg::Write { bytes, .. } => bytes.count(),
        _ => 0,
    }
}

fn go_each<B: BlockSource>(inputs: &mut [Input], frames: u64, out: &mut NoticeList, blocks: &mut B)
    requires { length out.old.notices + length (flat_map (going_notices frames) (inputs_of inputs.old)) ≤ out.old.capacity }
    ensures inputs { inputs_of inputs.new ≡ map (with_stream (λ s. after s frames)) (inputs_of inputs.old) }
    ensures room { (room kept : ℕ) → AllByRecursion (HasRoom room kept) inputs.old → AllByRecursion (HasRoom room kept) inputs.new }
    ensures notices { out.new.notices ≡ out.old.notices ++ flat_map (going_notices frames) (inputs_of inputs.old) }
    ensures capacity { out.new.capacity ≡ out.old.capacity }
{
    // where the horizon stays, streams stay where they are, and no notice is due
    if frames == 0 {
        return;
    }
    for input in inputs.iter_mut() {
        go_one(input, frames, out, blocks);
    }
}

fn go_one<B: BlockSource>(input: &mut Input, frames: u64, out: &mut NoticeList, blocks: &mut B)
    requires { length out.old.notices + length (going_notices frames (input_of input.old)) ≤ out.old.capacity }
    ensures input { input_of input.new ≡ with_stream (λ s. after s frames) (input_of input.old) }
    ensures room { input.old.stream.room ≤ input.new.stream.room }
    ensures block_room { input.old.stream.block_room ≤ input.new.stream.block_room }
    ensures notices { out.new.notices ≡ out.old.notices ++ going_notices frames (input_of input.old) }
    ensures capacity { out.new.capacity ≡ out.old.capacity }
{
    let settled = input.stream.settle(frames, blocks);
    if settled.started {
        out.push(Notice::Started { input: input.index });
    }
    if settled.underflow {
        out.push(Notice::Underflow { input: input.index });
    }
}

fn ask_each(inputs: &mut [Input], mixed: u64, out: &mut NoticeList)
    requires { length out.old.notices + length (flat_map (asked_notices mixed) (inputs_of inputs.old)) ≤ out.old.capacity }
    ensures inputs { inputs_of inputs.new ≡ map (with_stream (asked_stream mixed)) (inputs_of inputs.old) }
    ensures room { (room kept : ℕ) → AllByRecursion (HasRoom room kept) inputs.old → AllByRecursion (HasRoom room kept) inputs.new }
    ensures notices { out.new.notices ≡ out.old.notices ++ flat_map (asked_notices mixed) (inputs_of inputs.old) }
    ensures capacity { out.new.capacity ≡ out.old.capacity }
{
    for input in inputs.iter_mut() {
        ask_one(input, mixed, out);
    }
}

fn ask_one(input: &mut Input, mixed: u64, out: &mut NoticeList)
    requires { length out.old.notices + length (asked_notices mixed (input_of input.old)) ≤ out.old.capacity }
    ensures input { input_of input.new ≡ with_stream (asked_stream mixed) (input_of input.old) }
    ensures room { input.old.stream.room ≤ input.new.stream.room }
    ensures block_room { input.old.stream.block_room ≤ input.new.stream.block_room }
    ensures notices { out.new.notices ≡ out.old.notices ++ asked_notices mixed (input_of input.old) }
    ensures capacity { out.new.capacity ≡ out.old.capacity }
{
    let frames = input.stream.request(mixed);
    answer_drains(input, out);
    if frames > 0 {
        out.push(Notice::Request {
            input: input.index,
            frames,
        });
    }
}

fn answer_drains(input: &mut Input, out: &mut NoticeList)
    requires { length out.old.notices + length (drained_notices (input_of input.old)) ≤ out.old.capacity }
    ensures input { input_of input.new ≡ with_stream drained (input_of input.old) }
    ensures room { input.old.stream.room ≤ input.new.stream.room }
    ensures block_room { input.old.stream.block_room ≤ input.new.stream.block_room }
    ensures notices { out.new.notices ≡ out.old.notices ++ drained_notices (input_of input.old) }
    ensures capacity { out.new.capacity ≡ out.old.capacity }
{
    while let Some(tag) = input.stream.drained() {
        out.push(Notice::Drained {
            input: input.index,
            tag,
        });
    }
}
