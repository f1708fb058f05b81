// The inputs of a sink with the kept sums of their mix.
ghost use Rattle.std.specs.Prelude.{◌≡◌, ◌≤◌, ◌+◌, ◌-◌, ◌*◌, ◌++◌, [], length, map, flat_map, MatchOption, None, Some, IfOk, OnOk, OnErr};
ghost use Rattle.std.specs.List.{AllByRecursion, concat, range_with_len, sum_by};
ghost use Rattle.px_sample.specs.Format.{frame_size_of};
ghost use Rattle.px_model.specs.Frame.{SampleSpec};
ghost use Rattle.px_model.specs.Stream.{IsStream};
ghost use Rattle.px_model.specs.Going.{after};
ghost use Rattle.px_model.specs.Sink.{Input as Stands, streams_of, stream_at, with_input, without_input, with_change, with_stream};
ghost use Rattle.px_model.specs.Applied.{applied};
ghost use Rattle.px_model.specs.Control.{with_factors};
ghost use Rattle.px_model.specs.Message.{Message, StreamMessage};
ghost use Rattle.px_model.specs.Mix.{mix_of};
ghost use Rattle.px_model.specs.Turn.{going_notices, asked_stream, asked_notices, with_each_factors, message_notices, BringsStream};
ghost use Rattle.px_msg.specs.View.{gains, sample_spec};
ghost use Rattle.px_stream.specs.Samples.{samples};
ghost use Rattle.px_stream.specs.Messages.{message_of, blocks_with};
ghost use Rattle.px_lane.specs.Mixing.{IsMixed};
ghost use Rattle.px_lane.specs.Mixed.{CanMix};
ghost use Rattle.px_lane.specs.Needed.{needed, blocks_of, Opens};
ghost use Rattle.px_lane.specs.Unaltered.{MixesSame, MixesSameFrom};
ghost use Rattle.px_lane.specs.Costs.{unaltered_there};
ghost use Rattle.px_lane.specs.Taking.{FactorsFit, SuitsAt, IsRoomy, overflows_at};

use crate::adding::add_each;
use crate::altered::Altered;
use crate::inputs::Inputs;
use crate::prepared::Prepared;
use crate::{MsgList, NoticeList};
use px_block::BlockSource;
use px_kept_mix::KeptMix;
use px_kernel::Steps;
use px_msg::InputFactors;
use px_sample::Spec;
use px_stream::{Stream, StreamMsg};
use px_types::{InputId, Mem, NoMemory};
use px_vol::Factors;
use std::alloc::Global;
use std::marker::Model;
use std::sync::ledger::Ledger;

/// The inputs of a sink, with the sums of their streams for each frame that is mixed past the horizon.
#[derive(Debug, Drop)]
pub(crate) struct MixedInputs {
    pub(crate) inputs: Inputs,
    pub(crate) kept: KeptMix,
    pub(crate) spec: Spec,
    pub(crate) frames: u32,
}

impl Model for MixedInputs {
    ghost use Rattle.std.specs.Prelude.{◌≡◌, ◌≤◌};
    ghost use Rattle.px_kept_mix.specs.Keeping.{IsKept};
    ghost use Rattle.px_lane.specs.Mixing.{IsMixed};
    ghost use Rattle.px_lane.specs.Mixed.{SummedInputs, CanMix};

    ghost Value = { SummedInputs };

    ghost view = { λ m. record { spec = m.spec; depth = m.kept.depth; frames = m.frames; inputs = m.inputs.inputs; room = m.inputs.room; block_room = m.inputs.block_room } };

    ghost invariant = { λ m. IsMixed m.spec × CanMix m.spec.channels m.inputs.inputs × IsKept m.spec m.inputs.inputs m.kept × (m.frames ≡ m.kept.frames) };
}

/// What a message did: whether its write was refused, and which mixed frames it altered.
#[derive(Clone, Copy, Debug, PartialEq, Eq)]
pub(crate) struct Changed {
    pub refused: bool,
    pub altered: Altered,
}

impl MixedInputs {
    /// No inputs, and no frames mixed. Takes the memory of `depth` frames.
    pub(crate) fn new(alloc: Global, spec: Spec, depth: u32) -> Mem<MixedInputs>
        requires mixed { IsMixed spec }
        requires low { depth ≤ 65536 }
        ensures inputs { IfOk result (λ m. m.inputs ≡ []) }
        ensures spec { IfOk result (λ m. m.spec ≡ spec) }
        ensures depth { IfOk result (λ m. m.depth ≡ depth) }
        ensures frames { IfOk result (λ m. m.frames ≡ 0) }
    {
        Ok(MixedInputs {
            inputs: Inputs::new(alloc),
            kept: KeptMix::new(alloc, &spec, depth)?,
            spec,
            frames: 0,
        })
    }

    /// How many frames are mixed past the horizon.
    pub(crate) fn frames(&self) -> u32
        ensures { result ≡ self.now.frames }
    {
        self.frames
    }

    /// Pushes a Latency notice for a stream, if it is there, with `buffered` frames in the sink's buffer.
    pub(crate) fn answer(&self, input: InputId, tag: u32, buffered: u32, out: &mut NoticeList)
        requires { length out.old.notices + length (message_notices self.now.frames buffered (Message.query input.0 tag) self.now.inputs) ≤ out.old.capacity }
        ensures notices { out.new.notices ≡ out.old.notices ++ message_notices self.now.frames buffered (Message.query input.0 tag) self.now.inputs }
        ensures capacity { out.new.capacity ≡ out.old.capacity }
    {
        self.inputs
            .answer(input, tag, self.frames as u64, buffered, out);
    }

    /// Takes all the memory of a turn with these messages. The list is empty then. Without memory the inputs, the messages and the notices
    /// stay what they are.
    pub(crate) fn prepare(
        &mut self,
        alloc: Global,
        messages: &mut MsgList,
        out: &mut NoticeList,
    ) -> Mem<Prepared>
        requires { AllByRecursion Opens messages.old.messages }
        ensures spec { self.new.spec ≡ self.old.spec }
        ensures depth { self.new.depth ≡ self.old.depth }
        ensures frames { self.new.frames ≡ self.old.frames }
        ensures inputs { self.new.inputs ≡ self.old.inputs }
        ensures notices { out.new.notices ≡ out.old.notices }
        ensures messages { IfOk result (λ prepared. prepared.messages ≡ messages.old.messages) }
        ensures parcels { AllByRecursion BringsStream messages.old.messages }
        ensures room { IfOk result (λ prepared. (self.new.room ≡ length messages.old.messages) × (prepared.room ≡ length messages.old.messages)) }
        ensures block_room { IfOk result (λ prepared. (self.new.block_room ≡ sum_by blocks_of messages.old.messages) × (prepared.block_room ≡ sum_by blocks_of messages.old.messages)) }
        ensures capacity { OnOk result (length out.old.notices + needed self.old.inputs messages.old.messages ≤ out.new.capacity) }
        ensures more { out.old.capacity ≤ out.new.capacity }
        ensures list { IfOk result (λ prepared. prepared.capacity ≡ messages.old.capacity) }
        ensures empty { OnOk result (messages.new.messages ≡ []) }
        ensures err { OnErr result (messages.new ≡ messages.old) }
    {
        messages.prepare(alloc, &mut self.inputs, out)
    }

    /// Moves all streams `frames` frames forward, at most as many as are mixed, and pushes their Started and Underflow notices.
    pub(crate) fn go<B: BlockSource>(&mut self, frames: u64, out: &mut NoticeList, blocks: &mut B)
        requires there { frames ≤ self.old.frames }
        requires streams { AllByRecursion (λ x. IsStream (Stands.stream x)) self.old.inputs }
        requires room { length out.old.notices + length (flat_map (going_notices frames) self.old.inputs) ≤ out.old.capacity }
        ensures spec { self.new.spec ≡ self.old.spec }
        ensures depth { self.new.depth ≡ self.old.depth }
        ensures frames { self.new.frames ≡ self.old.frames - frames }
        ensures inputs { self.new.inputs ≡ map (with_stream (λ s. after s frames)) self.old.inputs }
        ensures room { self.new.room ≡ self.old.room }
        ensures block_room { self.new.block_room ≡ self.old.block_room }
        ensures notices { out.new.notices ≡ out.old.notices ++ flat_map (going_notices frames) self.old.inputs }
        ensures capacity { out.new.capacity ≡ out.old.capacity }
    {
        self.inputs.go(frames, out, blocks);
        self.kept.advance(frames as u32);
        self.frames -= frames as u32;
    }

    /// Drops all frames that are mixed.
    pub(crate) fn drop_unplayed(&mut self)
        ensures spec { self.new.spec ≡ self.old.spec }
        ensures depth { self.new.depth ≡ self.old.depth }
        ensures frames { self.new.frames ≡ 0 }
        ensures inputs { self.new.inputs ≡ self.old.inputs }
        ensures room { self.new.room ≡ self.old.room }
        ensures block_room { self.new.block_room ≡ self.old.block_room }
    {
        self.kept.advance(self.frames);
        self.frames = 0;
    }

    /// Inserts a stream at its place, and adds its share to the sums.
    pub(crate) fn insert<T: Ledger>(&mut self, input: InputId, stream: Stream, steps: &mut Steps<T>)
        requires room { 1 ≤ self.old.room }
        requires stream_room { IsRoomy (self.old.room - 1) self.old.block_room stream }
        requires mixes { CanMix self.old.spec.channels (with_input input.0 stream.stream self.old.inputs) }
        requires fed { length stream.stream.feed ≡ self.old.spec.channels }
        ensures spec { self.new.spec ≡ self.old.spec }
        ensures depth { self.new.depth ≡ self.old.depth }
        ensures frames { self.new.frames ≡ self.old.frames }
        ensures inputs { self.new.inputs ≡ with_input input.0 stream.stream self.old.inputs }
        ensures room { self.new.room + 1 ≡ self.old.room }
        ensures block_room { self.new.block_room ≡ self.old.block_room }
        ensures ticks { steps.new ≤ steps.old + self.old.spec.channels * (4 * self.old.frames) }
    {
        self.inputs
            .share(input, &self.spec, 0, false, &mut self.kept, steps);
        self.kept.change(&self.spec, &stream, 0, true, steps);
        self.inputs.insert(input, stream);
    }

    /// Removes a stream, if it is there, and takes its share out of the sums.
    pub(crate) fn remove<T: Ledger>(
        &mut self,
        input: InputId,
        steps: &mut Steps<T>,
    ) -> Option<Stream>
        requires { CanMix self.old.spec.channels (without_input input.0 self.old.inputs) }
        ensures spec { self.new.spec ≡ self.old.spec }
        ensures depth { self.new.depth ≡ self.old.depth }
        ensures frames { self.new.frames ≡ self.old.frames }
        ensures stream { MatchOption result (stream_at input.0 self.old.inputs ≡ None) (λ s. stream_at input.0 self.old.inputs ≡ Some s.stream) }
        ensures inputs { self.new.inputs ≡ without_input input.0 self.old.inputs }
        ensures room { self.new.room ≡ self.old.room }
        ensures block_room { self.new.block_room ≡ self.old.block_room }
        ensures ticks { steps.new ≤ steps.old + self.old.spec.channels * (2 * self.old.frames) }
    {
        self.inputs
            .share(input, &self.spec, 0, false, &mut self.kept, steps);
        self.inputs.remove(input)
    }

    /// Applies a message to a stream, if it is there, and exchanges its share of the altered frames. Uses up the room of one message with its blocks.
    pub(crate) fn change<T: Ledger, B: BlockSource>(
        &mut self,
        input: InputId,
        change: StreamMsg,
        blocks: &mut B,
        steps: &mut Steps<T>,
    ) -> Changed
        requires room { 1 ≤ self.old.room }
        requires block_room { blocks_with (message_of change) ≤ self.old.block_room }
        requires suits { SuitsAt (stream_at input.0 self.old.inputs) (message_of change) }
        requires mixes { CanMix self.old.spec.channels (with_change input.0 (applied self.old.frames (message_of change)) self.old.inputs) }
        ensures spec { self.new.spec ≡ self.old.spec }
        ensures depth { self.new.depth ≡ self.old.depth }
        ensures frames { self.new.frames ≡ self.old.frames }
        ensures inputs { self.new.inputs ≡ with_change input.0 (applied self.old.frames (message_of change)) self.old.inputs }
        ensures overflows { result.refused ≡ overflows_at self.old.frames (message_of change) (stream_at input.0 self.old.inputs) }
        ensures unaltered { result.altered.from ≡ unaltered_there self.old.frames (message_of change) (stream_at input.0 self.old.inputs) }
        ensures mixes { (sink : SampleSpec) → MixesSame sink result.altered.from self.old.inputs self.new.inputs }
        ensures resumes { (sink : SampleSpec) → MixesSameFrom sink result.altered.to self.old.frames self.old.inputs self.new.inputs }
        ensures ticks { steps.new ≤ steps.old + self.old.spec.channels * (4 * (self.old.frames - result.altered.from)) }
        ensures room { self.new.room + 1 ≡ self.old.room }
        ensures block_room { self.new.block_room + blocks_with (message_of change) ≡ self.old.block_room }
    {
        let mixed = self.frames as u64;
        let altered = self.inputs.altered(input, &change, mixed);
        let from = altered.from.min(mixed) as u32;
        let to = from.max(altered.to as u32);
        self.inputs
            .share_between(input, &self.spec, from, to, false, &mut self.kept, steps);
        let refused = self.inputs.change(input, change, mixed, blocks);
        self.inputs
            .share_between(input, &self.spec, from, to, true, &mut self.kept, steps);
        Changed { refused, altered }
    }

    /// Pushes the Drained notices of streams that have ended, and Request notices, with `mixed` frames mixed ahead.
    pub(crate) fn ask(&mut self, mixed: u64, out: &mut NoticeList)
        requires { length out.old.notices + length (flat_map (asked_notices mixed) self.old.inputs) ≤ out.old.capacity }
        ensures spec { self.new.spec ≡ self.old.spec }
        ensures depth { self.new.depth ≡ self.old.depth }
        ensures frames { self.new.frames ≡ self.old.frames }
        ensures inputs { self.new.inputs ≡ map (with_stream (asked_stream mixed)) self.old.inputs }
        ensures room { self.new.room ≡ self.old.room }
        ensures block_room { self.new.block_room ≡ self.old.block_room }
        ensures notices { out.new.notices ≡ out.old.notices ++ flat_map (asked_notices mixed) self.old.inputs }
        ensures capacity { out.new.capacity ≡ out.old.capacity }
    {
        self.inputs.ask(mixed, out);
    }

    /// Mixes up to `to` frames past the horizon: all streams add to the new frames. Takes no memory.
    pub(crate) fn mix<T: Ledger>(&mut self, to: u32, steps: &mut Steps<T>)
        requires more { self.old.frames ≤ to }
        requires fits { to ≤ self.old.depth }
        ensures spec { self.new.spec ≡ self.old.spec }
        ensures depth { self.new.depth ≡ self.old.depth }
        ensures frames { self.new.frames ≡ to }
        ensures inputs { self.new.inputs ≡ self.old.inputs }
        ensures room { self.new.room ≡ self.old.room }
        ensures block_room { self.new.block_room ≡ self.old.block_room }
        ensures ticks { steps.new ≤ steps.old + length self.old.inputs * (2 * (self.old.spec.channels * (to - self.old.frames))) }
    {
        let from = self.frames;
        if to == from {
            return;
        }
        self.kept.extend(to);
        add_each(
            &self.spec,
            self.inputs.as_slice(),
            from,
            &mut self.kept,
            steps,
        );
        self.frames = to;
    }

    /// Packs all mixed frames from frame `from` on into `out`, in the device's format.
    pub(crate) fn pack<T: Ledger>(&self, from: u32, out: &mut [u8], steps: &mut Steps<T>)
        requires from { from ≤ self.now.frames }
        requires whole { length out.old ≡ (self.now.frames - from) * frame_size_of self.now.spec }
        ensures bytes { out.new ≡ concat (map (mix_of samples (sample_spec self.now.spec) (streams_of self.now.inputs)) (range_with_len from (self.now.frames - from))) }
        ensures ticks { steps.new ≡ steps.old + self.now.spec.channels * (self.now.frames - from) }
    {
        self.kept.pack(&self.spec, from, out, steps);
    }

    /// The same from frame `from` up to frame `to`.
    pub(crate) fn pack_between<T: Ledger>(
        &self,
        from: u32,
        to: u32,
        out: &mut [u8],
        steps: &mut Steps<T>,
    )
        requires order { from ≤ to }
        requires inside { to ≤ self.now.frames }
        requires whole { length out.old ≡ (to - from) * frame_size_of self.now.spec }
        ensures bytes { out.new ≡ concat (map (mix_of samples (sample_spec self.now.spec) (streams_of self.now.inputs)) (range_with_len from (to - from))) }
        ensures ticks { steps.new ≡ steps.old + self.now.spec.channels * (to - from) }
    {
        self.kept.pack_between(&self.spec, from, to, out, steps);
    }
}
