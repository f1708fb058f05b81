// What a sink mixes.
ghost use Rattle.std.specs.Prelude.{◌≡◌, ◌≤◌, ◌+◌, ◌-◌, ◌*◌, ◌^◌, ◌<◌, ◌++◌, length, take, drop, flat_map, [], IfOk, OnOk, OnErr};
ghost use Rattle.std.specs.List.{AllByRecursion, concat, sum_by};
ghost use Rattle.px_msg.specs.View.{sample_spec};
ghost use Rattle.px_model.specs.Sink.{Input as Stands, IsStreamOf, empty_sink};
ghost use Rattle.px_model.specs.Turn.{next_horizon, settled, with_messages, notices_of_messages, remixed, asked, going_notices, asked_notices, AreFor, BringsStream, turned, turn_notices, stopped_turn, stopped_notices};
ghost use Rattle.px_lane.specs.Mixing.{RoomySink, IsMixed, given_up};
ghost use Rattle.px_stream.specs.Samples.{samples};
ghost use Rattle.px_lane.specs.Mixed.{CanMixAll};
ghost use Rattle.px_lane.specs.Taking.{CanTakeAll};
ghost use Rattle.px_lane.specs.Inputs.{inputs_of};
ghost use Rattle.px_lane.specs.Lane.{IsLane};
ghost use Rattle.px_lane.specs.Costs.{costs_of, turn_cost};
ghost use Rattle.px_lane.specs.Needed.{needed, blocks_of, Opens};
ghost use Rattle.px_lane.specs.Whole.{AreFramesOf};
ghost use Rattle.px_lane.specs.Unaltered.{IsResumed};
ghost use Rattle.px_model.specs.Frame.{frame_size};

use crate::buffer::Buffer;
use crate::input::Input;
use crate::mixed::MixedInputs;
use crate::prepared::Prepared;
use crate::{MsgList, NoticeList};
use px_block::BlockSource;
use px_header::SinkSpec;
use px_kernel::Steps;
use px_sample::Spec;
use px_types::{Mem, NoMemory};
use std::alloc::Global;
use std::marker::Model;
use std::sync::ledger::Ledger;

/// What a sink mixes: its counts, its buffer and its inputs (PulseAudio: `thread_info` of pulsecore/sink.h). The buffer's bytes begin at the first
/// frame that isn't consumed, as many as the depth has room for.
#[derive(Debug, Drop)]
pub struct SinkMixer {
    pub(crate) spec: Spec,
    pub(crate) guard: u32,
    pub(crate) depth: u32,
    pub(crate) consumed: u64,
    pub(crate) filled: u64,
    pub(crate) horizon: u64,
    pub(crate) stopped: bool,
    pub(crate) bytes: Buffer,
    // how many frames past the horizon are the mix of the streams as they stand
    pub(crate) unaltered: u64,
    pub(crate) inputs: MixedInputs,
}

impl Model for SinkMixer {
    ghost use Rattle.std.specs.Prelude.{◌≡◌, ◌-◌, ◌*◌, ◌≤◌, length};
    ghost use Rattle.px_sample.specs.Format.{frame_size_of};
    ghost use Rattle.px_lane.specs.Mixing.{RoomySink, IsMixed, Counts, AreInOrder, sink_of};
    ghost use Rattle.px_lane.specs.Unaltered.{IsUnaltered};

    ghost Value = { RoomySink };

    ghost view = { λ m. record {
      sink = sink_of m.spec (record { guard = m.guard; depth = m.depth; consumed = m.consumed; filled = m.filled; horizon = m.horizon }) m.stopped m.bytes m.inputs.inputs;
      unaltered = m.unaltered;
      room = m.inputs.room;
      block_room = m.inputs.block_room;
    } };

    ghost invariant = { λ m. IsMixed m.spec
        × AreInOrder (record { guard = m.guard; depth = m.depth; consumed = m.consumed; filled = m.filled; horizon = m.horizon })
        × (length m.bytes ≡ m.depth * frame_size_of m.spec)
        × IsUnaltered m.unaltered (sink_of m.spec (record { guard = m.guard; depth = m.depth; consumed = m.consumed; filled = m.filled; horizon = m.horizon }) m.stopped m.bytes m.inputs.inputs)
        × (m.inputs.spec ≡ m.spec) × (m.inputs.depth ≡ m.depth) × (m.inputs.frames ≡ m.filled - m.horizon) };
}

impl SinkMixer {
    /// A mixer that has mixed nothing, with no inputs. Takes the memory of its buffer.
    pub fn new(alloc: Global, sink: &SinkSpec) -> Mem<SinkMixer>
        requires mixed { IsMixed sink.now.spec }
        requires low_depth { sink.now.depth ≤ 65536 }
        ensures sink { IfOk result (λ m. m.sink ≡ empty_sink (sample_spec sink.now.spec) sink.now.guard sink.now.depth) }
        ensures unaltered { IfOk result (λ m. m.unaltered ≡ 0) }
    {
        let size = sink.spec.frame_size();
        Ok(SinkMixer {
            spec: sink.spec,
            guard: sink.guard,
            depth: sink.depth,
            consumed: 0,
            filled: 0,
            horizon: 0,
            stopped: false,
            bytes: Buffer::new(alloc, sink.depth as usize * size)?,
            unaltered: 0,
            inputs: MixedInputs::new(alloc, sink.spec, sink.depth)?,
        })
    }

    /// Frames consumed so far.
    pub fn consumed(&self) -> u64
        ensures { result ≡ self.now.sink.consumed }
    {
        self.consumed
    }

    /// Frames mixed so far.
    pub fn filled(&self) -> u64
        ensures { result ≡ self.now.sink.filled }
    {
        self.filled
    }

    /// The first frame that may still change.
    pub fn horizon(&self) -> u64
        ensures { result ≡ self.now.sink.horizon }
    {
        self.horizon
    }

    /// Whether it has stopped, and mixes no more.
    pub fn is_stopped(&self) -> bool
        ensures { result ≡ self.now.sink.stopped }
    {
        self.stopped
    }

    /// The inputs, sorted by index, each with its stream as it stands at the horizon.
    pub fn inputs(&self) -> &[Input]
        ensures { inputs_of result.now ≡ self.now.sink.inputs }
    {
        self.inputs.inputs.as_slice()
    }

    /// Takes all the memory of a turn with these messages. The list is empty then. Without memory the sink, the messages and the notices
    /// stay what they are.
    pub fn prepare(
        &mut self,
        alloc: Global,
        messages: &mut MsgList,
        out: &mut NoticeList,
    ) -> Mem<Prepared>
        requires { AllByRecursion Opens messages.old.messages }
        ensures value { self.new.sink ≡ self.old.sink }
        ensures unaltered { self.new.unaltered ≡ self.old.unaltered }
        ensures notices { out.new.notices ≡ out.old.notices }
        ensures messages { IfOk result (λ prepared. prepared.messages ≡ messages.old.messages) }
        ensures parcels { AllByRecursion BringsStream messages.old.messages }
        ensures room { IfOk result (λ prepared. (self.new.room ≡ length messages.old.messages) × (prepared.room ≡ length messages.old.messages)) }
        ensures block_room { IfOk result (λ prepared. (self.new.block_room ≡ sum_by blocks_of messages.old.messages) × (prepared.block_room ≡ sum_by blocks_of messages.old.messages)) }
        ensures capacity { OnOk result (length out.old.notices + needed self.old.sink.inputs messages.old.messages ≤ out.new.capacity) }
        ensures more { out.old.capacity ≤ out.new.capacity }
        ensures list { IfOk result (λ prepared. prepared.capacity ≡ messages.old.capacity) }
        ensures empty { OnOk result (messages.new.messages ≡ []) }
        ensures err { OnErr result (messages.new ≡ messages.old) }
    {
        self.inputs.prepare(alloc, messages, out)
    }

    /// Counts `frames` more frames as consumed, and moves all streams forward to the new horizon.
    pub(crate) fn settle<B: BlockSource>(
        &mut self,
        frames: u64,
        out: &mut NoticeList,
        blocks: &mut B,
    )
        requires there { frames ≤ self.old.sink.filled - self.old.sink.consumed }
        requires streams { AllByRecursion (λ x. IsStreamOf self.old.sink.spec (Stands.stream x)) self.old.sink.inputs }
        requires room { length out.old.notices + length (flat_map (going_notices (next_horizon self.old.sink frames - self.old.sink.horizon)) self.old.sink.inputs) ≤ out.old.capacity }
        ensures value { self.new.sink ≡ settled self.old.sink frames }
        ensures unaltered { self.new.unaltered ≡ self.old.unaltered - (next_horizon self.old.sink frames - self.old.sink.horizon) }
        ensures room { self.new.room ≡ self.old.room }
        ensures block_room { self.new.block_room ≡ self.old.block_room }
        ensures notices { out.new.notices ≡ out.old.notices ++ flat_map (going_notices (next_horizon self.old.sink frames - self.old.sink.horizon)) self.old.sink.inputs }
        ensures capacity { out.new.capacity ≡ out.old.capacity }
    {
        let size = self.spec.frame_size();
        let consumed = self.consumed + frames;
        let horizon = self.filled.min(consumed + self.guard as u64);
        let gone = horizon - self.horizon;
        self.inputs.go(gone, out, blocks);
        self.bytes.advance(frames as usize * size);
        self.unaltered = self.unaltered.saturating_sub(gone);
        self.consumed = consumed;
        self.horizon = horizon;
    }

    /// Applies all messages in order, at the horizon, and pushes their notices. Answers from which frame past the horizon on the buffer has the mix of
    /// the streams as they stand then. Takes no memory.
    pub(crate) fn take_all<T: Ledger, B: BlockSource>(
        &mut self,
        messages: &mut Prepared,
        out: &mut NoticeList,
        blocks: &mut B,
        steps: &mut Steps<T>,
    ) -> u64
        requires room { length messages.old.messages ≤ self.old.room }
        requires block_room { sum_by blocks_of messages.old.messages ≤ self.old.block_room }
        requires comes { self.old.room ≤ messages.old.room }
        requires blocks_come { self.old.block_room ≤ messages.old.block_room }
        requires suits { CanTakeAll (self.old.sink.filled - self.old.sink.horizon) messages.old.messages self.old.sink.inputs }
        requires mixes { CanMixAll self.old.sink.spec.channels (self.old.sink.filled - self.old.sink.horizon) messages.old.messages self.old.sink.inputs }
        requires capacity { length out.old.notices + length (notices_of_messages self.old.sink messages.old.messages) ≤ out.old.capacity }
        requires mixed { self.old.unaltered ≡ self.old.sink.filled - self.old.sink.horizon }
        ensures value { self.new.sink ≡ with_messages self.old.sink messages.old.messages }
        ensures resumed { IsResumed result self.new.sink }
        ensures less { self.new.unaltered ≤ self.old.unaltered }
        ensures ticks { steps.new + self.old.sink.spec.channels * ((self.old.sink.filled - self.old.sink.horizon) - self.new.unaltered)
            ≤ steps.old + self.old.sink.spec.channels * costs_of (self.old.sink.filled - self.old.sink.horizon) messages.old.messages self.old.sink.inputs }
        ensures notices { out.new.notices ≡ out.old.notices ++ notices_of_messages self.old.sink messages.old.messages }
        ensures capacity { out.new.capacity ≡ out.old.capacity }
        ensures messages { messages.new.messages ≡ [] }
        ensures list { messages.new.capacity ≡ messages.old.capacity }
    {
        let buffered = (self.filled - self.consumed) as u32;
        let altered = self.inputs.take_all(messages, buffered, out, blocks, steps);
        self.unaltered = self.unaltered.min(altered.from);
        altered.to
    }

    /// Drops all frames from the horizon on, and stops the sink.
    pub(crate) fn drop_unplayed(&mut self)
        ensures value { self.new.sink ≡ given_up self.old.sink }
        ensures unaltered { self.new.unaltered ≡ 0 }
        ensures whole { AreFramesOf (frame_size self.new.sink.spec) self.new.sink.buffer }
        ensures room { self.new.room ≡ self.old.room }
        ensures block_room { self.new.block_room ≡ self.old.block_room }
    {
        self.inputs.drop_unplayed();
        self.filled = self.horizon;
        self.unaltered = 0;
        self.stopped = true;
    }

    /// For each stream in order pushes the Drained notices, where it has ended, and a Request notice.
    pub(crate) fn ask(&mut self, out: &mut NoticeList)
        requires { length out.old.notices + length (flat_map (asked_notices (self.old.sink.filled - self.old.sink.horizon)) self.old.sink.inputs) ≤ out.old.capacity }
        ensures value { self.new.sink ≡ asked self.old.sink }
        ensures unaltered { self.new.unaltered ≡ self.old.unaltered }
        ensures room { self.new.room ≡ self.old.room }
        ensures block_room { self.new.block_room ≡ self.old.block_room }
        ensures notices { out.new.notices ≡ out.old.notices ++ flat_map (asked_notices (self.old.sink.filled - self.old.sink.horizon)) self.old.sink.inputs }
        ensures capacity { out.new.capacity ≡ out.old.capacity }
    {
        self.inputs.ask(self.filled - self.horizon, out);
    }

    /// The bytes of the frames from `stay` past the horizon on, once they are mixed up to the depth.
    pub fn fresh(&self, stay: u64) -> &[u8]
        requires full { self.now.sink.filled ≡ self.now.sink.consumed + self.now.sink.depth }
        requires within { stay ≤ self.now.sink.filled - self.now.sink.horizon }
        ensures { result.now ≡ concat (drop ((self.now.sink.horizon - self.now.sink.consumed) + stay) self.now.sink.buffer) }
    {
        let from = (self.horizon - self.consumed + stay) as usize * self.spec.frame_size();
        &self.bytes.as_slice()[from..]
    }

    /// A turn whose sync consumed `frames` frames: these leave the buffer and the streams go forward, the messages are applied, all frames from the
    /// horizon on are mixed afresh, and the streams ask for more. Answers how many frames past the horizon stay what they were. Takes no memory.
    /// (PulseAudio: `pa_sink_render` and `pa_sink_process_rewind` of pulsecore/sink.c.)
    pub fn play<T: Ledger, B: BlockSource>(
        &mut self,
        frames: u64,
        messages: &mut Prepared,
        out: &mut NoticeList,
        blocks: &mut B,
        steps: &mut Steps<T>,
    ) -> u64
        requires lane { IsLane self.old.sink }
        requires mixed { self.old.unaltered ≡ self.old.sink.filled - self.old.sink.horizon }
        requires there { frames ≤ self.old.sink.filled - self.old.sink.consumed }
        requires countable { self.old.sink.filled ≤ 2 ^ 60 }
        requires messages { AreFor self.old.sink messages.old.messages }
        requires room { length messages.old.messages ≤ self.old.room }
        requires block_room { sum_by blocks_of messages.old.messages ≤ self.old.block_room }
        requires comes { self.old.room ≤ messages.old.room }
        requires blocks_come { self.old.block_room ≤ messages.old.block_room }
        requires capacity { length out.old.notices + length (turn_notices samples self.old.sink frames messages.old.messages) ≤ out.old.capacity }
        ensures value { self.new.sink ≡ turned samples self.old.sink frames messages.old.messages }
        ensures within { result ≤ self.old.sink.filled - next_horizon self.old.sink frames }
        ensures stay { take ((next_horizon self.old.sink frames - (self.old.sink.consumed + frames)) + result) self.new.sink.buffer ≡ take ((next_horizon self.old.sink frames - (self.old.sink.consumed + frames)) + result) (drop frames self.old.sink.buffer) }
        ensures lane { IsLane self.new.sink }
        ensures mixed { self.new.unaltered ≡ self.new.sink.filled - self.new.sink.horizon }
        ensures ticks { steps.new ≤ steps.old + turn_cost self.old.sink frames messages.old.messages }
        ensures notices { out.new.notices ≡ out.old.notices ++ turn_notices samples self.old.sink frames messages.old.messages }
        ensures capacity { out.new.capacity ≡ out.old.capacity }
        ensures messages { messages.new.messages ≡ [] }
        ensures list { messages.new.capacity ≡ messages.old.capacity }
    {
        self.settle(frames, out, blocks);
        let to = self.take_all(messages, out, blocks, steps);
        let stay = self.remix(to, steps);
        self.ask(out);
        stay
    }

    /// A turn whose sync failed, and each after it: the streams go forward to the horizon, all frames past it are dropped, the messages are applied,
    /// and the streams ask for more. Takes no memory. (Own: a PulseAudio sink is unlinked.)
    pub fn stop<T: Ledger, B: BlockSource>(
        &mut self,
        messages: &mut Prepared,
        out: &mut NoticeList,
        blocks: &mut B,
        steps: &mut Steps<T>,
    )
        requires lane { IsLane self.old.sink }
        requires mixed { self.old.unaltered ≡ self.old.sink.filled - self.old.sink.horizon }
        requires messages { AreFor self.old.sink messages.old.messages }
        requires room { length messages.old.messages ≤ self.old.room }
        requires block_room { sum_by blocks_of messages.old.messages ≤ self.old.block_room }
        requires comes { self.old.room ≤ messages.old.room }
        requires blocks_come { self.old.block_room ≤ messages.old.block_room }
        requires capacity { length out.old.notices + length (stopped_notices self.old.sink messages.old.messages) ≤ out.old.capacity }
        ensures value { self.new.sink ≡ stopped_turn self.old.sink messages.old.messages }
        ensures lane { IsLane self.new.sink }
        ensures mixed { self.new.unaltered ≡ self.new.sink.filled - self.new.sink.horizon }
        ensures ticks { steps.new ≤ steps.old }
        ensures notices { out.new.notices ≡ out.old.notices ++ stopped_notices self.old.sink messages.old.messages }
        ensures capacity { out.new.capacity ≡ out.old.capacity }
        ensures messages { messages.new.messages ≡ [] }
        ensures list { messages.new.capacity ≡ messages.old.capacity }
    {
        self.settle(0, out, blocks);
        self.drop_unplayed();
        self.take_all(messages, out, blocks, steps);
        self.ask(out);
    }
}
