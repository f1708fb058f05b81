// A sink that mixes by ramps.
ghost use Rattle.std.specs.Prelude.{◌≡◌, ◌≤◌, ◌+◌, ◌-◌, ◌*◌, ◌^◌, ◌++◌, [], length, drop, min, IfOk, OnOk, OnErr};
ghost use Rattle.std.specs.List.{AllByRecursion, concat, sum_by};
ghost use Rattle.px_msg.specs.View.{sample_spec};
ghost use Rattle.px_model.specs.Turn.{AreFor, BringsStream, turn_notices, stopped_notices};
ghost use Rattle.px_stream.specs.Samples.{samples};
ghost use Rattle.px_lane.specs.Mixing.{IsMixed};
ghost use Rattle.px_lane.specs.Lane.{IsLane};
ghost use Rattle.px_lane.specs.Needed.{needed, blocks_of, Opens};
ghost use Rattle.px_ramp.specs.RampMix.{empty_ramp_sink, ramp_turned, ramp_stopped};

use crate::buffer::RampBuffer;
use px_block::BlockSource;
use px_header::SinkSpec;
use px_kernel::Steps;
use px_lane::{MsgList, NoticeList, Prepared, SinkMixer};
use px_types::{Mem, NoMemory};
use std::alloc::Global;
use std::marker::Model;
use std::sync::ledger::Ledger;

/// A sink that mixes by ramps: its streams with their plain mix, and beside them the ramps and the bytes that are mixed by these.
#[derive(Debug, Drop)]
pub(crate) struct RampedSink {
    mixer: SinkMixer,
    guard: u32,
    held: RampBuffer,
}

impl Model for RampedSink {
    ghost use Rattle.px_ramp.specs.Lane.{RoomyRampSink, IsRamped, ramped_of};

    ghost Value = { RoomyRampSink };

    ghost view = { λ s. record { ramped = ramped_of s.mixer.sink s.held.ramps s.held.bytes; ramp = s.held.ramp; ramp_room = s.held.room; room = s.mixer.room; block_room = s.mixer.block_room } };

    ghost invariant = { λ s. IsRamped s.mixer.sink s.mixer.unaltered s.guard s.held };
}

// The horizon of a sink with this guard once `frames` more frames are consumed.
fn horizon_after(mixer: &SinkMixer, guard: u32, frames: u64) -> u64
    requires countable { mixer.now.sink.consumed + frames ≤ 2 ^ 60 }
    ensures { result ≡ min mixer.now.sink.filled (mixer.now.sink.consumed + frames + guard) }
{
    let consumed = mixer.consumed() + frames;
    mixer.filled().min(consumed + guard as u64)
}

impl RampedSink {
    /// A sink that has mixed nothing, with no inputs, for ramps over `ramp` frames. Takes the memory of its buffers.
    pub(crate) fn new(alloc: Global, sink: &SinkSpec, ramp: u32) -> Mem<RampedSink>
        requires mixed { IsMixed sink.now.spec }
        requires low_depth { sink.now.depth ≤ 65536 }
        requires ramp { 1 ≤ ramp }
        ensures ramped { IfOk result (λ s. s.ramped ≡ empty_ramp_sink (sample_spec sink.now.spec) sink.now.guard sink.now.depth) }
        ensures ramp { IfOk result (λ s. s.ramp ≡ ramp) }
    {
        Ok(RampedSink {
            mixer: SinkMixer::new(alloc, sink)?,
            guard: sink.guard,
            held: RampBuffer::new(alloc, sink, ramp)?,
        })
    }

    /// Frames consumed so far.
    pub(crate) fn consumed(&self) -> u64
        ensures { result ≡ self.now.ramped.sink.consumed }
    {
        self.mixer.consumed()
    }

    /// Frames mixed so far.
    pub(crate) fn filled(&self) -> u64
        ensures { result ≡ self.now.ramped.sink.filled }
    {
        self.mixer.filled()
    }

    /// The first frame that may still change.
    pub(crate) fn horizon(&self) -> u64
        ensures { result ≡ self.now.ramped.sink.horizon }
    {
        self.mixer.horizon()
    }

    /// Whether it has stopped, and mixes no more.
    pub(crate) fn is_stopped(&self) -> bool
        ensures { result ≡ self.now.ramped.sink.stopped }
    {
        self.mixer.is_stopped()
    }

    /// Takes all the memory of a turn with these messages. The list is empty then. Without memory the sink, the messages and the notices stay what they
    /// are.
    pub(crate) fn prepare(
        &mut self,
        alloc: Global,
        messages: &mut MsgList,
        out: &mut NoticeList,
    ) -> Mem<Prepared>
        requires { AllByRecursion Opens messages.old.messages }
        ensures ramped { self.new.ramped ≡ self.old.ramped }
        ensures ramp { self.new.ramp ≡ self.old.ramp }
        ensures notices { out.new.notices ≡ out.old.notices }
        ensures messages { IfOk result (λ prepared. prepared.messages ≡ messages.old.messages) }
        ensures parcels { AllByRecursion BringsStream messages.old.messages }
        ensures ramp_room { OnOk result (length messages.old.messages ≤ self.new.ramp_room) }
        ensures room { IfOk result (λ prepared. (self.new.room ≡ length messages.old.messages) × (prepared.room ≡ length messages.old.messages)) }
        ensures block_room { IfOk result (λ prepared. (self.new.block_room ≡ sum_by blocks_of messages.old.messages) × (prepared.block_room ≡ sum_by blocks_of messages.old.messages)) }
        ensures capacity { OnOk result (length out.old.notices + needed self.old.ramped.sink.inputs messages.old.messages ≤ out.new.capacity) }
        ensures more { out.old.capacity ≤ out.new.capacity }
        ensures list { IfOk result (λ prepared. prepared.capacity ≡ messages.old.capacity) }
        ensures empty { OnOk result (messages.new.messages ≡ []) }
        ensures err { OnErr result (messages.new ≡ messages.old) }
    {
        self.held.reserve(messages.len())?;
        self.mixer.prepare(alloc, messages, out)
    }

    /// The ramped turn whose sync consumed `frames` frames: the ramps and the streams take all `count` messages at the new horizon, and all frames from
    /// there on are mixed afresh by the ramps. Takes no memory.
    pub(crate) fn play<T: Ledger, B: BlockSource>(
        &mut self,
        frames: u64,
        count: usize,
        messages: &mut Prepared,
        out: &mut NoticeList,
        blocks: &mut B,
        steps: &mut Steps<T>,
    )
        requires there { frames ≤ self.old.ramped.sink.filled - self.old.ramped.sink.consumed }
        requires countable { self.old.ramped.sink.filled ≤ 2 ^ 60 }
        requires messages { AreFor self.old.ramped.sink messages.old.messages }
        requires count { count ≡ length messages.old.messages }
        requires ramp_room { count ≤ self.old.ramp_room }
        requires room { length messages.old.messages ≤ self.old.room }
        requires block_room { sum_by blocks_of messages.old.messages ≤ self.old.block_room }
        requires comes { self.old.room ≤ messages.old.room }
        requires blocks_come { self.old.block_room ≤ messages.old.block_room }
        requires capacity { length out.old.notices + length (turn_notices samples self.old.ramped.sink frames messages.old.messages) ≤ out.old.capacity }
        ensures ramped { self.new.ramped ≡ ramp_turned samples self.old.ramp self.old.ramped frames messages.old.messages }
        ensures ramp { self.new.ramp ≡ self.old.ramp }
        ensures lane { IsLane self.new.ramped.sink }
        ensures notices { out.new.notices ≡ out.old.notices ++ turn_notices samples self.old.ramped.sink frames messages.old.messages }
        ensures capacity { out.new.capacity ≡ out.old.capacity }
        ensures messages { messages.new.messages ≡ [] }
        ensures list { messages.new.capacity ≡ messages.old.capacity }
    {
        let at = horizon_after(&self.mixer, self.guard, frames);
        let below = at - (self.mixer.consumed() + frames);
        self.held.take_all(messages, count, at);
        self.mixer.play(frames, messages, out, blocks, steps);
        let inputs = self.mixer.inputs();
        let plain = self.mixer.fresh(0);
        self.held
            .remix(frames as usize, below as u32, inputs, at, plain, steps);
    }

    /// The ramped turn whose sync failed, and each after it: all frames past the horizon are dropped, and nothing is mixed. Takes no memory.
    pub(crate) fn stop<T: Ledger, B: BlockSource>(
        &mut self,
        count: usize,
        messages: &mut Prepared,
        out: &mut NoticeList,
        blocks: &mut B,
        steps: &mut Steps<T>,
    )
        requires countable { self.old.ramped.sink.filled ≤ 2 ^ 60 }
        requires messages { AreFor self.old.ramped.sink messages.old.messages }
        requires count { count ≡ length messages.old.messages }
        requires ramp_room { count ≤ self.old.ramp_room }
        requires room { length messages.old.messages ≤ self.old.room }
        requires block_room { sum_by blocks_of messages.old.messages ≤ self.old.block_room }
        requires comes { self.old.room ≤ messages.old.room }
        requires blocks_come { self.old.block_room ≤ messages.old.block_room }
        requires capacity { length out.old.notices + length (stopped_notices self.old.ramped.sink messages.old.messages) ≤ out.old.capacity }
        ensures ramped { self.new.ramped ≡ ramp_stopped self.old.ramp self.old.ramped messages.old.messages }
        ensures ramp { self.new.ramp ≡ self.old.ramp }
        ensures lane { IsLane self.new.ramped.sink }
        ensures notices { out.new.notices ≡ out.old.notices ++ stopped_notices self.old.ramped.sink messages.old.messages }
        ensures capacity { out.new.capacity ≡ out.old.capacity }
        ensures messages { messages.new.messages ≡ [] }
        ensures list { messages.new.capacity ≡ messages.old.capacity }
    {
        let at = horizon_after(&self.mixer, self.guard, 0);
        let below = at - self.mixer.consumed();
        self.held.take_all(messages, count, at);
        self.held.cut(below as u32);
        self.mixer.stop(messages, out, blocks, steps);
    }

    /// The bytes of the frames from the horizon on.
    pub(crate) fn fresh(&self) -> &[u8]
        ensures { result.now ≡ concat (drop (self.now.ramped.sink.horizon - self.now.ramped.sink.consumed) self.now.ramped.sink.buffer) }
    {
        let below = self.mixer.horizon() - self.mixer.consumed();
        self.held.from(below as u32)
    }
}
