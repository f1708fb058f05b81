// The ramped mixer of one sink over a device.
ghost use Rattle.std.specs.Prelude.{◌≡◌, ◌<◌, ◌≤◌, ◌+◌, ◌-◌, ◌^◌, ◌++◌, [], length, IfOk, OnOk, OnErr, MatchResult, IsFalse};
ghost use Rattle.std.specs.Borrow.{Lends, sem};
ghost use Rattle.std.specs.List.{sum_by};
ghost use Rattle.px_msg.specs.View.{sample_spec};
ghost use Rattle.px_model.specs.Stream.{Stream as Plain};
ghost use Rattle.px_model.specs.Orderly.{IsOrderly};
ghost use Rattle.px_model.specs.Sink.{empty_sink, specs_of};
ghost use Rattle.px_model.specs.Turn.{AreFor, settled, turn_notices};
ghost use Rattle.px_stream.specs.Samples.{samples};
ghost use Rattle.px_lane.specs.Mixing.{IsMixed};
ghost use Rattle.px_lane.specs.Needed.{needed, blocks_of};
ghost use Rattle.px_lane.specs.Lane.{IsLane, IsAttached, HasCounted};
ghost use Rattle.px_lane.specs.Turned.{Refuses};
ghost use Rattle.px_ramp.specs.RampMix.{empty_ramp_sink, ramp_turned};
ghost use Rattle.px_ramp.specs.Lane.{RampTurns};
ghost use Rattle.px_ramp.specs.contracts.lane.RampLane.{the_row};

use crate::sink::RampedSink;
use px_block::BlockSource;
use px_ends::{Device, DeviceFault};
use px_header::SinkSpec;
use px_kernel::Steps;
use px_lane::{LaneFault, MsgList, NoticeList, Prepared, Turned};
use px_types::limits::MAX_INDEX;
use px_types::{Mem, NoMemory};
use std::alloc::Global;
use std::marker::Model;
use std::sync::ledger::Ledger;

/// The mixer of one sink by ramps, over the device that plays its frames.
#[derive(Debug, Drop)]
pub struct RampLane<D> {
    mixer: RampedSink,
    device: D,
    faults: u64,
}

impl<D> Model for RampLane<D> {
    ghost use Rattle.px_lane.specs.Lane.{IsLane, HasCounted};
    ghost use Rattle.px_ramp.specs.Lane.{RampMixer};

    ghost Value = { RampMixer D };

    ghost view = { λ l. record { ramped = l.mixer.ramped; ramp = l.mixer.ramp; device = l.device; faults = l.faults } };

    ghost invariant = { λ l. IsLane l.mixer.ramped.sink × HasCounted l.mixer.ramped.sink l.faults };
}

impl<D: Device + Drop> RampLane<D> {
    /// A lane with no inputs, over a device that has played nothing, for ramps over `ramp` frames. Takes the memory of its buffers.
    pub fn new(alloc: Global, sink: &SinkSpec, ramp: u32, device: D) -> Mem<RampLane<D>>
        requires mixed { IsMixed sink.now.spec }
        requires low_depth { sink.now.depth ≤ 65536 }
        requires ramp { 1 ≤ ramp }
        requires attached { IsAttached (D.now device) (empty_sink (sample_spec sink.now.spec) sink.now.guard sink.now.depth) }
        ensures { IfOk result (λ l. l ≡ record { ramped = empty_ramp_sink (sample_spec sink.now.spec) sink.now.guard sink.now.depth; ramp = ramp; device = device; faults = 0 }) }
    {
        Ok(RampLane {
            mixer: RampedSink::new(alloc, sink, ramp)?,
            device,
            faults: 0,
        })
    }

    /// Frames consumed so far.
    pub fn consumed(&self) -> u64
        ensures { result ≡ self.now.ramped.sink.consumed }
    {
        self.mixer.consumed()
    }

    /// Frames mixed so far.
    pub fn filled(&self) -> u64
        ensures { result ≡ self.now.ramped.sink.filled }
    {
        self.mixer.filled()
    }

    /// The device.
    pub fn device_mut(&mut self) -> &mut D
        ensures* lends { sem 𝓛 (Lends (the_row D.row) D.row self.entry result (λ d. record self.old { device = d })) }
        ensures value { result.now ≡ self.old.device }
    {
        &mut self.device
    }

    /// The device, without its lane.
    pub fn into_device(self) -> D
        ensures { result ≡ self.device }
    {
        self.device
    }

    /// Runs one ramped turn: the device plays what it consumed, the messages are applied, all frames from the horizon on are mixed afresh by the ramps
    /// and put to it, and each stream asks for frames. A turn whose sync fails stops the sink, and later turns don't call the device. The list of
    /// messages is empty then, and the notices follow those already in `out`. Without memory, and where `filled` is more than 2^60, nothing changes: all
    /// memory is taken before the sync. The list of messages has the room that it had, and that of notices may have more. Blocks that fall out of use go
    /// back to their source.
    pub fn turn<B: BlockSource, T: Ledger>(
        &mut self,
        alloc: Global,
        messages: &mut MsgList,
        out: &mut NoticeList,
        blocks: &mut B,
        steps: &mut Steps<T>,
    ) -> Result<Turned, LaneFault>
        requires messages { IsOrderly Plain.spec self.old.ramped.sink.spec (specs_of self.old.ramped.sink.inputs) messages.old.messages }
        requires attached { IsFalse self.old.ramped.sink.stopped → IsAttached (D.now self.old.device) self.old.ramped.sink }
        ensures ok { IfOk result (RampTurns D.now self.old self.new messages.old.messages out.old.notices out.new.notices) }
        ensures empty { OnOk result (messages.new.messages ≡ []) }
        ensures worn { MatchResult result (λ turned. self.old.ramped.sink.filled ≤ 2 ^ 60) (Refuses self.old.ramped.sink.filled) }
        ensures err { OnErr result ((self.new ≡ self.old) × (messages.new ≡ messages.old) × (out.new.notices ≡ out.old.notices)) }
        ensures message_room { messages.new.capacity ≡ messages.old.capacity }
        ensures notice_room { out.old.capacity ≤ out.new.capacity }
    {
        let filled = self.mixer.filled();
        if filled > MAX_INDEX {
            return Err(LaneFault::Worn { filled });
        }
        let count = messages.len();
        match self.mixer.prepare(alloc, messages, out) {
            Err(NoMemory) => Err(LaneFault::NoMemory),
            Ok(mut prepared) => {
                let turned = run(
                    &mut self.mixer,
                    &mut self.device,
                    &mut self.faults,
                    count,
                    &mut prepared,
                    out,
                    blocks,
                    steps,
                );
                messages.give_back(prepared);
                Ok(turned)
            }
        }
    }
}

// A ramped turn with these `count` messages, whose memory has all been taken.
fn run<D: Device, B: BlockSource, T: Ledger>(
    mixer: &mut RampedSink,
    device: &mut D,
    faults: &mut u64,
    count: usize,
    messages: &mut Prepared,
    out: &mut NoticeList,
    blocks: &mut B,
    steps: &mut Steps<T>,
) -> Turned
    requires lane { IsLane mixer.old.ramped.sink }
    requires counted { HasCounted mixer.old.ramped.sink faults.old }
    requires attached { IsFalse mixer.old.ramped.sink.stopped → IsAttached (D.now device.old) mixer.old.ramped.sink }
    requires countable { mixer.old.ramped.sink.filled ≤ 2 ^ 60 }
    requires messages { AreFor mixer.old.ramped.sink messages.old.messages }
    requires count { count ≡ length messages.old.messages }
    requires ramp_room { count ≤ mixer.old.ramp_room }
    requires room { length messages.old.messages ≤ mixer.old.room }
    requires block_room { sum_by blocks_of messages.old.messages ≤ mixer.old.block_room }
    requires comes { mixer.old.room ≤ messages.old.room }
    requires blocks_come { mixer.old.block_room ≤ messages.old.block_room }
    requires capacity { length out.old.notices + needed mixer.old.ramped.sink.inputs messages.old.messages ≤ out.old.capacity }
    ensures turns { RampTurns D.now (record { ramped = mixer.old.ramped; ramp = mixer.old.ramp; device = device.old; faults = faults.old }) (record { ramped = mixer.new.ramped; ramp = mixer.new.ramp; device = device.new; faults = faults.new }) messages.old.messages out.old.notices out.new.notices result }
    ensures lane { IsLane mixer.new.ramped.sink }
    ensures counted { HasCounted mixer.new.ramped.sink faults.new }
    ensures messages { messages.new.messages ≡ [] }
    ensures list { messages.new.capacity ≡ messages.old.capacity }
    ensures capacity { out.new.capacity ≡ out.old.capacity }
{
    if mixer.is_stopped() {
        mixer.stop(count, messages, out, blocks, steps);
        return Turned::Stopped { faults: *faults };
    }
    match device.sync() {
        Ok(consumed) => play(mixer, device, consumed, count, messages, out, blocks, steps),
        Err(DeviceFault) => {
            *faults = faults.saturating_add(1);
            mixer.stop(count, messages, out, blocks, steps);
            Turned::Stopped { faults: *faults }
        }
    }
}

// A ramped turn after a sync that answered `consumed` frames consumed in all.
fn play<D: Device, B: BlockSource, T: Ledger>(
    mixer: &mut RampedSink,
    device: &mut D,
    consumed: u64,
    count: usize,
    messages: &mut Prepared,
    out: &mut NoticeList,
    blocks: &mut B,
    steps: &mut Steps<T>,
) -> Turned
    requires lane { IsLane mixer.old.ramped.sink }
    requires forward { mixer.old.ramped.sink.consumed ≤ consumed }
    requires within { consumed ≤ mixer.old.ramped.sink.filled }
    requires attached { IsAttached (D.now device.old) (settled mixer.old.ramped.sink (consumed - mixer.old.ramped.sink.consumed)) }
    requires countable { mixer.old.ramped.sink.filled ≤ 2 ^ 60 }
    requires messages { AreFor mixer.old.ramped.sink messages.old.messages }
    requires count { count ≡ length messages.old.messages }
    requires ramp_room { count ≤ mixer.old.ramp_room }
    requires room { length messages.old.messages ≤ mixer.old.room }
    requires block_room { sum_by blocks_of messages.old.messages ≤ mixer.old.block_room }
    requires comes { mixer.old.room ≤ messages.old.room }
    requires blocks_come { mixer.old.block_room ≤ messages.old.block_room }
    requires capacity { length out.old.notices + needed mixer.old.ramped.sink.inputs messages.old.messages ≤ out.old.capacity }
    ensures ramped { mixer.new.ramped ≡ ramp_turned samples mixer.old.ramp mixer.old.ramped (consumed - mixer.old.ramped.sink.consumed) messages.old.messages }
    ensures ramp { mixer.new.ramp ≡ mixer.old.ramp }
    ensures result { result ≡ Turned.Played consumed (consumed - mixer.old.ramped.sink.consumed) }
    ensures lane { IsLane mixer.new.ramped.sink }
    ensures notices { out.new.notices ≡ out.old.notices ++ turn_notices samples mixer.old.ramped.sink (consumed - mixer.old.ramped.sink.consumed) messages.old.messages }
    ensures messages { messages.new.messages ≡ [] }
    ensures list { messages.new.capacity ≡ messages.old.capacity }
    ensures capacity { out.new.capacity ≡ out.old.capacity }
    ensures attached { IsAttached (D.now device.new) mixer.new.ramped.sink }
    ensures played { (D.now device.new).played ≡ (D.now device.old).played }
    ensures faults { (D.now device.new).faults ≡ (D.now device.old).faults }
    ensures failed { (D.now device.new).failed ≡ (D.now device.old).failed }
    ensures next { (D.now device.new).next ≡ (D.now device.old).next }
{
    let frames = consumed - mixer.consumed();
    mixer.play(frames, count, messages, out, blocks, steps);
    device.put(mixer.horizon(), mixer.fresh());
    Turned::Played {
        consumed,
        frames: frames as u32,
    }
}
