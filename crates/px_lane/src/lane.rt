// The mixer of one sink over a device.
ghost use Rattle.std.specs.Prelude.{◌≡◌, ◌<◌, ◌≤◌, ◌+◌, ◌-◌, ◌^◌, ◌++◌, [], length, IfOk, OnOk, OnErr, MatchResult, IsFalse};
ghost use Rattle.std.specs.Borrow.{Lends, sem};
ghost use Rattle.std.specs.List.{sum_by};
ghost use Rattle.px_msg.specs.View.{sample_spec};
ghost use Rattle.px_model.specs.Stream.{Stream as Plain};
ghost use Rattle.px_model.specs.Orderly.{IsOrderly};
ghost use Rattle.px_model.specs.Sink.{empty_sink, specs_of};
ghost use Rattle.px_lane.specs.Mixing.{IsMixed};
ghost use Rattle.px_model.specs.Turn.{AreFor, settled, turned, turn_notices};
ghost use Rattle.px_stream.specs.Samples.{samples};
ghost use Rattle.px_lane.specs.Needed.{needed, blocks_of};
ghost use Rattle.px_lane.specs.Lane.{IsLane, IsAttached, HasCounted};
ghost use Rattle.px_lane.specs.Turned.{Turns, Refuses};
ghost use Rattle.px_lane.specs.Costs.{cost_by, turn_cost};
ghost use Rattle.px_lane.specs.contracts.lane.Lane.{the_row};

use crate::mixer::SinkMixer;
use crate::prepared::Prepared;
use crate::{MsgList, NoticeList};
use px_block::BlockSource;
use px_ends::{Device, DeviceFault};
use px_header::SinkSpec;
use px_kernel::Steps;
use px_types::limits::MAX_INDEX;
use px_types::{Mem, NoMemory};
use std::alloc::Global;
use std::marker::Model;
use std::sync::ledger::Ledger;

/// What a turn did.
#[derive(Clone, Copy, Debug, PartialEq, Eq)]
pub enum Turned {
    /// The device consumed `frames` frames in this turn, and `consumed` in all.
    Played { consumed: u64, frames: u32 },
    /// The sink has stopped; `faults` syncs of its device failed, at least one.
    Stopped { faults: u64 },
}

/// Why there was no turn.
#[derive(Clone, Copy, Debug, PartialEq, Eq)]
pub enum LaneFault {
    /// Out of memory.
    NoMemory,
    /// `filled` is more than 2^60, so that an index could pass its range.
    Worn { filled: u64 },
}

/// The mixer of one sink over the device that plays its frames (PulseAudio: the I/O thread of a sink).
#[derive(Debug, Drop)]
pub struct Lane<D> {
    mixer: SinkMixer,
    device: D,
    faults: u64,
}

impl<D> Model for Lane<D> {
    ghost use Rattle.std.specs.Prelude.{◌≡◌, ◌-◌};
    ghost use Rattle.px_lane.specs.Lane.{Mixer, IsLane, HasCounted};

    ghost Value = { Mixer D };

    ghost view = { λ l. record { sink = l.mixer.sink; device = l.device; faults = l.faults } };

    ghost invariant = { λ l. IsLane l.mixer.sink × HasCounted l.mixer.sink l.faults × (l.mixer.unaltered ≡ l.mixer.sink.filled - l.mixer.sink.horizon) };
}

impl<D: Device + Drop> Lane<D> {
    /// A lane with no inputs, over a device that has played nothing. Takes the memory of its buffer.
    pub fn new(alloc: Global, sink: &SinkSpec, device: D) -> Mem<Lane<D>>
        requires mixed { IsMixed sink.now.spec }
        requires low_depth { sink.now.depth ≤ 65536 }
        requires attached { IsAttached (D.now device) (empty_sink (sample_spec sink.now.spec) sink.now.guard sink.now.depth) }
        ensures { IfOk result (λ l. l ≡ record { sink = empty_sink (sample_spec sink.now.spec) sink.now.guard sink.now.depth; device = device; faults = 0 }) }
    {
        Ok(Lane {
            mixer: SinkMixer::new(alloc, sink)?,
            device,
            faults: 0,
        })
    }

    /// Frames consumed so far.
    pub fn consumed(&self) -> u64
        ensures { result ≡ self.now.sink.consumed }
    {
        self.mixer.consumed()
    }

    /// Frames mixed so far.
    pub fn filled(&self) -> u64
        ensures { result ≡ self.now.sink.filled }
    {
        self.mixer.filled()
    }

    /// The device.
    pub fn device_mut(&mut self) -> &mut D
        ensures* lends { sem 𝓛 (Lends (the_row D.row) D.row self.entry result (λ d. record self.old { device = d })) }
        ensures value { result.now ≡ self.old.device }
    {
        &mut self.device
    }

    /// The device, without its lane.
    pub fn into_device(self) -> D
        ensures { result ≡ self.device }
    {
        self.device
    }

    /// Runs one turn: the device plays what it consumed, the messages are applied, all frames from the horizon on are mixed afresh and put to it, and
    /// each stream asks for frames. A turn whose sync fails stops the sink, and later turns don't call the device. The list of messages is empty
    /// then, and the notices follow those already in `out`. Without memory, and where `filled` is more than 2^60, nothing changes: all memory is
    /// taken before the sync. The list of messages has the room that it had, and that of notices may have more. Blocks that fall out of use go back
    /// to their source. (PulseAudio: `pa_sink_render` and `pa_sink_process_rewind` of pulsecore/sink.c.)
    pub fn turn<B: BlockSource, T: Ledger>(
        &mut self,
        alloc: Global,
        messages: &mut MsgList,
        out: &mut NoticeList,
        blocks: &mut B,
        steps: &mut Steps<T>,
    ) -> Result<Turned, LaneFault>
        requires messages { IsOrderly Plain.spec self.old.sink.spec (specs_of self.old.sink.inputs) messages.old.messages }
        requires attached { IsFalse self.old.sink.stopped → IsAttached (D.now self.old.device) self.old.sink }
        ensures ok { IfOk result (Turns D.now self.old self.new messages.old.messages out.old.notices out.new.notices) }
        ensures empty { OnOk result (messages.new.messages ≡ []) }
        ensures worn { MatchResult result (λ turned. self.old.sink.filled ≤ 2 ^ 60) (Refuses self.old.sink.filled) }
        ensures err { OnErr result ((self.new ≡ self.old) × (messages.new ≡ messages.old) × (out.new.notices ≡ out.old.notices)) }
        ensures message_room { messages.new.capacity ≡ messages.old.capacity }
        ensures notice_room { out.old.capacity ≤ out.new.capacity }
        ensures ticks { MatchResult result (λ turned. steps.new ≤ steps.old + cost_by self.old.sink messages.old.messages turned) (λ fault. steps.new ≡ steps.old) }
    {
        let filled = self.mixer.filled();
        if filled > MAX_INDEX {
            return Err(LaneFault::Worn { filled });
        }
        match self.mixer.prepare(alloc, messages, out) {
            Err(NoMemory) => Err(LaneFault::NoMemory),
            Ok(mut prepared) => {
                let turned = run(
                    &mut self.mixer,
                    &mut self.device,
                    &mut self.faults,
                    &mut prepared,
                    out,
                    blocks,
                    steps,
                );
                messages.give_back(prepared);
                Ok(turned)
            }
        }
    }
}

// A turn whose memory has all been taken.
fn run<D: Device, B: BlockSource, T: Ledger>(
    mixer: &mut SinkMixer,
    device: &mut D,
    faults: &mut u64,
    messages: &mut Prepared,
    out: &mut NoticeList,
    blocks: &mut B,
    steps: &mut Steps<T>,
) -> Turned
    requires lane { IsLane mixer.old.sink }
    requires mixed { mixer.old.unaltered ≡ mixer.old.sink.filled - mixer.old.sink.horizon }
    requires counted { HasCounted mixer.old.sink faults.old }
    requires attached { IsFalse mixer.old.sink.stopped → IsAttached (D.now device.old) mixer.old.sink }
    requires countable { mixer.old.sink.filled ≤ 2 ^ 60 }
    requires messages { AreFor mixer.old.sink messages.old.messages }
    requires room { length messages.old.messages ≤ mixer.old.room }
    requires block_room { sum_by blocks_of messages.old.messages ≤ mixer.old.block_room }
    requires comes { mixer.old.room ≤ messages.old.room }
    requires blocks_come { mixer.old.block_room ≤ messages.old.block_room }
    requires capacity { length out.old.notices + needed mixer.old.sink.inputs messages.old.messages ≤ out.old.capacity }
    ensures turns { Turns D.now (record { sink = mixer.old.sink; device = device.old; faults = faults.old }) (record { sink = mixer.new.sink; device = device.new; faults = faults.new }) messages.old.messages out.old.notices out.new.notices result }
    ensures lane { IsLane mixer.new.sink }
    ensures mixed { mixer.new.unaltered ≡ mixer.new.sink.filled - mixer.new.sink.horizon }
    ensures ticks { steps.new ≤ steps.old + cost_by mixer.old.sink messages.old.messages result }
    ensures counted { HasCounted mixer.new.sink faults.new }
    ensures messages { messages.new.messages ≡ [] }
    ensures list { messages.new.capacity ≡ messages.old.capacity }
    ensures capacity { out.new.capacity ≡ out.old.capacity }
{
    if mixer.is_stopped() {
        mixer.stop(messages, out, blocks, steps);
        return Turned::Stopped { faults: *faults };
    }
    match device.sync() {
        Ok(consumed) => play(mixer, device, consumed, messages, out, blocks, steps),
        Err(DeviceFault) => {
            *faults = faults.saturating_add(1);
            mixer.stop(messages, out, blocks, steps);
            Turned::Stopped { faults: *faults }
        }
    }
}

// A turn after a sync that answered `consumed` frames consumed in all.
fn play<D: Device, B: BlockSource, T: Ledger>(
    mixer: &mut SinkMixer,
    device: &mut D,
    consumed: u64,
    messages: &mut Prepared,
    out: &mut NoticeList,
    blocks: &mut B,
    steps: &mut Steps<T>,
) -> Turned
    requires lane { IsLane mixer.old.sink }
    requires mixed { mixer.old.unaltered ≡ mixer.old.sink.filled - mixer.old.sink.horizon }
    requires forward { mixer.old.sink.consumed ≤ consumed }
    requires within { consumed ≤ mixer.old.sink.filled }
    requires attached { IsAttached (D.now device.old) (settled mixer.old.sink (consumed - mixer.old.sink.consumed)) }
    requires countable { mixer.old.sink.filled ≤ 2 ^ 60 }
    requires messages { AreFor mixer.old.sink messages.old.messages }
    requires room { length messages.old.messages ≤ mixer.old.room }
    requires block_room { sum_by blocks_of messages.old.messages ≤ mixer.old.block_room }
    requires comes { mixer.old.room ≤ messages.old.room }
    requires blocks_come { mixer.old.block_room ≤ messages.old.block_room }
    requires capacity { length out.old.notices + needed mixer.old.sink.inputs messages.old.messages ≤ out.old.capacity }
    ensures value { mixer.new.sink ≡ turned samples mixer.old.sink (consumed - mixer.old.sink.consumed) messages.old.messages }
    ensures result { result ≡ Turned.Played consumed (consumed - mixer.old.sink.consumed) }
    ensures lane { IsLane mixer.new.sink }
    ensures mixed { mixer.new.unaltered ≡ mixer.new.sink.filled - mixer.new.sink.horizon }
    ensures ticks { steps.new ≤ steps.old + turn_cost mixer.old.sink (consumed - mixer.old.sink.consumed) messages.old.messages }
    ensures notices { out.new.notices ≡ out.old.notices ++ turn_notices samples mixer.old.sink (consumed - mixer.old.sink.consumed) messages.old.messages }
    ensures messages { messages.new.messages ≡ [] }
    ensures list { messages.new.capacity ≡ messages.old.capacity }
    ensures capacity { out.new.capacity ≡ out.old.capacity }
    ensures attached { IsAttached (D.now device.new) mixer.new.sink }
    ensures played { (D.now device.new).played ≡ (D.now device.old).played }
    ensures faults { (D.now device.new).faults ≡ (D.now device.old).faults }
    ensures failed { (D.now device.new).failed ≡ (D.now device.old).failed }
    ensures next { (D.now device.new).next ≡ (D.now device.old).next }
{
    let frames = consumed - mixer.consumed();
    let stay = mixer.play(frames, messages, out, blocks, steps);
    device.put(mixer.horizon() + stay, mixer.fresh(stay));
    Turned::Played {
        consumed,
        frames: frames as u32,
    }
}
