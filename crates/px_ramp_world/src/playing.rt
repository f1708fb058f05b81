//! A sink's ramped mixer over its device in memory.

ghost use Rattle.std.specs.Prelude.{◌≡◌, ◌<◌, ◌≤◌, ◌-◌, ◌^◌, List, [], length, cond, true, IsFalse, IfOk, OnOk, MatchResult, None, Some};
ghost use Rattle.std.specs.List.{concat};
ghost use Rattle.px_ends.specs.MemoryDevice.{state_of};
ghost use Rattle.px_header.specs.HeaderRules.{IsSink};
ghost use Rattle.px_header.specs.declared.header.SinkSpec.{SinkSpec as Spec};
ghost use Rattle.px_model.specs.Stream.{Stream as Plain};
ghost use Rattle.px_model.specs.Orderly.{IsOrderly};
ghost use Rattle.px_model.specs.Sink.{IsSink as IsConsistentSink, specs_of};
ghost use Rattle.px_lane.specs.Lane.{IsAttached};
ghost use Rattle.px_lane.specs.Turned.{Refuses};
ghost use Rattle.px_ramp.specs.Lane.{RampTurns};
ghost use Rattle.px_world.specs.Event.{played_of, stopped_of};
ghost use Rattle.px_ramp_world.specs.World.{new_ramped_mixer};
ghost use Rattle.px_ramp_world.specs.Event.{ramped_turned, ramped_to_fail};
ghost use Rattle.px_ramp_world.specs.Playing.{ramped_mixer_of, plain_mixer_of, IsPlaying};

use px_ends::{MemDevice, Played};
use px_header::SinkSpec;
use px_kernel::Steps;
use px_lane::{LaneFault, MsgList, NoticeList, Turned};
use px_ramp::RampLane;
use px_tick_key::Key;
use px_types::{Mem, NoMemory};
use px_world::Spares;
use px_world::parts::{shape_of, silence};
use std::alloc::Global;
use std::marker::Brand;
use std::sync::ledger::{Blank, Ledger};

/// A sink's ramped mixer over its device, with the notices that the core hasn't taken yet.
#[derive(Drop)]
pub(crate) struct RampPlaying {
    pub lane: RampLane<MemDevice>,
    pub notices: NoticeList,
    // The sink has stopped.
    pub stopped: bool,
}

/// What a device has consumed in a turn: `frames` frames, and their bytes; and the filled count of a sink that the turn stopped.
#[derive(Drop)]
pub(crate) struct Sound {
    pub frames: u32,
    pub bytes: Played,
    pub stopped: Option<u64>,
}

// A turn with a counter of the samples that it touches, dropped after it.
fn counted<T: Ledger>(
    blank: Blank,
    alloc: Global,
    lane: &mut RampLane<MemDevice>,
    messages: &mut MsgList,
    notices: &mut NoticeList,
    blocks: &mut Spares,
) -> Result<Turned, LaneFault>
    requires name { blank.name ≡ T.name }
    requires parts { blank.parts ≡ T.parts }
    requires some { 0 < T.parts }
    requires messages { IsOrderly Plain.spec lane.old.ramped.sink.spec (specs_of lane.old.ramped.sink.inputs) messages.old.messages }
    requires attached { IsFalse lane.old.ramped.sink.stopped → IsAttached (state_of lane.old.device) lane.old.ramped.sink }
    ensures ok { IfOk result (RampTurns state_of lane.old lane.new messages.old.messages notices.old.notices notices.new.notices) }
    ensures worn { MatchResult result (λ turned. lane.old.ramped.sink.filled ≤ 2 ^ 60) (Refuses lane.old.ramped.sink.filled) }
{
    let mut steps = Steps::<T>::new(Key::new(), blank);
    lane.turn(alloc, messages, notices, blocks, &mut steps)
}

// `n` in 32 bits.
fn in_32_bits(n: u64) -> u32
    requires { n < 2 ^ 32 }
    ensures { result ≡ n }
{
    n as u32
}

impl RampPlaying {
    /// A mixer that has mixed nothing, over a device that has played nothing, for ramps over `ramp` frames.
    pub fn new(alloc: Global, sink: &SinkSpec, ramp: u32) -> Mem<RampPlaying>
        requires sink { (earlier : List Spec) × IsSink earlier sink.now }
        requires ramp { 1 ≤ ramp }
        ensures mixer { IfOk result (λ p. ramped_mixer_of p ≡ new_ramped_mixer ramp sink.now) }
        ensures playing { IfOk result IsPlaying }
    {
        let device = MemDevice::new(alloc, &shape_of(sink))?;
        Ok(RampPlaying {
            lane: RampLane::new(alloc, sink, ramp, device)?,
            notices: NoticeList::new(alloc),
            stopped: false,
        })
    }

    /// Runs one turn, whose device consumes `frames` frames unless it fails, and which takes `messages`.
    pub fn turn(
        &mut self,
        alloc: Global,
        frames: u64,
        messages: &mut MsgList,
        blocks: &mut Spares,
    ) -> Mem<Sound>
        requires consistent { IsConsistentSink self.old.lane.ramped.sink }
        requires playing { IsPlaying self.old }
        requires there { frames ≤ self.old.lane.ramped.sink.filled - self.old.lane.ramped.sink.consumed }
        requires countable { self.old.lane.ramped.sink.filled ≤ 2 ^ 60 }
        requires messages { IsOrderly Plain.spec self.old.lane.ramped.sink.spec (specs_of self.old.lane.ramped.sink.inputs) messages.old.messages }
        ensures mixer { OnOk result (ramped_mixer_of self.new ≡ ramped_turned (ramped_mixer_of self.old) frames messages.old.messages) }
        ensures playing { OnOk result (IsPlaying self.new) }
        ensures frames { IfOk result (λ sound. sound.frames ≡ length (played_of (Some (plain_mixer_of self.old)) frames)) }
        ensures bytes { IfOk result (λ sound. sound.bytes ≡ concat (played_of (Some (plain_mixer_of self.old)) frames)) }
        ensures stopped { IfOk result (λ sound. sound.stopped ≡ stopped_of (Some (plain_mixer_of self.old)) messages.old.messages) }
    {
        self.lane.device_mut().arm(in_32_bits(frames))?;
        let Ok(turned) = counted::<Brand>(
            Blank::new(1),
            alloc,
            &mut self.lane,
            messages,
            &mut self.notices,
            blocks,
        ) else {
            return Err(NoMemory);
        };
        let bytes = self.lane.device_mut().take_played(alloc)?;
        match turned {
            Turned::Played { frames, .. } => Ok(Sound {
                frames,
                bytes,
                stopped: None,
            }),
            Turned::Stopped { .. } => Ok(Sound {
                frames: 0,
                bytes: silence(alloc),
                stopped: self.halt(),
            }),
        }
    }

    // Notes that the sink has stopped: its filled count, where that is new.
    fn halt(&mut self) -> Option<u64>
        ensures value { result ≡ cond self.old.stopped None (Some self.old.lane.ramped.sink.filled) }
        ensures after { self.new ≡ record self.old { stopped = true } }
    {
        if self.stopped {
            return None;
        }
        self.stopped = true;
        Some(self.lane.filled())
    }

    /// Makes the device fail at the next turn.
    pub fn stop(&mut self)
        ensures sink { self.new.lane.ramped ≡ self.old.lane.ramped }
        ensures mixer { ramped_mixer_of self.new ≡ ramped_to_fail (ramped_mixer_of self.old) }
        ensures playing { IsPlaying self.old → IsPlaying self.new }
    {
        self.lane.device_mut().stop_next();
    }
}
