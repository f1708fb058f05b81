//! What the events of a sink do to the core and to the sink's ramped mixer.

ghost use Rattle.std.specs.Prelude.{◌≡◌, ◌<◌, ◌≤◌, ◌-◌, ◌^◌, [], ◌∷◌, ◌++◌, map, take, length, replicate, IfOk, OnOk, Some};
ghost use Rattle.std.specs.List.{concat, slice_get, AllByRecursion};
ghost use Rattle.px_session.specs.declared.event.Event.TheVariants.{Turn, Collect, Stop};
ghost use Rattle.px_model.specs.Stream.{Stream as Plain};
ghost use Rattle.px_model.specs.Sink.{IsSink as IsConsistentSink};
ghost use Rattle.px_model.specs.Turn.{AreFor};
ghost use Rattle.px_msg.specs.View.{message_of};
ghost use Rattle.px_state.specs.State.{State};
ghost use Rattle.px_state.specs.Out.{waiting_for};
ghost use Rattle.px_core.specs.Step.{Step, stepped_by, effects_by};
ghost use Rattle.px_world.specs.Admission.{turn_refusal};
ghost use Rattle.px_world.specs.Event.{played_of, stopped_of};
ghost use Rattle.px_world.specs.Consistency.{AreConsistent};
ghost use Rattle.px_world.specs.Parts.{Answered, IsRefused};
ghost use Rattle.px_ramp_world.specs.World.{RampWorld, plain_of};
ghost use Rattle.px_ramp_world.specs.Event.{change_ramped, ramped_turned, ramped_to_fail};
ghost use Rattle.px_ramp_world.specs.Playing.{ramped_mixer_of, plain_mixer_of, IsPlaying};
ghost use Rattle.px_ramp_world.specs.Parts.{Plays};

use crate::playing::RampPlaying;
use px_core::Effects;
use px_lane::MsgList;
use px_types::limits::MAX_INDEX;
use px_types::{Mem, SinkId};
use px_world::parts::{WorldCore, collect_from, silence, swept, take_messages};
use px_world::{Outcome, Spares, WorldFault};
use std::alloc::Global;

/// The core takes the first `count` notices of a sink.
pub(crate) fn collect(
    core: &mut WorldCore,
    mixers: &mut [RampPlaying],
    alloc: Global,
    sink: u8,
    count: u64,
) -> Result<Outcome, WorldFault>
    requires consistent { AreConsistent core.old.state (map plain_mixer_of mixers.old) }
    requires playing { AllByRecursion IsPlaying mixers.old }
    ensures done { (w : RampWorld) → w.core ≡ core.old.state → w.mixers ≡ map ramped_mixer_of mixers.old
        → Answered result (Plays core.old.state core.new.state (map ramped_mixer_of mixers.new) w (Collect sink count)) (IsRefused (plain_of w) (Collect sink count)) }
    ensures still { Answered result (λ _. Unit {0}) (λ _. (core.new.state ≡ core.old.state) × (map ramped_mixer_of mixers.new ≡ map ramped_mixer_of mixers.old)) }
    ensures consistent { Answered result (λ _. AreConsistent core.new.state (map plain_mixer_of mixers.new)) (λ _. AreConsistent core.new.state (map plain_mixer_of mixers.new)) }
    ensures playing { Answered result (λ _. AllByRecursion IsPlaying mixers.new) (λ _. AllByRecursion IsPlaying mixers.new) }
{
    let place = sink as usize;
    if mixers.len() <= place {
        return Err(WorldFault::NoSink);
    }
    let there = mixers[place].notices.len();
    if (there as u64) < count {
        return Err(WorldFault::TooMany {
            asked: count,
            there: there as u64,
        });
    }
    let effects = collect_from(core, &mut mixers[place].notices, alloc, SinkId(sink), count)?;
    Ok(Outcome {
        effects,
        played: silence(alloc),
        frames: 0,
        stopped: None,
    })
}

/// Makes the device of the mixer at `place` fail at its next turn; a sink that is stopped already doesn't change. Takes no memory.
pub(crate) fn stop_at(mixers: &mut [RampPlaying], place: usize)
    requires { place < length mixers.old }
    ensures after { map ramped_mixer_of mixers.new ≡ change_ramped (map ramped_mixer_of mixers.old) place (slice_get (map ramped_mixer_of mixers.old) place) ramped_to_fail }
    ensures consistent { (core : State Plain) → AreConsistent core (map plain_mixer_of mixers.old) → AreConsistent core (map plain_mixer_of mixers.new) }
    ensures playing { AllByRecursion IsPlaying mixers.old → AllByRecursion IsPlaying mixers.new }
{
    mixers[place].stop();
}

/// A sink's device is made to fail at its next turn.
pub(crate) fn stop(
    core: &mut WorldCore,
    mixers: &mut [RampPlaying],
    alloc: Global,
    sink: SinkId,
) -> Result<Outcome, WorldFault>
    requires consistent { AreConsistent core.old.state (map plain_mixer_of mixers.old) }
    requires playing { AllByRecursion IsPlaying mixers.old }
    ensures done { (w : RampWorld) → w.core ≡ core.old.state → w.mixers ≡ map ramped_mixer_of mixers.old
        → Answered result (Plays core.old.state core.new.state (map ramped_mixer_of mixers.new) w (Stop sink)) (IsRefused (plain_of w) (Stop sink)) }
    ensures still { Answered result (λ _. Unit {0}) (λ _. (core.new.state ≡ core.old.state) × (map ramped_mixer_of mixers.new ≡ map ramped_mixer_of mixers.old)) }
    ensures consistent { Answered result (λ _. AreConsistent core.new.state (map plain_mixer_of mixers.new)) (λ _. AreConsistent core.new.state (map plain_mixer_of mixers.new)) }
    ensures playing { Answered result (λ _. AllByRecursion IsPlaying mixers.new) (λ _. AllByRecursion IsPlaying mixers.new) }
{
    let place = sink.0 as usize;
    if mixers.len() <= place {
        return Err(WorldFault::NoSink);
    }
    stop_at(mixers, place);
    let none = Effects::new(alloc);
    let effects = swept(core, none)?;
    Ok(Outcome {
        effects,
        played: silence(alloc),
        frames: 0,
        stopped: None,
    })
}

// Why a mixer refuses a turn with `count` of the `waiting` messages, if it does.
#[tactic(auto, using(px_world::proofs::Sounding::turn_worn, px_world::proofs::Sounding::turn_dry, px_world::proofs::Sounding::turn_short, px_world::proofs::Sounding::turn_goes))]
fn turn_fault(playing: &RampPlaying, frames: u64, count: u64, waiting: u64) -> Option<WorldFault>
    ensures { result ≡ turn_refusal (Some (plain_mixer_of playing.now)) frames count waiting }
{
    let filled = playing.lane.filled();
    if filled > MAX_INDEX {
        return Some(WorldFault::Worn);
    }
    let there = filled.saturating_sub(playing.lane.consumed());
    if there < frames {
        return Some(WorldFault::TooMany {
            asked: frames,
            there,
        });
    }
    if waiting < count {
        return Some(WorldFault::TooMany {
            asked: count,
            there: waiting,
        });
    }
    None
}

// A turn of a mixer, with the first `count` messages that wait for its sink.
fn turn_of(
    core: &mut WorldCore,
    playing: &mut RampPlaying,
    alloc: Global,
    sink: SinkId,
    frames: u64,
    count: u64,
    spares: &mut Spares,
) -> Mem<Outcome>
    requires consistent { IsConsistentSink playing.old.lane.ramped.sink }
    requires playing { IsPlaying playing.old }
    requires there { frames ≤ playing.old.lane.ramped.sink.filled - playing.old.lane.ramped.sink.consumed }
    requires countable { playing.old.lane.ramped.sink.filled ≤ 2 ^ 60 }
    requires few { count ≤ length (waiting_for core.old.state sink) }
    requires messages { AreFor playing.old.lane.ramped.sink (map (message_of (λ p. p)) (take count (waiting_for core.old.state sink))) }
    ensures core { OnOk result (core.new.state ≡ stepped_by Plain.spec core.old.state (replicate count (Step.out sink) ++ Step.sweep ∷ [])) }
    ensures effects { IfOk result (λ outcome. outcome.effects ≡ effects_by Plain.spec core.old.state (replicate count (Step.out sink) ++ Step.sweep ∷ [])) }
    ensures mixer { OnOk result (ramped_mixer_of playing.new ≡ ramped_turned (ramped_mixer_of playing.old) frames (map (message_of (λ p. p)) (take count (waiting_for core.old.state sink)))) }
    ensures playing { OnOk result (IsPlaying playing.new) }
    ensures frames { IfOk result (λ outcome. outcome.frames ≡ length (played_of (Some (plain_mixer_of playing.old)) frames)) }
    ensures played { IfOk result (λ outcome. outcome.played ≡ concat (played_of (Some (plain_mixer_of playing.old)) frames)) }
    ensures stopped { IfOk result (λ outcome. outcome.stopped ≡ stopped_of (Some (plain_mixer_of playing.old)) (map (message_of (λ p. p)) (take count (waiting_for core.old.state sink)))) }
{
    let mut messages = MsgList::new(alloc);
    take_messages(core, sink, count, &mut messages)?;
    let sound = playing.turn(alloc, frames, &mut messages, spares)?;
    let none = Effects::new(alloc);
    let effects = swept(core, none)?;
    Ok(Outcome {
        effects,
        played: sound.bytes,
        frames: sound.frames,
        stopped: sound.stopped,
    })
}

/// A render cycle of a sink.
pub(crate) fn turn(
    core: &mut WorldCore,
    mixers: &mut [RampPlaying],
    alloc: Global,
    sink: u8,
    frames: u64,
    count: u64,
    spares: &mut Spares,
) -> Result<Outcome, WorldFault>
    requires consistent { AreConsistent core.old.state (map plain_mixer_of mixers.old) }
    requires playing { AllByRecursion IsPlaying mixers.old }
    ensures done { (w : RampWorld) → w.core ≡ core.old.state → w.mixers ≡ map ramped_mixer_of mixers.old
        → Answered result (Plays core.old.state core.new.state (map ramped_mixer_of mixers.new) w (Turn sink frames count)) (IsRefused (plain_of w) (Turn sink frames count)) }
    ensures still { Answered result (λ _. Unit {0}) (λ _. (core.new.state ≡ core.old.state) × (map ramped_mixer_of mixers.new ≡ map ramped_mixer_of mixers.old)) }
    ensures consistent { Answered result (λ _. AreConsistent core.new.state (map plain_mixer_of mixers.new)) (λ _. AreConsistent core.new.state (map plain_mixer_of mixers.new)) }
    ensures playing { Answered result (λ _. AllByRecursion IsPlaying mixers.new) (λ _. AllByRecursion IsPlaying mixers.new) }
{
    let place = sink as usize;
    if mixers.len() <= place {
        return Err(WorldFault::NoSink);
    }
    let waiting = core.outgoing(SinkId(sink));
    match turn_fault(&mixers[place], frames, count, waiting as u64) {
        Some(fault) => Err(fault),
        None => {
            let outcome = turn_of(
                core,
                &mut mixers[place],
                alloc,
                SinkId(sink),
                frames,
                count,
                spares,
            )?;
            Ok(outcome)
        }
    }
}
