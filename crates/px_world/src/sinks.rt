//! What the events of a sink do to the core and to the sink's mixer.

ghost use Rattle.std.specs.Prelude.{◌≡◌, ◌<◌, ◌≤◌, ◌-◌, ◌^◌, [], ◌∷◌, ◌++◌, map, take, drop, length, replicate, IfOk, OnOk, Some};
ghost use Rattle.std.specs.List.{concat, slice_get, AllByRecursion};
ghost use Rattle.px_session.specs.declared.event.Event.TheVariants.{Turn, Collect, Stop};
ghost use Rattle.px_model.specs.Stream.{Stream as Plain};
ghost use Rattle.px_model.specs.Sink.{IsSink as IsConsistentSink};
ghost use Rattle.px_model.specs.Turn.{AreFor};
ghost use Rattle.px_msg.specs.View.{message_of, notice_for};
ghost use Rattle.px_state.specs.State.{State};
ghost use Rattle.px_state.specs.Out.{waiting_for};
ghost use Rattle.px_core.specs.Step.{Step, stepped_by, effects_by};
ghost use Rattle.px_world.specs.World.{World};
ghost use Rattle.px_world.specs.Admission.{turn_refusal};
ghost use Rattle.px_world.specs.Event.{change_at, mixer_turned, played_of, set_to_fail, stopped_of};
ghost use Rattle.px_world.specs.Playing.{mixer_of, IsPlaying};
ghost use Rattle.px_world.specs.Consistency.{AreConsistent};
ghost use Rattle.px_world.specs.Parts.{Answered, IsRefused, Plays};

use crate::playing::Playing;
use crate::spares::Spares;
use crate::stepping::{WorldCore, swept, take_messages, take_notices};
use crate::{Outcome, WorldFault};
use px_core::Effects;
use px_ends::Played;
use px_lane::{MsgList, NoticeList};
use px_types::limits::MAX_INDEX;
use px_types::{Mem, SinkId};
use std::alloc::Global;

/// No bytes. Takes no memory.
pub fn silence(alloc: Global) -> Played
    ensures { result ≡ [] }
{
    Played::from_vec(Vec::new(alloc))
}

/// The core takes the first `count` of a mixer's notices, and what has ended is swept away. Without memory the notices that were taken are lost.
pub fn collect_from(
    core: &mut WorldCore,
    notices: &mut NoticeList,
    alloc: Global,
    sink: SinkId,
    count: u64,
) -> Mem<Effects>
    requires { count ≤ length notices.old.notices }
    ensures core { OnOk result (core.new.state ≡ stepped_by Plain.spec core.old.state (map (λ n. Step.notice sink (notice_for n)) (take count notices.old.notices) ++ Step.sweep ∷ [])) }
    ensures effects { IfOk result (λ effects. effects ≡ effects_by Plain.spec core.old.state (map (λ n. Step.notice sink (notice_for n)) (take count notices.old.notices) ++ Step.sweep ∷ [])) }
    ensures notices { OnOk result (notices.new.notices ≡ drop count notices.old.notices) }
{
    let mut first = Effects::new(alloc);
    take_notices(core, sink, count, notices, &mut first)?;
    let effects = swept(core, first)?;
    Ok(effects)
}

/// The core takes the first `count` notices of a sink.
pub(crate) fn collect(
    core: &mut WorldCore,
    mixers: &mut [Playing],
    alloc: Global,
    sink: u8,
    count: u64,
) -> Result<Outcome, WorldFault>
    requires consistent { AreConsistent core.old.state (map mixer_of mixers.old) }
    requires playing { AllByRecursion IsPlaying mixers.old }
    ensures done { (w : World) → w.core ≡ core.old.state → w.mixers ≡ map mixer_of mixers.old
        → Answered result (Plays core.old.state core.new.state (map mixer_of mixers.new) w (Collect sink count)) (IsRefused w (Collect sink count)) }
    ensures still { Answered result (λ _. Unit {0}) (λ _. (core.new.state ≡ core.old.state) × (map mixer_of mixers.new ≡ map mixer_of mixers.old)) }
    ensures consistent { Answered result (λ _. AreConsistent core.new.state (map mixer_of mixers.new)) (λ _. AreConsistent core.new.state (map mixer_of mixers.new)) }
    ensures playing { Answered result (λ _. AllByRecursion IsPlaying mixers.new) (λ _. AllByRecursion IsPlaying mixers.new) }
{
    let place = sink as usize;
    if mixers.len() <= place {
        return Err(WorldFault::NoSink);
    }
    let there = mixers[place].notices.len();
    if (there as u64) < count {
        return Err(WorldFault::TooMany {
            asked: count,
            there: there as u64,
        });
    }
    let effects = collect_from(core, &mut mixers[place].notices, alloc, SinkId(sink), count)?;
    Ok(Outcome {
        effects,
        played: silence(alloc),
        frames: 0,
        stopped: None,
    })
}

/// Makes the device of the mixer at `place` fail at its next turn; a sink that is stopped already doesn't change. Takes no memory.
pub(crate) fn stop_at(mixers: &mut [Playing], place: usize)
    requires { place < length mixers.old }
    ensures after { map mixer_of mixers.new ≡ change_at (map mixer_of mixers.old) place (slice_get (map mixer_of mixers.old) place) set_to_fail }
    ensures consistent { (core : State Plain) → AreConsistent core (map mixer_of mixers.old) → AreConsistent core (map mixer_of mixers.new) }
    ensures playing { AllByRecursion IsPlaying mixers.old → AllByRecursion IsPlaying mixers.new }
{
    mixers[place].stop();
}

/// A sink's device is made to fail at its next turn.
pub(crate) fn stop(
    core: &mut WorldCore,
    mixers: &mut [Playing],
    alloc: Global,
    sink: SinkId,
) -> Result<Outcome, WorldFault>
    requires consistent { AreConsistent core.old.state (map mixer_of mixers.old) }
    requires playing { AllByRecursion IsPlaying mixers.old }
    ensures done { (w : World) → w.core ≡ core.old.state → w.mixers ≡ map mixer_of mixers.old
        → Answered result (Plays core.old.state core.new.state (map mixer_of mixers.new) w (Stop sink)) (IsRefused w (Stop sink)) }
    ensures still { Answered result (λ _. Unit {0}) (λ _. (core.new.state ≡ core.old.state) × (map mixer_of mixers.new ≡ map mixer_of mixers.old)) }
    ensures consistent { Answered result (λ _. AreConsistent core.new.state (map mixer_of mixers.new)) (λ _. AreConsistent core.new.state (map mixer_of mixers.new)) }
    ensures playing { Answered result (λ _. AllByRecursion IsPlaying mixers.new) (λ _. AllByRecursion IsPlaying mixers.new) }
{
    let place = sink.0 as usize;
    if mixers.len() <= place {
        return Err(WorldFault::NoSink);
    }
    stop_at(mixers, place);
    let none = Effects::new(alloc);
    let effects = swept(core, none)?;
    Ok(Outcome {
        effects,
        played: silence(alloc),
        frames: 0,
        stopped: None,
    })
}

// Why a mixer refuses a turn with `count` of the `waiting` messages, if it does.
#[tactic(auto, using(crate::proofs::Sounding::turn_worn, crate::proofs::Sounding::turn_dry, crate::proofs::Sounding::turn_short, crate::proofs::Sounding::turn_goes))]
fn turn_fault(playing: &Playing, frames: u64, count: u64, waiting: u64) -> Option<WorldFault>
    ensures { result ≡ turn_refusal (Some (mixer_of playing.now)) frames count waiting }
{
    let filled = playing.lane.filled();
    if filled > MAX_INDEX {
        return Some(WorldFault::Worn);
    }
    let there = filled.saturating_sub(playing.lane.consumed());
    if there < frames {
        return Some(WorldFault::TooMany {
            asked: frames,
            there,
        });
    }
    if waiting < count {
        return Some(WorldFault::TooMany {
            asked: count,
            there: waiting,
        });
    }
    None
}

// A turn of a mixer, with the first `count` messages that wait for its sink.
fn turn_of(
    core: &mut WorldCore,
    playing: &mut Playing,
    alloc: Global,
    sink: SinkId,
    frames: u64,
    count: u64,
    spares: &mut Spares,
) -> Mem<Outcome>
    requires consistent { IsConsistentSink playing.old.lane.sink }
    requires playing { IsPlaying playing.old }
    requires there { frames ≤ playing.old.lane.sink.filled - playing.old.lane.sink.consumed }
    requires countable { playing.old.lane.sink.filled ≤ 2 ^ 60 }
    requires few { count ≤ length (waiting_for core.old.state sink) }
    requires messages { AreFor playing.old.lane.sink (map (message_of (λ p. p)) (take count (waiting_for core.old.state sink))) }
    ensures core { OnOk result (core.new.state ≡ stepped_by Plain.spec core.old.state (replicate count (Step.out sink) ++ Step.sweep ∷ [])) }
    ensures effects { IfOk result (λ outcome. outcome.effects ≡ effects_by Plain.spec core.old.state (replicate count (Step.out sink) ++ Step.sweep ∷ [])) }
    ensures mixer { OnOk result (mixer_of playing.new ≡ mixer_turned (mixer_of playing.old) frames (map (message_of (λ p. p)) (take count (waiting_for core.old.state sink)))) }
    ensures playing { OnOk result (IsPlaying playing.new) }
    ensures frames { IfOk result (λ outcome. outcome.frames ≡ length (played_of (Some (mixer_of playing.old)) frames)) }
    ensures played { IfOk result (λ outcome. outcome.played ≡ concat (played_of (Some (mixer_of playing.old)) frames)) }
    ensures stopped { IfOk result (λ outcome. outcome.stopped ≡ stopped_of (Some (mixer_of playing.old)) (map (message_of (λ p. p)) (take count (waiting_for core.old.state sink)))) }
{
    let mut messages = MsgList::new(alloc);
    take_messages(core, sink, count, &mut messages)?;
    let sound = playing.turn(alloc, frames, &mut messages, spares)?;
    let none = Effects::new(alloc);
    let effects = swept(core, none)?;
    Ok(Outcome {
        effects,
        played: sound.bytes,
        frames: sound.frames,
        stopped: sound.stopped,
    })
}

/// A render cycle of a sink.
pub(crate) fn turn(
    core: &mut WorldCore,
    mixers: &mut [Playing],
    alloc: Global,
    sink: u8,
    frames: u64,
    count: u64,
    spares: &mut Spares,
) -> Result<Outcome, WorldFault>
    requires consistent { AreConsistent core.old.state (map mixer_of mixers.old) }
    requires playing { AllByRecursion IsPlaying mixers.old }
    ensures done { (w : World) → w.core ≡ core.old.state → w.mixers ≡ map mixer_of mixers.old
        → Answered result (Plays core.old.state core.new.state (map mixer_of mixers.new) w (Turn sink frames count)) (IsRefused w (Turn sink frames count)) }
    ensures still { Answered result (λ _. Unit {0}) (λ _. (core.new.state ≡ core.old.state) × (map mixer_of mixers.new ≡ map mixer_of mixers.old)) }
    ensures consistent { Answered result (λ _. AreConsistent core.new.state (map mixer_of mixers.new)) (λ _. AreConsistent core.new.state (map mixer_of mixers.new)) }
    ensures playing { Answered result (λ _. AllByRecursion IsPlaying mixers.new) (λ _. AllByRecursion IsPlaying mixers.new) }
{
    let place = sink as usize;
    if mixers.len() <= place {
        return Err(WorldFault::NoSink);
    }
    let waiting = core.outgoing(SinkId(sink));
    match turn_fault(&mixers[place], frames, count, waiting as u64) {
        Some(fault) => Err(fault),
        None => {
            let outcome = turn_of(
                core,
                &mut mixers[place],
                alloc,
                SinkId(sink),
                frames,
                count,
                spares,
            )?;
            Ok(outcome)
        }
    }
}
