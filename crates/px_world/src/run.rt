//! Dispatches an event of a session over the parts of the world.

ghost use Rattle.std.specs.Prelude.{◌≡◌, map};
ghost use Rattle.std.specs.List.{AllByRecursion};
ghost use Rattle.px_frame.specs.Frame.{IsBody};
ghost use Rattle.px_frame.specs.Spelling.{spelling_of};
ghost use Rattle.px_session.specs.declared.event.Event.TheVariants.{Bytes};
ghost use Rattle.px_world.specs.World.{World};
ghost use Rattle.px_world.specs.Running.{StandsFor};
ghost use Rattle.px_world.specs.Playing.{mixer_of, IsPlaying};
ghost use Rattle.px_world.specs.Consistency.{AreConsistent};
ghost use Rattle.px_world.specs.Parts.{IsSilent, running_of, Answered, IsRefused, Runs};

use crate::connections::{bytes, close, connect, cut, frame};
use crate::doors::Doors;
use crate::playing::Playing;
use crate::sinks::{collect, silence, stop, turn};
use crate::spares::Spares;
use crate::stepping::WorldCore;
use crate::{Outcome, WorldFault};
use px_core::Effects;
use px_frame::Frame;
use px_session::Event;
use px_types::ConnId;
use std::alloc::Global;

/// The outcome of an event of a connection, which plays nothing and stops no sink. Takes no memory.
pub fn silent(alloc: Global, done: Result<Effects, WorldFault>) -> Result<Outcome, WorldFault>
    ensures { IsSilent done result }
{
    match done {
        Ok(effects) => Ok(Outcome {
            effects,
            played: silence(alloc),
            frames: 0,
            stopped: None,
        }),
        Err(fault) => Err(fault),
    }
}

/// A frame arrives from a client, as its spelling would.
pub(crate) fn run_frame(
    core: &mut WorldCore,
    doors: &mut Doors,
    mixers: &[Playing],
    spares: &mut Spares,
    alloc: Global,
    conn: ConnId,
    arrived: Frame,
) -> Result<Outcome, WorldFault>
    requires body { IsBody arrived.body }
    requires consistent { AreConsistent core.old.state (map mixer_of mixers.now) }
    ensures done { (w : World) → StandsFor (running_of core.old.state doors.old.entries mixers.now) w
        → Answered result (Runs (running_of core.new.state doors.new.entries mixers.now) w (Bytes conn (spelling_of arrived.body))) (IsRefused w (Bytes conn (spelling_of arrived.body))) }
    ensures rests { Answered result (λ _. Unit {0}) (λ _. (running_of core.new.state doors.new.entries mixers.now) ≡ (running_of core.old.state doors.old.entries mixers.now)) }
    ensures consistent { Answered result (λ _. AreConsistent core.new.state (map mixer_of mixers.now)) (λ _. AreConsistent core.new.state (map mixer_of mixers.now)) }
{
    silent(alloc, frame(core, doors, alloc, conn, arrived, spares))
}

/// Does one event.
pub(crate) fn run(
    core: &mut WorldCore,
    doors: &mut Doors,
    mixers: &mut Vec<Playing>,
    spares: &mut Spares,
    alloc: Global,
    e: Event,
) -> Result<Outcome, WorldFault>
    requires consistent { AreConsistent core.old.state (map mixer_of mixers.old.items) }
    requires playing { AllByRecursion IsPlaying mixers.old.items }
    ensures done { (w : World) → StandsFor (running_of core.old.state doors.old.entries mixers.old.items) w
        → Answered result (Runs (running_of core.new.state doors.new.entries mixers.new.items) w e) (IsRefused w e) }
    ensures rests { Answered result (λ _. Unit {0}) (λ _. (running_of core.new.state doors.new.entries mixers.new.items) ≡ (running_of core.old.state doors.old.entries mixers.old.items)) }
    ensures consistent { Answered result (λ _. AreConsistent core.new.state (map mixer_of mixers.new.items)) (λ _. AreConsistent core.new.state (map mixer_of mixers.new.items)) }
    ensures playing { Answered result (λ _. AllByRecursion IsPlaying mixers.new.items) (λ _. AllByRecursion IsPlaying mixers.new.items) }
{
    match e {
        Event::Connect(conn) => silent(alloc, connect(core, doors, alloc, conn)),
        Event::Bytes(conn, text) => silent(alloc, bytes(core, doors, alloc, conn, text, spares)),
        Event::Close(conn) => silent(alloc, close(core, doors, alloc, conn)),
        Event::Cut(conn) => silent(alloc, cut(core, doors, alloc, conn)),
        Event::Turn { sink, frames, take } => turn(core, mixers, alloc, sink, frames, take, spares),
        Event::Collect { sink, take } => collect(core, mixers, alloc, sink, take),
        Event::Stop(sink) => stop(core, mixers, alloc, sink),
    }
}
