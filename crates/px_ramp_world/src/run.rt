//! Dispatches an event of a session over the parts of the world.

ghost use Rattle.std.specs.Prelude.{◌≡◌, map};
ghost use Rattle.std.specs.List.{AllByRecursion};
ghost use Rattle.px_world.specs.Consistency.{AreConsistent};
ghost use Rattle.px_world.specs.Parts.{Answered, IsRefused};
ghost use Rattle.px_ramp_world.specs.World.{RampWorld, plain_of};
ghost use Rattle.px_ramp_world.specs.Running.{StandsFor};
ghost use Rattle.px_ramp_world.specs.Playing.{plain_mixer_of, IsPlaying};
ghost use Rattle.px_ramp_world.specs.Parts.{running_of, Runs};

use crate::playing::RampPlaying;
use crate::sinks::{collect, stop, turn};
use px_session::Event;
use px_world::parts::{Doors, WorldCore, bytes, close, connect, cut, silent};
use px_world::{Outcome, Spares, WorldFault};
use std::alloc::Global;

/// Does one event.
pub(crate) fn run(
    core: &mut WorldCore,
    doors: &mut Doors,
    mixers: &mut Vec<RampPlaying>,
    spares: &mut Spares,
    alloc: Global,
    e: Event,
) -> Result<Outcome, WorldFault>
    requires consistent { AreConsistent core.old.state (map plain_mixer_of mixers.old.items) }
    requires playing { AllByRecursion IsPlaying mixers.old.items }
    ensures done { (w : RampWorld) → StandsFor (running_of core.old.state doors.old.entries mixers.old.items) w
        → Answered result (Runs (running_of core.new.state doors.new.entries mixers.new.items) w e) (IsRefused (plain_of w) e) }
    ensures rests { Answered result (λ _. Unit {0}) (λ _. (running_of core.new.state doors.new.entries mixers.new.items) ≡ (running_of core.old.state doors.old.entries mixers.old.items)) }
    ensures consistent { Answered result (λ _. AreConsistent core.new.state (map plain_mixer_of mixers.new.items)) (λ _. AreConsistent core.new.state (map plain_mixer_of mixers.new.items)) }
    ensures playing { Answered result (λ _. AllByRecursion IsPlaying mixers.new.items) (λ _. AllByRecursion IsPlaying mixers.new.items) }
{
    match e {
        Event::Connect(conn) => silent(alloc, connect(core, doors, alloc, conn)),
        Event::Bytes(conn, text) => silent(alloc, bytes(core, doors, alloc, conn, text, spares)),
        Event::Close(conn) => silent(alloc, close(core, doors, alloc, conn)),
        Event::Cut(conn) => silent(alloc, cut(core, doors, alloc, conn)),
        Event::Turn { sink, frames, take } => turn(core, mixers, alloc, sink, frames, take, spares),
        Event::Collect { sink, take } => collect(core, mixers, alloc, sink, take),
        Event::Stop(sink) => stop(core, mixers, alloc, sink),
    }
}
