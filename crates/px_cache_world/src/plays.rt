//! What the server does on its own connection, and what it sends to clients.

ghost use Rattle.std.specs.Prelude.{◌≡◌, ◌≢◌, ℕ, [], ◌∷◌, ◌++◌, IfOk, OnOk};
ghost use Rattle.px_types.specs.declared.limits.TheConstants.{CONTROL_CHANNEL};
ghost use Rattle.px_frame.specs.Frame.{IsBody};
ghost use Rattle.px_frame.specs.Spelling.{spelling_of};
ghost use Rattle.px_session.specs.declared.event.Event.TheVariants.{Bytes};
ghost use Rattle.px_state.specs.Effect.{sending};
ghost use Rattle.px_world.specs.World.{World as SpecWorld};
ghost use Rattle.px_world.specs.Event.{world_after, effects_after};
ghost use Rattle.px_world.specs.Output.{world_by};
ghost use Rattle.px_world.specs.Running.{StandsFor as WorldStands};
ghost use Rattle.px_sieve.specs.Scene.{shifted, inner, shown_by};
ghost use Rattle.px_scache.specs.Play.{IsPlay, delete_frame};
ghost use Rattle.px_cache_world.specs.declared.answered.Created.TheVariants.{Made};
ghost use Rattle.px_cache_world.specs.Course.{with_play};
ghost use Rattle.px_cache_world.specs.Own.{HIDDEN};
ghost use Rattle.px_cache_world.specs.Answered.{NO_STREAM, play_reply, HasStream};
ghost use Rattle.px_cache_world.specs.Sampler.{own, created, filling, play_items};

use crate::answered::{Created, NO_STREAM, created_by, play_reply};
use crate::course::Course;
use crate::own::hidden;
use px_frame::Frame;
use px_scache::{Play, drain};
use px_session::Event;
use px_sieve::{Shift, shifted};
use px_state::{Effect, Effects};
use px_types::limits::MAX_PAYLOAD;
use px_types::{ConnId, Mem, NoMemory, Text};
use px_world::World;
use std::alloc::Global;

/// The world gets bytes of a connection.
pub(crate) fn give(
    world: &mut World,
    alloc: Global,
    conn: ConnId,
    bytes: Text,
    shift: Shift,
) -> Mem<Effects>
    ensures effects { IfOk result (λ effects. (w : SpecWorld) → WorldStands world.old w → effects ≡ shifted shift (effects_after w (Bytes conn bytes))) }
    ensures after { OnOk result ((w : SpecWorld) → WorldStands world.old w → WorldStands world.new (world_after w (Bytes conn bytes))) }
{
    match world.event(alloc, Event::Bytes(conn, bytes)) {
        Ok(outcome) => {
            let shown = shifted(alloc, shift, outcome.effects)?;
            Ok(shown)
        }
        Err(_) => Err(NoMemory),
    }
}

/// The world gets a frame of a connection.
pub(crate) fn give_frame(
    world: &mut World,
    alloc: Global,
    conn: ConnId,
    frame: Frame,
    shift: Shift,
) -> Mem<Effects>
    requires { IsBody frame.body }
    ensures effects { IfOk result (λ effects. (w : SpecWorld) → WorldStands world.old w → effects ≡ shifted shift (effects_after w (Bytes conn (spelling_of frame.body)))) }
    ensures after { OnOk result ((w : SpecWorld) → WorldStands world.old w → WorldStands world.new (world_after w (Bytes conn (spelling_of frame.body)))) }
{
    match world.frame(alloc, conn, frame) {
        Ok(outcome) => {
            let shown = shifted(alloc, shift, outcome.effects)?;
            Ok(shown)
        }
        Err(_) => Err(NoMemory),
    }
}

/// Sends a packet, where a frame can carry it.
pub(crate) fn reply(alloc: Global, conn: ConnId, packet: &[u8]) -> Mem<Effects>
    ensures { IfOk result (λ effects. effects ≡ sending conn packet.now) }
{
    if packet.is_empty() || packet.len() > MAX_PAYLOAD as usize {
        return Ok(Effects::new(alloc));
    }
    let effect = Effect::packet(alloc, conn, packet)?;
    let effects = Effects::of(alloc, effect)?;
    Ok(effects)
}

/// The world gets a frame of the server's own connection.
pub(crate) fn give_own(world: &mut World, alloc: Global, frame: Text) -> Mem<Effects>
    ensures effects { IfOk result (λ effects. (w : SpecWorld) → WorldStands world.old w → effects ≡ effects_after w (Bytes HIDDEN frame)) }
    ensures after { OnOk result ((w : SpecWorld) → WorldStands world.old w → WorldStands world.new (world_after w (Bytes HIDDEN frame))) }
{
    match world.event(alloc, Event::Bytes(hidden(), frame)) {
        Ok(outcome) => Ok(outcome.effects),
        Err(_) => Err(NoMemory),
    }
}

// The sample and a DRAIN.
fn fill(world: &mut World, alloc: Global, p: &Play, stream: u32) -> Mem<Effects>
    requires lawful { IsPlay p.now }
    requires channel { stream ≢ CONTROL_CHANNEL }
    ensures effects { IfOk result (λ effects. (w : SpecWorld) (input : ℕ) → WorldStands world.old w → effects ≡ shown_by w (filling p.now (Made stream input))) }
    ensures after { OnOk result ((w : SpecWorld) (input : ℕ) → WorldStands world.old w → WorldStands world.new (world_by w (inner (filling p.now (Made stream input))))) }
{
    let data = p.data(alloc, stream)?;
    let mut effects = give_own(world, alloc, data)?;
    let drain = drain(alloc, stream, stream)?;
    let more = give_own(world, alloc, drain)?;
    effects.append(more)?;
    Ok(effects)
}

// The sample and a DRAIN, where there is a stream, and then the play is under way.
fn follow(
    world: &mut World,
    course: &mut Course,
    alloc: Global,
    p: &Play,
    created: Created,
) -> Mem<Effects>
    requires lawful { IsPlay p.now }
    requires stream { HasStream created }
    ensures effects { IfOk result (λ effects. (w : SpecWorld) → WorldStands world.old w → effects ≡ shown_by w (filling p.now created)) }
    ensures after { OnOk result ((w : SpecWorld) → WorldStands world.old w → WorldStands world.new (world_by w (inner (filling p.now created)))) }
    ensures course { OnOk result (course.new ≡ with_play created course.old) }
{
    match created {
        Created::Made { stream, input: _ } => {
            let effects = fill(world, alloc, p, stream)?;
            course.begin(stream)?;
            Ok(effects)
        }
        Created::Refused(_) | Created::Unanswered => Ok(Effects::new(alloc)),
    }
}

/// A play that a client has asked for by a PLAY_SAMPLE with a tag.
pub(crate) fn play(
    world: &mut World,
    course: &mut Course,
    alloc: Global,
    conn: ConnId,
    tag: u32,
    p: &Play,
) -> Mem<Effects>
    requires { IsPlay p.now }
    ensures effects { IfOk result (λ effects. (w : SpecWorld) → WorldStands world.old w → effects ≡ shown_by w (play_items w conn tag p.now)) }
    ensures after { OnOk result ((w : SpecWorld) → WorldStands world.old w → WorldStands world.new (world_by w (inner (play_items w conn tag p.now)))) }
    ensures course { OnOk result ((w : SpecWorld) → WorldStands world.old w → course.new ≡ with_play (created w p.now) course.old) }
{
    let frame = p.create(alloc, NO_STREAM)?;
    let mut effects = give_own(world, alloc, frame)?;
    let created = created_by(effects.as_slice());
    let packet = play_reply(alloc, tag, created)?;
    let answer = reply(alloc, conn, packet.as_slice())?;
    effects.append(answer)?;
    let more = follow(world, course, alloc, p, created)?;
    effects.append(more)?;
    Ok(effects)
}

/// The stream of a play is deleted.
pub(crate) fn delete(world: &mut World, alloc: Global, stream: u32) -> Mem<Effects>
    ensures effects { IfOk result (λ effects. (w : SpecWorld) → WorldStands world.old w → effects ≡ shown_by w (own (delete_frame NO_STREAM stream) ∷ [])) }
    ensures after { OnOk result ((w : SpecWorld) → WorldStands world.old w → WorldStands world.new (world_by w (inner (own (delete_frame NO_STREAM stream) ∷ [])))) }
{
    let frame = px_scache::delete(alloc, NO_STREAM, stream)?;
    let effects = give_own(world, alloc, frame)?;
    Ok(effects)
}
