//! What the events of a connection do to the core and to the doors.

ghost use Rattle.std.specs.Prelude.{◌≡◌, ℕ, List, [], ◌∷◌, ◌++◌, IfOk, IfSome, IsSome, OnOk, None, Ok};
ghost use Rattle.std.specs.Option.{option_to_list};
ghost use Rattle.px_frame.specs.Frame.{IsBody};
ghost use Rattle.px_frame.specs.Progress.{Progress, GivesBodies};
ghost use Rattle.px_frame.specs.Spelling.{spelling_of};
ghost use Rattle.px_session.specs.declared.event.Event.TheVariants.{Connect, Bytes, Close, Cut};
ghost use Rattle.px_state.specs.Effect.{IsSendable};
ghost use Rattle.px_world.specs.World.{World, Mixer};
ghost use Rattle.px_model.specs.Stream.{Stream};
ghost use Rattle.px_core.specs.Step.{sweep, stepped_by, effects_by};
ghost use Rattle.px_world.specs.Running.{decoder_of, Open, IsAnswered, steps_given};
ghost use Rattle.px_world.specs.Consistency.{AreConsistent};
ghost use Rattle.px_world.specs.Parts.{Does, Answered, IsRefused};

use crate::WorldFault;
use crate::doors::{Doors, add, drop_of, feed, is_there, pass_over};
use crate::spares::Spares;
use crate::spelling::spelled;
use crate::stepping::{WorldCore, swept, take_given, take_one};
use px_core::{Effect, Effects};
use px_frame::{Body, Frame, FrameError, Frames};
use px_types::{ConnId, Mem, Text};
use std::alloc::Global;

// A client connects whose number isn't live.
fn admit(core: &mut WorldCore, doors: &mut Doors, alloc: Global, conn: ConnId) -> Mem<Effects>
    requires { decoder_of doors.old.entries conn ≡ None }
    ensures done { IfOk result (λ effects. (w : World) → Open doors.old.entries w.links → Does core.old.state core.new.state doors.new.entries w (Connect conn) effects) }
    ensures consistent { OnOk result ((mixers : List Mixer) → AreConsistent core.old.state mixers → AreConsistent core.new.state mixers) }
{
    let first = core.admit(conn)?;
    add(doors, alloc, conn)?;
    let effects = swept(core, first)?;
    Ok(effects)
}

/// A client connects whose number isn't live: `Live` where it is. Takes memory for its decoder; where that runs out, what was under way is lost.
pub fn connect(
    core: &mut WorldCore,
    doors: &mut Doors,
    alloc: Global,
    conn: ConnId,
) -> Result<Effects, WorldFault>
    ensures done { (w : World) → Open doors.old.entries w.links → Answered result (Does core.old.state core.new.state doors.new.entries w (Connect conn)) (IsRefused w (Connect conn)) }
    ensures stays { Answered result (λ _. Unit {0}) (λ _. (core.new.state ≡ core.old.state) × (doors.new.entries ≡ doors.old.entries)) }
    ensures consistent { OnOk result ((mixers : List Mixer) → AreConsistent core.old.state mixers → AreConsistent core.new.state mixers) }
{
    if is_there(doors, conn) {
        return Err(WorldFault::Live);
    }
    Ok(admit(core, doors, alloc, conn)?)
}

// A client's decoder has given frames, or a fault.
fn hear(
    core: &mut WorldCore,
    alloc: Global,
    conn: ConnId,
    given: Result<Frames, FrameError>,
) -> Mem<Effects>
    requires { GivesBodies given }
    ensures answered { OnOk result (IsAnswered given) }
    ensures core { OnOk result (core.new.state ≡ stepped_by Stream.spec core.old.state (steps_given conn given ++ sweep ∷ [])) }
    ensures effects { IfOk result (λ effects. effects ≡ effects_by Stream.spec core.old.state (steps_given conn given ++ sweep ∷ [])) }
    ensures consistent { OnOk result ((mixers : List Mixer) → AreConsistent core.old.state mixers → AreConsistent core.new.state mixers) }
{
    let first = take_given(core, alloc, conn, given)?;
    let effects = swept(core, first)?;
    Ok(effects)
}

// Bytes arrive from client `conn`, if it is live.
fn receive(
    core: &mut WorldCore,
    doors: &mut Doors,
    alloc: Global,
    conn: ConnId,
    bytes: &[u8],
    spares: &mut Spares,
) -> Result<Effects, WorldFault>
    ensures done { (w : World) → Open doors.old.entries w.links → Answered result (Does core.old.state core.new.state doors.new.entries w (Bytes conn bytes.now)) (IsRefused w (Bytes conn bytes.now)) }
    ensures stays { Answered result (λ _. Unit {0}) (λ _. (core.new.state ≡ core.old.state) × (doors.new.entries ≡ doors.old.entries)) }
    ensures consistent { OnOk result ((mixers : List Mixer) → AreConsistent core.old.state mixers → AreConsistent core.new.state mixers) }
{
    match feed(doors, conn, bytes, spares) {
        None => Err(WorldFault::NotLive),
        Some(given) => Ok(hear(core, alloc, conn, given)?),
    }
}

/// Bytes arrive from a client, in whatever pieces: `NotLive` where its number isn't live. Their text is then held as a spare, to be used again. Takes
/// memory for what the frames among them cause; where that runs out, what was under way is lost.
pub fn bytes(
    core: &mut WorldCore,
    doors: &mut Doors,
    alloc: Global,
    conn: ConnId,
    text: Text,
    spares: &mut Spares,
) -> Result<Effects, WorldFault>
    ensures done { (w : World) → Open doors.old.entries w.links → Answered result (Does core.old.state core.new.state doors.new.entries w (Bytes conn text)) (IsRefused w (Bytes conn text)) }
    ensures stays { Answered result (λ _. Unit {0}) (λ _. (core.new.state ≡ core.old.state) × (doors.new.entries ≡ doors.old.entries)) }
    ensures consistent { OnOk result ((mixers : List Mixer) → AreConsistent core.old.state mixers → AreConsistent core.new.state mixers) }
{
    let done = receive(core, doors, alloc, conn, text.as_slice(), spares);
    spares.reclaim_text(text);
    done
}

// A frame was passed over by the decoder of connection `conn`, with the offset `at` of its payload.
fn hear_passed(core: &mut WorldCore, conn: ConnId, at: u64, body: Body) -> Mem<Effects>
    requires { IsBody body }
    ensures core { OnOk result (core.new.state ≡ stepped_by Stream.spec core.old.state (steps_given conn (Ok (record { at = at; body = body } ∷ [])) ++ sweep ∷ [])) }
    ensures effects { IfOk result (λ effects. effects ≡ effects_by Stream.spec core.old.state (steps_given conn (Ok (record { at = at; body = body } ∷ [])) ++ sweep ∷ [])) }
    ensures consistent { OnOk result ((mixers : List Mixer) → AreConsistent core.old.state mixers → AreConsistent core.new.state mixers) }
{
    let first = take_one(core, conn, Frame { at, body })?;
    let effects = swept(core, first)?;
    Ok(effects)
}

/// A frame arrives from a client, as its spelling would: its decoder passes over it where it stands between two frames, and is fed its spelling
/// elsewhere.
pub(crate) fn frame(
    core: &mut WorldCore,
    doors: &mut Doors,
    alloc: Global,
    conn: ConnId,
    frame: Frame,
    spares: &mut Spares,
) -> Result<Effects, WorldFault>
    requires { IsBody frame.body }
    ensures done { (w : World) → Open doors.old.entries w.links → Answered result (Does core.old.state core.new.state doors.new.entries w (Bytes conn (spelling_of frame.body))) (IsRefused w (Bytes conn (spelling_of frame.body))) }
    ensures stays { Answered result (λ _. Unit {0}) (λ _. (core.new.state ≡ core.old.state) × (doors.new.entries ≡ doors.old.entries)) }
    ensures consistent { OnOk result ((mixers : List Mixer) → AreConsistent core.old.state mixers → AreConsistent core.new.state mixers) }
{
    match pass_over(doors, conn, &frame.body) {
        Some(at) => Ok(hear_passed(core, conn, at, frame.body)?),
        None => {
            if !is_there(doors, conn) {
                return Err(WorldFault::NotLive);
            }
            let bytes = spelled(alloc, &frame.body)?;
            receive(core, doors, alloc, conn, bytes.as_slice(), spares)
        }
    }
}

// The client of connection `conn`, which is live, has closed it.
fn leave(core: &mut WorldCore, doors: &mut Doors, alloc: Global, conn: ConnId) -> Mem<Effects>
    requires { IsSome (decoder_of doors.old.entries conn) }
    ensures done { IfOk result (λ effects. (w : World) → Open doors.old.entries w.links → Does core.old.state core.new.state doors.new.entries w (Close conn) effects) }
    ensures consistent { OnOk result ((mixers : List Mixer) → AreConsistent core.old.state mixers → AreConsistent core.new.state mixers) }
{
    core.close(conn);
    drop_of(doors, conn);
    let none = Effects::new(alloc);
    let effects = swept(core, none)?;
    Ok(effects)
}

/// A client has closed its connection: `NotLive` where its number isn't live. Where memory runs out, what was under way is lost.
pub fn close(
    core: &mut WorldCore,
    doors: &mut Doors,
    alloc: Global,
    conn: ConnId,
) -> Result<Effects, WorldFault>
    ensures done { (w : World) → Open doors.old.entries w.links → Answered result (Does core.old.state core.new.state doors.new.entries w (Close conn)) (IsRefused w (Close conn)) }
    ensures stays { Answered result (λ _. Unit {0}) (λ _. (core.new.state ≡ core.old.state) × (doors.new.entries ≡ doors.old.entries)) }
    ensures consistent { OnOk result ((mixers : List Mixer) → AreConsistent core.old.state mixers → AreConsistent core.new.state mixers) }
{
    if !is_there(doors, conn) {
        return Err(WorldFault::NotLive);
    }
    Ok(leave(core, doors, alloc, conn)?)
}

// This effect, or none.
fn of_option(alloc: Global, effect: Option<Effect>) -> Mem<Effects>
    requires { IfSome effect IsSendable }
    ensures { IfOk result (λ effects. effects ≡ option_to_list effect) }
{
    match effect {
        None => Ok(Effects::new(alloc)),
        Some(effect) => Effects::of(alloc, effect),
    }
}

// The server ends connection `conn`, if it is live.
fn cut_off(core: &mut WorldCore, alloc: Global, conn: ConnId) -> Mem<Effects>
    ensures done { IfOk result (λ effects. (doors : List (ℕ × Progress)) (w : World) → IsSome (decoder_of doors conn) → Open doors w.links → Does core.old.state core.new.state doors w (Cut conn) effects) }
    ensures consistent { OnOk result ((mixers : List Mixer) → AreConsistent core.old.state mixers → AreConsistent core.new.state mixers) }
{
    let effect = core.cut(conn);
    let first = of_option(alloc, effect)?;
    let effects = swept(core, first)?;
    Ok(effects)
}

/// The server ends a connection, as memory ran out for its client: `NotLive` where its number isn't live. Where memory runs out here, what was under way is
/// lost.
pub fn cut(
    core: &mut WorldCore,
    doors: &Doors,
    alloc: Global,
    conn: ConnId,
) -> Result<Effects, WorldFault>
    ensures done { (w : World) → Open doors.now.entries w.links → Answered result (Does core.old.state core.new.state doors.now.entries w (Cut conn)) (IsRefused w (Cut conn)) }
    ensures stays { Answered result (λ _. Unit {0}) (λ _. (core.new.state ≡ core.old.state) × (doors.now.entries ≡ doors.now.entries)) }
    ensures consistent { OnOk result ((mixers : List Mixer) → AreConsistent core.old.state mixers → AreConsistent core.new.state mixers) }
{
    if !is_there(doors, conn) {
        return Err(WorldFault::NotLive);
    }
    Ok(cut_off(core, alloc, conn)?)
}
