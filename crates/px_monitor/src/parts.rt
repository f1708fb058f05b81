//! The parts of a world with monitors, and what they do with the bytes of connections.

ghost use Rattle.std.specs.Prelude.{◌≡◌, [], ◌∷◌, IfOk, OnOk};
ghost use Rattle.px_frame.specs.Frame.{IsBody};
ghost use Rattle.px_frame.specs.Spelling.{spelling_of};
ghost use Rattle.px_session.specs.declared.event.Event.TheVariants.{Bytes};
ghost use Rattle.px_state.specs.Effect.{fault_code, fault_place, sending};
ghost use Rattle.px_world.specs.World.{World as SpecWorld};
ghost use Rattle.px_world.specs.Event.{world_after, effects_after};
ghost use Rattle.px_world.specs.Output.{world_by};
ghost use Rattle.px_world.specs.Running.{StandsFor as WorldStands};
ghost use Rattle.px_sieve.specs.declared.piece.Piece.TheVariants.{Own};
ghost use Rattle.px_sieve.specs.Scene.{inner, shifted, shown_by};
ghost use Rattle.px_sieve.specs.Standing.{IsPossiblePiece, left_in};
ghost use Rattle.px_monitor.specs.Monitor.{Monitor, shift_by, packet_of, zero_length, passed_on, answered_by, answer_items, handled_in, piece_items, running_on, records_seen, seeing, monitor_after, monitor_effects, StandsForMonitor};

use crate::answer::Answer;
use crate::recorded::Recorded;
use crate::skips::{Skip, skip_more, skipped_of};
use px_frame::{Body, Frame};
use px_session::Event;
use px_sieve::{Piece, Shift, Sieve, shifted};
use px_state::{Effect, Effects};
use px_tag::TagFault;
use px_types::limits::{LEAST_PROTOCOL_VERSION, MAX_PAYLOAD};
use px_types::{ConnId, Mem, NoMemory, Text};
use px_world::World;
use std::alloc::Global;

/// The parts of a world with monitors.
#[derive(Drop)]
pub(crate) struct Parts {
    pub world: World,
    pub sieve: Sieve,
    pub skips: Vec<Skip>,
    pub records: Recorded,
}

// The number of a fault in a packet, after the five of frame faults. Takes no memory.
fn fault_code(fault: TagFault) -> u8
    ensures { result ≡ fault_code fault }
{
    match fault {
        TagFault::WrongTag { at: _ } => 6,
        TagFault::Short { at: _ } => 7,
        TagFault::BadValue { at: _ } => 8,
        TagFault::Left { at: _ } => 9,
    }
}

// Its place in the packet. Takes no memory.
fn fault_place(fault: TagFault) -> usize
    ensures { result ≡ fault_place fault }
{
    match fault {
        TagFault::WrongTag { at }
        | TagFault::Short { at }
        | TagFault::BadValue { at }
        | TagFault::Left { at } => at,
    }
}

// How the effects of bytes are shown that follow `skipped` that the world doesn't get. Takes no memory.
fn shift_by(conn: ConnId, skipped: u64) -> Shift
    ensures { result ≡ shift_by conn skipped }
{
    if skipped == 0 {
        return Shift::Unshifted;
    }
    Shift::Moved { conn, skipped }
}

// The packet of a control frame. Takes no memory.
fn packet_of(body: &Body) -> &[u8]
    ensures { result.now ≡ packet_of body.now }
{
    match body {
        Body::Control(packet) => packet.bytes(),
        Body::Write { .. } => &[],
    }
}

// The world gets bytes of a connection.
fn give(world: &mut World, alloc: Global, conn: ConnId, bytes: Text, shift: Shift) -> Mem<Effects>
    ensures effects { IfOk result (λ effects. (w : SpecWorld) → WorldStands world.old w → effects ≡ shifted shift (effects_after w (Bytes conn bytes))) }
    ensures after { OnOk result ((w : SpecWorld) → WorldStands world.old w → WorldStands world.new (world_after w (Bytes conn bytes))) }
{
    match world.event(alloc, Event::Bytes(conn, bytes)) {
        Ok(outcome) => {
            let shown = shifted(alloc, shift, outcome.effects)?;
            Ok(shown)
        }
        Err(_) => Err(NoMemory),
    }
}

// The world gets a frame of a connection.
fn give_frame(
    world: &mut World,
    alloc: Global,
    conn: ConnId,
    frame: Frame,
    shift: Shift,
) -> Mem<Effects>
    requires { IsBody frame.body }
    ensures effects { IfOk result (λ effects. (w : SpecWorld) → WorldStands world.old w → effects ≡ shifted shift (effects_after w (Bytes conn (spelling_of frame.body)))) }
    ensures after { OnOk result ((w : SpecWorld) → WorldStands world.old w → WorldStands world.new (world_after w (Bytes conn (spelling_of frame.body)))) }
{
    match world.frame(alloc, conn, frame) {
        Ok(outcome) => {
            let shown = shifted(alloc, shift, outcome.effects)?;
            Ok(shown)
        }
        Err(_) => Err(NoMemory),
    }
}

// Sends a packet, where a frame can carry it.
fn reply(alloc: Global, conn: ConnId, packet: &[u8]) -> Mem<Effects>
    ensures { IfOk result (λ effects. effects ≡ sending conn packet.now) }
{
    if packet.is_empty() || packet.len() > MAX_PAYLOAD as usize {
        return Ok(Effects::new(alloc));
    }
    let effect = Effect::packet(alloc, conn, packet)?;
    let effects = Effects::of(alloc, effect)?;
    Ok(effects)
}

// The bytes of a frame of length 0.
fn zero_length(alloc: Global) -> Mem<Text>
    ensures { IfOk result (λ bytes. bytes ≡ zero_length) }
{
    let bytes = Vec::from_slice(alloc, &[0; 20])?;
    Ok(Text::from_vec(bytes))
}

// A command of the mode's own is answered. A fault in its fields ends the connection.
fn answer(
    world: &mut World,
    records: &mut Recorded,
    alloc: Global,
    conn: ConnId,
    at: u64,
    packet: &[u8],
) -> Mem<Effects>
    ensures effects { IfOk result (λ effects. (m : Monitor) → WorldStands world.old m.world → records.old ≡ m.records
        → effects ≡ shown_by m.world (answer_items conn at (answered_by m conn packet.now).1)) }
    ensures after { OnOk result ((m : Monitor) → WorldStands world.old m.world → records.old ≡ m.records
        → WorldStands world.new (world_by m.world (inner (answer_items conn at (answered_by m conn packet.now).1)))) }
    ensures records { OnOk result ((m : Monitor) → WorldStands world.old m.world → records.old ≡ m.records
        → records.new ≡ (answered_by m conn packet.now).0) }
{
    let version = world.version_of(conn).unwrap_or(LEAST_PROTOCOL_VERSION);
    match records.answer(alloc, version, conn, packet)? {
        Answer::Packet(given) => {
            let effects = reply(alloc, conn, given.as_slice())?;
            Ok(effects)
        }
        Answer::Fault(fault) => {
            let zero = zero_length(alloc)?;
            let shift = Shift::Faulted {
                conn,
                fault: fault_code(fault),
                at: at.saturating_add(fault_place(fault) as u64),
            };
            let effects = give(world, alloc, conn, zero, shift)?;
            Ok(effects)
        }
    }
}

// Bytes are passed on to the world.
fn pass_on(parts: &mut Parts, alloc: Global, conn: ConnId, bytes: Text) -> Mem<Effects>
    ensures effects { IfOk result (λ effects. (m : Monitor) → StandsForMonitor parts.old m → effects ≡ shown_by m.world (passed_on m conn bytes ∷ [])) }
    ensures after { OnOk result ((m : Monitor) → StandsForMonitor parts.old m → StandsForMonitor parts.new (running_on m (passed_on m conn bytes ∷ []))) }
    ensures sieve { parts.new.sieve ≡ parts.old.sieve }
{
    let shift = shift_by(conn, skipped_of(parts.skips.as_slice(), conn));
    let effects = give(&mut parts.world, alloc, conn, bytes, shift)?;
    Ok(effects)
}

// A frame is passed on to the world.
fn pass_frame(parts: &mut Parts, alloc: Global, conn: ConnId, frame: Frame) -> Mem<Effects>
    requires { IsBody frame.body }
    ensures effects { IfOk result (λ effects. (m : Monitor) → StandsForMonitor parts.old m → effects ≡ shown_by m.world (passed_on m conn (spelling_of frame.body) ∷ [])) }
    ensures after { OnOk result ((m : Monitor) → StandsForMonitor parts.old m → StandsForMonitor parts.new (running_on m (passed_on m conn (spelling_of frame.body) ∷ []))) }
    ensures sieve { parts.new.sieve ≡ parts.old.sieve }
{
    let shift = shift_by(conn, skipped_of(parts.skips.as_slice(), conn));
    let effects = give_frame(&mut parts.world, alloc, conn, frame, shift)?;
    Ok(effects)
}

// A command of the mode's own is handled.
fn handle(parts: &mut Parts, alloc: Global, conn: ConnId, frame: &Frame) -> Mem<Effects>
    ensures effects { IfOk result (λ effects. (m : Monitor) → StandsForMonitor parts.old m → effects ≡ shown_by m.world (piece_items m conn (Own frame.now))) }
    ensures after { OnOk result ((m : Monitor) → StandsForMonitor parts.old m
        → StandsForMonitor parts.new (running_on (handled_in m conn (Own frame.now)) (piece_items m conn (Own frame.now)))) }
    ensures sieve { parts.new.sieve ≡ parts.old.sieve }
{
    let packet = packet_of(&frame.body);
    let effects = answer(
        &mut parts.world,
        &mut parts.records,
        alloc,
        conn,
        frame.at,
        packet,
    )?;
    skip_more(
        &mut parts.skips,
        conn,
        (packet.len() as u64).saturating_add(20),
    )?;
    Ok(effects)
}

// What becomes of a piece.
fn make(parts: &mut Parts, alloc: Global, conn: ConnId, piece: Piece) -> Mem<Effects>
    requires { IsPossiblePiece piece }
    ensures effects { IfOk result (λ effects. (m : Monitor) → StandsForMonitor parts.old m → effects ≡ shown_by m.world (piece_items m conn piece)) }
    ensures after { OnOk result ((m : Monitor) → StandsForMonitor parts.old m
        → StandsForMonitor parts.new (running_on (handled_in m conn piece) (piece_items m conn piece))) }
    ensures sieve { parts.new.sieve ≡ parts.old.sieve }
{
    match piece {
        Piece::Pass(frame) => {
            let effects = pass_frame(parts, alloc, conn, frame)?;
            Ok(effects)
        }
        Piece::Write(frame) => {
            let effects = pass_frame(parts, alloc, conn, frame)?;
            Ok(effects)
        }
        Piece::Broken(bytes) => {
            let effects = pass_on(parts, alloc, conn, bytes)?;
            Ok(effects)
        }
        Piece::Own(frame) => {
            let effects = handle(parts, alloc, conn, &frame)?;
            Ok(effects)
        }
    }
}

// A connection that the server ends loses its record streams.
fn drop_closed(records: &mut Recorded, effects: &[Effect])
    ensures { records.new ≡ records_seen effects.now records.old }
{
    for effect in effects {
        if let Effect::Closed { conn, .. } = effect {
            records.forget(*conn);
        }
    }
}

/// Effects are seen.
pub(crate) fn see(parts: &mut Parts, effects: &Effects)
    ensures after { (m : Monitor) → StandsForMonitor parts.old m → StandsForMonitor parts.new (seeing effects.now m) }
    ensures left { left_in parts.new.sieve.lines ≡ left_in parts.old.sieve.lines }
{
    parts.sieve.seen(effects);
    drop_closed(&mut parts.records, effects.as_slice());
}

/// Bytes of a connection arrive: its frames are handled one after the other.
pub(crate) fn hear(parts: &mut Parts, alloc: Global, conn: ConnId, bytes: &[u8]) -> Mem<Effects>
    ensures effects { IfOk result (λ effects. (m : Monitor) → StandsForMonitor parts.old m → effects ≡ monitor_effects m (Bytes conn bytes.now)) }
    ensures after { OnOk result ((m : Monitor) → StandsForMonitor parts.old m → StandsForMonitor parts.new (monitor_after m (Bytes conn bytes.now))) }
{
    let mut spares = parts.world.lend_spares();
    parts.sieve.pass(alloc, conn, bytes, &mut spares)?;
    parts.world.reclaim_spares(spares);
    let mut effects = Effects::new(alloc);
    while let Some(piece) = parts.sieve.next(conn)? {
        let more = make(parts, alloc, conn, piece)?;
        see(parts, &more);
        effects.append(more)?;
    }
    Ok(effects)
}
