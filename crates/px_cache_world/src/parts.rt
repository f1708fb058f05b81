//! The parts of a world with a sample cache, and what they do with the bytes of connections.

ghost use Rattle.std.specs.Prelude.{◌≡◌, ◌<◌, ◌^◌, [], ◌∷◌, length, IfOk, OnOk};
ghost use Rattle.px_session.specs.declared.event.Event.TheVariants.{Bytes};
ghost use Rattle.px_state.specs.Effect.{fault_code, fault_place};
ghost use Rattle.px_world.specs.World.{World as SpecWorld};
ghost use Rattle.px_world.specs.Output.{world_by};
ghost use Rattle.px_world.specs.Running.{StandsFor as WorldStands};
ghost use Rattle.px_frame.specs.Frame.{IsBody};
ghost use Rattle.px_frame.specs.Spelling.{spelling_of};
ghost use Rattle.px_sieve.specs.declared.piece.Piece.TheVariants.{Own, Write};
ghost use Rattle.px_sieve.specs.Scene.{inner, shown_by};
ghost use Rattle.px_sieve.specs.Standing.{IsPossiblePiece, left_in};
ghost use Rattle.px_scache.specs.Answers.{CanBeSent};
ghost use Rattle.px_cache_world.specs.Sampler.{Sampler, shift_by, packet_of, zero_length, passed_on, is_taken, uploaded, fault_items, answer_items, course_after, handled_in, piece_items, running_on, store_seen, seeing, settle_items, settled, whole_items, after_whole, sampler_after, items, StandsForSampler};
ghost use Rattle.px_cache_world.specs.Course.{course_seen};

use crate::answered::tag_in;
use crate::course::Course;
use crate::plays::{delete, give, give_frame, play, reply};
use crate::skips::{Skip, skip_more, skipped_of};
use px_block::Blocks;
use px_frame::{Body, Frame};
use px_scache::{Answer, SampleCache};
use px_sieve::{Piece, Shift, Sieve};
use px_state::{Effect, Effects};
use px_tag::TagFault;
use px_types::{ConnId, Mem, Text};
use px_world::World;
use std::alloc::Global;

/// The parts of a world with a sample cache.
#[derive(Drop)]
pub(crate) struct Parts {
    pub world: World,
    pub sieve: Sieve,
    pub skips: Vec<Skip>,
    pub store: SampleCache,
    pub course: Course,
}

// The number of a fault in a packet, after the five of frame faults. Takes no memory.
fn fault_code(fault: TagFault) -> u8
    ensures { result ≡ fault_code fault }
{
    match fault {
        TagFault::WrongTag { at: _ } => 6,
        TagFault::Short { at: _ } => 7,
        TagFault::BadValue { at: _ } => 8,
        TagFault::Left { at: _ } => 9,
    }
}

// Its place in the packet. Takes no memory.
fn fault_place(fault: TagFault) -> usize
    ensures { result ≡ fault_place fault }
{
    match fault {
        TagFault::WrongTag { at }
        | TagFault::Short { at }
        | TagFault::BadValue { at }
        | TagFault::Left { at } => at,
    }
}

// How the effects of bytes are shown that follow `skipped` that the world doesn't get. Takes no memory.
fn shift_by(conn: ConnId, skipped: u64) -> Shift
    ensures { result ≡ shift_by conn skipped }
{
    if skipped == 0 {
        return Shift::Unshifted;
    }
    Shift::Moved { conn, skipped }
}

// The packet of a control frame. Takes no memory.
fn packet_of(body: &Body) -> &[u8]
    ensures { result.now ≡ packet_of body.now }
{
    match body {
        Body::Control(packet) => packet.bytes(),
        Body::Write { .. } => &[],
    }
}

// The bytes of a frame of length 0.
fn zero_length(alloc: Global) -> Mem<Text>
    ensures { IfOk result (λ bytes. bytes ≡ zero_length) }
{
    let bytes = Vec::from_slice(alloc, &[0; 20])?;
    Ok(Text::from_vec(bytes))
}

// A fault in the fields of a command ends the connection.
fn fail(world: &mut World, alloc: Global, conn: ConnId, at: u64, fault: TagFault) -> Mem<Effects>
    ensures effects { IfOk result (λ effects. (w : SpecWorld) → WorldStands world.old w → effects ≡ shown_by w (fault_items conn at fault)) }
    ensures after { OnOk result ((w : SpecWorld) → WorldStands world.old w → WorldStands world.new (world_by w (inner (fault_items conn at fault)))) }
{
    let zero = zero_length(alloc)?;
    let shift = Shift::Faulted {
        conn,
        fault: fault_code(fault),
        at: at.saturating_add(fault_place(fault) as u64),
    };
    let effects = give(world, alloc, conn, zero, shift)?;
    Ok(effects)
}

// What becomes of the answer to a command.
fn answer(
    world: &mut World,
    course: &mut Course,
    alloc: Global,
    conn: ConnId,
    at: u64,
    tag: u32,
    given: Answer,
) -> Mem<Effects>
    requires { CanBeSent given }
    ensures effects { IfOk result (λ effects. (w : SpecWorld) → WorldStands world.old w → effects ≡ shown_by w (answer_items w conn at tag given)) }
    ensures after { OnOk result ((w : SpecWorld) → WorldStands world.old w → WorldStands world.new (world_by w (inner (answer_items w conn at tag given)))) }
    ensures course { OnOk result ((w : SpecWorld) → WorldStands world.old w → course.new ≡ course_after w given course.old) }
{
    match given {
        Answer::Packet(packet) => {
            let effects = reply(alloc, conn, packet.as_slice())?;
            Ok(effects)
        }
        Answer::Fault(fault) => {
            let effects = fail(world, alloc, conn, at, fault)?;
            Ok(effects)
        }
        Answer::Begins(p) => {
            let effects = play(world, course, alloc, conn, tag, &p)?;
            Ok(effects)
        }
    }
}

// Bytes are passed on to the world.
fn pass_on(parts: &mut Parts, alloc: Global, conn: ConnId, bytes: Text) -> Mem<Effects>
    ensures effects { IfOk result (λ effects. (s : Sampler) → StandsForSampler parts.old s → effects ≡ shown_by s.world (passed_on s conn bytes ∷ [])) }
    ensures after { OnOk result ((s : Sampler) → StandsForSampler parts.old s → StandsForSampler parts.new (running_on s (passed_on s conn bytes ∷ []))) }
    ensures sieve { parts.new.sieve ≡ parts.old.sieve }
{
    let shift = shift_by(conn, skipped_of(parts.skips.as_slice(), conn));
    let effects = give(&mut parts.world, alloc, conn, bytes, shift)?;
    Ok(effects)
}

// A frame is passed on to the world.
fn pass_frame(parts: &mut Parts, alloc: Global, conn: ConnId, frame: Frame) -> Mem<Effects>
    requires { IsBody frame.body }
    ensures effects { IfOk result (λ effects. (s : Sampler) → StandsForSampler parts.old s → effects ≡ shown_by s.world (passed_on s conn (spelling_of frame.body) ∷ [])) }
    ensures after { OnOk result ((s : Sampler) → StandsForSampler parts.old s → StandsForSampler parts.new (running_on s (passed_on s conn (spelling_of frame.body) ∷ []))) }
    ensures sieve { parts.new.sieve ≡ parts.old.sieve }
{
    let shift = shift_by(conn, skipped_of(parts.skips.as_slice(), conn));
    let effects = give_frame(&mut parts.world, alloc, conn, frame, shift)?;
    Ok(effects)
}

// The bytes of blocks, in one list.
fn joined(alloc: Global, blocks: &Blocks) -> Mem<Vec<u8>>
    requires { length blocks.now < 2 ^ 64 }
    ensures { IfOk result (λ bytes. bytes.items ≡ blocks.now) }
{
    let mut bytes = Vec::with_capacity(alloc, blocks.len())?;
    let held = blocks.as_slice();
    for block in held {
        bytes.extend_from_slice(block.bytes())?;
    }
    Ok(bytes)
}

// Whether a data frame is an upload's. Takes no memory.
fn is_taken(store: &SampleCache, conn: ConnId, body: &Body) -> bool
    ensures { result ≡ is_taken store.now conn body.now }
{
    match body {
        Body::Control(_) => false,
        Body::Write { stream, .. } => store.takes(conn, *stream),
    }
}

// The data of an upload is added to it, and the world doesn't get it.
fn upload(parts: &mut Parts, alloc: Global, conn: ConnId, body: &Body) -> Mem<()>
    requires { IsBody body.now }
    ensures after { OnOk result ((s : Sampler) → StandsForSampler parts.old s → StandsForSampler parts.new (uploaded s conn body.now)) }
    ensures sieve { parts.new.sieve ≡ parts.old.sieve }
{
    match body {
        Body::Control(_) => Ok(()),
        Body::Write {
            stream,
            offset,
            seek,
            bytes,
        } => {
            let data = joined(alloc, bytes)?;
            parts
                .store
                .write(conn, *stream, *offset, *seek, data.as_slice())?;
            skip_more(
                &mut parts.skips,
                conn,
                (data.len() as u64).saturating_add(20),
            )?;
            Ok(())
        }
    }
}

// A data frame is handled.
fn write(parts: &mut Parts, alloc: Global, conn: ConnId, frame: Frame) -> Mem<Effects>
    requires { IsBody frame.body }
    ensures effects { IfOk result (λ effects. (s : Sampler) → StandsForSampler parts.old s → effects ≡ shown_by s.world (piece_items s conn (Write frame))) }
    ensures after { OnOk result ((s : Sampler) → StandsForSampler parts.old s
        → StandsForSampler parts.new (running_on (handled_in s conn (Write frame)) (piece_items s conn (Write frame)))) }
    ensures sieve { parts.new.sieve ≡ parts.old.sieve }
{
    if is_taken(&parts.store, conn, &frame.body) {
        upload(parts, alloc, conn, &frame.body)?;
        return Ok(Effects::new(alloc));
    }
    let effects = pass_frame(parts, alloc, conn, frame)?;
    Ok(effects)
}

// A command of the mode's own is handled.
fn handle(parts: &mut Parts, alloc: Global, conn: ConnId, frame: &Frame) -> Mem<Effects>
    ensures effects { IfOk result (λ effects. (s : Sampler) → StandsForSampler parts.old s → effects ≡ shown_by s.world (piece_items s conn (Own frame.now))) }
    ensures after { OnOk result ((s : Sampler) → StandsForSampler parts.old s
        → StandsForSampler parts.new (running_on (handled_in s conn (Own frame.now)) (piece_items s conn (Own frame.now)))) }
    ensures sieve { parts.new.sieve ≡ parts.old.sieve }
{
    let packet = packet_of(&frame.body);
    let plays = parts.course.under_way();
    let given = parts.store.answer(alloc, conn, plays, packet)?;
    let effects = answer(
        &mut parts.world,
        &mut parts.course,
        alloc,
        conn,
        frame.at,
        tag_in(packet),
        given,
    )?;
    skip_more(
        &mut parts.skips,
        conn,
        (packet.len() as u64).saturating_add(20),
    )?;
    Ok(effects)
}

// What becomes of a piece.
fn make(parts: &mut Parts, alloc: Global, conn: ConnId, piece: Piece) -> Mem<Effects>
    requires { IsPossiblePiece piece }
    ensures effects { IfOk result (λ effects. (s : Sampler) → StandsForSampler parts.old s → effects ≡ shown_by s.world (piece_items s conn piece)) }
    ensures after { OnOk result ((s : Sampler) → StandsForSampler parts.old s
        → StandsForSampler parts.new (running_on (handled_in s conn piece) (piece_items s conn piece))) }
    ensures sieve { parts.new.sieve ≡ parts.old.sieve }
{
    match piece {
        Piece::Pass(frame) => {
            let effects = pass_frame(parts, alloc, conn, frame)?;
            Ok(effects)
        }
        Piece::Broken(bytes) => {
            let effects = pass_on(parts, alloc, conn, bytes)?;
            Ok(effects)
        }
        Piece::Write(frame) => {
            let effects = write(parts, alloc, conn, frame)?;
            Ok(effects)
        }
        Piece::Own(frame) => {
            let effects = handle(parts, alloc, conn, &frame)?;
            Ok(effects)
        }
    }
}

// A connection that the server ends loses its uploads.
fn drop_closed(store: &mut SampleCache, effects: &[Effect])
    ensures { store.new ≡ store_seen effects.now store.old }
{
    for effect in effects {
        if let Effect::Closed { conn, .. } = effect {
            store.forget(*conn);
        }
    }
}

/// Effects are seen.
pub(crate) fn see(parts: &mut Parts, effects: &Effects) -> Mem<()>
    ensures after { OnOk result ((s : Sampler) → StandsForSampler parts.old s → StandsForSampler parts.new (seeing effects.now s)) }
    ensures left { left_in parts.new.sieve.lines ≡ left_in parts.old.sieve.lines }
    ensures due { OnOk result (parts.new.course ≡ course_seen effects.now parts.old.course) }
{
    parts.sieve.seen(effects);
    drop_closed(&mut parts.store, effects.as_slice());
    parts.course.see(effects.as_slice())
}

/// The streams that are due are deleted.
pub(crate) fn settle(parts: &mut Parts, alloc: Global) -> Mem<Effects>
    ensures effects { IfOk result (λ effects. (s : Sampler) → StandsForSampler parts.old s → effects ≡ shown_by s.world (settle_items s)) }
    ensures after { OnOk result ((s : Sampler) → StandsForSampler parts.old s → StandsForSampler parts.new (settled s)) }
    ensures left { OnOk result (left_in parts.new.sieve.lines ≡ left_in parts.old.sieve.lines) }
{
    let mut effects = Effects::new(alloc);
    while let Some(stream) = parts.course.next_due() {
        let more = delete(&mut parts.world, alloc, stream)?;
        see(parts, &more)?;
        effects.append(more)?;
    }
    Ok(effects)
}

// What becomes of a piece, with the streams that are deleted after it.
fn step(parts: &mut Parts, alloc: Global, conn: ConnId, piece: Piece) -> Mem<Effects>
    requires { IsPossiblePiece piece }
    ensures effects { IfOk result (λ effects. (s : Sampler) → StandsForSampler parts.old s → effects ≡ shown_by s.world (whole_items s conn piece)) }
    ensures after { OnOk result ((s : Sampler) → StandsForSampler parts.old s → StandsForSampler parts.new (after_whole s conn piece)) }
    ensures left { OnOk result (left_in parts.new.sieve.lines ≡ left_in parts.old.sieve.lines) }
{
    let mut effects = make(parts, alloc, conn, piece)?;
    see(parts, &effects)?;
    let more = settle(parts, alloc)?;
    effects.append(more)?;
    Ok(effects)
}

/// Bytes of a connection arrive: its frames are handled one after the other.
pub(crate) fn hear(parts: &mut Parts, alloc: Global, conn: ConnId, bytes: &[u8]) -> Mem<Effects>
    ensures effects { IfOk result (λ effects. (s : Sampler) → StandsForSampler parts.old s → effects ≡ shown_by s.world (items s (Bytes conn bytes.now))) }
    ensures after { OnOk result ((s : Sampler) → StandsForSampler parts.old s → StandsForSampler parts.new (sampler_after s (Bytes conn bytes.now))) }
{
    let mut spares = parts.world.lend_spares();
    parts.sieve.pass(alloc, conn, bytes, &mut spares)?;
    parts.world.reclaim_spares(spares);
    let mut effects = Effects::new(alloc);
    while let Some(piece) = parts.sieve.next(conn)? {
        let more = step(parts, alloc, conn, piece)?;
        effects.append(more)?;
    }
    Ok(effects)
}
