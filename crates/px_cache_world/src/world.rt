//! The world with a sample cache.

ghost use Rattle.std.specs.Prelude.{◌≡◌, ◌≢◌, ◌++◌, IfOk, OnOk, Err, Some};
ghost use Rattle.px_header.specs.HeaderRules.{IsHeader};
ghost use Rattle.px_session.specs.declared.event.Event.TheVariants.{Connect, Bytes, Close, Cut};
ghost use Rattle.px_world.specs.World.{World as SpecWorld, new_world};
ghost use Rattle.px_world.specs.Admission.{refusal_of};
ghost use Rattle.px_world.specs.Event.{world_after};
ghost use Rattle.px_world.specs.Output.{world_by};
ghost use Rattle.px_sieve.specs.Scene.{shown_by};
ghost use Rattle.px_world.specs.Parts.{loses, Answered};
ghost use Rattle.px_world.specs.Running.{StandsFor as WorldStands};
ghost use Rattle.px_world.specs.declared.fault.WorldFault.{WorldFault};
ghost use Rattle.px_world.specs.declared.fault.WorldFault.TheVariants.{NoMemory};
ghost use Rattle.px_cache_world.specs.Sampler.{Sampler, new_sampler, greeting, sampler_refusal, sampler_after, seeing, settle_items, settled, open_effects, StandsForSampler};
ghost use Rattle.px_cache_world.specs.CacheOutcome.{IsCacheOutcome, HasLone, HasDone};

use crate::course::Course;
use crate::own::{auth_frame, hidden, is_hidden, name_frame};
use crate::parts::{Parts, hear, see, settle};
use crate::skips::drop_skip;
use px_ends::Played;
use px_header::Header;
use px_scache::{
    CREATE_UPLOAD_STREAM, DELETE_UPLOAD_STREAM, FINISH_UPLOAD_STREAM, PLAY_SAMPLE, REMOVE_SAMPLE,
    SampleCache,
};
use px_session::Event;
use px_sieve::{Shift, Sieve, shifted};
use px_state::Effects;
use px_types::{ConnId, Mem, Text};
use px_world::{Outcome, World, WorldFault};
use std::alloc::Global;
use std::marker::Model;

/// The world with a sample cache: its clients can upload samples and have them played. Contracts see its parts: the world, the sieve before
/// it, the uploads and samples, and the plays under way.
#[derive(Drop)]
pub struct CacheWorld {
    parts: Parts,
    // Memory ran out in an event: what was under way is lost.
    lost: bool,
}

impl Model for CacheWorld {
    ghost use Rattle.px_cache_world.specs.declared.parts.Parts.{Parts};

    ghost Value = { Parts };

    ghost view = { λ w. w.parts };
}

// Whether a fault is that memory ran out.
fn is_want(fault: WorldFault) -> bool
    ensures { result ≡ loses fault }
{
    match fault {
        WorldFault::NoMemory => true,
        _ => false,
    }
}

// The server does an event on its own connection, before the first one of the session.
fn greet(world: &mut World, alloc: Global, e: Event) -> Mem<()>
    ensures { OnOk result ((w : SpecWorld) → WorldStands world.old w → WorldStands world.new (world_after w e)) }
{
    match world.event(alloc, e) {
        Ok(_) => Ok(()),
        Err(_) => Err(px_types::NoMemory),
    }
}

// The world to which the server has connected.
fn connected(alloc: Global, header: &Header) -> Mem<World>
    requires { IsHeader header.now }
    ensures { IfOk result (λ world. WorldStands world (world_by (new_world header.now) (greeting header.now.cookie))) }
{
    let mut world = World::new(alloc, header)?;
    greet(&mut world, alloc, Event::Connect(hidden()))?;
    let auth = auth_frame(alloc, header.cookie.as_slice())?;
    greet(&mut world, alloc, Event::Bytes(hidden(), auth))?;
    let name = name_frame(alloc)?;
    greet(&mut world, alloc, Event::Bytes(hidden(), name))?;
    Ok(world)
}

// The effects that are shown.
fn open(alloc: Global, effects: Effects) -> Mem<Effects>
    ensures { IfOk result (λ shown. shown ≡ open_effects effects) }
{
    if effects.as_slice().is_empty() {
        return Ok(effects);
    }
    let shown = shifted(alloc, Shift::Hidden(hidden()), effects)?;
    Ok(shown)
}

// The effects of an event that the world got as it is, with those after it.
fn followed(parts: &mut Parts, alloc: Global, effects: Effects) -> Mem<Effects>
    ensures effects { IfOk result (λ shown. (s : Sampler) → StandsForSampler parts.old s → shown ≡ open_effects (effects ++ shown_by s.world (settle_items (seeing effects s)))) }
    ensures after { OnOk result ((s : Sampler) → StandsForSampler parts.old s → StandsForSampler parts.new (settled (seeing effects s))) }
{
    let mut effects = effects;
    see(parts, &effects)?;
    let more = settle(parts, alloc)?;
    effects.append(more)?;
    let shown = open(alloc, effects)?;
    Ok(shown)
}

// An event that the world gets as it is.
fn lone(parts: &mut Parts, alloc: Global, e: Event) -> Result<Outcome, WorldFault>
    ensures done { (s : Sampler) → StandsForSampler parts.old s → Answered result (HasLone parts.new s e) (λ fault. refusal_of s.world e ≡ Some fault) }
    ensures stays { Answered result (λ _. Unit {0}) (λ _. parts.new ≡ parts.old) }
{
    match parts.world.event(alloc, e) {
        Ok(outcome) => {
            let effects = followed(parts, alloc, outcome.effects)?;
            Ok(Outcome {
                effects,
                played: outcome.played,
                frames: outcome.frames,
                stopped: outcome.stopped,
            })
        }
        Err(fault) => Err(fault),
    }
}

// A client connects.
fn connect(parts: &mut Parts, alloc: Global, conn: ConnId) -> Result<Outcome, WorldFault>
    ensures done { (s : Sampler) → StandsForSampler parts.old s → Answered result (HasDone parts.new s (Connect conn)) (λ fault. sampler_refusal s (Connect conn) ≡ Some fault) }
    ensures stays { Answered result (λ _. Unit {0}) (λ _. parts.new ≡ parts.old) }
{
    if is_hidden(conn) {
        return Err(WorldFault::Live);
    }
    let outcome = lone(parts, alloc, Event::Connect(conn))?;
    Ok(outcome)
}

// The bytes of a client that are under way are lost.
fn cut(parts: &mut Parts, alloc: Global, conn: ConnId) -> Result<Outcome, WorldFault>
    ensures done { (s : Sampler) → StandsForSampler parts.old s → Answered result (HasDone parts.new s (Cut conn)) (λ fault. sampler_refusal s (Cut conn) ≡ Some fault) }
    ensures stays { Answered result (λ _. Unit {0}) (λ _. parts.new ≡ parts.old) }
{
    if is_hidden(conn) {
        return Err(WorldFault::NotLive);
    }
    let outcome = lone(parts, alloc, Event::Cut(conn))?;
    Ok(outcome)
}

// Bytes of a connection arrive, if its number is in use by a client.
fn heard(parts: &mut Parts, alloc: Global, conn: ConnId, text: Text) -> Result<Outcome, WorldFault>
    ensures done { (s : Sampler) → StandsForSampler parts.old s → Answered result (HasDone parts.new s (Bytes conn text)) (λ fault. sampler_refusal s (Bytes conn text) ≡ Some fault) }
    ensures stays { Answered result (λ _. Unit {0}) (λ _. parts.new ≡ parts.old) }
{
    if is_hidden(conn) || !parts.world.is_named(conn) {
        return Err(WorldFault::NotLive);
    }
    let effects = hear(parts, alloc, conn, text.as_slice())?;
    parts.world.reclaim_text(text);
    Ok(Outcome {
        effects: open(alloc, effects)?,
        played: Played::from_vec(Vec::new(alloc)),
        frames: 0,
        stopped: None,
    })
}

// A client has closed its connection, whose number is free again.
fn closed(parts: &mut Parts, alloc: Global, conn: ConnId) -> Result<Outcome, WorldFault>
    ensures done { (s : Sampler) → StandsForSampler parts.old s → Answered result (HasDone parts.new s (Close conn)) (λ fault. sampler_refusal s (Close conn) ≡ Some fault) }
    ensures stays { Answered result (λ _. Unit {0}) (λ _. parts.new ≡ parts.old) }
{
    if is_hidden(conn) {
        return Err(WorldFault::NotLive);
    }
    let outcome = lone(parts, alloc, Event::Close(conn))?;
    parts.sieve.forget(conn);
    drop_skip(&mut parts.skips, conn);
    parts.store.forget(conn);
    Ok(outcome)
}

// Any event.
fn run(parts: &mut Parts, alloc: Global, e: Event) -> Result<Outcome, WorldFault>
    ensures done { (s : Sampler) → StandsForSampler parts.old s → Answered result (HasDone parts.new s e) (λ fault. sampler_refusal s e ≡ Some fault) }
    ensures stays { Answered result (λ _. Unit {0}) (λ _. parts.new ≡ parts.old) }
{
    match e {
        Event::Connect(conn) => connect(parts, alloc, conn),
        Event::Bytes(conn, text) => heard(parts, alloc, conn, text),
        Event::Close(conn) => closed(parts, alloc, conn),
        Event::Cut(conn) => cut(parts, alloc, conn),
        Event::Turn { sink, frames, take } => lone(
            parts,
            alloc,
            Event::Turn { sink, frames, take },
        ),
        Event::Collect { sink, take } => lone(parts, alloc, Event::Collect { sink, take }),
        Event::Stop(sink) => lone(parts, alloc, Event::Stop(sink)),
    }
}

impl CacheWorld {
    /// The world before the first event of a session: the server is connected to itself, as client 0 with the name `sample-cache`.
    pub fn new(alloc: Global, header: &Header) -> Mem<CacheWorld>
        requires { IsHeader header.now }
        ensures { IfOk result (λ world. StandsForSampler world (new_sampler header.now)) }
    {
        let world = connected(alloc, header)?;
        let own = [
            CREATE_UPLOAD_STREAM,
            DELETE_UPLOAD_STREAM,
            FINISH_UPLOAD_STREAM,
            PLAY_SAMPLE,
            REMOVE_SAMPLE,
        ];
        let sieve = Sieve::new(alloc, &own)?;
        Ok(CacheWorld {
            parts: Parts {
                world,
                sieve,
                skips: Vec::new(alloc),
                store: SampleCache::new(alloc),
                course: Course::new(alloc),
            },
            lost: false,
        })
    }

    /// Does one event. The number 0xFFFFFFFF is the server's own: a Connect of it is `Live`, its Bytes, Close and Cut are `NotLive`. A fault
    /// other than `NoMemory` leaves the world unchanged; after `NoMemory` it isn't used again: each later event returns it too.
    pub fn event(&mut self, alloc: Global, e: Event) -> Result<Outcome, WorldFault>
        ensures done { (s : Sampler) → StandsForSampler self.old s → IfOk result (λ outcome. IsCacheOutcome outcome s e) }
        ensures after { (s : Sampler) → StandsForSampler self.old s → OnOk result (StandsForSampler self.new (sampler_after s e)) }
        ensures refused { (s : Sampler) (fault : WorldFault) → StandsForSampler self.old s → result ≡ Err fault → fault ≢ NoMemory → sampler_refusal s e ≡ Some fault }
        ensures unchanged { (fault : WorldFault) → result ≡ Err fault → fault ≢ NoMemory → self.new ≡ self.old }
    {
        if self.lost {
            return Err(WorldFault::NoMemory);
        }
        match run(&mut self.parts, alloc, e) {
            Ok(outcome) => Ok(outcome),
            Err(fault) => {
                self.lost = is_want(fault);
                Err(fault)
            }
        }
    }

    /// Takes the text of the last event that had bytes, which are done with, to be filled again: an event of the session, or one on the server's own
    /// connection. `None` where there was no such event since the last call. Takes no memory.
    pub fn used_text(&mut self) -> Option<Text>
        ensures { self.new ≡ self.old }
    {
        self.parts.world.used_text()
    }
}
