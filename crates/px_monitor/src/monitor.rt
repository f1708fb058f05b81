//! The world with monitors.

ghost use Rattle.std.specs.Prelude.{◌≡◌, ◌≢◌, [], IfOk, OnOk, Err, Some};
ghost use Rattle.px_header.specs.HeaderRules.{IsHeader};
ghost use Rattle.px_session.specs.declared.event.Event.TheVariants.{Bytes, Close, Turn};
ghost use Rattle.px_world.specs.declared.fault.WorldFault.{WorldFault};
ghost use Rattle.px_world.specs.declared.fault.WorldFault.TheVariants.{NoMemory};
ghost use Rattle.px_world.specs.Parts.{loses, Answered};
ghost use Rattle.px_monitor.specs.Monitor.{Monitor, new_monitor, monitor_refusal, monitor_after, after_items, alone, StandsForMonitor};
ghost use Rattle.px_monitor.specs.MonitorOutcome.{IsMonitorOutcome, Handles, IsQuiet, HasDone};

use crate::parts::{Parts, hear, see};
use crate::recorded::Recorded;
use crate::skips::drop_skip;
use crate::{CREATE_RECORD_STREAM, DELETE_RECORD_STREAM};
use px_ends::Played;
use px_header::Header;
use px_session::Event;
use px_sieve::Sieve;
use px_state::Effects;
use px_types::{ConnId, Mem, SinkId, Text};
use px_world::{Outcome, World, WorldFault};
use std::alloc::Global;
use std::marker::Model;

/// What an event did.
#[derive(Debug, Drop)]
pub struct MonitorOutcome {
    /// What was done to the outside, in order.
    pub effects: Effects,
    /// The bytes that a sink's device has consumed, and their number of frames: 0 but for a turn.
    pub played: Played,
    pub frames: u32,
    /// How many frames were filled on a sink that this event stopped, from its first frame: `None` but for the turn whose device
    /// failed.
    pub stopped: Option<u64>,
    /// The data frames of the record streams of the sink that played.
    pub sent: Effects,
}

/// The world with monitors: its clients can record what a sink plays. Contracts see its parts: the world, the sieve before it, and
/// the record streams.
#[derive(Drop)]
pub struct MonitorWorld {
    parts: Parts,
    // Memory ran out in an event: what was under way is lost.
    lost: bool,
}

impl Model for MonitorWorld {
    ghost use Rattle.px_monitor.specs.declared.parts.Parts.{Parts};

    ghost Value = { Parts };

    ghost view = { λ m. m.parts };
}

// Whether a fault is that memory ran out.
fn is_want(fault: WorldFault) -> bool
    ensures { result ≡ loses fault }
{
    match fault {
        WorldFault::NoMemory => true,
        _ => false,
    }
}

// An event that the world gets as it is.
fn pass_event(parts: &mut Parts, alloc: Global, e: Event) -> Result<Outcome, WorldFault>
    ensures done { (m : Monitor) → StandsForMonitor parts.old m → Answered result (Handles parts.new (after_items m (alone e)) m e) (λ fault. monitor_refusal m e ≡ Some fault) }
    ensures stays { Answered result (λ _. Unit {0}) (λ _. parts.new ≡ parts.old) }
{
    match parts.world.event(alloc, e) {
        Ok(outcome) => {
            see(parts, &outcome.effects);
            Ok(outcome)
        }
        Err(fault) => Err(fault),
    }
}

// The outcome of an event, where nothing is sent to record streams.
fn quiet(alloc: Global, outcome: Outcome) -> MonitorOutcome
    ensures { result ≡ record { effects = outcome.effects; played = outcome.played; frames = outcome.frames; stopped = outcome.stopped; sent = [] } }
{
    MonitorOutcome {
        effects: outcome.effects,
        played: outcome.played,
        frames: outcome.frames,
        stopped: outcome.stopped,
        sent: Effects::new(alloc),
    }
}

// An event that the world gets as it is, after which nothing is sent to record streams.
fn other(parts: &mut Parts, alloc: Global, e: Event) -> Result<MonitorOutcome, WorldFault>
    ensures done { (m : Monitor) → StandsForMonitor parts.old m → Answered result (IsQuiet parts.new (after_items m (alone e)) m e) (λ fault. monitor_refusal m e ≡ Some fault) }
    ensures stays { Answered result (λ _. Unit {0}) (λ _. parts.new ≡ parts.old) }
{
    let outcome = pass_event(parts, alloc, e)?;
    Ok(quiet(alloc, outcome))
}

// Bytes of a connection arrive, if its number is in use.
fn heard(
    parts: &mut Parts,
    alloc: Global,
    conn: ConnId,
    text: Text,
) -> Result<MonitorOutcome, WorldFault>
    ensures done { (m : Monitor) → StandsForMonitor parts.old m → Answered result (HasDone parts.new m (Bytes conn text)) (λ fault. monitor_refusal m (Bytes conn text) ≡ Some fault) }
    ensures stays { Answered result (λ _. Unit {0}) (λ _. parts.new ≡ parts.old) }
{
    if !parts.world.is_named(conn) {
        return Err(WorldFault::NotLive);
    }
    let effects = hear(parts, alloc, conn, text.as_slice())?;
    parts.world.reclaim_text(text);
    Ok(MonitorOutcome {
        effects,
        played: Played::from_vec(Vec::new(alloc)),
        frames: 0,
        stopped: None,
        sent: Effects::new(alloc),
    })
}

// A client has closed its connection, whose number is free again.
fn closed(parts: &mut Parts, alloc: Global, conn: ConnId) -> Result<MonitorOutcome, WorldFault>
    ensures done { (m : Monitor) → StandsForMonitor parts.old m → Answered result (HasDone parts.new m (Close conn)) (λ fault. monitor_refusal m (Close conn) ≡ Some fault) }
    ensures stays { Answered result (λ _. Unit {0}) (λ _. parts.new ≡ parts.old) }
{
    let outcome = pass_event(parts, alloc, Event::Close(conn))?;
    parts.sieve.forget(conn);
    drop_skip(&mut parts.skips, conn);
    parts.records.forget(conn);
    Ok(quiet(alloc, outcome))
}

// A turn of a sink: what it played goes to its record streams.
fn turned(
    parts: &mut Parts,
    alloc: Global,
    sink: u8,
    frames: u64,
    take: u64,
) -> Result<MonitorOutcome, WorldFault>
    ensures done { (m : Monitor) → StandsForMonitor parts.old m → Answered result (HasDone parts.new m (Turn sink frames take)) (λ fault. monitor_refusal m (Turn sink frames take) ≡ Some fault) }
    ensures stays { Answered result (λ _. Unit {0}) (λ _. parts.new ≡ parts.old) }
{
    let outcome = pass_event(parts, alloc, Event::Turn { sink, frames, take })?;
    let sent = parts
        .records
        .sent(alloc, SinkId(sink), outcome.played.as_slice())?;
    Ok(MonitorOutcome {
        effects: outcome.effects,
        played: outcome.played,
        frames: outcome.frames,
        stopped: outcome.stopped,
        sent,
    })
}

// Any event.
fn run(parts: &mut Parts, alloc: Global, e: Event) -> Result<MonitorOutcome, WorldFault>
    ensures done { (m : Monitor) → StandsForMonitor parts.old m → Answered result (HasDone parts.new m e) (λ fault. monitor_refusal m e ≡ Some fault) }
    ensures stays { Answered result (λ _. Unit {0}) (λ _. parts.new ≡ parts.old) }
{
    match e {
        Event::Connect(conn) => other(parts, alloc, Event::Connect(conn)),
        Event::Bytes(conn, text) => heard(parts, alloc, conn, text),
        Event::Close(conn) => closed(parts, alloc, conn),
        Event::Cut(conn) => other(parts, alloc, Event::Cut(conn)),
        Event::Turn { sink, frames, take } => turned(parts, alloc, sink, frames, take),
        Event::Collect { sink, take } => other(parts, alloc, Event::Collect { sink, take }),
        Event::Stop(sink) => other(parts, alloc, Event::Stop(sink)),
    }
}

impl MonitorWorld {
    /// The world before the first event.
    pub fn new(alloc: Global, header: &Header) -> Mem<MonitorWorld>
        requires { IsHeader header.now }
        ensures { IfOk result (λ world. StandsForMonitor world (new_monitor header.now)) }
    {
        let world = World::new(alloc, header)?;
        let sieve = Sieve::new(alloc, &[CREATE_RECORD_STREAM, DELETE_RECORD_STREAM])?;
        let records = Recorded::new(alloc, header)?;
        Ok(MonitorWorld {
            parts: Parts {
                world,
                sieve,
                skips: Vec::new(alloc),
                records,
            },
            lost: false,
        })
    }

    /// Does one event. A fault other than `NoMemory` leaves the world unchanged; after `NoMemory` it isn't used again: each later event
    /// returns it too.
    pub fn event(&mut self, alloc: Global, e: Event) -> Result<MonitorOutcome, WorldFault>
        ensures done { (m : Monitor) → StandsForMonitor self.old m → IfOk result (λ outcome. IsMonitorOutcome outcome m e) }
        ensures after { (m : Monitor) → StandsForMonitor self.old m → OnOk result (StandsForMonitor self.new (monitor_after m e)) }
        ensures refused { (m : Monitor) (fault : WorldFault) → StandsForMonitor self.old m → result ≡ Err fault → fault ≢ NoMemory → monitor_refusal m e ≡ Some fault }
        ensures unchanged { (fault : WorldFault) → result ≡ Err fault → fault ≢ NoMemory → self.new ≡ self.old }
    {
        if self.lost {
            return Err(WorldFault::NoMemory);
        }
        match run(&mut self.parts, alloc, e) {
            Ok(outcome) => Ok(outcome),
            Err(fault) => {
                self.lost = is_want(fault);
                Err(fault)
            }
        }
    }

    /// Takes the text of the last event that had bytes, which are done with, to be filled again. `None` where there was no such event since the last
    /// call. Takes no memory.
    pub fn used_text(&mut self) -> Option<Text>
        ensures { self.new ≡ self.old }
    {
        self.parts.world.used_text()
    }
}
