//! The world of a recorded session.

ghost use Rattle.std.specs.Prelude.{◌≡◌, ◌≢◌, ◌<◌, List, All, length, map, option_map, IfOk, OnOk, Err, Some};
ghost use Rattle.std.specs.List.{AllByRecursion, slice_get};
ghost use Rattle.std.specs.Option.{is_some};
ghost use Rattle.px_header.specs.HeaderRules.{IsHeader, IsSink};
ghost use Rattle.px_header.specs.declared.header.SinkSpec.{SinkSpec as Spec};
ghost use Rattle.px_core.specs.Connecting.{version_of};
ghost use Rattle.px_frame.specs.Frame.{IsBody};
ghost use Rattle.px_frame.specs.Spelling.{spelling_of};
ghost use Rattle.px_session.specs.declared.event.Event.TheVariants.{Bytes};
ghost use Rattle.px_world.specs.World.{World as SpecWorld, new_mixer, new_world, link_of};
ghost use Rattle.px_world.specs.Admission.{refusal_of};
ghost use Rattle.px_world.specs.Event.{world_after, change_at, set_to_fail, world_stopping};
ghost use Rattle.px_world.specs.Outcome.{IsOutcome};
ghost use Rattle.px_world.specs.Frames.{frames_of};
ghost use Rattle.px_world.specs.Running.{StandsFor};
ghost use Rattle.px_world.specs.Playing.{mixer_of, IsPlaying};
ghost use Rattle.px_world.specs.Parts.{loses};
ghost use Rattle.px_world.specs.declared.fault.WorldFault.{WorldFault};
ghost use Rattle.px_world.specs.declared.fault.WorldFault.TheVariants.{NoMemory};

use crate::doors::{Doors, is_there};
use crate::playing::Playing;
use crate::run::{run, run_frame};
use crate::sinks::stop_at;
use crate::spares::Spares;
use crate::stepping::WorldCore;
use crate::{Frames, Outcome, WorldFault};
use px_core::Core;
use px_frame::Frame;
use px_header::{Header, SinkSpec};
use px_session::Event;
use px_types::{ConnId, Mem, SinkId, Text};
use std::alloc::Global;
use std::marker::Model;

/// The world that a recorded session runs in: the core, a mixer over a device in memory for each sink, and what is under way
/// between them. Contracts see the core, where each connection's decoder stands, and the mixers.
#[derive(Drop)]
pub struct World {
    core: WorldCore,
    doors: Doors,
    mixers: Vec<Playing>,
    // blocks that streams are done with, for the next bytes of clients
    spares: Spares,
    // Memory ran out in an event: what was under way is lost.
    lost: bool,
}

impl Model for World {
    ghost use Rattle.std.specs.Prelude.{map, IsFalse};
    ghost use Rattle.std.specs.List.{AllByRecursion};
    ghost use Rattle.px_world.specs.Running.{Running};
    ghost use Rattle.px_world.specs.Playing.{mixer_of, IsPlaying};
    ghost use Rattle.px_world.specs.Parts.{running_of};
    ghost use Rattle.px_world.specs.Consistency.{AreConsistent};

    ghost Value = { Running };

    ghost view = { λ w. running_of w.core.state w.doors.entries w.mixers.items };

    ghost invariant = { λ w. IsFalse w.lost → AreConsistent w.core.state (map mixer_of w.mixers.items) × AllByRecursion IsPlaying w.mixers.items };
}

// A mixer for each sink.
fn new_mixers(alloc: Global, sinks: &[SinkSpec]) -> Mem<Vec<Playing>>
    requires { All (λ s. (earlier : List Spec) × IsSink earlier s) sinks.now }
    ensures mixers { IfOk result (λ made. map mixer_of made.items ≡ map new_mixer sinks.now) }
    ensures playing { IfOk result (λ made. AllByRecursion IsPlaying made.items) }
{
    let mut made = Vec::new(alloc);
    for sink in sinks {
        let playing = Playing::new(alloc, sink)?;
        made.push(playing)?;
    }
    Ok(made)
}

// Whether a fault is that memory ran out.
fn is_want(fault: WorldFault) -> bool
    ensures { result ≡ loses fault }
{
    match fault {
        WorldFault::NoMemory => true,
        _ => false,
    }
}

impl World {
    /// The world before the first event.
    #[tactic(auto, using(crate::proofs::Beginning::begins, crate::proofs::Beginning::consistent_begins, crate::proofs::Beginning::all_sinks))]
    pub fn new(alloc: Global, header: &Header) -> Mem<World>
        requires { IsHeader header.now }
        ensures { IfOk result (λ world. StandsFor world (new_world header.now)) }
    {
        let spares = Spares::new(alloc)?;
        let mixers = new_mixers(alloc, header.sinks.as_slice())?;
        let core = Core::new(alloc, header, None)?;
        let doors = Doors::new(alloc);
        Ok(World {
            core,
            doors,
            mixers,
            spares,
            lost: false,
        })
    }

    /// Does one event. A fault other than `NoMemory` leaves the world unchanged; after `NoMemory` it isn't used again: each later event returns it
    /// too.
    pub fn event(&mut self, alloc: Global, e: Event) -> Result<Outcome, WorldFault>
        ensures done { (w : SpecWorld) → StandsFor self.old w → IfOk result (λ outcome. IsOutcome outcome w e) }
        ensures after { (w : SpecWorld) → StandsFor self.old w → OnOk result (StandsFor self.new (world_after w e)) }
        ensures refused { (w : SpecWorld) (fault : WorldFault) → StandsFor self.old w → result ≡ Err fault → fault ≢ NoMemory → refusal_of w e ≡ Some fault }
        ensures unchanged { (fault : WorldFault) → result ≡ Err fault → fault ≢ NoMemory → self.new ≡ self.old }
    {
        if self.lost {
            return Err(WorldFault::NoMemory);
        }
        match run(
            &mut self.core,
            &mut self.doors,
            &mut self.mixers,
            &mut self.spares,
            alloc,
            e,
        ) {
            Ok(outcome) => Ok(outcome),
            Err(fault) => {
                self.lost = is_want(fault);
                Err(fault)
            }
        }
    }

    /// A whole frame arrives from a client: as an event of the frame's spelling, whose bytes aren't decoded again. The offset in `frame`
    /// doesn't matter. The faults are those of `event`.
    pub fn frame(
        &mut self,
        alloc: Global,
        conn: ConnId,
        frame: Frame,
    ) -> Result<Outcome, WorldFault>
        requires { IsBody frame.body }
        ensures done { (w : SpecWorld) → StandsFor self.old w → IfOk result (λ outcome. IsOutcome outcome w (Bytes conn (spelling_of frame.body))) }
        ensures after { (w : SpecWorld) → StandsFor self.old w → OnOk result (StandsFor self.new (world_after w (Bytes conn (spelling_of frame.body)))) }
        ensures refused { (w : SpecWorld) (fault : WorldFault) → StandsFor self.old w → result ≡ Err fault → fault ≢ NoMemory → refusal_of w (Bytes conn (spelling_of frame.body)) ≡ Some fault }
        ensures unchanged { (fault : WorldFault) → result ≡ Err fault → fault ≢ NoMemory → self.new ≡ self.old }
    {
        if self.lost {
            return Err(WorldFault::NoMemory);
        }
        match run_frame(
            &mut self.core,
            &mut self.doors,
            &self.mixers,
            &mut self.spares,
            alloc,
            conn,
            frame,
        ) {
            Ok(outcome) => Ok(outcome),
            Err(fault) => {
                self.lost = is_want(fault);
                Err(fault)
            }
        }
    }

    /// Takes the text of the last event that had bytes, which are done with, to be filled again. `None` where there was no such event since the last
    /// call. Takes no memory.
    pub fn used_text(&mut self) -> Option<Text>
        ensures { self.new ≡ self.old }
    {
        self.spares.take_text()
    }

    /// Holds a text whose bytes are done with, for the next `used_text`. Takes no memory.
    pub fn reclaim_text(&mut self, text: Text)
        ensures { self.new ≡ self.old }
    {
        self.spares.reclaim_text(text);
    }

    /// Lends the blocks that streams are done with, for a decoder before this world. The world holds none until they are given back. Takes no memory.
    pub fn lend_spares(&mut self) -> Spares
        ensures { self.new ≡ self.old }
    {
        self.spares.take_all()
    }

    /// Takes back the blocks that were lent. Takes no memory.
    pub fn reclaim_spares(&mut self, spares: Spares)
        ensures { self.new ≡ self.old }
    {
        self.spares = spares;
    }

    /// Whether a connection number is in use: from the Connect of it to its Close. Takes no memory.
    pub fn is_named(&self, conn: ConnId) -> bool
        ensures { (w : SpecWorld) → StandsFor self.now w → result ≡ is_some (link_of w.links conn) }
    {
        is_there(&self.doors, conn)
    }

    /// The protocol version that a connection agreed on; `None` where it doesn't exist, or hasn't authenticated. Takes no memory.
    pub fn version_of(&self, conn: ConnId) -> Option<u16>
        ensures { result ≡ version_of self.now.core.connections conn }
    {
        self.core.version_of(conn)
    }

    /// The frame counts of the sink at an index, if it is there. Takes no memory.
    pub fn frames(&self, sink: usize) -> Option<Frames>
        ensures { result ≡ option_map frames_of (slice_get self.now.mixers sink) }
    {
        frames_at(&self.mixers, sink)
    }

    // Marks the mixer of a sink whose device will fail.
    fn mark(&mut self, sink: SinkId)
        requires { sink.0 < length self.old.mixers }
        ensures { self.new ≡ record self.old { mixers = change_at self.old.mixers sink.0 (slice_get self.old.mixers sink.0) set_to_fail } }
    {
        stop_at(&mut self.mixers, sink.0 as usize);
    }

    /// Makes the sink's device fail at its next turn, which then stops the sink; a sink that is stopped already doesn't change. An event `Stop` does this,
    /// and sweeps the connections that have ended. Takes no memory.
    pub fn stop(&mut self, sink: SinkId)
        requires { sink.0 < length self.old.mixers }
        ensures after { self.new ≡ record self.old { mixers = change_at self.old.mixers sink.0 (slice_get self.old.mixers sink.0) set_to_fail } }
        ensures stands { (w : SpecWorld) → StandsFor self.old w → StandsFor self.new (world_stopping w sink.0) }
    {
        self.mark(sink);
    }
}

// The frame counts of the sink of the mixer at `place`, if there is one.
fn frames_at(mixers: &[Playing], place: usize) -> Option<Frames>
    ensures { result ≡ option_map frames_of (slice_get (map mixer_of mixers.now) place) }
{
    let playing = mixers.get(place)?;
    Some(Frames {
        consumed: playing.lane.consumed(),
        filled: playing.lane.filled(),
    })
}
