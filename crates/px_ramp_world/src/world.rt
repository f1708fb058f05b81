//! The world of a recorded session with ramps.

ghost use Rattle.std.specs.Prelude.{◌≡◌, ◌≢◌, ◌≤◌, List, All, map, IfOk, OnOk, Err, Some};
ghost use Rattle.std.specs.List.{AllByRecursion};
ghost use Rattle.px_header.specs.HeaderRules.{IsHeader, IsSink};
ghost use Rattle.px_header.specs.declared.header.SinkSpec.{SinkSpec as Spec};
ghost use Rattle.px_world.specs.Admission.{refusal_of};
ghost use Rattle.px_world.specs.Outcome.{IsOutcome};
ghost use Rattle.px_world.specs.Parts.{loses};
ghost use Rattle.px_world.specs.declared.fault.WorldFault.{WorldFault};
ghost use Rattle.px_world.specs.declared.fault.WorldFault.TheVariants.{NoMemory};
ghost use Rattle.px_ramp_world.specs.World.{RampWorld as SpecWorld, new_ramped_mixer, new_ramp_world, plain_of};
ghost use Rattle.px_ramp_world.specs.Event.{ramp_world_after};
ghost use Rattle.px_ramp_world.specs.Running.{StandsFor};
ghost use Rattle.px_ramp_world.specs.Playing.{ramped_mixer_of, IsPlaying};

use crate::playing::RampPlaying;
use crate::run::run;
use px_core::Core;
use px_header::{Header, SinkSpec};
use px_session::Event;
use px_types::{Mem, Text};
use px_world::parts::{Doors, WorldCore};
use px_world::{Outcome, Spares, WorldFault};
use std::alloc::Global;
use std::marker::Model;

/// The world that a recorded session runs in, where volumes change by ramps: the core, a ramped mixer over a device in memory for each sink, and what is
/// under way between them. Contracts see the core, where each connection's decoder stands, and the mixers.
#[derive(Drop)]
pub struct RampWorld {
    core: WorldCore,
    doors: Doors,
    mixers: Vec<RampPlaying>,
    // blocks that streams are done with, for the next bytes of clients
    spares: Spares,
    // Memory ran out in an event: what was under way is lost.
    lost: bool,
}

impl Model for RampWorld {
    ghost use Rattle.std.specs.Prelude.{map, IsFalse};
    ghost use Rattle.std.specs.List.{AllByRecursion};
    ghost use Rattle.px_world.specs.Consistency.{AreConsistent};
    ghost use Rattle.px_ramp_world.specs.Running.{RampRunning};
    ghost use Rattle.px_ramp_world.specs.Playing.{plain_mixer_of, IsPlaying};
    ghost use Rattle.px_ramp_world.specs.Parts.{running_of};

    ghost Value = { RampRunning };

    ghost view = { λ w. running_of w.core.state w.doors.entries w.mixers.items };

    ghost invariant = { λ w. IsFalse w.lost → AreConsistent w.core.state (map plain_mixer_of w.mixers.items) × AllByRecursion IsPlaying w.mixers.items };
}

// A mixer for each sink, for ramps over `ramp` frames.
fn new_mixers(alloc: Global, sinks: &[SinkSpec], ramp: u32) -> Mem<Vec<RampPlaying>>
    requires sinks { All (λ s. (earlier : List Spec) × IsSink earlier s) sinks.now }
    requires ramp { 1 ≤ ramp }
    ensures mixers { IfOk result (λ made. map ramped_mixer_of made.items ≡ map (new_ramped_mixer ramp) sinks.now) }
    ensures playing { IfOk result (λ made. AllByRecursion IsPlaying made.items) }
{
    let mut made = Vec::new(alloc);
    for sink in sinks {
        let playing = RampPlaying::new(alloc, sink, ramp)?;
        made.push(playing)?;
    }
    Ok(made)
}

// Whether a fault is that memory ran out.
fn is_want(fault: WorldFault) -> bool
    ensures { result ≡ loses fault }
{
    match fault {
        WorldFault::NoMemory => true,
        _ => false,
    }
}

impl RampWorld {
    /// The world before the first event, for ramps over `ramp` frames, 1 to 65,536. Takes the memory of its mixers.
    pub fn new(alloc: Global, header: &Header, ramp: u32) -> Mem<RampWorld>
        requires header { IsHeader header.now }
        requires some { 1 ≤ ramp }
        requires few { ramp ≤ 65536 }
        ensures { IfOk result (λ world. StandsFor world (new_ramp_world ramp header.now)) }
    {
        let spares = Spares::new(alloc)?;
        let mixers = new_mixers(alloc, header.sinks.as_slice(), ramp)?;
        let core = Core::new(alloc, header, None)?;
        let doors = Doors::new(alloc);
        Ok(RampWorld {
            core,
            doors,
            mixers,
            spares,
            lost: false,
        })
    }

    /// Does one event. A fault other than `NoMemory` leaves the world unchanged; after `NoMemory` it isn't used again: each later event returns it
    /// too. Refusals, effects, and the counts and notices of each sink are those of a plain world.
    pub fn event(&mut self, alloc: Global, e: Event) -> Result<Outcome, WorldFault>
        ensures done { (w : SpecWorld) → StandsFor self.old w → IfOk result (λ outcome. IsOutcome outcome (plain_of w) e) }
        ensures after { (w : SpecWorld) → StandsFor self.old w → OnOk result (StandsFor self.new (ramp_world_after w e)) }
        ensures refused { (w : SpecWorld) (fault : WorldFault) → StandsFor self.old w → result ≡ Err fault → fault ≢ NoMemory → refusal_of (plain_of w) e ≡ Some fault }
        ensures unchanged { (fault : WorldFault) → result ≡ Err fault → fault ≢ NoMemory → self.new ≡ self.old }
    {
        if self.lost {
            return Err(WorldFault::NoMemory);
        }
        match run(
            &mut self.core,
            &mut self.doors,
            &mut self.mixers,
            &mut self.spares,
            alloc,
            e,
        ) {
            Ok(outcome) => Ok(outcome),
            Err(fault) => {
                self.lost = is_want(fault);
                Err(fault)
            }
        }
    }

    /// Takes the text of the last event that had bytes, which are done with, to be filled again. `None` where there was no such event since the last
    /// call. Takes no memory.
    pub fn used_text(&mut self) -> Option<Text>
        ensures { self.new ≡ self.old }
    {
        self.spares.take_text()
    }

    /// Holds a text whose bytes are done with, for the next `used_text`. Takes no memory.
    pub fn reclaim_text(&mut self, text: Text)
        ensures { self.new ≡ self.old }
    {
        self.spares.reclaim_text(text);
    }
}
