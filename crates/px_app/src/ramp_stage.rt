//! The stage of a replay with ramps: a world whose volumes change by ramps, that the session's events are done in.

ghost use Rattle.std.specs.Prelude.{◌≡◌, ◌≤◌, [], IfOk};
ghost use Rattle.px_header.specs.HeaderRules.{IsHeader};
ghost use Rattle.px_app.specs.Ramp.{IsRamped};
ghost use Rattle.px_app.specs.Words.{LONGEST_RAMP};

use crate::records::{turn_sink, write_outcome};
use crate::stage::Stage;
use crate::view::Lens;
use px_ends::Pieces;
use px_header::Header;
use px_ramp_world::RampWorld;
use px_session::{Event, write_end};
use px_types::{Mem, NoMemory, Text};
use px_world::WorldFault;
use std::alloc::Global;

/// A world with ramps.
#[derive(Drop)]
pub(crate) struct Ramping {
    world: RampWorld,
}

impl Ramping {
    /// The stage for a session with this header, for ramps over `ramp` frames.
    pub(crate) fn new(alloc: Global, header: &Header, ramp: u32) -> Mem<Ramping>
        requires header { IsHeader header.now }
        requires some { 1 ≤ ramp }
        requires few { ramp ≤ LONGEST_RAMP }
        ensures { IfOk result (λ stage. IsRamped stage ramp header.now []) }
    {
        Ok(Ramping {
            world: RampWorld::new(alloc, header, ramp)?,
        })
    }
}

impl Stage for Ramping {
    ghost use Rattle.std.specs.Prelude.{ℕ};
    ghost use Rattle.px_app.specs.Ramp.{Ramped, ramp_mode};

    ghost State = { Ramped };

    ghost Asked = { ℕ };

    ghost Look = { ℕ };

    ghost mode = { ramp_mode };

    ghost stands = { λ stage look header events. IsRamped stage look header events };

    ghost ready = { λ stage. Unit {0} };

    ghost counts = { λ stage at. Unit {0} };

    fn open(&self, pieces: &mut Pieces) -> Mem<()> {
        let _ = pieces;
        Ok(())
    }

    fn event(
        &mut self,
        alloc: Global,
        e: Event,
        pieces: &mut Pieces,
    ) -> Result<Option<Text>, WorldFault> {
        let sink = turn_sink(&e);
        let outcome = match self.world.event(alloc, e) {
            Ok(outcome) => outcome,
            Err(fault) => return Err(fault),
        };
        match write_outcome(pieces, Lens::Records, sink, &outcome) {
            Ok(()) => Ok(self.world.used_text()),
            Err(_) => Err(WorldFault::NoMemory),
        }
    }

    fn close(&self, alloc: Global, pieces: &mut Pieces) -> Mem<()> {
        let _ = alloc;
        match write_end(pieces) {
            Ok(()) => Ok(()),
            Err(_) => Err(NoMemory),
        }
    }

    ghost counts_more = { λ stage at more less counts. tt };
}
