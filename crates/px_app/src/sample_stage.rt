//! The stage of a replay with a sample cache: a world with a sample cache that the session's events are done in.

ghost use Rattle.std.specs.Prelude.{◌≡◌, [], IfOk};
ghost use Rattle.px_header.specs.HeaderRules.{IsHeader};
ghost use Rattle.px_app.specs.Samples.{IsSampled};

use crate::records::{turn_sink, write_outcome};
use crate::stage::Stage;
use crate::view::Lens;
use px_cache_world::CacheWorld;
use px_ends::Pieces;
use px_header::Header;
use px_session::{Event, write_end};
use px_types::{Mem, NoMemory, Text};
use px_world::WorldFault;
use std::alloc::Global;

/// A world with a sample cache.
#[derive(Drop)]
pub(crate) struct Sampling {
    world: CacheWorld,
}

impl Sampling {
    /// The stage for a session with this header.
    pub(crate) fn new(alloc: Global, header: &Header) -> Mem<Sampling>
        requires { IsHeader header.now }
        ensures { IfOk result (λ stage. IsSampled stage tt header.now []) }
    {
        Ok(Sampling {
            world: CacheWorld::new(alloc, header)?,
        })
    }
}

impl Stage for Sampling {
    ghost use Rattle.px_cache_world.specs.Sampler.{Sampler};
    ghost use Rattle.px_app.specs.Samples.{sample_mode};

    ghost State = { Sampler };

    ghost Asked = { Unit {0} };

    ghost Look = { Unit {0} };

    ghost mode = { sample_mode };

    ghost stands = { λ stage look header events. IsSampled stage look header events };

    ghost ready = { λ stage. Unit {0} };

    ghost counts = { λ stage at. Unit {0} };

    fn open(&self, pieces: &mut Pieces) -> Mem<()> {
        let _ = pieces;
        Ok(())
    }

    fn event(
        &mut self,
        alloc: Global,
        e: Event,
        pieces: &mut Pieces,
    ) -> Result<Option<Text>, WorldFault> {
        let sink = turn_sink(&e);
        let outcome = match self.world.event(alloc, e) {
            Ok(outcome) => outcome,
            Err(fault) => return Err(fault),
        };
        match write_outcome(pieces, Lens::Records, sink, &outcome) {
            Ok(()) => Ok(self.world.used_text()),
            Err(_) => Err(WorldFault::NoMemory),
        }
    }

    fn close(&self, alloc: Global, pieces: &mut Pieces) -> Mem<()> {
        let _ = alloc;
        match write_end(pieces) {
            Ok(()) => Ok(()),
            Err(_) => Err(NoMemory),
        }
    }

    ghost counts_more = { λ stage at more less counts. tt };
}
