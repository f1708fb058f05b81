//! The stage of a replay with monitors: a world with monitors that the session's events are done in.

ghost use Rattle.std.specs.Prelude.{◌≡◌, [], IfOk};
ghost use Rattle.px_header.specs.HeaderRules.{IsHeader};
ghost use Rattle.px_app.specs.Monitor.{IsMonitored};

use crate::records::{turn_sink, write_monitored};
use crate::stage::Stage;
use px_ends::Pieces;
use px_header::Header;
use px_monitor::MonitorWorld;
use px_session::{Event, write_end};
use px_types::{Mem, NoMemory, Text};
use px_world::WorldFault;
use std::alloc::Global;

/// A world with monitors.
#[derive(Drop)]
pub(crate) struct Monitoring {
    world: MonitorWorld,
}

impl Monitoring {
    /// The stage for a session with this header.
    pub(crate) fn new(alloc: Global, header: &Header) -> Mem<Monitoring>
        requires { IsHeader header.now }
        ensures { IfOk result (λ stage. IsMonitored stage tt header.now []) }
    {
        Ok(Monitoring {
            world: MonitorWorld::new(alloc, header)?,
        })
    }
}

impl Stage for Monitoring {
    ghost use Rattle.px_monitor.specs.Monitor.{Monitor};
    ghost use Rattle.px_app.specs.Monitor.{monitor_mode};

    ghost State = { Monitor };

    ghost Asked = { Unit {0} };

    ghost Look = { Unit {0} };

    ghost mode = { monitor_mode };

    ghost stands = { λ stage look header events. IsMonitored stage look header events };

    ghost ready = { λ stage. Unit {0} };

    ghost counts = { λ stage at. Unit {0} };

    fn open(&self, pieces: &mut Pieces) -> Mem<()> {
        let _ = pieces;
        Ok(())
    }

    fn event(
        &mut self,
        alloc: Global,
        e: Event,
        pieces: &mut Pieces,
    ) -> Result<Option<Text>, WorldFault> {
        let sink = turn_sink(&e);
        let outcome = match self.world.event(alloc, e) {
            Ok(outcome) => outcome,
            Err(fault) => return Err(fault),
        };
        match write_monitored(pieces, sink, &outcome) {
            Ok(()) => Ok(self.world.used_text()),
            Err(_) => Err(WorldFault::NoMemory),
        }
    }

    fn close(&self, alloc: Global, pieces: &mut Pieces) -> Mem<()> {
        let _ = alloc;
        match write_end(pieces) {
            Ok(()) => Ok(()),
            Err(_) => Err(NoMemory),
        }
    }

    ghost counts_more = { λ stage at more less counts. tt };
}
