//! The workers that are under way.
ghost use Rattle.std.specs.Prelude.{◌≡◌, ◌+◌};
ghost use Rattle.px_workers.specs.Jobs.{given_to};
ghost use Rattle.px_workers.specs.Working.{GoesOn};

use crate::gate::Gate;
use crate::link_work::LinkWork;
use crate::running::Running;
use crate::sink_state::SinkState;
use crate::sink_work::SinkWork;
use px_annals::{LaneEntry, Recorder};
use px_ends::{Device, Link};
use px_types::ConnId;
use px_worker_api::Handle;
use std::marker::Model;
use std::thread::Threads;

/// A client's worker under way, which has one share in the core's steps. Contracts see whose it is.
#[derive(Drop)]
pub(crate) struct Client<W, A, G>
where
    W: Handle + Send,
    W::Blocks: Send,
    A: Link + Drop + Send,
    G: Gate + Drop + Send + Sync,
{
    pub conn: ConnId,
    pub running: Running<LinkWork<W, A, G>>,
}

impl<W, A, G> Model for Client<W, A, G>
where
    W: Handle + Send,
    W::Blocks: Send,
    A: Link + Drop + Send,
    G: Gate + Drop + Send + Sync,
{
    ghost use Rattle.std.specs.Prelude.{◌≡◌};
    ghost use Rattle.px_types.specs.declared.ids.ConnId.{ConnId as Conn};
    ghost use Rattle.px_workers.specs.Jobs.{given_to};

    ghost Value = { Conn };

    ghost view = { λ c. c.conn };

    ghost invariant = { λ c. W.parts ((given_to c.running).worker.handle) ≡ 1 };
}

impl<W, A, G> Client<W, A, G>
where
    W: Handle + Send,
    W::Rt: Threads + Send + Sync,
    W::Blocks: Send,
    A: Link + Drop + Send,
    G: Gate + Drop + Send + Sync,
{
    /// Waits for the end of its work. Its share goes to this handle.
    pub(crate) fn join(self, handle: &mut W)
        ensures { W.parts handle.new ≡ W.parts handle.old + 1 }
    {
        let job = self.running.join(&handle.rt());
        handle.take_back(job.into_handle());
    }
}

/// A sink's worker under way, which has one share in the core's steps. Contracts see the sink that it was given.
#[derive(Drop)]
pub(crate) struct SinkRun<W, D, E, G>
where
    W: Handle + Send,
    W::Blocks: Send,
    D: Device + Drop + Send,
    E: Recorder<LaneEntry> + Drop + Send,
    G: Gate + Drop + Send + Sync,
{
    pub running: Running<SinkWork<W, D, E, G>>,
}

impl<W, D, E, G> Model for SinkRun<W, D, E, G>
where
    W: Handle + Send,
    W::Blocks: Send,
    D: Device + Drop + Send,
    E: Recorder<LaneEntry> + Drop + Send,
    G: Gate + Drop + Send + Sync,
{
    ghost use Rattle.std.specs.Prelude.{◌≡◌};
    ghost use Rattle.px_workers.specs.Jobs.{given_to};
    ghost use Rattle.px_workers.specs.Working.{Unworked};

    ghost Value = { Unworked D E };

    ghost view = { λ r. (given_to r.running).state };

    ghost invariant = { λ r. W.parts ((given_to r.running).worker.handle) ≡ 1 };
}

impl<W, D, E, G> SinkRun<W, D, E, G>
where
    W: Handle + Send,
    W::Rt: Threads + Send + Sync,
    W::Blocks: Send,
    D: Device + Drop + Send,
    E: Recorder<LaneEntry> + Drop + Send,
    G: Gate + Drop + Send + Sync,
{
    /// Waits for the end of its work, and hands the sink back. Its share goes to this handle.
    pub(crate) fn join(self, handle: &mut W) -> SinkState<D, E>
        ensures parts { W.parts handle.new ≡ W.parts handle.old + 1 }
        ensures goes { GoesOn self result }
    {
        let job = self.running.join(&handle.rt());
        let (other, state) = job.into_parts();
        handle.take_back(other);
        state
    }
}
