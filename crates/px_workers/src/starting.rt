//! The starts of workers.
ghost use Rattle.std.specs.Prelude.{◌≡◌, ◌+◌, ◌≤◌, ◌<◌, ◌++◌, ◌∷◌, [], length, IfOk, IfErr, OnOk};
ghost use Rattle.std.specs.VecDeque.{deque_len, deque_capacity};
ghost use Rattle.px_workers.specs.Hosted.{IsOwn};

use crate::gate::Gate;
use crate::link_work::LinkWork;
use crate::running::start;
use crate::runs::{Client, SinkRun};
use crate::sink_state::SinkState;
use crate::sink_work::SinkWork;
use crate::stop::Stop;
use crate::worker::Worker;
use px_annals::{LaneEntry, Recorder};
use px_ends::{Device, Link};
use px_types::{ConnId, Mem, NoMemory};
use px_worker_api::{CoreStop, Handle};
use std::collections::VecDeque;
use std::sync::Arc;
use std::thread::Threads;

// Starts a worker with a sink. On a failure its handle and the sink come back.
fn start_with<W, D, E, G>(
    worker: Worker<W, G>,
    idle: SinkState<D, E>,
) -> Result<SinkRun<W, D, E, G>, (W, SinkState<D, E>)>
where
    W: Handle + Send,
    W::Rt: Threads + Send + Sync,
    W::Blocks: Send,
    D: Device + Drop + Send + 'static,
    E: Recorder<LaneEntry> + Drop + Send + 'static,
    G: Gate + Drop + Send + Sync + 'static,
    requires { W.parts worker.handle ≡ 1 }
    ensures ok { IfOk result (λ run. run ≡ idle) }
    ensures err { IfErr result (λ back. (W.parts back.0 ≡ 1) × (back.1 ≡ idle)) }
{
    let rt = worker.handle.rt();
    let alloc = worker.handle.alloc();
    match start(
        &rt,
        alloc,
        SinkWork {
            worker,
            state: idle,
        },
    ) {
        Ok(running) => Ok(SinkRun { running }),
        Err(job) => Err(job.into_parts()),
    }
}

// Starts a worker with a sink, with one share of this handle's. On a failure the sink comes back, and the share.
fn start_sink<W, D, E, G>(
    handle: &mut W,
    gate: &Arc<G>,
    idle: SinkState<D, E>,
) -> Result<SinkRun<W, D, E, G>, SinkState<D, E>>
where
    W: Handle + Send,
    W::Rt: Threads + Send + Sync,
    W::Blocks: Send,
    D: Device + Drop + Send + 'static,
    E: Recorder<LaneEntry> + Drop + Send + 'static,
    G: Gate + Drop + Send + Sync + 'static,
    requires { 1 < W.parts handle.old }
    ensures ok { IfOk result (λ run. (run ≡ idle) × (W.parts handle.new + 1 ≡ W.parts handle.old)) }
    ensures err { IfErr result (λ back. (back ≡ idle) × (W.parts handle.new ≡ W.parts handle.old)) }
{
    let Ok(worker) = Worker::new(handle, gate) else {
        return Err(idle);
    };
    match start_with(worker, idle) {
        Ok(run) => Ok(run),
        Err((other, idle)) => {
            handle.take_back(other);
            Err(idle)
        }
    }
}

/// Opens a client's output queue, and connects the client.
pub(crate) fn connect<W: Handle>(
    handle: &mut W,
    conn: ConnId,
    outlet: Option<W::Outlet>,
) -> Result<(), Stop>
    ensures parts { W.parts handle.new ≡ W.parts handle.old }
    ensures cause { IfErr result IsOwn }
{
    if handle.open_queue(conn, outlet).is_err() {
        return Err(Stop::Memory);
    }
    // a core whose counter of steps is at its maximum serves no more clients, and nothing has failed
    if let Err(CoreStop::Unrecorded(fault)) = handle.connect(conn) {
        return Err(Stop::Unrecorded(fault));
    }
    Ok(())
}

// Starts a worker with a client's link. On a failure its handle comes back.
fn start_link<W, A, G>(worker: Worker<W, G>, conn: ConnId, link: A) -> Result<Client<W, A, G>, W>
where
    W: Handle + Send,
    W::Rt: Threads + Send + Sync,
    W::Blocks: Send,
    A: Link + Drop + Send + 'static,
    G: Gate + Drop + Send + Sync + 'static,
    requires { W.parts worker.handle ≡ 1 }
    ensures { IfErr result (λ back. W.parts back ≡ 1) }
{
    let rt = worker.handle.rt();
    let alloc = worker.handle.alloc();
    match start(
        &rt,
        alloc,
        LinkWork {
            worker,
            conn,
            link: Some(link),
        },
    ) {
        Ok(running) => Ok(Client { conn, running }),
        Err(job) => Err(job.into_handle()),
    }
}

/// Starts a worker with a client's link, with one share of this handle's, where there is room for it. On a failure the share comes back.
pub(crate) fn add_client<W, A, G>(
    handle: &mut W,
    gate: &Arc<G>,
    clients: &mut VecDeque<Client<W, A, G>>,
    conn: ConnId,
    link: A,
) -> Mem<()>
where
    W: Handle + Send,
    W::Rt: Threads + Send + Sync,
    W::Blocks: Send,
    A: Link + Drop + Send + 'static,
    G: Gate + Drop + Send + Sync + 'static,
    requires seats { 1 < W.parts handle.old }
    requires room { deque_len clients.old < deque_capacity clients.old }
    ensures parts { W.parts handle.new + length clients.new.items ≡ W.parts handle.old + length clients.old.items }
    ensures more { length clients.new.items ≤ length clients.old.items + 1 }
{
    let worker = Worker::new(handle, gate)?;
    match start_link(worker, conn, link) {
        Ok(client) => {
            clients.push_back_reserved(client);
            Ok(())
        }
        Err(other) => {
            handle.take_back(other);
            Err(NoMemory)
        }
    }
}

// Starts a sink's worker. On a failure the sink comes back.
fn add_sink<W, D, E, G>(
    handle: &mut W,
    gate: &Arc<G>,
    sinks: &mut VecDeque<SinkRun<W, D, E, G>>,
    one: SinkState<D, E>,
) -> Result<(), SinkState<D, E>>
where
    W: Handle + Send,
    W::Rt: Threads + Send + Sync,
    W::Blocks: Send,
    D: Device + Drop + Send + 'static,
    E: Recorder<LaneEntry> + Drop + Send + 'static,
    G: Gate + Drop + Send + Sync + 'static,
    requires { 1 < W.parts handle.old }
    ensures ok { OnOk result ((sinks.new.items ≡ sinks.old.items ++ one ∷ []) × (W.parts handle.new + 1 ≡ W.parts handle.old)) }
    ensures err { IfErr result (λ back. (back ≡ one) × (sinks.new.items ≡ sinks.old.items) × (W.parts handle.new ≡ W.parts handle.old)) }
{
    if sinks.reserve(1).is_err() {
        return Err(one);
    }
    let run = start_sink(handle, gate, one)?;
    sinks.push_back_reserved(run);
    Ok(())
}

/// Closes a client's connection, and drops its output queue.
pub(crate) fn depart<W: Handle>(handle: &mut W, conn: ConnId)
    ensures { W.parts handle.new ≡ W.parts handle.old }
{
    // where the core makes no more steps, no client is served any more
    let _closed = handle.close(conn);
    handle.close_queue(conn);
}

/// Starts the worker of the next sink of `idle`. On a failure the sink stays.
pub(crate) fn start_next<W, D, E, G>(
    handle: &mut W,
    gate: &Arc<G>,
    sinks: &mut VecDeque<SinkRun<W, D, E, G>>,
    idle: &mut VecDeque<SinkState<D, E>>,
) -> Mem<()>
where
    W: Handle + Send,
    W::Rt: Threads + Send + Sync,
    W::Blocks: Send,
    D: Device + Drop + Send + 'static,
    E: Recorder<LaneEntry> + Drop + Send + 'static,
    G: Gate + Drop + Send + Sync + 'static,
    requires seats { 1 < W.parts handle.old }
    requires some { 0 < length idle.old.items }
    ensures parts { W.parts handle.new + length idle.old.items ≡ W.parts handle.old + length idle.new.items }
    ensures all { sinks.new.items ++ idle.new.items ≡ sinks.old.items ++ idle.old.items }
    ensures capacity { deque_capacity idle.new ≡ deque_capacity idle.old }
    ensures fewer { OnOk result (length idle.new.items < length idle.old.items) }
{
    let Some(one) = idle.pop_front() else {
        unreachable!()
    };
    match add_sink(handle, gate, sinks, one) {
        Ok(()) => Ok(()),
        Err(one) => {
            idle.push_front_reserved(one);
            Err(NoMemory)
        }
    }
}
