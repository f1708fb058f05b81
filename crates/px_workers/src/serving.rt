//! What a serving call has under way: its workers, from their start to their end.
ghost use Rattle.std.specs.Prelude.{◌≡◌, ◌+◌, ◌≤◌, ◌<◌, ◌++◌, [], length, map, IfErr, OnOk};
ghost use Rattle.std.specs.VecDeque.{deque_len, deque_capacity};
ghost use Rattle.px_workers.specs.Hosted.{IsLater, IsCalm, IsCauseOf, IsOwn};
ghost use Rattle.px_workers.specs.Accepting.{HasRoom, Starts, Takes};
ghost use Rattle.px_workers.specs.Working.{start_of, mailboxes_of, tapes_in, lasting_of};

use crate::gate::Gate;
use crate::hosting::{ask, next_link};
use crate::runs::{Client, SinkRun};
use crate::sink_state::SinkState;
use crate::starting::{add_client, connect, depart, start_next};
use crate::stop::Stop;
use px_ends::Host;
use px_types::{ConnId, Mem};
use px_worker_api::Handle;
use std::alloc::Global;
use std::collections::VecDeque;
use std::sync::{Arc, Wait};
use std::thread::Threads;

// What a serving call has under way.
#[derive(Drop)]
struct Serving<W, H, G>
where
    H: Host,
    W: Handle<Outlet = H::O> + Send,
    W::Blocks: Send,
    G: Gate + Drop + Send + Sync,
{
    handle: W,
    gate: Arc<G>,
    sinks: VecDeque<SinkRun<W, H::D, H::R, G>>,
    clients: VecDeque<Client<W, H::L, G>>,
    next: u32,
}

impl<W, H, G> Serving<W, H, G>
where
    H: Host,
    H::L: 'static,
    H::O: 'static,
    H::D: 'static,
    H::R: 'static,
    W: Handle<Outlet = H::O> + Send,
    W::Rt: Threads + Send + Sync,
    W::Blocks: Send,
    G: Gate + Drop + Send + Sync + 'static,
{
    // A call before its first worker starts.
    fn new(handle: W, gate: Arc<G>) -> Self
        ensures handle { result.handle ≡ handle }
        ensures idle { (result.sinks.items ≡ []) × (result.clients.items ≡ []) }
    {
        let alloc = handle.alloc();
        Serving {
            handle,
            gate,
            sinks: VecDeque::new(alloc),
            clients: VecDeque::new(alloc),
            next: 0,
        }
    }

    // Joins a client's worker, where the client has gone.
    fn settle(&mut self, client: Client<W, H::L, G>)
        requires { deque_len self.old.clients < deque_capacity self.old.clients }
        ensures parts { W.parts self.new.handle + length self.new.clients.items ≡ W.parts self.old.handle + length self.old.clients.items + 1 }
        ensures fewer { length self.new.clients.items ≤ length self.old.clients.items + 1 }
        ensures sinks { self.new.sinks ≡ self.old.sinks }
    {
        if self.handle.has_queue(client.conn) {
            self.clients.push_back_reserved(client);
        } else {
            client.join(&mut self.handle);
        }
    }

    // Joins the workers of clients that have gone.
    fn reap(&mut self)
        ensures parts { W.parts self.new.handle + length self.new.clients.items ≡ W.parts self.old.handle + length self.old.clients.items }
        ensures fewer { length self.new.clients.items ≤ length self.old.clients.items }
        ensures sinks { self.new.sinks ≡ self.old.sinks }
    {
        for _ in 0..self.clients.len() {
            let Some(client) = self.clients.pop_front() else {
                return;
            };
            self.settle(client);
        }
    }

    // Joins the workers of all clients.
    fn join_clients(&mut self)
        ensures parts { W.parts self.new.handle ≡ W.parts self.old.handle + length self.old.clients.items }
        ensures sinks { self.new.sinks ≡ self.old.sinks }
    {
        while let Some(client) = self.clients.pop_front() {
            client.join(&mut self.handle);
        }
    }

    // Starts the worker of a client that has connected.
    fn start_client(&mut self, conn: ConnId, link: H::L) -> Mem<()>
        requires { 1 < W.parts self.old.handle }
        ensures parts { W.parts self.new.handle + length self.new.clients.items ≡ W.parts self.old.handle + length self.old.clients.items }
        ensures more { length self.new.clients.items ≤ length self.old.clients.items + 1 }
        ensures sinks { self.new.sinks ≡ self.old.sinks }
    {
        self.clients.reserve(1)?;
        add_client(&mut self.handle, &self.gate, &mut self.clients, conn, link)
    }

    // Admits a client.
    fn admit(&mut self, link: H::L, outlet: Option<H::O>) -> Result<(), Stop>
        requires { 1 < W.parts self.old.handle }
        ensures parts { W.parts self.new.handle + length self.new.clients.items ≡ W.parts self.old.handle + length self.old.clients.items }
        ensures more { length self.new.clients.items ≤ length self.old.clients.items + 1 }
        ensures sinks { self.new.sinks ≡ self.old.sinks }
        ensures cause { IfErr result IsOwn }
    {
        let conn = ConnId(self.next);
        self.next = self.next.wrapping_add(1);
        connect(&mut self.handle, conn, outlet)?;
        if self.start_client(conn, link).is_err() {
            depart(&mut self.handle, conn);
            return Err(Stop::Memory);
        }
        Ok(())
    }

    // Admits the next client, where one comes.
    #[tactic(auto, using(crate::proofs::Later::cause_own))]
    fn accept_one(&mut self, host: &mut H) -> Result<(), Stop>
        requires room { HasRoom (record { parts = W.parts self.old.handle; clients = length self.old.clients.items; sinks = self.old.sinks; host = H.now host.old }) }
        ensures takes { Takes (record { parts = W.parts self.old.handle; clients = length self.old.clients.items; sinks = self.old.sinks; host = H.now host.old }) (record { parts = W.parts self.new.handle; clients = length self.new.clients.items; sinks = self.new.sinks; host = H.now host.new }) }
        ensures links { OnOk result (((H.now host.old).links < 65535) × ((H.now host.new).links ≡ (H.now host.old).links + 1)) }
        ensures calm { OnOk result (IsCalm (H.now host.old) (H.now host.new)) }
        ensures cause { IfErr result (λ stop. IsCauseOf stop (H.now host.old) (H.now host.new)) }
        ensures dialled { H.dialled host.new ≡ H.dialled host.old }
    {
        self.reap();
        let (link, outlet) = next_link(self.handle.alloc(), host)?;
        self.admit(link, outlet)
    }

    // Admits clients until no more come: a host hands out at most 65,535 links.
    fn accept_all(&mut self, host: &mut H) -> Stop
        requires room { HasRoom (record { parts = W.parts self.old.handle; clients = length self.old.clients.items; sinks = self.old.sinks; host = H.now host.old }) }
        ensures takes { Takes (record { parts = W.parts self.old.handle; clients = length self.old.clients.items; sinks = self.old.sinks; host = H.now host.old }) (record { parts = W.parts self.new.handle; clients = length self.new.clients.items; sinks = self.new.sinks; host = H.now host.new }) }
        ensures cause { IsCauseOf result (H.now host.old) (H.now host.new) }
        ensures dialled { H.dialled host.new ≡ H.dialled host.old }
    {
        loop {
            if let Err(stop) = self.accept_one(host) {
                return stop;
            }
        }
    }

    // Starts the worker of the next sink in `idle`, where the host lets it. On a failure the sink stays.
    fn start_one(
        &mut self,
        idle: &mut VecDeque<SinkState<H::D, H::R>>,
        host: &mut H,
    ) -> Result<(), Stop>
        requires seats { 1 < W.parts self.old.handle }
        requires some { 0 < length idle.old.items }
        ensures starts { Starts (record { parts = W.parts self.old.handle; clients = self.old.clients; sinks = self.old.sinks.items; idle = idle.old.items; capacity = deque_capacity idle.old; host = H.now host.old }) (record { parts = W.parts self.new.handle; clients = self.new.clients; sinks = self.new.sinks.items; idle = idle.new.items; capacity = deque_capacity idle.new; host = H.now host.new }) }
        ensures fewer { OnOk result (length idle.new.items < length idle.old.items) }
        ensures calm { OnOk result (IsCalm (H.now host.old) (H.now host.new)) }
        ensures cause { IfErr result (λ stop. IsCauseOf stop (H.now host.old) (H.now host.new)) }
        ensures dialled { H.dialled host.new ≡ H.dialled host.old }
    {
        ask(host)?;
        match start_next(&mut self.handle, &self.gate, &mut self.sinks, idle) {
            Ok(()) => Ok(()),
            Err(_) => Err(Stop::Memory),
        }
    }

    // Starts the workers of the sinks, in order, as far as that works.
    fn start_sinks(
        &mut self,
        idle: &mut VecDeque<SinkState<H::D, H::R>>,
        host: &mut H,
    ) -> Result<(), Stop>
        requires { length idle.old.items < W.parts self.old.handle }
        ensures starts { Starts (record { parts = W.parts self.old.handle; clients = self.old.clients; sinks = self.old.sinks.items; idle = idle.old.items; capacity = deque_capacity idle.old; host = H.now host.old }) (record { parts = W.parts self.new.handle; clients = self.new.clients; sinks = self.new.sinks.items; idle = idle.new.items; capacity = deque_capacity idle.new; host = H.now host.new }) }
        ensures calm { OnOk result (IsCalm (H.now host.old) (H.now host.new)) }
        ensures cause { IfErr result (λ stop. IsCauseOf stop (H.now host.old) (H.now host.new)) }
        ensures dialled { H.dialled host.new ≡ H.dialled host.old }
    {
        while !idle.is_empty() {
            self.start_one(idle, host)?;
        }
        Ok(())
    }

    // Starts the workers of the sinks, and admits clients until no more come.
    fn work(&mut self, host: &mut H, idle: &mut VecDeque<SinkState<H::D, H::R>>) -> Stop
        requires idle { (self.old.sinks.items ≡ []) × (self.old.clients.items ≡ []) }
        requires seats { W.parts self.old.handle ≡ 65552 }
        requires few { length idle.old.items ≤ 16 }
        ensures parts { W.parts self.new.handle + length self.new.sinks.items + length self.new.clients.items ≡ 65552 }
        ensures all { self.new.sinks.items ++ idle.new.items ≡ idle.old.items }
        ensures capacity { deque_capacity idle.new ≡ deque_capacity idle.old }
        ensures later { IsLater (H.now host.old) (H.now host.new) }
        ensures lent { (H.now host.new).lent ≡ (H.now host.old).lent }
        ensures cause { IsCauseOf result (H.now host.old) (H.now host.new) }
        ensures dialled { H.dialled host.new ≡ H.dialled host.old }
    {
        match self.start_sinks(idle, host) {
            Ok(()) => self.accept_all(host),
            Err(stop) => stop,
        }
    }

    // Joins the workers of the sinks, which go before those that never had one.
    fn join_sinks(&mut self, idle: &mut VecDeque<SinkState<H::D, H::R>>)
        requires room { length self.old.sinks.items + length idle.old.items ≤ deque_capacity idle.old }
        ensures parts { W.parts self.new.handle ≡ W.parts self.old.handle + length self.old.sinks.items }
        ensures lasting { map lasting_of idle.new.items ≡ map lasting_of (self.old.sinks.items ++ idle.old.items) }
    {
        while let Some(run) = self.sinks.pop_back() {
            idle.push_front_reserved(run.join(&mut self.handle));
        }
    }

    // Joins all workers, those of the clients first.
    fn join_all(&mut self, idle: &mut VecDeque<SinkState<H::D, H::R>>)
        requires room { length self.old.sinks.items + length idle.old.items ≤ deque_capacity idle.old }
        ensures parts { W.parts self.new.handle ≡ W.parts self.old.handle + length self.old.sinks.items + length self.old.clients.items }
        ensures lasting { map lasting_of idle.new.items ≡ map lasting_of (self.old.sinks.items ++ idle.old.items) }
    {
        self.join_clients();
        self.handle.stop_sinks();
        self.join_sinks(idle);
    }

    // Joins all workers. What is left is the call's own handle on the core, with all shares.
    fn joined(mut self, idle: &mut VecDeque<SinkState<H::D, H::R>>) -> W
        requires parts { W.parts self.handle + length self.sinks.items + length self.clients.items ≡ 65552 }
        requires room { length self.sinks.items + length idle.old.items ≤ deque_capacity idle.old }
        ensures seats { W.parts result ≡ 65552 }
        ensures lasting { map lasting_of idle.new.items ≡ map lasting_of (self.sinks.items ++ idle.old.items) }
    {
        self.join_all(idle);
        self.handle
    }

    // Runs all workers, from their start to their end. What is left is the call's own handle on the core, with all shares, and why it stopped.
    fn worked(mut self, host: &mut H, idle: &mut VecDeque<SinkState<H::D, H::R>>) -> (W, Stop)
        requires idle { (self.sinks.items ≡ []) × (self.clients.items ≡ []) }
        requires seats { W.parts self.handle ≡ 65552 }
        requires few { length idle.old.items ≤ 16 }
        ensures seats { W.parts result.0 ≡ 65552 }
        ensures lasting { map lasting_of idle.new.items ≡ map lasting_of idle.old.items }
        ensures later { IsLater (H.now host.old) (H.now host.new) }
        ensures lent { (H.now host.new).lent ≡ (H.now host.old).lent }
        ensures cause { IsCauseOf result.1 (H.now host.old) (H.now host.new) }
        ensures dialled { H.dialled host.new ≡ H.dialled host.old }
    {
        let stop = self.work(host, idle);
        (self.joined(idle), stop)
    }
}

/// Runs all workers, from their start to their end: one for each of these sinks, in order, and one for each client that the host hands out, until no
/// more come or something fails. The handle has 65,552 shares: one for each link that a host can hand out, one for each of 16 sinks, and its own.
/// What is left is the handle with all of them, and why the call stopped; the sinks are back in `idle`, with their workers' faults.
pub fn serve_all<W, H, G>(
    handle: W,
    host: &mut H,
    gate: Arc<G>,
    idle: &mut VecDeque<SinkState<H::D, H::R>>,
) -> (W, Stop)
where
    H: Host,
    H::L: 'static,
    H::O: 'static,
    H::D: 'static,
    H::R: 'static,
    W: Handle<Outlet = H::O> + Send,
    W::Rt: Threads + Send + Sync,
    W::Blocks: Send,
    G: Gate + Drop + Send + Sync + 'static,
    requires seats { W.parts handle ≡ 65552 }
    requires few { length idle.old.items ≤ 16 }
    ensures seats { W.parts result.0 ≡ 65552 }
    ensures starts { map start_of idle.new.items ≡ map start_of idle.old.items }
    ensures boxes { map mailboxes_of idle.new.items ≡ map mailboxes_of idle.old.items }
    ensures tapes { map tapes_in idle.new.items ≡ map tapes_in idle.old.items }
    ensures later { IsLater (H.now host.old) (H.now host.new) }
    ensures lent { (H.now host.new).lent ≡ (H.now host.old).lent }
    ensures cause { IsCauseOf result.1 (H.now host.old) (H.now host.new) }
    ensures dialled { H.dialled host.new ≡ H.dialled host.old }
{
    Serving::<W, H, G>::new(handle, gate).worked(host, idle)
}
