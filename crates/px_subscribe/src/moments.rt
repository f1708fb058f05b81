//! The infos of a scene, and the subscription events between one scene and a later one.

ghost use Rattle.std.specs.Prelude.{◌≡◌, ◌++◌, ◌∷◌, [], List, All, IfOk, IfSome, OnOk, map, option_map};
ghost use Rattle.px_names.specs.declared.client.Client.{Client};
ghost use Rattle.px_outcome.specs.declared.input.Connection.{Connection};
ghost use Rattle.px_header.specs.HeaderRules.{AreSinks};
ghost use Rattle.px_names.specs.Clients.{client_on, mask_of};
ghost use Rattle.px_ctl_info.specs.Clients.{info_of};
ghost use Rattle.px_ctl_info.specs.Sinks.{server_of};
ghost use Rattle.px_sinks.specs.Sinks.{target_at};
ghost use Rattle.px_subscribe.specs.InfoBytes.{AreWritable, IsWritableClient, IsWritableServer};
ghost use Rattle.px_subscribe.specs.Scene.{scene_after, scene_arrived, scene_joined};
ghost use Rattle.px_subscribe.specs.Moments.{AreShown, info_lists_of, subscriber_of, subscribers_in, subscribers_of, notified_since, notified_between, joined_since};

use crate::announce::{Subscriber, announce_all};
use crate::between::{Counts, Moment, client_events, events_between};
use crate::scene::Scene;
use px_ctl_info::{client_info_list, input_info_list, server_of, sink_info_list};
use px_flat::Group;
use px_header::SinkSpec;
use px_msg::Msg;
use px_names::{Client, SourceName};
use px_outcome::{Change, Connection, Sending};
use px_reply::{ClientInfo, ServerInfo};
use px_sinks::{target_at, targets_of};
use px_types::{ConnId, InputId, Mem, SinkId};
use std::alloc::Global;

// The info of the server, where `source` is the name of the default source, if it tells one.
fn server_info(
    alloc: Global,
    source: Option<&SourceName>,
    sinks: &[SinkSpec],
    fallback: SinkId,
) -> Mem<Option<ServerInfo>>
    requires { AreSinks [] sinks.now }
    ensures value { IfOk result (λ info. info ≡ option_map (server_of (option_map (λ name. name.now) source.entry)) (target_at sinks.now fallback)) }
    ensures writable { IfOk result (λ info. IfSome info IsWritableServer) }
{
    match target_at(alloc, sinks, fallback)? {
        None => Ok(None),
        Some(target) => Ok(Some(server_of(alloc, source, &target)?)),
    }
}

// The client of a connection.
fn client_on(clients: &[Client], conn: ConnId) -> Option<&Client>
    ensures { option_map (λ client. client.now) result ≡ client_on clients.now conn }
{
    clients.iter().find(|client| client.conn.0 == conn.0)
}

// The mask of a connection's client; 0 where there is none.
fn mask_on(clients: &[Client], conn: ConnId) -> u32
    ensures { result ≡ mask_of (client_on clients.now conn) }
{
    match client_on(clients, conn) {
        None => 0,
        Some(client) => client.mask,
    }
}

// Adds one more connection, where it is live.
fn add_subscriber(all: &mut Vec<Subscriber>, clients: &[Client], c: &Connection) -> Mem<()>
    ensures { OnOk result ((more : List Connection) → all.new.items ++ subscribers_in clients.now more ≡ all.old.items ++ subscribers_in clients.now (c.now ∷ more)) }
{
    if !c.marked {
        all.push(Subscriber {
            conn: c.conn,
            mask: mask_on(clients, c.conn),
        })?;
    }
    Ok(())
}

// The live connections, with the masks of their clients.
fn subscribers_in(
    alloc: Global,
    clients: &[Client],
    connections: &[Connection],
) -> Mem<Vec<Subscriber>>
    ensures { IfOk result (λ all. all.items ≡ subscribers_in clients.now connections.now) }
{
    let mut all = Vec::new(alloc);
    for c in connections {
        add_subscriber(&mut all, clients, c)?;
    }
    Ok(all)
}

impl Scene {
    /// The infos that the commands for lists and for the server reply with, with these sinks. `Err` for want of memory alone.
    pub fn moment(&self, alloc: Global, sinks: &[SinkSpec]) -> Mem<Moment>
        requires sinks { AreSinks [] sinks.now }
        requires shown { AreShown self.now.inputs }
        ensures value { IfOk result (λ notified. notified ≡ info_lists_of sinks.now self.now) }
        ensures writable { IfOk result AreWritable }
    {
        let targets = targets_of(alloc, sinks)?;
        Ok(Moment {
            sinks: sink_info_list(alloc, &targets, &self.groups)?,
            inputs: input_info_list(alloc, &self.inputs, &self.groups, &self.lists)?,
            clients: client_info_list(alloc, &self.clients)?,
            server: server_info(alloc, self.source.as_ref(), sinks, self.fallback)?,
        })
    }

    /// The live connections, in order of connecting, with the masks of their clients.
    pub fn subscribers(&self, alloc: Global) -> Mem<Vec<Subscriber>>
        ensures { IfOk result (λ all. all.items ≡ subscribers_of self.now) }
    {
        subscribers_in(alloc, &self.clients, &self.connections)
    }

    // The subscription events between the moment `before` and this scene, to those who subscribe in it.
    fn notified_since(
        &self,
        alloc: Global,
        sinks: &[SinkSpec],
        clients_made: u32,
        before: &Moment,
    ) -> Mem<Vec<Sending>>
        requires sinks { AreSinks [] sinks.now }
        requires before { AreWritable before.now }
        requires shown { AreShown self.now.inputs }
        ensures { IfOk result (λ notified. notified.items ≡ notified_since sinks.now clients_made before.now self.now) }
    {
        let after = self.moment(alloc, sinks)?;
        let given = Counts {
            sinks: sinks.len(),
            inputs: self.inputs_made,
            clients: clients_made,
        };
        let events = events_between(alloc, given, before, &after)?;
        let subscribers = self.subscribers(alloc)?;
        announce_all(alloc, &subscribers, &events)
    }

    // Makes the changes, and returns the subscription events since the moment `before`.
    fn make_and_notify<P>(
        &mut self,
        alloc: Global,
        sinks: &[SinkSpec],
        clients_made: u32,
        changes: &[Change<Msg<P>, Group>],
        before: &Moment,
    ) -> Mem<Vec<Sending>>
        requires sinks { AreSinks [] sinks.now }
        requires before { AreWritable before.now }
        requires after { AreShown (scene_after self.old changes.now).inputs }
        ensures { IfOk result (λ notified. notified.items ≡ notified_since sinks.now clients_made before.now (scene_after self.old changes.now)) }
    {
        self.make(alloc, changes)?;
        self.notified_since(alloc, sinks, clients_made, before)
    }

    // Makes the changes, and returns the subscription events that they cause.
    fn change_and_notify<P>(
        &mut self,
        alloc: Global,
        sinks: &[SinkSpec],
        clients_made: u32,
        changes: &[Change<Msg<P>, Group>],
    ) -> Mem<Vec<Sending>>
        requires sinks { AreSinks [] sinks.now }
        requires before { AreShown self.old.inputs }
        requires after { AreShown (scene_after self.old changes.now).inputs }
        ensures { IfOk result (λ notified. notified.items ≡ notified_between sinks.now clients_made self.old (scene_after self.old changes.now)) }
    {
        let before = self.moment(alloc, sinks)?;
        self.make_and_notify(alloc, sinks, clients_made, changes, &before)
    }

    // Settles a moving input on its new sink, makes the changes `later`, and returns the subscription events of both.
    fn arrive_and_notify<P>(
        &mut self,
        alloc: Global,
        sinks: &[SinkSpec],
        clients_made: u32,
        input: InputId,
        later: &[Change<Msg<P>, Group>],
    ) -> Mem<Vec<Sending>>
        requires sinks { AreSinks [] sinks.now }
        requires before { AreShown self.old.inputs }
        requires after { AreShown (scene_after (scene_arrived input self.old) later.now).inputs }
        ensures { IfOk result (λ notified. notified.items ≡ notified_between sinks.now clients_made self.old (scene_after (scene_arrived input self.old) later.now)) }
    {
        let before = self.moment(alloc, sinks)?;
        self.arrive(input);
        self.make_and_notify(alloc, sinks, clients_made, later, &before)
    }

    // The infos of all clients.
    fn client_infos(&self, alloc: Global) -> Mem<Vec<ClientInfo>>
        ensures value { IfOk result (λ infos. infos.items ≡ map info_of self.now.clients) }
        ensures writable { IfOk result (λ infos. All IsWritableClient infos.items) }
    {
        client_info_list(alloc, &self.clients)
    }

    // Admits a client, and returns the events of clients since their infos `before`: no other info changes.
    fn join_and_notify(
        &mut self,
        alloc: Global,
        clients_made: u32,
        conn: ConnId,
        client: u32,
        before: &[ClientInfo],
    ) -> Mem<Vec<Sending>>
        requires { All IsWritableClient before.now }
        ensures { IfOk result (λ notified. notified.items ≡ joined_since clients_made before.now (scene_joined conn client self.old)) }
    {
        self.join(alloc, conn, client)?;
        let after = self.client_infos(alloc)?;
        let events = client_events(alloc, clients_made, before, &after)?;
        let subscribers = self.subscribers(alloc)?;
        announce_all(alloc, &subscribers, &events)
    }

    /// Subscription events caused by `changes`, to those who subscribe once they are made. `clients_made` is the number of clients ever made.
    pub fn notified_of<P>(
        mut self,
        alloc: Global,
        sinks: &[SinkSpec],
        clients_made: u32,
        changes: &[Change<Msg<P>, Group>],
    ) -> Mem<Vec<Sending>>
        requires sinks { AreSinks [] sinks.now }
        requires before { AreShown self.inputs }
        requires after { AreShown (scene_after self changes.now).inputs }
        ensures { IfOk result (λ notified. notified.items ≡ notified_between sinks.now clients_made self (scene_after self changes.now)) }
    {
        self.change_and_notify(alloc, sinks, clients_made, changes)
    }

    /// Subscription events caused by the arrival of a moving `input` at its new sink, and by the changes `later`.
    pub fn notified_arrived<P>(
        mut self,
        alloc: Global,
        sinks: &[SinkSpec],
        clients_made: u32,
        input: InputId,
        later: &[Change<Msg<P>, Group>],
    ) -> Mem<Vec<Sending>>
        requires sinks { AreSinks [] sinks.now }
        requires before { AreShown self.inputs }
        requires after { AreShown (scene_after (scene_arrived input self) later.now).inputs }
        ensures { IfOk result (λ notified. notified.items ≡ notified_between sinks.now clients_made self (scene_after (scene_arrived input self) later.now)) }
    {
        self.arrive_and_notify(alloc, sinks, clients_made, input, later)
    }

    /// Subscription events caused by a client that connects, the last of the `clients_made` ever made.
    pub fn notified_joined(
        mut self,
        alloc: Global,
        sinks: &[SinkSpec],
        clients_made: u32,
        conn: ConnId,
        client: u32,
    ) -> Mem<Vec<Sending>>
        requires sinks { AreSinks [] sinks.now }
        requires shown { AreShown self.inputs }
        ensures { IfOk result (λ notified. notified.items ≡ notified_between sinks.now clients_made self (scene_joined conn client self)) }
    {
        let before = self.client_infos(alloc)?;
        self.join_and_notify(alloc, clients_made, conn, client, &before)
    }
}
