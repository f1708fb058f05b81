//! The events between two moments.

ghost use Rattle.std.specs.Prelude.{◌≡◌, ◌++◌, Option, All, IfSome, IfOk, OnOk};
ghost use Rattle.std.specs.Option.{option_to_list};
ghost use Rattle.px_reply.specs.Info.{server_reply};
ghost use Rattle.px_ctl_info.specs.Clients.{SERVER_VERSION};
ghost use Rattle.px_subscribe.specs.declared.event.Facility.TheVariants.{Sink, Input, Client, Server};
ghost use Rattle.std.specs.Option.{option_map};
ghost use Rattle.px_subscribe.specs.Became.{NO_INDEX, became, event, events_between};
ghost use Rattle.px_subscribe.specs.InfoBytes.{IsWritableSink, IsWritableInput, IsWritableClient, IsWritableServer, AreWritable, infos_in, given_by, sinks_events, inputs_events, clients_events};

use crate::event::{Event, Facility, Kind};
use crate::walk::add_all;
use px_reply::{ClientInfo, InputInfo, ServerInfo, SinkInfo};
use px_tag::Packet;
use px_types::limits::{NO_INDEX, PROTOCOL_VERSION};
use px_types::{Mem, NoMemory};
use std::alloc::Global;
use std::marker::Model;

/// The infos of all objects at one moment, each object once.
#[derive(Drop)]
pub struct Moment {
    pub sinks: Vec<SinkInfo>,
    pub inputs: Vec<InputInfo>,
    pub clients: Vec<ClientInfo>,
    pub server: Option<ServerInfo>,
}

impl Model for Moment {
    ghost use Rattle.px_subscribe.specs.InfoBytes.{InfoLists};

    ghost Value = { InfoLists };

    ghost view = { λ m. record { sinks = m.sinks.items; inputs = m.inputs.items; clients = m.clients.items; server = m.server } };
}

/// The number of indices that were ever given, from 0 on.
#[derive(Clone, Copy, Debug, Drop)]
pub struct Counts {
    pub sinks: usize,
    pub inputs: u32,
    pub clients: u32,
}

// The kind of event of an object, by the bytes of its info before and after.
fn became(before: Option<&[u8]>, after: Option<&[u8]>) -> Option<Kind>
    ensures { result ≡ became (λ bytes. bytes) (option_map (λ b. b.now) before.entry) (option_map (λ b. b.now) after.entry) }
{
    match before {
        None => match after {
            None => None,
            Some(_) => Some(Kind::New),
        },
        Some(before) => match after {
            None => Some(Kind::Remove),
            Some(after) => {
                if before == after {
                    None
                } else {
                    Some(Kind::Change)
                }
            }
        },
    }
}

// The bytes of the server's info, in a reply.
fn server_in_bytes(alloc: Global, info: &Option<ServerInfo>) -> Mem<Option<Packet>>
    requires { IfSome info.now IsWritableServer }
    ensures { IfOk result (λ bytes. bytes ≡ option_map (server_reply SERVER_VERSION 0) info.now) }
{
    match info {
        None => Ok(None),
        Some(info) => match px_reply::server_info(alloc, 0, PROTOCOL_VERSION, info) {
            Ok(bytes) => Ok(Some(bytes)),
            Err(_) => Err(NoMemory),
        },
    }
}

// A packet's bytes, where there is one.
fn slice_of(packet: &Option<Packet>) -> Option<&[u8]>
    ensures { option_map (λ bytes. bytes.now) result ≡ packet.now }
{
    match packet {
        None => None,
        Some(packet) => Some(packet.as_slice()),
    }
}

// Adds the server's event, where there is one.
fn add_server(
    alloc: Global,
    events: &mut Vec<Event>,
    before: &Option<ServerInfo>,
    after: &Option<ServerInfo>,
) -> Mem<()>
    requires before { IfSome before.now IsWritableServer }
    requires after { IfSome after.now IsWritableServer }
    ensures { OnOk result (events.new.items ≡ events.old.items ++ option_to_list (option_map (event Server NO_INDEX) (became (server_reply SERVER_VERSION 0) before.now after.now))) }
{
    let before = server_in_bytes(alloc, before)?;
    let after = server_in_bytes(alloc, after)?;
    if let Some(kind) = became(slice_of(&before), slice_of(&after)) {
        events.push(Event {
            facility: Facility::Server,
            kind,
            index: NO_INDEX,
        })?;
    }
    Ok(())
}

// The events of all sinks.
fn add_sinks(
    alloc: Global,
    events: &mut Vec<Event>,
    before: &[SinkInfo],
    after: &[SinkInfo],
    given: usize,
) -> Mem<()>
    requires before { All IsWritableSink before.now }
    requires after { All IsWritableSink after.now }
    ensures { OnOk result (events.new.items ≡ events.old.items ++ sinks_events before.now after.now given) }
{
    add_all(alloc, events, Facility::Sink, before, after, given)
}

// The events of all inputs.
fn add_inputs(
    alloc: Global,
    events: &mut Vec<Event>,
    before: &[InputInfo],
    after: &[InputInfo],
    given: u32,
) -> Mem<()>
    requires before { All IsWritableInput before.now }
    requires after { All IsWritableInput after.now }
    ensures { OnOk result (events.new.items ≡ events.old.items ++ inputs_events before.now after.now given) }
{
    add_all(
        alloc,
        events,
        Facility::Input,
        before,
        after,
        given as usize,
    )
}

// The events of all clients.
fn add_clients(
    alloc: Global,
    events: &mut Vec<Event>,
    before: &[ClientInfo],
    after: &[ClientInfo],
    given: u32,
) -> Mem<()>
    requires before { All IsWritableClient before.now }
    requires after { All IsWritableClient after.now }
    ensures { OnOk result (events.new.items ≡ events.old.items ++ clients_events before.now after.now given) }
{
    add_all(
        alloc,
        events,
        Facility::Client,
        before,
        after,
        given as usize,
    )
}

/// The events of clients between two moments, from their infos at each: names have no zero byte, and each index lies below `given`.
pub(crate) fn client_events(
    alloc: Global,
    given: u32,
    before: &[ClientInfo],
    after: &[ClientInfo],
) -> Mem<Vec<Event>>
    requires before { All IsWritableClient before.now }
    requires after { All IsWritableClient after.now }
    ensures { IfOk result (λ events. events.items ≡ clients_events before.now after.now given) }
{
    let mut events = Vec::new(alloc);
    add_clients(alloc, &mut events, before, after, given)?;
    Ok(events)
}

/// The events between two moments: of each sink, input and client that is new, is gone, or has an info of other bytes, in
/// rising index, and then of the server. Infos have names without a zero byte and up to 32 channels; each index lies
/// below the count of `given`.
pub fn events_between(
    alloc: Global,
    given: Counts,
    before: &Moment,
    after: &Moment,
) -> Mem<Vec<Event>>
    requires before { AreWritable before.now }
    requires after { AreWritable after.now }
    ensures { IfOk result (λ events. events.items ≡ events_between (given_by given) (infos_in before.now) (infos_in after.now)) }
{
    let mut events = Vec::new(alloc);
    add_sinks(alloc, &mut events, &before.sinks, &after.sinks, given.sinks)?;
    add_inputs(
        alloc,
        &mut events,
        &before.inputs,
        &after.inputs,
        given.inputs,
    )?;
    add_clients(
        alloc,
        &mut events,
        &before.clients,
        &after.clients,
        given.clients,
    )?;
    add_server(alloc, &mut events, &before.server, &after.server)?;
    Ok(events)
}
