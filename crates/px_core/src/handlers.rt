//! The handlers of the commands, each on the parts of the state that it reads.

ghost use Rattle.std.specs.Prelude.{◌≡◌, ◌≤◌, [], true, false, IfSome};
ghost use Rattle.std.specs.List.{AllByRecursion};
ghost use Rattle.std.specs.Option.{option_map};
ghost use Rattle.px_outcome.specs.declared.input.Connection.{Connection};
ghost use Rattle.px_outcome.specs.Handled.{HandledAs};
ghost use Rattle.px_outcome.specs.Target.{IsNamed};
ghost use Rattle.px_names.specs.Clients.{client_on};
ghost use Rattle.px_ctl_info.specs.Clients.{set_client_name};
ghost use Rattle.px_header.specs.HeaderRules.{AreSinks};
ghost use Rattle.px_sinks.specs.Sinks.{named_by};
ghost use Rattle.px_state.specs.State.{stream_of};
ghost use Rattle.px_state.specs.Tables.{state_of};
ghost use Rattle.px_core.specs.Command.{IsOnPlaying, IsOnStream, IsOnProperties, IsOnClients, IsOnServer, IsRead, new_attributes, create_named, handle};
ghost use Rattle.px_core.specs.Grouped.{AreGrouped};
ghost use Rattle.px_core.specs.Consistency.{IsInput};

use crate::command::spoken_by;
use crate::found::copied;
use crate::infos::server;
use crate::sink_handlers::{handle_on_inputs, handle_on_sinks};
use px_cmd::{Command, CreateFields, Text};
use px_ctl_info::{
    auth, client_info, client_infos, connection_with, empty_list, kill_client, lookup_sink,
    remove_client, remove_stream, set_client_name, set_default_sink, set_stream_name, subscribe,
    update_client, update_stream,
};
use px_ctl_play::{attributes, cork, create, delete, drain, flush, latency, prebuf, trigger};
use px_flat::Group;
use px_msg::Msg;
use px_outcome::{Connection, Input, Named, Refusal, StepOutcome};
use px_sinks::{depth_of, group_named, named_by, rate_of, sink_of};
use px_state::Tables;
use px_tag::PropList;
use std::alloc::Global;

// A text that a command may give.
fn text_of(text: &Option<Text>) -> Option<&[u8]>
    ensures { option_map (λ bytes. bytes.now) result ≡ text.now }
{
    match text {
        None => None,
        Some(text) => Some(text.as_slice()),
    }
}

// The input of a connection's stream.
#[tactic(auto, using(crate::proofs::StreamLaws::has_channels))]
fn stream_of<P>(tables: &Tables<P>, me: &Connection, stream: u32) -> Option<Input>
    requires { AllByRecursion (IsInput tables.now.sinks tables.now.inputs_made) tables.now.inputs.items }
    ensures value { result ≡ stream_of tables.now.inputs.items me.now.conn stream }
    ensures channels { IfSome result (λ x. 1 ≤ x.spec.channels) }
{
    copied(tables.inputs.stream_of(me.conn, stream))
}

// CREATE_PLAYBACK_STREAM on a sink that was named.
fn create_by<P: Drop>(
    alloc: Global,
    tables: &Tables<P>,
    me: &Connection,
    tag: u32,
    named: Named,
    fields: &CreateFields,
) -> Result<StepOutcome<Msg<P>, Group>, Refusal>
    requires inputs { AllByRecursion (IsInput tables.now.sinks tables.now.inputs_made) tables.now.inputs.items }
    requires groups { AreGrouped [] tables.now.sinks tables.now.inputs.items tables.now.groups.items }
    requires value { named ≡ named_by tables.now.names tables.now.sinks fields.now.sink true }
    requires lawful { IsNamed named }
    ensures { HandledAs result (create_named (state_of tables.now) me.now tag fields.now named) }
{
    let group = group_named(&tables.groups, &named);
    let inputs = tables.inputs.as_slice();
    let count = tables.inputs_made;
    create(alloc, inputs, count, me, tag, named, group, fields)
}

// CREATE_PLAYBACK_STREAM on the sink that it names.
fn create_named<P: Drop>(
    alloc: Global,
    tables: &Tables<P>,
    me: &Connection,
    tag: u32,
    fields: &CreateFields,
) -> Result<StepOutcome<Msg<P>, Group>, Refusal>
    requires sinks { AreSinks [] tables.now.sinks }
    requires inputs { AllByRecursion (IsInput tables.now.sinks tables.now.inputs_made) tables.now.inputs.items }
    requires groups { AreGrouped [] tables.now.sinks tables.now.inputs.items tables.now.groups.items }
    ensures { HandledAs result (create_named (state_of tables.now) me.now tag fields.now (named_by tables.now.names tables.now.sinks fields.now.sink true)) }
{
    let sinks = tables.sinks.as_slice();
    let named = named_by(alloc, &tables.names, sinks, &fields.sink, true)?;
    create_by(alloc, tables, me, tag, named, fields)
}

// SET_PLAYBACK_STREAM_BUFFER_ATTR of a stream, with the latency of its sink.
fn new_attributes<P: Drop>(
    alloc: Global,
    tables: &Tables<P>,
    stream: Option<Input>,
    asked: [u32; 4],
    tag: u32,
) -> Result<StepOutcome<Msg<P>, Group>, Refusal>
    requires sinks { AreSinks [] tables.now.sinks }
    requires channels { IfSome stream (λ x. 1 ≤ x.spec.channels) }
    ensures { HandledAs result (new_attributes (state_of tables.now) stream asked tag) }
{
    let sink = sink_of(tables.sinks.as_slice(), &stream);
    attributes(alloc, stream, depth_of(sink), rate_of(sink), asked, tag)
}

// The handler of a command on the playback of one of the connection's own streams.
fn handle_playing<P: Drop>(
    alloc: Global,
    tables: &Tables<P>,
    me: &Connection,
    tag: u32,
    command: &Command,
) -> Result<StepOutcome<Msg<P>, Group>, Refusal>
    requires inputs { AllByRecursion (IsInput tables.now.sinks tables.now.inputs_made) tables.now.inputs.items }
    requires family { IsOnPlaying command.now }
    ensures { HandledAs result (handle (state_of tables.now) me.now tag command.now) }
{
    match command {
        Command::Drain { stream } => drain(alloc, stream_of(tables, me, *stream), tag),
        Command::Latency { stream, time } => latency(
            alloc,
            stream_of(tables, me, *stream),
            *time,
            tag,
        ),
        Command::Cork { stream, on } => cork(alloc, stream_of(tables, me, *stream), *on, tag),
        Command::Flush { stream } => flush(alloc, stream_of(tables, me, *stream), tag),
        Command::Trigger { stream } => trigger(alloc, stream_of(tables, me, *stream), tag),
        Command::Prebuf { stream } => prebuf(alloc, stream_of(tables, me, *stream), tag),
        _ => unreachable!(),
    }
}

// The handler of a command that creates or ends one of the connection's own streams, or changes its buffer.
fn handle_stream<P: Drop>(
    alloc: Global,
    tables: &Tables<P>,
    me: &Connection,
    tag: u32,
    command: &Command,
) -> Result<StepOutcome<Msg<P>, Group>, Refusal>
    requires sinks { AreSinks [] tables.now.sinks }
    requires inputs { AllByRecursion (IsInput tables.now.sinks tables.now.inputs_made) tables.now.inputs.items }
    requires groups { AreGrouped [] tables.now.sinks tables.now.inputs.items tables.now.groups.items }
    requires family { IsOnStream command.now }
    ensures { HandledAs result (handle (state_of tables.now) me.now tag command.now) }
{
    match command {
        Command::Create(fields) => create_named(alloc, tables, me, tag, fields),
        Command::Delete { stream } => {
            let stream = stream_of(tables, me, *stream);
            delete(alloc, stream, &tables.waiting, tag)
        }
        Command::Attributes { stream, asked, .. } => {
            let stream = stream_of(tables, me, *stream);
            new_attributes(alloc, tables, stream, *asked, tag)
        }
        _ => unreachable!(),
    }
}

// The handler of a command on the properties of one of the connection's own streams.
fn handle_properties<P: Drop>(
    alloc: Global,
    tables: &Tables<P>,
    me: &Connection,
    tag: u32,
    command: &Command,
) -> Result<StepOutcome<Msg<P>, Group>, Refusal>
    requires inputs { AllByRecursion (IsInput tables.now.sinks tables.now.inputs_made) tables.now.inputs.items }
    requires family { IsOnProperties command.now }
    ensures { HandledAs result (handle (state_of tables.now) me.now tag command.now) }
{
    match command {
        Command::StreamName { stream, name } => {
            let stream = stream_of(tables, me, *stream);
            set_stream_name(alloc, stream, &tables.lists, tag, text_of(name))
        }
        Command::UpdateStream { stream, mode, list } => {
            let stream = stream_of(tables, me, *stream);
            update_stream(alloc, stream, &tables.lists, tag, *mode, list)
        }
        Command::RemoveStream { stream, keys } => {
            let stream = stream_of(tables, me, *stream);
            remove_stream(alloc, stream, &tables.lists, tag, keys)
        }
        _ => unreachable!(),
    }
}

// The handler of a command on clients that takes its fields by reference.
fn handle_client<P: Drop>(
    alloc: Global,
    tables: &Tables<P>,
    me: &Connection,
    tag: u32,
    command: &Command,
) -> Result<StepOutcome<Msg<P>, Group>, Refusal>
    requires family { IsOnClients command.now }
    ensures { HandledAs result (handle (state_of tables.now) me.now tag command.now) }
{
    match command {
        Command::Auth { version, cookie } => {
            auth(alloc, &tables.names, me, tag, *version, cookie.as_slice())
        }
        Command::Subscribe { mask } => subscribe(alloc, me, tag, *mask),
        Command::ClientInfo { client } => {
            client_info(alloc, tables.names.client_numbered(*client), tag)
        }
        Command::ClientInfoList => client_infos(alloc, tables.names.clients(), tag),
        Command::UpdateClient { mode, list } => {
            let client = tables.names.client_on(me.conn);
            update_client(alloc, client, me, tag, *mode, list)
        }
        Command::RemoveClient { keys } => {
            let client = tables.names.client_on(me.conn);
            remove_client(alloc, client, me, tag, keys)
        }
        Command::KillClient { client } => {
            kill_client(alloc, connection_with(&tables.connections, *client), tag)
        }
        _ => unreachable!(),
    }
}

// The handler of a command on names, on the server, or on a list that is empty.
fn handle_server<P: Drop>(
    alloc: Global,
    tables: &Tables<P>,
    me: &Connection,
    tag: u32,
    command: &Command,
) -> Result<StepOutcome<Msg<P>, Group>, Refusal>
    requires sinks { AreSinks [] tables.now.sinks }
    requires family { IsOnServer command.now }
    ensures { HandledAs result (handle (state_of tables.now) me.now tag command.now) }
{
    match command {
        Command::EmptyList { .. } => empty_list(alloc, tag),
        Command::LookupSink { name } => lookup_sink(alloc, &tables.names, tag, text_of(name)),
        Command::DefaultSink { name } => set_default_sink(alloc, &tables.names, tag, text_of(name)),
        Command::ServerInfo => server(alloc, tables, spoken_by(me), tag),
        _ => unreachable!(),
    }
}

// The handler of a command that takes its fields by reference.
fn handle_read<P: Drop>(
    alloc: Global,
    tables: &Tables<P>,
    me: &Connection,
    tag: u32,
    command: &Command,
) -> Result<StepOutcome<Msg<P>, Group>, Refusal>
    requires sinks { AreSinks [] tables.now.sinks }
    requires inputs { AllByRecursion (IsInput tables.now.sinks tables.now.inputs_made) tables.now.inputs.items }
    requires groups { AreGrouped [] tables.now.sinks tables.now.inputs.items tables.now.groups.items }
    requires family { IsRead command.now }
    ensures { HandledAs result (handle (state_of tables.now) me.now tag command.now) }
{
    match command {
        Command::Drain { .. }
        | Command::Latency { .. }
        | Command::Cork { .. }
        | Command::Flush { .. }
        | Command::Trigger { .. }
        | Command::Prebuf { .. } => handle_playing(alloc, tables, me, tag, command),
        Command::Create(_) | Command::Delete { .. } | Command::Attributes { .. } => handle_stream(
            alloc, tables, me, tag, command,
        ),
        Command::StreamName { .. } | Command::UpdateStream { .. } | Command::RemoveStream { .. } =>
            handle_properties(alloc, tables, me, tag, command),
        Command::Auth { .. }
        | Command::Subscribe { .. }
        | Command::ClientInfo { .. }
        | Command::ClientInfoList
        | Command::UpdateClient { .. }
        | Command::RemoveClient { .. }
        | Command::KillClient { .. } => handle_client(alloc, tables, me, tag, command),
        Command::EmptyList { .. }
        | Command::LookupSink { .. }
        | Command::DefaultSink { .. }
        | Command::ServerInfo => handle_server(alloc, tables, me, tag, command),
        Command::SinkInfo { .. }
        | Command::SinkInfoList
        | Command::SinkVolume { .. }
        | Command::SinkMute { .. } => handle_on_sinks(alloc, tables, me, tag, command),
        Command::InputInfo { .. }
        | Command::InputInfoList
        | Command::KillInput { .. }
        | Command::InputVolume { .. }
        | Command::InputMute { .. }
        | Command::Move { .. } => handle_on_inputs(alloc, tables, tag, command),
        Command::SetClientName { .. } => unreachable!(),
    }
}

// The handler of a command that consumes its fields.
fn handle_spent<P: Drop>(
    alloc: Global,
    tables: &Tables<P>,
    me: &Connection,
    tag: u32,
    command: Command,
) -> Result<StepOutcome<Msg<P>, Group>, Refusal>
    requires sinks { AreSinks [] tables.now.sinks }
    requires inputs { AllByRecursion (IsInput tables.now.sinks tables.now.inputs_made) tables.now.inputs.items }
    requires groups { AreGrouped [] tables.now.sinks tables.now.inputs.items tables.now.groups.items }
    requires family { IsRead command }
    ensures { HandledAs result (handle (state_of tables.now) me.now tag command) }
{
    let handled = handle_read(alloc, tables, me, tag, &command);
    drop(command);
    handled
}

// SET_CLIENT_NAME of the connection's client.
fn handle_client_name<P: Drop>(
    alloc: Global,
    tables: &Tables<P>,
    me: &Connection,
    tag: u32,
    list: PropList,
) -> Result<StepOutcome<Msg<P>, Group>, Refusal>
    ensures { HandledAs result (set_client_name (client_on tables.now.names.clients me.now.conn) me.now tag list) }
{
    let client = tables.names.client_on(me.conn);
    set_client_name(alloc, client, me, tag, list)
}

/// A command's handler: its outcome, from the parts of the state that it reads.
pub(crate) fn handle<P: Drop>(
    alloc: Global,
    tables: &Tables<P>,
    me: &Connection,
    tag: u32,
    command: Command,
) -> Result<StepOutcome<Msg<P>, Group>, Refusal>
    requires sinks { AreSinks [] tables.now.sinks }
    requires inputs { AllByRecursion (IsInput tables.now.sinks tables.now.inputs_made) tables.now.inputs.items }
    requires groups { AreGrouped [] tables.now.sinks tables.now.inputs.items tables.now.groups.items }
    ensures { HandledAs result (handle (state_of tables.now) me.now tag command) }
{
    match command {
        Command::SetClientName { list } => handle_client_name(alloc, tables, me, tag, list),
        _ => handle_spent(alloc, tables, me, tag, command),
    }
}
