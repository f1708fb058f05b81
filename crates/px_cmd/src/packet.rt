//! Commands, read from packets. The two whose fields depend on the version are read first. The readers of the others are a ladder by the
//! commands' numbers: each reads a few commands and hands the others on. A `match` is proved case by case, and each clause of its function
//! anew in each case, so one `match` of all 38 would take too long.

ghost use Rattle.std.specs.Prelude.{◌≡◌, ◌≤◌, IfOk};
ghost use Rattle.px_cmd.specs.Command.{fields_of, number_of, IsNumbered};
ghost use Rattle.px_cmd.specs.Meant.{meant, IsOfVersion};
ghost use Rattle.px_cmd.specs.Packet.{taken, meaning, Reaches, Answers};
ghost use Rattle.px_cmd.specs.Table.{kinds_of, steady_kinds};

use crate::command::Command;
use crate::create::create;
use crate::fault::CmdFault;
use crate::fields::{cookie, flag_from, keys, properties, sink, text};
use crate::head::front;
use crate::number;
use px_tag::TagReader;
use std::alloc::Global;

/// The greatest number of a command that the protocol knows: `PA_COMMAND_MAX` of version 13, at every version.
const LAST_COMMAND: u32 = 104;

// The fields of SET_PLAYBACK_STREAM_BUFFER_ATTR.
fn attributes(reader: &mut TagReader, version: u16) -> Result<Command, CmdFault>
    ensures value { Reaches result 72 reader.new (taken (kinds_of version 72) 72 reader.old) }
    ensures numbered { IfOk result IsNumbered }
    ensures of_version { IfOk result (IsOfVersion version) }
{
    let stream = reader.number()?;
    let maxlength = reader.number()?;
    let tlength = reader.number()?;
    let prebuf = reader.number()?;
    let minreq = reader.number()?;
    let adjust_latency = reader.flag()?;
    let early_requests = flag_from(reader, 14, version)?;
    Ok(Command::Attributes {
        stream,
        asked: [maxlength, tlength, prebuf, minreq],
        adjust_latency,
        early_requests,
    })
}

// The fields of the commands from 84 on: those that remove properties, and the last of the empty lists.
fn removal_fields(alloc: Global, number: u32, reader: &mut TagReader) -> Result<Command, CmdFault>
    requires { 84 ≤ number }
    ensures value { Reaches result number reader.new (taken (steady_kinds number) number reader.old) }
    ensures numbered { IfOk result IsNumbered }
{
    match number {
        number::REMOVE_PLAYBACK_STREAM_PROPLIST => {
            let stream = reader.number()?;
            let keys = keys(alloc, reader)?;
            Ok(Command::RemoveStream { stream, keys })
        }
        number::REMOVE_CLIENT_PROPLIST => {
            let keys = keys(alloc, reader)?;
            Ok(Command::RemoveClient { keys })
        }
        number::GET_CARD_INFO_LIST => Ok(Command::EmptyList { number }),
        _ => Err(CmdFault::Unsupported(number)),
    }
}

// The fields of the commands from 81 on: first those that update property lists.
fn list_fields(alloc: Global, number: u32, reader: &mut TagReader) -> Result<Command, CmdFault>
    requires { 81 ≤ number }
    ensures value { Reaches result number reader.new (taken (steady_kinds number) number reader.old) }
    ensures numbered { IfOk result IsNumbered }
{
    match number {
        number::UPDATE_PLAYBACK_STREAM_PROPLIST => {
            let stream = reader.number()?;
            let mode = reader.number()?;
            let list = properties(alloc, reader)?;
            Ok(Command::UpdateStream { stream, mode, list })
        }
        number::UPDATE_CLIENT_PROPLIST => {
            let mode = reader.number()?;
            let list = properties(alloc, reader)?;
            Ok(Command::UpdateClient { mode, list })
        }
        _ if number < number::REMOVE_PLAYBACK_STREAM_PROPLIST => Err(CmdFault::Unsupported(number)),
        _ => removal_fields(alloc, number, reader),
    }
}

// The fields of the commands from 67 on: first those that move and mute an input.
fn input_fields(alloc: Global, number: u32, reader: &mut TagReader) -> Result<Command, CmdFault>
    requires { 67 ≤ number }
    ensures value { Reaches result number reader.new (taken (steady_kinds number) number reader.old) }
    ensures numbered { IfOk result IsNumbered }
{
    match number {
        number::MOVE_SINK_INPUT => {
            let input = reader.number()?;
            let sink = sink(alloc, reader)?;
            Ok(Command::Move { input, sink })
        }
        number::SET_SINK_INPUT_MUTE => {
            let input = reader.number()?;
            let on = reader.flag()?;
            Ok(Command::InputMute { input, on })
        }
        _ if number < number::UPDATE_PLAYBACK_STREAM_PROPLIST => Err(CmdFault::Unsupported(number)),
        _ => list_fields(alloc, number, reader),
    }
}

// The fields of the commands from 48 on: first those that end a client or an input, and PREBUF.
fn kill_and_prebuf_fields(
    alloc: Global,
    number: u32,
    reader: &mut TagReader,
) -> Result<Command, CmdFault>
    requires { 48 ≤ number }
    ensures value { Reaches result number reader.new (taken (steady_kinds number) number reader.old) }
    ensures numbered { IfOk result IsNumbered }
{
    match number {
        number::KILL_CLIENT => {
            let client = reader.number()?;
            Ok(Command::KillClient { client })
        }
        number::KILL_SINK_INPUT => {
            let input = reader.number()?;
            Ok(Command::KillInput { input })
        }
        number::PREBUF_PLAYBACK_STREAM => {
            let stream = reader.number()?;
            Ok(Command::Prebuf { stream })
        }
        _ if number < number::MOVE_SINK_INPUT => Err(CmdFault::Unsupported(number)),
        _ => input_fields(alloc, number, reader),
    }
}

// The fields of the commands from 44 on: first those that name the default sink or a stream.
fn name_fields(alloc: Global, number: u32, reader: &mut TagReader) -> Result<Command, CmdFault>
    requires { 44 ≤ number }
    ensures value { Reaches result number reader.new (taken (steady_kinds number) number reader.old) }
    ensures numbered { IfOk result IsNumbered }
{
    match number {
        number::SET_DEFAULT_SINK => {
            let name = text(alloc, reader)?;
            Ok(Command::DefaultSink { name })
        }
        number::SET_PLAYBACK_STREAM_NAME => {
            let stream = reader.number()?;
            let name = text(alloc, reader)?;
            Ok(Command::StreamName { stream, name })
        }
        _ if number < number::KILL_CLIENT => Err(CmdFault::Unsupported(number)),
        _ => kill_and_prebuf_fields(alloc, number, reader),
    }
}

// The fields of the commands from 42 on: first FLUSH and TRIGGER.
fn stream_control_fields(
    alloc: Global,
    number: u32,
    reader: &mut TagReader,
) -> Result<Command, CmdFault>
    requires { 42 ≤ number }
    ensures value { Reaches result number reader.new (taken (steady_kinds number) number reader.old) }
    ensures numbered { IfOk result IsNumbered }
{
    match number {
        number::FLUSH_PLAYBACK_STREAM => {
            let stream = reader.number()?;
            Ok(Command::Flush { stream })
        }
        number::TRIGGER_PLAYBACK_STREAM => {
            let stream = reader.number()?;
            Ok(Command::Trigger { stream })
        }
        _ if number < number::SET_DEFAULT_SINK => Err(CmdFault::Unsupported(number)),
        _ => name_fields(alloc, number, reader),
    }
}

// The fields of the commands from 39 on: first those with a flag, a sink's mute and CORK.
fn mute_and_cork_fields(
    alloc: Global,
    number: u32,
    reader: &mut TagReader,
) -> Result<Command, CmdFault>
    requires { 39 ≤ number }
    ensures value { Reaches result number reader.new (taken (steady_kinds number) number reader.old) }
    ensures numbered { IfOk result IsNumbered }
{
    match number {
        number::SET_SINK_MUTE => {
            let sink = sink(alloc, reader)?;
            let on = reader.flag()?;
            Ok(Command::SinkMute { sink, on })
        }
        number::CORK_PLAYBACK_STREAM => {
            let stream = reader.number()?;
            let on = reader.flag()?;
            Ok(Command::Cork { stream, on })
        }
        _ if number < number::FLUSH_PLAYBACK_STREAM => Err(CmdFault::Unsupported(number)),
        _ => stream_control_fields(alloc, number, reader),
    }
}

// The fields of the commands from 36 on: first those that set volumes.
fn volume_fields(alloc: Global, number: u32, reader: &mut TagReader) -> Result<Command, CmdFault>
    requires { 36 ≤ number }
    ensures value { Reaches result number reader.new (taken (steady_kinds number) number reader.old) }
    ensures numbered { IfOk result IsNumbered }
{
    match number {
        number::SET_SINK_VOLUME => {
            let sink = sink(alloc, reader)?;
            let volume = reader.cvolume()?;
            Ok(Command::SinkVolume { sink, volume })
        }
        number::SET_SINK_INPUT_VOLUME => {
            let input = reader.number()?;
            let volume = reader.cvolume()?;
            Ok(Command::InputVolume { input, volume })
        }
        _ if number < number::SET_SINK_MUTE => Err(CmdFault::Unsupported(number)),
        _ => mute_and_cork_fields(alloc, number, reader),
    }
}

// The fields of the commands from 27 on: first those about clients and inputs, and SUBSCRIBE.
fn client_info_fields(
    alloc: Global,
    number: u32,
    reader: &mut TagReader,
) -> Result<Command, CmdFault>
    requires { 27 ≤ number }
    ensures value { Reaches result number reader.new (taken (steady_kinds number) number reader.old) }
    ensures numbered { IfOk result IsNumbered }
{
    match number {
        number::GET_CLIENT_INFO => {
            let client = reader.number()?;
            Ok(Command::ClientInfo { client })
        }
        number::GET_CLIENT_INFO_LIST => Ok(Command::ClientInfoList),
        number::GET_SINK_INPUT_INFO => {
            let input = reader.number()?;
            Ok(Command::InputInfo { input })
        }
        number::GET_SINK_INPUT_INFO_LIST => Ok(Command::InputInfoList),
        number::GET_SOURCE_OUTPUT_INFO_LIST | number::GET_SAMPLE_INFO_LIST => Ok(
            Command::EmptyList { number },
        ),
        number::SUBSCRIBE => {
            let mask = reader.number()?;
            Ok(Command::Subscribe { mask })
        }
        _ if number < number::SET_SINK_VOLUME => Err(CmdFault::Unsupported(number)),
        _ => volume_fields(alloc, number, reader),
    }
}

// The fields of the commands from 12 on: first DRAIN and latency, and those about the server and its sinks.
fn server_info_fields(
    alloc: Global,
    number: u32,
    reader: &mut TagReader,
) -> Result<Command, CmdFault>
    requires { 12 ≤ number }
    ensures value { Reaches result number reader.new (taken (steady_kinds number) number reader.old) }
    ensures numbered { IfOk result IsNumbered }
{
    match number {
        number::DRAIN_PLAYBACK_STREAM => {
            let stream = reader.number()?;
            Ok(Command::Drain { stream })
        }
        number::GET_PLAYBACK_LATENCY => {
            let stream = reader.number()?;
            let time = reader.time()?;
            Ok(Command::Latency { stream, time })
        }
        number::GET_SERVER_INFO => Ok(Command::ServerInfo),
        number::GET_SINK_INFO => {
            let sink = sink(alloc, reader)?;
            Ok(Command::SinkInfo { sink })
        }
        number::GET_SINK_INFO_LIST => Ok(Command::SinkInfoList),
        number::GET_SOURCE_INFO_LIST | number::GET_MODULE_INFO_LIST => Ok(Command::EmptyList {
            number,
        }),
        _ if number < number::GET_CLIENT_INFO => Err(CmdFault::Unsupported(number)),
        _ => client_info_fields(alloc, number, reader),
    }
}

// The fields of the commands from 9 on: first a client's name and LOOKUP_SINK.
fn lookup_fields(alloc: Global, number: u32, reader: &mut TagReader) -> Result<Command, CmdFault>
    requires { 9 ≤ number }
    ensures value { Reaches result number reader.new (taken (steady_kinds number) number reader.old) }
    ensures numbered { IfOk result IsNumbered }
{
    match number {
        number::SET_CLIENT_NAME => {
            let list = properties(alloc, reader)?;
            Ok(Command::SetClientName { list })
        }
        number::LOOKUP_SINK => {
            let name = text(alloc, reader)?;
            Ok(Command::LookupSink { name })
        }
        _ if number < number::DRAIN_PLAYBACK_STREAM => Err(CmdFault::Unsupported(number)),
        _ => server_info_fields(alloc, number, reader),
    }
}

// The fields of the command with this number, if it has the same at every version.
fn steady_fields(alloc: Global, number: u32, reader: &mut TagReader) -> Result<Command, CmdFault>
    ensures value { Reaches result number reader.new (taken (steady_kinds number) number reader.old) }
    ensures numbered { IfOk result IsNumbered }
{
    match number {
        number::DELETE_PLAYBACK_STREAM => {
            let stream = reader.number()?;
            Ok(Command::Delete { stream })
        }
        number::AUTH => {
            let version = reader.number()?;
            let cookie = cookie(alloc, reader)?;
            Ok(Command::Auth { version, cookie })
        }
        _ if number < number::SET_CLIENT_NAME => Err(CmdFault::Unsupported(number)),
        _ => lookup_fields(alloc, number, reader),
    }
}

// The fields of the command with this number at this version.
fn fields(
    alloc: Global,
    number: u32,
    reader: &mut TagReader,
    version: u16,
) -> Result<Command, CmdFault>
    ensures value { Reaches result number reader.new (taken (kinds_of version number) number reader.old) }
    ensures numbered { IfOk result IsNumbered }
    ensures of_version { IfOk result (IsOfVersion version) }
{
    match number {
        number::CREATE_PLAYBACK_STREAM => {
            let fields = create(alloc, reader, version)?;
            Ok(Command::Create(fields))
        }
        number::SET_PLAYBACK_STREAM_BUFFER_ATTR => attributes(reader, version),
        _ => steady_fields(alloc, number, reader),
    }
}

// The command that a packet means at this version, by its number and fields.
fn read(alloc: Global, packet: &[u8], version: u16) -> Result<Command, CmdFault>
    ensures value { Answers (λ command. (number_of command, fields_of command)) result (meaning version packet.now) }
    ensures numbered { IfOk result IsNumbered }
    ensures of_version { IfOk result (IsOfVersion version) }
{
    let mut reader = TagReader::new(packet);
    let head = front(&mut reader)?;
    if head.command > LAST_COMMAND {
        return Err(CmdFault::Unknown(head.command));
    }
    let command = fields(alloc, head.command, &mut reader, version)?;
    reader.end().map(|()| command).map_err(CmdFault::Protocol)
}

/// The command that a packet means, with its fields by the connection's `version`: those below 13 are read as 13, those above 18 as 18.
/// Takes memory for what the command holds: names, keys, a cookie, property lists.
#[tactic(auto, using(crate::proofs::Meant::means_too))]
pub fn read_command(alloc: Global, packet: &[u8], version: u16) -> Result<Command, CmdFault>
    ensures command { Answers (λ command. command) result (meant version packet.now) }
    ensures value { Answers (λ command. (number_of command, fields_of command)) result (meaning version packet.now) }
    ensures numbered { IfOk result IsNumbered }
    ensures of_version { IfOk result (IsOfVersion version) }
{
    read(alloc, packet, version)
}
