//! Replies to the commands that get infos.

ghost use Rattle.std.specs.Prelude.{◌≡◌, ◌++◌, ◌≤◌, [], None, Some, codes, All, IsTrue, IfOk, OnOk};
ghost use Rattle.px_tag.specs.Item.{number, text, usec, spec, channel_map, proplist, is_text, IsText};
ghost use Rattle.px_reply.specs.Front.{reply_to, nothing, driver};
ghost use Rattle.px_reply.specs.Info.{since, sink_state, sink_ports, server_reply, with_sink, with_input, with_client, sinks_reply, inputs_reply, clients_reply};

use crate::info::{ClientInfo, InputInfo, ServerInfo, SinkInfo};
use crate::reply::reply;
use px_tag::{Mem, Packet, PropList, RawMap, TagWriter};
use px_types::Text;
use px_types::limits::NO_INDEX;
use std::alloc::Global;

/// The first version whose sinks have a base volume, a state, volume steps and a card, and whose server has a channel map.
const STATE_SINCE: u16 = 15;

/// The first version whose sinks have ports.
const PORTS_SINCE: u16 = 16;

/// The volume at which a sink attenuates nothing: `PA_VOLUME_NORM` of `pulse/volume.h`.
const BASE_VOLUME: u32 = 0x1_0000;

/// A sink's number of volume steps, from muted to its base volume: `PA_VOLUME_NORM + 1`.
const VOLUME_STEPS: u32 = 65_537;

/// The state of a running sink: `PA_SINK_RUNNING` of `pulse/def.h`.
const RUNNING: u32 = 0;

/// The flags of every sink: its latency is known, and its volume is in decibels (`PA_SINK_LATENCY`, `PA_SINK_DECIBEL_VOLUME` of
/// `pulse/def.h`).
const SINK_FLAGS: u32 = 0x0060;

fn put_driver(writer: &mut TagWriter) -> Mem<()>
    ensures { OnOk result (writer.new ≡ writer.old ++ driver) }
{
    writer.text(Some(b"pulse_rw"))
}

fn put_name(writer: &mut TagWriter, name: &Option<Text>) -> Mem<()>
    requires { IsText name.now }
    ensures { OnOk result (writer.new ≡ writer.old ++ text name.now) }
{
    match name {
        None => writer.text(None),
        Some(name) => writer.text(Some(name.as_slice())),
    }
}

// Appends the server: its name and version, user and host, its spec, its default sink and source, no cookie.
fn put_server(writer: &mut TagWriter, info: &ServerInfo) -> Mem<()>
    requires name { IsTrue (is_text info.now.name) }
    requires source { IsText info.now.source }
    requires channels { info.now.spec.channels ≤ 32 }
    ensures { OnOk result (writer.new ≡ writer.old ++ driver ++ text (Some (codes "1")) ++ text (Some (codes "pulse")) ++ text (Some (codes "localhost")) ++ spec info.now.spec ++ text (Some info.now.name) ++ text info.now.source ++ number 0) }
{
    put_driver(writer)?;
    writer.text(Some(b"1"))?;
    writer.text(Some(b"pulse"))?;
    writer.text(Some(b"localhost"))?;
    writer.spec(&info.spec)?;
    writer.text(Some(info.name.as_slice()))?;
    put_name(writer, &info.source)?;
    writer.number(0)
}

// Appends the map of the server's default sink, where the version has it.
fn put_map(writer: &mut TagWriter, version: u16, map: &RawMap) -> Mem<()>
    ensures { OnOk result (writer.new ≡ writer.old ++ since 15 version (channel_map map.now)) }
{
    if version >= STATE_SINCE {
        writer.map(map)?;
    }
    Ok(())
}

/// The reply to GET_SERVER_INFO, at a client's version.
pub fn server_info(alloc: Global, tag: u32, version: u16, info: &ServerInfo) -> Mem<Packet>
    requires name { IsTrue (is_text info.now.name) }
    requires source { IsText info.now.source }
    requires channels { info.now.spec.channels ≤ 32 }
    ensures { IfOk result (λ packet. packet ≡ server_reply version tag info.now) }
{
    let mut writer = reply(alloc, tag)?;
    put_server(&mut writer, info)?;
    put_map(&mut writer, version, &info.map)?;
    Ok(writer.finish())
}

// Appends what is the same for every sink: no monitor, no latency, the driver, the flags, no properties, no configured latency.
fn put_unvaried(alloc: Global, writer: &mut TagWriter) -> Mem<()>
    ensures { OnOk result (writer.new ≡ writer.old ++ number nothing ++ text None ++ usec 0 ++ driver ++ number 0x60 ++ proplist [] ++ usec 0) }
{
    writer.number(NO_INDEX)?;
    writer.text(None)?;
    writer.usec(0)?;
    put_driver(writer)?;
    writer.number(SINK_FLAGS)?;
    writer.proplist(&PropList::new(alloc))?;
    writer.usec(0)
}

// Appends a sink's base volume, state, volume steps and card, where the version has them.
fn put_state(writer: &mut TagWriter, version: u16) -> Mem<()>
    ensures { OnOk result (writer.new ≡ writer.old ++ since 15 version sink_state) }
{
    if version >= STATE_SINCE {
        writer.volume(BASE_VOLUME)?;
        writer.number(RUNNING)?;
        writer.number(VOLUME_STEPS)?;
        writer.number(NO_INDEX)?;
    }
    Ok(())
}

// Appends a sink's ports, of which it has none, where the version has them.
fn put_ports(writer: &mut TagWriter, version: u16) -> Mem<()>
    ensures { OnOk result (writer.new ≡ writer.old ++ since 16 version sink_ports) }
{
    if version >= PORTS_SINCE {
        writer.number(0)?;
        writer.text(None)?;
    }
    Ok(())
}

fn put_sink(alloc: Global, writer: &mut TagWriter, version: u16, info: &SinkInfo) -> Mem<()>
    requires name { IsTrue (is_text info.now.name) }
    requires channels { info.now.spec.channels ≤ 32 }
    ensures { OnOk result (writer.new ≡ with_sink version writer.old info.now) }
{
    writer.number(info.index)?;
    writer.text(Some(info.name.as_slice()))?;
    writer.text(Some(info.name.as_slice()))?;
    writer.spec(&info.spec)?;
    writer.map(&info.map)?;
    writer.number(NO_INDEX)?;
    writer.cvolume(&info.volume)?;
    writer.flag(info.mute)?;
    put_unvaried(alloc, writer)?;
    put_state(writer, version)?;
    put_ports(writer, version)
}

fn put_input(writer: &mut TagWriter, info: &InputInfo) -> Mem<()>
    requires name { IsText info.now.name }
    requires channels { info.now.spec.channels ≤ 32 }
    ensures { OnOk result (writer.new ≡ with_input writer.old info.now) }
{
    writer.number(info.index)?;
    put_name(writer, &info.name)?;
    writer.number(NO_INDEX)?;
    writer.number(info.client)?;
    writer.number(info.sink)?;
    writer.spec(&info.spec)?;
    writer.map(&info.map)?;
    writer.cvolume(&info.volume)?;
    writer.usec(0)?;
    writer.usec(0)?;
    writer.text(None)?;
    put_driver(writer)?;
    writer.flag(info.mute)?;
    writer.proplist(&info.list)
}

fn put_client(writer: &mut TagWriter, info: &ClientInfo) -> Mem<()>
    requires { IsText info.now.name }
    ensures { OnOk result (writer.new ≡ with_client writer.old info.now) }
{
    writer.number(info.index)?;
    put_name(writer, &info.name)?;
    writer.number(NO_INDEX)?;
    put_driver(writer)?;
    writer.proplist(&info.list)
}

/// The reply to GET_SINK_INFO, at a client's version.
pub fn sink_info(alloc: Global, tag: u32, version: u16, info: &SinkInfo) -> Mem<Packet>
    requires name { IsTrue (is_text info.now.name) }
    requires channels { info.now.spec.channels ≤ 32 }
    ensures { IfOk result (λ packet. packet ≡ with_sink version (reply_to tag) info.now) }
{
    let mut writer = reply(alloc, tag)?;
    put_sink(alloc, &mut writer, version, info)?;
    Ok(writer.finish())
}

/// The reply to GET_SINK_INFO_LIST, at a client's version.
pub fn sink_infos(alloc: Global, tag: u32, version: u16, infos: &[SinkInfo]) -> Mem<Packet>
    requires names { All (λ info. IsTrue (is_text info.name)) infos.now }
    requires channels { All (λ info. info.spec.channels ≤ 32) infos.now }
    ensures { IfOk result (λ packet. packet ≡ sinks_reply version tag infos.now) }
{
    let mut writer = reply(alloc, tag)?;
    for info in infos {
        put_sink(alloc, &mut writer, version, info)?;
    }
    Ok(writer.finish())
}

/// The reply to GET_SINK_INPUT_INFO.
pub fn input_info(alloc: Global, tag: u32, info: &InputInfo) -> Mem<Packet>
    requires name { IsText info.now.name }
    requires channels { info.now.spec.channels ≤ 32 }
    ensures { IfOk result (λ packet. packet ≡ with_input (reply_to tag) info.now) }
{
    let mut writer = reply(alloc, tag)?;
    put_input(&mut writer, info)?;
    Ok(writer.finish())
}

/// The reply to GET_SINK_INPUT_INFO_LIST.
pub fn input_infos(alloc: Global, tag: u32, infos: &[InputInfo]) -> Mem<Packet>
    requires names { All (λ info. IsText info.name) infos.now }
    requires channels { All (λ info. info.spec.channels ≤ 32) infos.now }
    ensures { IfOk result (λ packet. packet ≡ inputs_reply tag infos.now) }
{
    let mut writer = reply(alloc, tag)?;
    for info in infos {
        put_input(&mut writer, info)?;
    }
    Ok(writer.finish())
}

/// The reply to GET_CLIENT_INFO.
pub fn client_info(alloc: Global, tag: u32, info: &ClientInfo) -> Mem<Packet>
    requires { IsText info.now.name }
    ensures { IfOk result (λ packet. packet ≡ with_client (reply_to tag) info.now) }
{
    let mut writer = reply(alloc, tag)?;
    put_client(&mut writer, info)?;
    Ok(writer.finish())
}

/// The reply to GET_CLIENT_INFO_LIST.
pub fn client_infos(alloc: Global, tag: u32, infos: &[ClientInfo]) -> Mem<Packet>
    requires { All (λ info. IsText info.name) infos.now }
    ensures { IfOk result (λ packet. packet ≡ clients_reply tag infos.now) }
{
    let mut writer = reply(alloc, tag)?;
    for info in infos {
        put_client(&mut writer, info)?;
    }
    Ok(writer.finish())
}
