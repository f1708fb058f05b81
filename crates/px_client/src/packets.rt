// The packets that the client sends.

ghost use Rattle.std.specs.Prelude.{◌≡◌, ◌<◌, ◌≤◌, ◌++◌, ◌∷◌, [], Some, length, IsTrue, IfOk, OnOk};
ghost use Rattle.px_tag.specs.Item.{number, text, channel_volumes, is_text};
ghost use Rattle.px_client.specs.Errand.{IsErrand, client_properties, auth_packet, name_packet, errand_packet, framed};

use crate::errand::Errand;
use px_cmd::number;
use px_frame::write_packet;
use px_tag::{Mem, NoMemory, Packet, PropList, RawVolume, TagWriter};
use px_types::Text;
use px_types::limits::{NO_INDEX, PROTOCOL_VERSION};
use std::alloc::Global;

/// The tags of the three commands.
const AUTH_TAG: u32 = 0;

const NAME_TAG: u32 = 1;

const ERRAND_TAG: u32 = 2;

// AUTH of version 18.
#[tactic(auto, unfolding(crate::specs::Errand::auth_packet))]
fn auth_packet(alloc: Global, cookie: &[u8]) -> Mem<Packet>
    requires { length cookie.now ≡ 256 }
    ensures { IfOk result (λ packet. packet ≡ auth_packet cookie.now) }
{
    let mut writer = TagWriter::new(alloc);
    writer.number(number::AUTH)?;
    writer.number(AUTH_TAG)?;
    writer.number(u32::from(PROTOCOL_VERSION))?;
    writer.arbitrary(cookie)?;
    Ok(writer.finish())
}

// The client's properties: its name.
fn properties(alloc: Global) -> Mem<PropList>
    ensures { IfOk result (λ list. list ≡ client_properties) }
{
    let mut list = PropList::new(alloc);
    list.set(b"application.name", b"pulse_rw ctl\0")?;
    Ok(list)
}

// SET_CLIENT_NAME.
#[tactic(auto, unfolding(crate::specs::Errand::name_packet))]
fn name_packet(alloc: Global) -> Mem<Packet>
    ensures { IfOk result (λ packet. packet ≡ name_packet) }
{
    let list = properties(alloc)?;
    let mut writer = TagWriter::new(alloc);
    writer.number(number::SET_CLIENT_NAME)?;
    writer.number(NAME_TAG)?;
    writer.proplist(&list)?;
    Ok(writer.finish())
}

// The front of the errand's packet.
fn front(alloc: Global, command: u32) -> Mem<TagWriter>
    ensures { IfOk result (λ writer. writer ≡ number command ++ number 2) }
{
    let mut writer = TagWriter::new(alloc);
    writer.number(command)?;
    writer.number(ERRAND_TAG)?;
    Ok(writer)
}

// Appends a sink that is named by its name.
fn put_sink(writer: &mut TagWriter, name: &[u8]) -> Mem<()>
    requires { IsTrue (is_text name.now) }
    ensures { OnOk result (writer.new ≡ writer.old ++ number 0xFFFFFFFF ++ text (Some name.now)) }
{
    writer.number(NO_INDEX)?;
    writer.text(Some(name))
}

// Appends a volume of one channel.
fn put_volume(writer: &mut TagWriter, value: u32) -> Mem<()>
    ensures { OnOk result (writer.new ≡ writer.old ++ channel_volumes (value ∷ [])) }
{
    writer.cvolume(&RawVolume::new(&[value]))
}

// The errand's command.
#[tactic(auto, using(crate::proofs::Names::name_is_text), unfolding(crate::specs::Errand::errand_packet))]
fn errand_packet(alloc: Global, errand: &Errand) -> Mem<Packet>
    requires { IsErrand errand.now }
    ensures { IfOk result (λ packet. packet ≡ errand_packet errand.now) }
{
    match errand {
        Errand::List => Ok(front(alloc, number::GET_SINK_INPUT_INFO_LIST)?.finish()),
        Errand::Volume(input, value) => {
            let mut writer = front(alloc, number::SET_SINK_INPUT_VOLUME)?;
            writer.number(*input)?;
            put_volume(&mut writer, *value)?;
            Ok(writer.finish())
        }
        Errand::Mute(input, on) => {
            let mut writer = front(alloc, number::SET_SINK_INPUT_MUTE)?;
            writer.number(*input)?;
            writer.flag(*on)?;
            Ok(writer.finish())
        }
        Errand::SinkVolume(name, value) => {
            let mut writer = front(alloc, number::SET_SINK_VOLUME)?;
            put_sink(&mut writer, name.as_slice())?;
            put_volume(&mut writer, *value)?;
            Ok(writer.finish())
        }
        Errand::Move(input, name) => {
            let mut writer = front(alloc, number::MOVE_SINK_INPUT)?;
            writer.number(*input)?;
            put_sink(&mut writer, name.as_slice())?;
            Ok(writer.finish())
        }
        Errand::Kill(input) => {
            let mut writer = front(alloc, number::KILL_SINK_INPUT)?;
            writer.number(*input)?;
            Ok(writer.finish())
        }
    }
}

// A packet in its frame.
fn framed(alloc: Global, packet: &Packet) -> Mem<Text>
    requires some { 0 < length packet.now }
    requires few { length packet.now ≤ 400 }
    ensures { IfOk result (λ frame. frame ≡ framed packet.now) }
{
    match write_packet(alloc, packet.as_slice()) {
        Ok(frame) => Ok(Text::from_vec(frame.into_vec())),
        Err(_) => Err(NoMemory),
    }
}

/// The frame in which the client shows its cookie, 256 bytes, and its version.
#[tactic(auto, using(crate::proofs::Sizes::auth_some, crate::proofs::Sizes::auth_few))]
pub(crate) fn auth_frame(alloc: Global, cookie: &[u8]) -> Mem<Text>
    requires { length cookie.now ≡ 256 }
    ensures { IfOk result (λ frame. frame ≡ framed (auth_packet cookie.now)) }
{
    let packet = auth_packet(alloc, cookie)?;
    framed(alloc, &packet)
}

/// The frame in which the client says its name.
#[tactic(auto, using(crate::proofs::Sizes::name_some, crate::proofs::Sizes::name_few))]
pub(crate) fn name_frame(alloc: Global) -> Mem<Text>
    ensures { IfOk result (λ frame. frame ≡ framed name_packet) }
{
    let packet = name_packet(alloc)?;
    framed(alloc, &packet)
}

/// The frame of the errand's command.
#[tactic(auto, using(crate::proofs::Sizes::errand_some, crate::proofs::Sizes::errand_few))]
pub(crate) fn errand_frame(alloc: Global, errand: &Errand) -> Mem<Text>
    requires { IsErrand errand.now }
    ensures { IfOk result (λ frame. frame ≡ framed (errand_packet errand.now)) }
{
    let packet = errand_packet(alloc, errand)?;
    framed(alloc, &packet)
}
