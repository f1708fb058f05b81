//! The connection that the server has of its own.

ghost use Rattle.std.specs.Prelude.{◌≡◌, ◌<◌, ◌≤◌, length, IfOk};
ghost use Rattle.px_frame.specs.declared.frame.Body.TheVariants.{Control};
ghost use Rattle.px_frame.specs.Spelling.{spelling_of};
ghost use Rattle.px_cache_world.specs.Own.{HIDDEN, is_hidden, own_properties, auth_packet, name_packet, auth_frame, name_frame};

use px_cmd::number;
use px_frame::write_packet;
use px_tag::{Packet, PropList, TagWriter};
use px_types::limits::PROTOCOL_VERSION;
use px_types::{ConnId, Mem, NoMemory, Text};
use std::alloc::Global;

// The number of the connection, which no client has. Own.
const NUMBER: u32 = 0xFFFF_FFFF;

/// The connection. Takes no memory.
pub(crate) fn hidden() -> ConnId
    ensures { result ≡ HIDDEN }
{
    ConnId(NUMBER)
}

/// Whether a connection is it. Takes no memory.
pub(crate) fn is_hidden(conn: ConnId) -> bool
    ensures { result ≡ is_hidden conn }
{
    conn.0 == NUMBER
}

// AUTH of version 18.
#[tactic(auto, unfolding(crate::specs::Own::auth_packet))]
fn auth_packet(alloc: Global, cookie: &[u8]) -> px_tag::Mem<Packet>
    requires { length cookie.now ≡ 256 }
    ensures { IfOk result (λ packet. packet ≡ auth_packet cookie.now) }
{
    let mut writer = TagWriter::new(alloc);
    writer.number(number::AUTH)?;
    writer.number(0)?;
    writer.number(u32::from(PROTOCOL_VERSION))?;
    writer.arbitrary(cookie)?;
    Ok(writer.finish())
}

// The properties: a name.
fn properties(alloc: Global) -> px_tag::Mem<PropList>
    ensures { IfOk result (λ list. list ≡ own_properties) }
{
    let mut list = PropList::new(alloc);
    list.set(b"application.name", b"sample-cache\0")?;
    Ok(list)
}

// SET_CLIENT_NAME.
#[tactic(auto, unfolding(crate::specs::Own::name_packet))]
fn name_packet(alloc: Global) -> px_tag::Mem<Packet>
    ensures { IfOk result (λ packet. packet ≡ name_packet) }
{
    let list = properties(alloc)?;
    let mut writer = TagWriter::new(alloc);
    writer.number(number::SET_CLIENT_NAME)?;
    writer.number(1)?;
    writer.proplist(&list)?;
    Ok(writer.finish())
}

// A packet in its frame.
fn framed(alloc: Global, packet: &Packet) -> Mem<Text>
    requires some { 0 < length packet.now }
    requires few { length packet.now ≤ 400 }
    ensures { IfOk result (λ frame. frame ≡ spelling_of (Control packet.now)) }
{
    match write_packet(alloc, packet.as_slice()) {
        Ok(frame) => Ok(Text::from_vec(frame.into_vec())),
        Err(_) => Err(NoMemory),
    }
}

/// The frame in which it shows the cookie, 256 bytes, and its version.
#[tactic(auto, using(crate::proofs::Sizes::auth_some, crate::proofs::Sizes::auth_few))]
pub(crate) fn auth_frame(alloc: Global, cookie: &[u8]) -> Mem<Text>
    requires { length cookie.now ≡ 256 }
    ensures { IfOk result (λ frame. frame ≡ auth_frame cookie.now) }
{
    match auth_packet(alloc, cookie) {
        Ok(packet) => framed(alloc, &packet),
        Err(_) => Err(NoMemory),
    }
}

/// The frame in which it says its name.
#[tactic(auto, using(crate::proofs::Sizes::name_some, crate::proofs::Sizes::name_few))]
pub(crate) fn name_frame(alloc: Global) -> Mem<Text>
    ensures { IfOk result (λ frame. frame ≡ name_frame) }
{
    match name_packet(alloc) {
        Ok(packet) => framed(alloc, &packet),
        Err(_) => Err(NoMemory),
    }
}
