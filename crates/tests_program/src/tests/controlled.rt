//! A control client of a world: what it sends goes to the world as bytes of a connection, and what the world sends comes back to it.
ghost use Rattle.px_header.specs.HeaderRules.{IsHeader};

use super::worlds::{asks, header_of, met};
use px_client::{ClientEnd, Errand, client};
use px_ends::{Calls, MemLink, MemSink};
use px_header::Header;
use px_session::Event;
use px_state::Effect;
use px_types::{ConnId, Mem, NoMemory, Text};
use px_world::World;
use std::alloc::Global;

// The cookie of the header, which is the client's.
const COOKIE: [u8; 256] = [0; 256];

// Two sinks in S16LE, mono, as a header has them.
const SINKS: &[u8] =
    b"\x02\x03out\x03\x01\0\0\xbb\x80\0\0\0\0\x0a\0\0\0\x64\x04side\x03\x01\0\0\xbb\x80\0\0\0\0\x0a\0\0\0\x64";

// The client's end and the text that it printed, where it heard `heard` and then the link's end; and what it sent.
fn said(alloc: Global, errand: &Errand, heard: &[u8]) -> Mem<(ClientEnd, MemSink, Text)> {
    let mut output = MemSink::new(alloc, 999, Calls::none(alloc))?;
    let heard = Text::copied(alloc, heard)?;
    let mut link = MemLink::new(alloc, heard, 999, Calls::none(alloc), Calls::none(alloc))?;
    if !errand.is_allowed() {
        return Err(NoMemory);
    }
    let end = client(alloc, &COOKIE, errand, &mut link, &mut output);
    let sent = Text::copied(alloc, link.sent())?;
    Ok((end, output, sent))
}

// Adds what the world sends to a connection for these bytes of it.
fn hear(
    alloc: Global,
    world: &mut World,
    conn: ConnId,
    bytes: &[u8],
    heard: &mut Vec<u8>,
) -> Mem<()> {
    let bytes = Event::Bytes(conn, Text::copied(alloc, bytes)?);
    let Ok(outcome) = world.event(alloc, bytes) else {
        return Err(NoMemory);
    };
    for effect in outcome.effects.as_slice() {
        if let Effect::Sent { conn: to, packet } = effect
            && to.0 == conn.0
        {
            heard.extend_from_slice(packet.bytes())?;
        }
    }
    Ok(())
}

// Whether the client of a new connection ends so, and prints this text, once the world has answered each of its commands.
fn ends(
    alloc: Global,
    world: &mut World,
    conn: ConnId,
    errand: &Errand,
    end: ClientEnd,
    text: &[u8],
) -> Mem<bool> {
    let mut heard = Vec::new(alloc);
    let mut told = 0;
    let connected = met(alloc, world, Event::Connect(conn)) == Ok((0, 0));
    for _ in 0..3u32 {
        let (_, _, sent) = said(alloc, errand, &heard)?;
        let Some(new) = sent.as_slice().get(told..) else {
            return Ok(false);
        };
        hear(alloc, world, conn, new, &mut heard)?;
        told = sent.as_slice().len();
    }
    let (ended, output, sent) = said(alloc, errand, &heard)?;
    Ok(connected && ended == end && output.bytes() == text && sent.as_slice().len() == told)
}

// Whether each errand is done, at a world with one stream.
fn all_end(alloc: Global, world: &mut World) -> Mem<bool> {
    let out = || Text::copied(alloc, b"out");
    let side = || Text::copied(alloc, b"side");
    let fine = ClientEnd::Ok;
    Ok(
        asks(alloc, world)?
            && ends(
                alloc,
                world,
                ConnId(2),
                &Errand::List,
                fine,
                b"input 0 sink 0 volume 65536 mute no\n",
            )?
            && ends(
                alloc,
                world,
                ConnId(3),
                &Errand::Volume(0, 32_768),
                fine,
                b"",
            )?
            && ends(alloc, world, ConnId(4), &Errand::Mute(0, true), fine, b"")?
            && ends(
                alloc,
                world,
                ConnId(5),
                &Errand::List,
                fine,
                b"input 0 sink 0 volume 32768 mute yes\n",
            )?
            && ends(
                alloc,
                world,
                ConnId(6),
                &Errand::SinkVolume(out()?, 16_384),
                fine,
                b"",
            )?
            && ends(
                alloc,
                world,
                ConnId(7),
                &Errand::List,
                fine,
                b"input 0 sink 0 volume 8192 mute yes\n",
            )?
            && ends(
                alloc,
                world,
                ConnId(8),
                &Errand::Volume(9, 1),
                ClientEnd::Denied(5),
                b"",
            )?
            && ends(
                alloc,
                world,
                ConnId(9),
                &Errand::Move(0, side()?),
                fine,
                b"",
            )?
            && ends(alloc, world, ConnId(10), &Errand::Kill(0), fine, b"")?
            && ends(alloc, world, ConnId(11), &Errand::List, fine, b"")?,
    )
}

fn new_world_does_errands(alloc: Global, header: &Header) -> Mem<bool>
    requires { IsHeader header.now }
{
    let mut world = World::new(alloc, header)?;
    let all = all_end(alloc, &mut world);
    // By a call, so that its fields are dropped by functions of their own.
    drop(world);
    all
}

#[test]
fn a_control_client_has_its_errands_done_by_a_world(rt: HostRuntime) -> Mem<()> {
    let alloc = rt.alloc();
    let mut bytes = Vec::new(alloc);
    bytes.extend_from_slice(b"PRS1")?;
    bytes.extend_from_slice(&COOKIE)?;
    bytes.extend_from_slice(SINKS)?;
    let header = header_of(alloc, bytes)?;
    assert!(rt; matches!(new_world_does_errands(alloc, &header), Ok(true)));
    Ok(())
}
