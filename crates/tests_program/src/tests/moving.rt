//! A stream that moves away from a sink whose device has failed.
ghost use Rattle.std.specs.Prelude.{IfOk};
ghost use Rattle.px_header.specs.HeaderRules.{IsHeader};

use super::worlds::{AUTH, header_of, met, turned};
use px_header::Header;
use px_session::Event;
use px_types::{ConnId, Mem, SinkId, Text};
use px_world::{Frames, World, WorldFault};
use std::alloc::Global;

// A sink `out`, S16LE, of guard 10 and depth 100, and a sink `wide`, S32LE, of guard 0 and depth 50; both mono.
const SINKS: &[u8] =
    b"\x02\x03out\x03\x01\0\0\xbb\x80\0\0\0\0\x0a\0\0\0\x64\x04wide\x07\x01\0\0\xbb\x80\0\0\0\0\0\0\0\x002";

fn header_read(alloc: Global) -> Mem<Header>
    ensures { IfOk result IsHeader }
{
    let mut bytes = Vec::new(alloc);
    bytes.extend_from_slice(b"PRS1")?;
    bytes.extend_from_slice(&[0; 256])?;
    bytes.extend_from_slice(SINKS)?;
    header_of(alloc, bytes)
}

// CREATE_PLAYBACK_STREAM on the default sink in S16LE, mono, with tlength 400, prebuf 2 and minreq 2 bytes, and the head of 400 bytes of sound for it.
const CREATE: &[u8] =
    b"\0\0\0\x45\xff\xff\xff\xff\0\0\0\0\0\0\0\0\0\0\0\0L\0\0\0\x03L\0\0\0\x01a\x03\x01\0\0\xbb\x80m\x01\0L\xff\xff\xff\xffNL\xff\xff\xff\xff0L\0\0\x01\x90L\0\0\0\x02L\0\0\0\x02L\xff\xff\xff\xffv\x01\0\x01\0\x00000000000PN\0\0\x01\x90\0\0\0\0\0\0\0\0\0\0\0\0\0\0\0\0";

// MOVE_SINK_INPUT of input 0 to the sink `wide`.
const MOVE: &[u8] =
    b"\0\0\0\x1a\xff\xff\xff\xff\0\0\0\0\0\0\0\0\0\0\0\0L\0\0\0\x43L\0\0\0\x02L\0\0\0\0L\xff\xff\xff\xfftwide\0";

// The frames from `first` up to the one before `end`, each of its number's value, with `zeros` before the number's byte and a zero after it.
fn frames(alloc: Global, first: u8, end: u8, zeros: &[u8]) -> Mem<Vec<u8>> {
    let mut bytes = Vec::new(alloc);
    for number in first..end {
        bytes.extend_from_slice(zeros)?;
        bytes.extend_from_slice(&[number, 0])?;
    }
    Ok(bytes)
}

// Whether a turn that takes no messages plays these frames.
fn plays(alloc: Global, world: &mut World, sink: u8, frames: u32, bytes: &[u8]) -> bool {
    let turn = Event::Turn {
        sink,
        frames: u64::from(frames),
        take: 0,
    };
    match world.event(alloc, turn) {
        Ok(outcome) => outcome.frames == frames && outcome.played.as_slice() == bytes,
        Err(_) => false,
    }
}

// The number of effects of bytes of the client.
fn sent(alloc: Global, world: &mut World, bytes: Vec<u8>) -> Option<usize> {
    match met(alloc, world, Event::Bytes(ConnId(1), Text::from_vec(bytes))) {
        Ok((effects, _)) => Some(effects),
        Err(_) => None,
    }
}

// A client authenticates, creates a stream, and sends 200 frames, of which frame i has the value i.
fn creates(alloc: Global, world: &mut World) -> Mem<bool> {
    let mut bytes = Vec::new(alloc);
    bytes.extend_from_slice(AUTH)?;
    bytes.extend_from_slice(&[0; 256])?;
    bytes.extend_from_slice(CREATE)?;
    bytes.extend_from_slice(frames(alloc, 0, 200, b"")?.as_slice())?;
    let connected = met(alloc, world, Event::Connect(ConnId(1))) == Ok((0, 0));
    Ok(connected && sent(alloc, world, bytes) == Some(2))
}

// The first sink has played frames 0 to 19 of it, and frames 20 to 29 are its guard's.
fn begins(alloc: Global, world: &mut World) -> Mem<bool> {
    let played = frames(alloc, 0, 20, b"")?;
    Ok(
        creates(alloc, world)?
            && turned(alloc, world, 0, 3) == Ok((0, 0))
            && plays(alloc, world, 0, 20, played.as_slice()),
    )
}

// The first sink's device fails in its next turn, which plays nothing and drops what is past the guard.
fn stops(alloc: Global, world: &mut World) -> bool {
    let Some(before) = world.frames(0) else {
        return false;
    };
    world.stop(SinkId(0));
    before.filled == 120
        && turned(alloc, world, 0, 0) == Ok((0, 0))
        && world.frames(0)
            == Some(Frames {
                consumed: 20,
                filled: 30,
            })
}

// The stream is moved to `wide`, which the client is told by the last of its four notices.
fn moves(alloc: Global, world: &mut World) -> Mem<bool> {
    let mut bytes = Vec::new(alloc);
    bytes.extend_from_slice(MOVE)?;
    let five = Event::Collect { sink: 0, take: 5 };
    let four = Event::Collect { sink: 0, take: 4 };
    Ok(
        sent(alloc, world, bytes) == Some(1)
            && turned(alloc, world, 0, 1) == Ok((0, 0))
            && met(alloc, world, five) == Err(WorldFault::TooMany { asked: 5, there: 4 })
            && met(alloc, world, four) == Ok((4, 0)),
    )
}

// `wide` plays on from frame 30, in its own format.
fn goes_on(alloc: Global, world: &mut World) -> Mem<bool> {
    let played = frames(alloc, 30, 80, b"\0\0")?;
    let taken = Event::Turn {
        sink: 1,
        frames: 0,
        take: 2,
    };
    Ok(met(alloc, world, taken) == Ok((0, 0)) && plays(alloc, world, 1, 50, played.as_slice()))
}

fn lives(alloc: Global, world: &mut World) -> Mem<bool> {
    Ok(
        begins(alloc, world)?
            && stops(alloc, world)
            && moves(alloc, world)?
            && goes_on(alloc, world)?,
    )
}

fn new_world_lives(alloc: Global, header: &Header) -> Mem<bool>
    requires { IsHeader header.now }
{
    let mut world = World::new(alloc, header)?;
    let lived = lives(alloc, &mut world);
    // By a call, so that its fields are dropped by functions of their own.
    drop(world);
    lived
}

#[test]
fn a_stream_goes_on_elsewhere_where_its_sink_failed(rt: HostRuntime) -> Mem<()> {
    let header = header_read(rt.alloc())?;
    assert!(rt; matches!(new_world_lives(rt.alloc(), &header), Ok(true)));
    Ok(())
}
