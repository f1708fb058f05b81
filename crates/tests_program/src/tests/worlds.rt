//! A world whose sink has failed.
ghost use Rattle.std.specs.Prelude.{IfOk};
ghost use Rattle.px_header.specs.HeaderRules.{IsHeader};

use super::faults::session;
use px_ends::{Calls, MemSource};
use px_header::Header;
use px_session::{Event, Reader, Step};
use px_types::{ConnId, Mem, NoMemory, SinkId, Text};
use px_world::{World, WorldFault};
use std::alloc::Global;

// The header at the front of a source.
fn first_header(reader: &mut Reader, source: &mut MemSource) -> Mem<Header>
    ensures { IfOk result IsHeader }
{
    match reader.next(source) {
        Ok(Step::Header(header)) => Ok(header),
        _ => Err(NoMemory),
    }
}

/// The header at the front of these bytes.
pub fn header_of(alloc: Global, bytes: Vec<u8>) -> Mem<Header>
    ensures { IfOk result IsHeader }
{
    let mut source = MemSource::new(Text::from_vec(bytes), Calls::none(alloc));
    first_header(&mut Reader::new(alloc)?, &mut source)
}

// The header of a session.
fn header_read(alloc: Global) -> Mem<Header>
    ensures { IfOk result IsHeader }
{
    header_of(alloc, session(alloc)?)
}

/// The number of effects of an event, and of frames that it consumes.
pub fn met(alloc: Global, world: &mut World, event: Event) -> Result<(usize, u32), WorldFault> {
    match world.event(alloc, event) {
        Ok(outcome) => Ok((outcome.effects.as_slice().len(), outcome.frames)),
        Err(fault) => Err(fault),
    }
}

/// The same of a turn of the first sink.
pub fn turned(
    alloc: Global,
    world: &mut World,
    frames: u32,
    take: u32,
) -> Result<(usize, u32), WorldFault> {
    let sink = 0;
    let (frames, take) = (u64::from(frames), u64::from(take));
    met(alloc, world, Event::Turn { sink, frames, take })
}

/// AUTH of version 13 in its frame, up to the cookie.
pub const AUTH: &[u8] =
    b"\0\0\x01\x14\xff\xff\xff\xff\0\0\0\0\0\0\0\0\0\0\0\0L\0\0\0\x08L\0\0\0\0L\0\0\0\x0dx\0\0\x01\0";

// CREATE_PLAYBACK_STREAM in S16LE, mono, without prebuffering; a drain and a latency query of it. Each in its frame.
const ASKED: &[u8] =
    b"\0\0\0\x45\xff\xff\xff\xff\0\0\0\0\0\0\0\0\0\0\0\0L\0\0\0\x03L\0\0\0\x02a\x03\x01\0\0\xbb\x80m\x01\0L\xff\xff\xff\xffNL\xff\xff\xff\xff0L\xff\xff\xff\xffL\0\0\0\0L\xff\xff\xff\xffL\0\0\0\0v\x01\0\x01\0\x00000000000PN\0\0\0\x0f\xff\xff\xff\xff\0\0\0\0\0\0\0\0\0\0\0\0L\0\0\0\x0cL\0\0\0\x03L\0\0\0\0\0\0\0\x18\xff\xff\xff\xff\0\0\0\0\0\0\0\0\0\0\0\0L\0\0\0\x0eL\0\0\0\x04L\0\0\0\0T\0\0\0\x01\0\0\0\x02";

/// A client authenticates, creates a stream, and sends two requests for it.
pub fn asks(alloc: Global, world: &mut World) -> Mem<bool> {
    let mut bytes = Vec::new(alloc);
    bytes.extend_from_slice(AUTH)?;
    bytes.extend_from_slice(&[0; 256])?;
    bytes.extend_from_slice(ASKED)?;
    let bytes = Event::Bytes(ConnId(1), Text::from_vec(bytes));
    Ok(
        met(alloc, world, Event::Connect(ConnId(1))) == Ok((0, 0))
            && met(alloc, world, bytes) == Ok((2, 0)),
    )
}

// A sink whose device has failed plays no frame, in that turn and later, and still takes its messages: it answers how far a stream is, and that all
// of it was played.
fn answers(alloc: Global, world: &mut World) -> Mem<bool> {
    let none = Err(WorldFault::TooMany { asked: 1, there: 0 });
    let asked = asks(alloc, world)?;
    Ok(
        asked
            && turned(alloc, world, 0, 4) == Ok((0, 0))
            && turned(alloc, world, 1, 0) == none
            && turned(alloc, world, 0, 0) == Ok((0, 0))
            && met(alloc, world, Event::Collect { sink: 0, take: 2 }) == Ok((2, 0)),
    )
}

// Whether a world whose sink's device fails before its first event answers so.
fn failing_answers(alloc: Global, header: &Header) -> Mem<bool>
    requires { IsHeader header.now }
{
    let mut world = World::new(alloc, header)?;
    world.stop(SinkId(0));
    let answered = answers(alloc, &mut world);
    // By a call, so that its fields are dropped by functions of their own.
    drop(world);
    answered
}

#[test]
fn a_stopped_sink_plays_no_frame_and_answers(rt: HostRuntime) -> Mem<()> {
    let header = header_read(rt.alloc())?;
    assert!(rt; matches!(failing_answers(rt.alloc(), &header), Ok(true)));
    Ok(())
}

// The filled count of a sink that an event stopped, if it stopped one.
fn stopped(alloc: Global, world: &mut World, event: Event) -> Result<Option<u64>, WorldFault> {
    match world.event(alloc, event) {
        Ok(outcome) => Ok(outcome.stopped),
        Err(fault) => Err(fault),
    }
}

// A turn of the first sink that consumes nothing and takes no message.
fn idle_turn() -> Event {
    Event::Turn {
        sink: 0,
        frames: 0,
        take: 0,
    }
}

// A sink of guard 10 that is filled to frame 100 is stopped by the first turn after a `Stop`, which keeps what its guard does, and only by
// that one.
fn stops_once(alloc: Global, world: &mut World) -> bool {
    stopped(alloc, world, idle_turn()) == Ok(None)
        && stopped(alloc, world, Event::Stop(SinkId(0))) == Ok(None)
        && stopped(alloc, world, idle_turn()) == Ok(Some(10))
        && stopped(alloc, world, Event::Stop(SinkId(0))) == Ok(None)
        && stopped(alloc, world, idle_turn()) == Ok(None)
        && stopped(alloc, world, Event::Stop(SinkId(1))) == Err(WorldFault::NoSink)
}

fn new_world_stops_once(alloc: Global, header: &Header) -> Mem<bool>
    requires { IsHeader header.now }
{
    let mut world = World::new(alloc, header)?;
    let once = stops_once(alloc, &mut world);
    // By a call, so that its fields are dropped by functions of their own.
    drop(world);
    Ok(once)
}

#[test]
fn a_stop_is_told_by_the_turn_that_it_stops(rt: HostRuntime) -> Mem<()> {
    let header = header_read(rt.alloc())?;
    assert!(rt; matches!(new_world_stops_once(rt.alloc(), &header), Ok(true)));
    Ok(())
}
