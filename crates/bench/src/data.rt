// Data frames through a core.
ghost use Rattle.std.specs.Prelude.{◌≡◌, ◌≢◌, ◌<◌, ◌≤◌, length, IfOk};
ghost use Rattle.px_msg.specs.View.{sample_spec};
ghost use Rattle.px_header.specs.HeaderRules.{IsHeader};

use px_block::{Blocks, Fresh};
use px_core::Core;
use px_ends::{Calls, MemSource};
use px_frame::{Body, Frame, Packet};
use px_header::Header;
use px_msg::Parcel;
use px_sample::Spec;
use px_session::{Reader, Step};
use px_types::{ConnId, Mem, NoMemory, SinkId, Text};
use std::alloc::Global;

// The sinks of the core, and the most inputs on each.
const SINKS: u8 = 4;

const ON_SINK: u32 = 250;

/// The client with the streams.
pub(crate) const CLIENT: ConnId = ConnId(1);

// The first connection of the listeners, of which there are up to 63.
const FIRST_LISTENER: u32 = 2;

const LISTENERS: u32 = 63;

// AUTH of version 13, up to the cookie.
const AUTH: &[u8] = b"L\x00\x00\x00\x08L\x00\x00\x00\x01L\x00\x00\x00\x0Dx\x00\x00\x01\x00";

// SUBSCRIBE to all facilities.
const SUBSCRIBE: &[u8] = b"L\x00\x00\x00\x23L\x00\x00\x00\x03L\x00\x00\x02\xFF";

// CREATE_PLAYBACK_STREAM of S16LE, mono, up to the index of its sink, and the fields after that.
const CREATE: &[u8] =
    b"L\x00\x00\x00\x03L\x00\x00\x00\x02a\x03\x01\x00\x00\xBB\x80m\x01\x00L\x00\x00\x00";

const ON_IT: &[u8] =
    b"NL\xFF\xFF\xFF\xFF0L\xFF\xFF\xFF\xFFL\x00\x00\x00\x00L\xFF\xFF\xFF\xFFL\x00\x00\x00\x00v\x01\x00\x01\x00\x00000000000PN";

/// A parcel that is a sample spec and nothing else.
#[derive(Drop)]
pub(crate) struct Stub {
    spec: Spec,
}

impl Parcel for Stub {
    ghost spec_of = { λ stub. sample_spec stub.spec };

    fn spec(&self) -> Spec {
        self.spec
    }
}

// A header of four sinks: S16LE, mono, 48,000 frames a second.
fn header_bytes(alloc: Global) -> Mem<Text> {
    let mut bytes = Vec::new(alloc);
    bytes.extend_from_slice(b"PRS1")?;
    bytes.extend_from_slice(&[0; 256])?;
    bytes.push(SINKS)?;
    for name in b"abcd" {
        bytes.extend_from_slice(&[1, *name, 3, 1, 0, 0, 0xBB, 0x80, 0])?;
        bytes.extend_from_slice(&[0, 0, 0, 10, 0, 0, 0, 100])?;
    }
    Ok(Text::from_vec(bytes))
}

// That header, read.
fn header(alloc: Global, reader: &mut Reader) -> Mem<Header>
    ensures { IfOk result IsHeader }
{
    let mut source = MemSource::new(header_bytes(alloc)?, Calls::none(alloc));
    match reader.next(&mut source) {
        Ok(Step::Header(header)) => Ok(header),
        _ => Err(NoMemory),
    }
}

/// A core before its first step.
pub(crate) fn new_core(alloc: Global) -> Mem<Core<Stub>> {
    let mut reader = Reader::new(alloc)?;
    let header = header(alloc, &mut reader)?;
    Core::new(alloc, &header, None)
}

/// A client sends a control packet.
pub(crate) fn ask(core: &mut Core<Stub>, conn: ConnId, packet: Vec<u8>) -> Mem<()> {
    if packet.is_empty() || packet.len() > 400 {
        return Err(NoMemory);
    }
    let body = Body::Control(Packet::from_vec(packet));
    match core.frame(conn, Frame { at: 0, body }) {
        Ok(_) => Ok(()),
        Err(_) => Err(NoMemory),
    }
}

// A client authenticates.
fn enter(alloc: Global, core: &mut Core<Stub>, conn: ConnId) -> Mem<()> {
    core.admit(conn)?;
    let mut packet = Vec::from_slice(alloc, AUTH)?;
    packet.extend_from_slice(&[0; 256])?;
    ask(core, conn, packet)
}

// A listener connects, and subscribes to all events.
fn listen(alloc: Global, core: &mut Core<Stub>, conn: ConnId) -> Mem<()> {
    enter(alloc, core, conn)?;
    let packet = Vec::from_slice(alloc, SUBSCRIBE)?;
    ask(core, conn, packet)
}

// Creates a stream on a sink.
fn create(alloc: Global, core: &mut Core<Stub>, sink: u8) -> Mem<()> {
    let mut packet = Vec::from_slice(alloc, CREATE)?;
    packet.push(sink)?;
    packet.extend_from_slice(ON_IT)?;
    ask(core, CLIENT, packet)
}

/// Fills a core: its client creates `streams` streams, and `listeners` listeners connect, up to 63.
pub(crate) fn fill(alloc: Global, core: &mut Core<Stub>, streams: u32, listeners: u32) -> Mem<()> {
    enter(alloc, core, CLIENT)?;
    for stream in 0..streams {
        let sink = (stream / ON_SINK % u32::from(SINKS)) as u8;
        create(alloc, core, sink)?;
    }
    for listener in 0..listeners.min(LISTENERS) {
        listen(alloc, core, ConnId(FIRST_LISTENER + listener))?;
    }
    Ok(())
}

// Four bytes, in a block.
fn blocks(alloc: Global) -> Mem<Blocks>
    ensures some { IfOk result (λ made. 0 < length made) }
    ensures few { IfOk result (λ made. length made ≤ 65536) }
{
    let mut made = Blocks::new(alloc);
    match made.put(&mut Fresh::new(alloc), b"abcd") {
        Ok(_) => Ok(made),
        Err(_) => Err(NoMemory),
    }
}

// A data frame for a stream.
fn write(alloc: Global, core: &mut Core<Stub>, stream: u32) -> Mem<()> {
    if stream == u32::MAX {
        return Ok(());
    }
    let body = Body::Write {
        stream,
        offset: 0,
        seek: 0,
        bytes: blocks(alloc)?,
    };
    match core.frame(CLIENT, Frame { at: 0, body }) {
        Ok(_) => Ok(()),
        Err(_) => Err(NoMemory),
    }
}

// The sink takes all messages that wait for it; returns their number.
fn take_all(core: &mut Core<Stub>, sink: SinkId) -> u64 {
    let waiting = core.outgoing(sink);
    let mut taken = 0_u64;
    for _ in 0..waiting {
        if core.sent(sink).is_some() {
            taken = taken.wrapping_add(1);
        }
    }
    taken
}

/// All sinks take their messages; returns the number of these.
pub(crate) fn deliver(core: &mut Core<Stub>) -> u64 {
    let mut taken = 0_u64;
    for sink in 0..SINKS {
        taken = taken.wrapping_add(take_all(core, SinkId(sink)));
    }
    taken
}

// Fills a core, and sends `frames` data frames, each to the next stream; returns the number of messages to the sinks.
fn send(
    alloc: Global,
    core: &mut Core<Stub>,
    streams: u32,
    listeners: u32,
    frames: u32,
) -> Mem<u64> {
    fill(alloc, core, streams, listeners)?;
    let mut messages = deliver(core);
    for frame in 0..frames {
        write(alloc, core, frame % streams.max(1))?;
        messages = messages.wrapping_add(deliver(core));
    }
    Ok(messages)
}

// The same, through a new core.
fn sent(alloc: Global, streams: u32, listeners: u32, frames: u32) -> Mem<u64> {
    let mut core = new_core(alloc)?;
    let messages = send(alloc, &mut core, streams, listeners, frames);
    drop(core);
    messages
}

/// Sends `frames` data frames through a core with `inputs` inputs, each frame to the next stream, while `listeners` clients are subscribed to all
/// events; the line has the number of messages to the sinks. Takes memory.
pub fn core_line(alloc: Global, inputs: u32, frames: u32, listeners: u32) -> Mem<String> {
    let messages = sent(alloc, inputs, listeners, frames)?;
    Ok(format!(in alloc;
        "{inputs} inputs, {listeners} listeners, {frames} frames, {messages} messages"
    )?)
}
