ghost use Rattle.std.specs.Prelude.{◌≡◌, ◌<◌, ◌≤◌, length, IfOk};
ghost use Rattle.px_frame.specs.Frame.{IsBody};
ghost use Rattle.px_msg.specs.View.{sample_spec};
ghost use Rattle.px_header.specs.HeaderRules.{IsHeader};

use px_core::{Core, Effects};
use px_ends::{Calls, MemSource};
use px_frame::{Body, Frame, Packet};
use px_header::Header;
use px_msg::{Msg, Notice, Parcel};
use px_names::SourceName;
use px_sample::{Format, Spec};
use px_session::{Reader, Step};
use px_types::{ConnId, InputId, Mem, NoMemory, SinkId, Text};
use std::alloc::Global;

// A parcel that is a sample spec and nothing else.
#[derive(Drop)]
pub(crate) struct Stub {
    spec: Spec,
}

impl Parcel for Stub {
    ghost spec_of = { λ stub. sample_spec stub.spec };

    fn spec(&self) -> Spec {
        self.spec
    }
}

const OUT: SinkId = SinkId(0);

pub(crate) const CLIENT: ConnId = ConnId(7);

const INPUT: InputId = InputId(0);

const MONO: Spec = Spec {
    format: Format::S16Le,
    channels: 1,
    rate: 48_000,
};

// AUTH of version 13, up to the cookie.
pub(crate) const AUTH: &[u8] = b"L\0\0\0\x08L\0\0\0\x01L\0\0\0\x0Dx\0\0\x01\0";

// CREATE_PLAYBACK_STREAM on the default sink: S16LE, mono, no prebuffering, the rest left to the server.
const CREATE: &[u8] =
    b"L\0\0\0\x03L\0\0\0\x02a\x03\x01\0\0\xBB\x80m\x01\0L\xFF\xFF\xFF\xFFNL\xFF\xFF\xFF\xFF0L\xFF\xFF\xFF\xFFL\0\0\0\0L\xFF\xFF\xFF\xFFL\0\0\0\0v\x01\0\x01\0\x00000000000PN";

// DELETE_PLAYBACK_STREAM of stream 0.
const DELETE: &[u8] = b"L\0\0\0\x04L\0\0\0\x03L\0\0\0\0";

// The header of a session with one sink `out`: S16LE, mono, 48,000 frames a second, guard 10, depth 100.
fn header_bytes(alloc: Global) -> Mem<Text> {
    let mut bytes = Vec::new(alloc);
    bytes.extend_from_slice(b"PRS1")?;
    bytes.extend_from_slice(&[0; 256])?;
    bytes.extend_from_slice(b"\x01\x03out\x03\x01\0\0\xBB\x80\0\0\0\0\x0A\0\0\0\x64")?;
    Ok(Text::from_vec(bytes))
}

// That header, read.
fn header(alloc: Global, reader: &mut Reader) -> Mem<Header>
    ensures { IfOk result IsHeader }
{
    let mut source = MemSource::new(header_bytes(alloc)?, Calls::none(alloc));
    match reader.next(&mut source) {
        Ok(Step::Header(header)) => Ok(header),
        _ => Err(NoMemory),
    }
}

// A core with this sink.
pub(crate) fn new_core(alloc: Global, source: Option<&SourceName>) -> Mem<Core<Stub>> {
    let mut reader = Reader::new(alloc)?;
    let header = header(alloc, &mut reader)?;
    Core::new(alloc, &header, source)
}

// The effects of a control packet; one that comes back, as memory is short, is handled again as if for the first time.
pub(crate) fn answered(
    alloc: Global,
    core: &mut Core<Stub>,
    packet: &[u8],
    more: &[u8],
) -> Mem<Effects> {
    let mut bytes = Vec::new(alloc);
    bytes.extend_from_slice(packet)?;
    bytes.extend_from_slice(more)?;
    if bytes.is_empty() || bytes.len() > 400 {
        return Err(NoMemory);
    }
    let body = Body::Control(Packet::from_vec(bytes));
    let back = match core.frame(CLIENT, Frame { at: 20, body }) {
        Ok(effects) => return Ok(effects),
        Err(back) => back,
    };
    match core.frame(CLIENT, back) {
        Ok(effects) => Ok(effects),
        Err(_) => Err(NoMemory),
    }
}

// The number of its effects.
fn asked(alloc: Global, core: &mut Core<Stub>, packet: &[u8], more: &[u8]) -> Mem<usize> {
    let effects = answered(alloc, core, packet, more)?;
    Ok(effects.as_slice().len())
}

// The same for the notice that the stream was detached.
fn detached(core: &mut Core<Stub>) -> Mem<usize> {
    let parcel = Stub { spec: MONO };
    let input = INPUT;
    let back = match core.notice(OUT, Notice::Detached { input, parcel }) {
        Ok(effects) => return Ok(effects.as_slice().len()),
        Err(back) => back,
    };
    match core.notice(OUT, back) {
        Ok(effects) => Ok(effects.as_slice().len()),
        Err(_) => Err(NoMemory),
    }
}

// The number of inputs that a message has factors for, or the new input that it has.
fn said_by(msg: &Msg<Stub>) -> (Option<usize>, Option<InputId>) {
    match msg {
        Msg::New(new) => (None, Some(new.input)),
        Msg::Factors(list) => (Some(list.as_slice().len()), None),
        _ => (None, None),
    }
}

// A new stream is handed out with its factors, both are put back, the last one first, and both are handed out again.
fn hands_again(core: &mut Core<Stub>) -> bool {
    let (Some(first), Some(second)) = (core.sent(OUT), core.sent(OUT)) else {
        return false;
    };
    core.unsent(OUT, second);
    core.unsent(OUT, first);
    core.outgoing(OUT) == 2
        && matches!(core.sent(OUT), Some(msg) if said_by(&msg) == (None, Some(INPUT)))
        && matches!(core.sent(OUT), Some(msg) if said_by(&msg) == (Some(1), None))
        && core.sent(OUT).is_none()
}

// A client authenticates and creates a stream.
fn begins(alloc: Global, core: &mut Core<Stub>) -> Mem<bool> {
    let admitted = core.admit(CLIENT).is_ok() || core.admit(CLIENT).is_ok();
    let answers = [
        asked(alloc, core, AUTH, &[0; 256])?,
        asked(alloc, core, CREATE, b"")?,
    ];
    Ok(admitted && answers == [1, 1] && hands_again(core))
}

// The stream is detached.
fn ends(alloc: Global, core: &mut Core<Stub>) -> Mem<bool> {
    let deleted = asked(alloc, core, DELETE, b"")?;
    let leaves = matches!(core.sent(OUT), Some(Msg::Detach { input: INPUT }));
    let gone = detached(core)?;
    let last = matches!(core.sent(OUT), Some(msg) if said_by(&msg) == (Some(0), None));
    Ok(deleted == 1 && leaves && gone == 0 && last)
}

// A client authenticates and creates a stream, which is detached.
fn lives(alloc: Global, core: &mut Core<Stub>) -> Mem<bool> {
    Ok(begins(alloc, core)? && ends(alloc, core)?)
}

fn is_lived(alloc: Global) -> Mem<bool> {
    let mut core = new_core(alloc, None)?;
    Ok(matches!(lives(alloc, &mut core), Ok(true)))
}

#[test]
fn each_step_is_made_after_a_want_of_memory(rt: HostRuntime) {
    assert!(rt; matches!(is_lived(rt.alloc()), Ok(true)));
}
