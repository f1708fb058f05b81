//! Messages that the server sends by itself.

ghost use Rattle.std.specs.Prelude.{◌≡◌, ◌++◌, IsTrue, IfOk};
ghost use Rattle.px_tag.specs.Item.{number, is_text};
ghost use Rattle.px_reply.specs.Front.{message};
ghost use Rattle.px_reply.specs.Message.{moved_message};

use crate::stream::put_attributes;
use px_tag::{Mem, Packet, TagWriter};
use px_types::limits::NO_TAG;
use std::alloc::Global;

// A message of no fields.
fn front(alloc: Global, command: u32) -> Mem<TagWriter>
    ensures { IfOk result (λ writer. writer ≡ message command) }
{
    let mut writer = TagWriter::new(alloc);
    writer.number(command)?;
    writer.number(NO_TAG)?;
    Ok(writer)
}

// A message of one number.
fn of_number(alloc: Global, command: u32, value: u32) -> Mem<Packet>
    ensures { IfOk result (λ packet. packet ≡ message command ++ number value) }
{
    let mut writer = front(alloc, command)?;
    writer.number(value)?;
    Ok(writer.finish())
}

// A message of two numbers.
fn of_numbers(alloc: Global, command: u32, first: u32, second: u32) -> Mem<Packet>
    ensures { IfOk result (λ packet. packet ≡ message command ++ number first ++ number second) }
{
    let mut writer = front(alloc, command)?;
    writer.number(first)?;
    writer.number(second)?;
    Ok(writer.finish())
}

/// REQUEST: the client may send `bytes` more bytes for the stream.
pub fn request(alloc: Global, stream: u32, bytes: u32) -> Mem<Packet>
    ensures { IfOk result (λ packet. packet ≡ message 61 ++ number stream ++ number bytes) }
{
    of_numbers(alloc, 61, stream, bytes)
}

/// OVERFLOW: what was sent on the stream didn't fit.
pub fn overflow(alloc: Global, stream: u32) -> Mem<Packet>
    ensures { IfOk result (λ packet. packet ≡ message 62 ++ number stream) }
{
    of_number(alloc, 62, stream)
}

/// UNDERFLOW: the stream has run out of frames (an underrun).
pub fn underflow(alloc: Global, stream: u32) -> Mem<Packet>
    ensures { IfOk result (λ packet. packet ≡ message 63 ++ number stream) }
{
    of_number(alloc, 63, stream)
}

/// PLAYBACK_STREAM_KILLED: the stream was killed.
pub fn killed(alloc: Global, stream: u32) -> Mem<Packet>
    ensures { IfOk result (λ packet. packet ≡ message 64 ++ number stream) }
{
    of_number(alloc, 64, stream)
}

/// STARTED: the stream plays.
pub fn started(alloc: Global, stream: u32) -> Mem<Packet>
    ensures { IfOk result (λ packet. packet ≡ message 86 ++ number stream) }
{
    of_number(alloc, 86, stream)
}

/// SUBSCRIBE_EVENT: `kind` is the facility and the type of the event together, `index` the object's index.
pub fn event(alloc: Global, kind: u32, index: u32) -> Mem<Packet>
    ensures { IfOk result (λ packet. packet ≡ message 66 ++ number kind ++ number index) }
{
    of_numbers(alloc, 66, kind, index)
}

/// PLAYBACK_STREAM_MOVED: the stream is on this sink, whose name has no zero byte, with these attributes in
/// bytes and this latency in microseconds.
pub fn moved(
    alloc: Global,
    stream: u32,
    sink: u32,
    name: &[u8],
    attr: [u32; 4],
    usec: u64,
) -> Mem<Packet>
    requires { IsTrue (is_text name.now) }
    ensures { IfOk result (λ packet. packet ≡ moved_message stream sink name.now attr usec) }
{
    let mut writer = front(alloc, 78)?;
    writer.number(stream)?;
    writer.number(sink)?;
    writer.text(Some(name))?;
    writer.flag(false)?;
    put_attributes(&mut writer, attr)?;
    writer.usec(usec)?;
    Ok(writer.finish())
}
