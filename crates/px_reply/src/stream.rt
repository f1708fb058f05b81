//! Replies to the commands of playback streams.

ghost use Rattle.std.specs.Prelude.{◌≡◌, ◌++◌, ◌≤◌, false, Some, slice_index, IsTrue, IfOk, OnOk};
ghost use Rattle.px_tag.specs.Item.{number, text, flag, usec, wide, signed, spec, channel_map, is_text};
ghost use Rattle.px_reply.specs.Front.{with_attributes};
ghost use Rattle.px_reply.specs.Message.{created_reply, latency_reply, attributes_reply};

use crate::played::{Created, LatencyFields};
use crate::reply::reply;
use px_tag::{Mem, Packet, TagWriter};
use std::alloc::Global;

// Appends maxlength, tlength, prebuf and minreq.
pub(crate) fn put_attributes(writer: &mut TagWriter, attr: [u32; 4]) -> Mem<()>
    ensures { OnOk result (writer.new ≡ with_attributes writer.old attr) }
{
    let [maxlength, tlength, prebuf, minreq] = attr;
    writer.number(maxlength)?;
    writer.number(tlength)?;
    writer.number(prebuf)?;
    writer.number(minreq)
}

// Appends a new stream's index, its input's index, the bytes requested and its attributes.
fn put_made(writer: &mut TagWriter, fields: &Created) -> Mem<()>
    ensures { OnOk result (writer.new ≡ with_attributes (writer.old ++ number fields.now.stream ++ number fields.now.input ++ number (slice_index fields.now.attr 1)) fields.now.attr) }
{
    writer.number(fields.stream)?;
    writer.number(fields.input)?;
    writer.number(fields.attr[1])?;
    put_attributes(writer, fields.attr)
}

// Appends where it plays: its spec, its map, its sink, which isn't suspended, and the latency in microseconds.
fn put_place(writer: &mut TagWriter, fields: &Created) -> Mem<()>
    requires name { IsTrue (is_text fields.now.name) }
    requires channels { fields.now.spec.channels ≤ 32 }
    ensures { OnOk result (writer.new ≡ writer.old ++ spec fields.now.spec ++ channel_map fields.now.map ++ number fields.now.sink ++ text (Some fields.now.name) ++ flag false ++ usec fields.now.usec) }
{
    writer.spec(&fields.spec)?;
    writer.map(&fields.map)?;
    writer.number(fields.sink)?;
    writer.text(Some(fields.name.as_slice()))?;
    writer.flag(false)?;
    writer.usec(fields.usec)
}

/// The reply to CREATE_PLAYBACK_STREAM. The name has no zero byte, and there are at most 32 channels.
pub fn created(alloc: Global, tag: u32, fields: &Created) -> Mem<Packet>
    requires name { IsTrue (is_text fields.now.name) }
    requires channels { fields.now.spec.channels ≤ 32 }
    ensures { IfOk result (λ packet. packet ≡ created_reply tag fields.now) }
{
    let mut writer = reply(alloc, tag)?;
    put_made(&mut writer, fields)?;
    put_place(&mut writer, fields)?;
    Ok(writer.finish())
}

// Appends a stream's progress: write and read index, bytes of underrun, bytes playing.
fn put_progress(writer: &mut TagWriter, fields: &LatencyFields) -> Mem<()>
    ensures { OnOk result (writer.new ≡ writer.old ++ signed fields.now.write ++ signed fields.now.read ++ wide fields.now.underrun ++ wide fields.now.played) }
{
    writer.signed(fields.write)?;
    writer.signed(fields.read)?;
    writer.wide(fields.underrun)?;
    writer.wide(fields.played)
}

/// The reply to GET_PLAYBACK_LATENCY.
pub fn latency(alloc: Global, tag: u32, fields: &LatencyFields) -> Mem<Packet>
    ensures { IfOk result (λ packet. packet ≡ latency_reply tag fields.now) }
{
    let mut writer = reply(alloc, tag)?;
    writer.usec(fields.usec)?;
    writer.usec(0)?;
    writer.flag(fields.playing)?;
    writer.time(&fields.time)?;
    writer.time(&fields.time)?;
    put_progress(&mut writer, fields)?;
    Ok(writer.finish())
}

/// The reply to SET_PLAYBACK_STREAM_BUFFER_ATTR: the attributes as repaired, in bytes, and the sink's latency
/// in microseconds.
pub fn attributes(alloc: Global, tag: u32, attr: [u32; 4], usec: u64) -> Mem<Packet>
    ensures { IfOk result (λ packet. packet ≡ attributes_reply tag attr usec) }
{
    let mut writer = reply(alloc, tag)?;
    put_attributes(&mut writer, attr)?;
    writer.usec(usec)?;
    Ok(writer.finish())
}
