//! The reply to CREATE_RECORD_STREAM.

ghost use Rattle.std.specs.Prelude.{◌≡◌, ◌++◌, ◌≤◌, false, Some, IsTrue, IfOk, OnOk};
ghost use Rattle.px_tag.specs.Item.{number, text, flag, usec, spec, channel_map, is_text};
ghost use Rattle.px_outcome.specs.Target.{raw_of, IsTarget};
ghost use Rattle.px_reply.specs.Front.{reply_to};
ghost use Rattle.px_monitor.specs.Create.{created_reply};

use crate::recording::Recording;
use px_outcome::{Target, raw_of};
use px_tag::{Mem, Packet, RawMap, TagWriter};
use std::alloc::Global;

// Appends a record stream's numbers and its buffer's sizes in bytes.
fn put_made(writer: &mut TagWriter, maxlength: u32, r: &Recording) -> Mem<()>
    ensures { OnOk result (writer.new ≡ writer.old ++ number r.now.stream ++ number r.now.output ++ number maxlength ++ number r.now.fragsize) }
{
    writer.number(r.stream)?;
    writer.number(r.output)?;
    writer.number(maxlength)?;
    writer.number(r.fragsize)
}

// Appends the source: spec, map, index, name, not suspended, no latency.
fn put_source(writer: &mut TagWriter, source: &Target) -> Mem<()>
    requires { IsTarget source.now }
    ensures { OnOk result (writer.new ≡ writer.old ++ spec (raw_of source.now.spec) ++ channel_map source.now.map ++ number source.now.index.0 ++ text (Some source.now.name) ++ flag false ++ usec 0) }
{
    writer.spec(&raw_of(&source.spec))?;
    writer.map(&RawMap::new(source.map.positions()))?;
    writer.number(source.index.0 as u32)?;
    writer.text(Some(source.name.as_slice()))?;
    writer.flag(false)?;
    writer.usec(0)
}

/// The reply to CREATE_RECORD_STREAM, where `maxlength` is in bytes.
pub(crate) fn created(
    alloc: Global,
    tag: u32,
    source: &Target,
    maxlength: u32,
    r: &Recording,
) -> Mem<Packet>
    requires { IsTarget source.now }
    ensures { IfOk result (λ packet. packet ≡ created_reply tag source.now maxlength r.now) }
{
    let mut writer = TagWriter::new(alloc);
    writer.number(2)?;
    writer.number(tag)?;
    put_made(&mut writer, maxlength, r)?;
    put_source(&mut writer, source)?;
    Ok(writer.finish())
}
