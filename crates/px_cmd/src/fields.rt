//! Fields, read one after the other.

ghost use Rattle.std.specs.Prelude.{◌≡◌, length, ◌∷◌, [], IfOk};
ghost use Rattle.std.specs.Option.{option_map};
ghost use Rattle.px_tag.specs.Reading.{text_at, counted_at, proplist_at};
ghost use Rattle.px_cmd.specs.Field.{fields_at, keys_at, u32, bool, string, cookie, sample_spec, positions, volumes, time_value, properties, keys};
ghost use Rattle.px_cmd.specs.Command.{optional, sink_fields};
ghost use Rattle.px_cmd.specs.Meant.{IsFrom};
ghost use Rattle.px_cmd.specs.Packet.{Takes};
ghost use Rattle.px_cmd.specs.Table.{from_on};

use crate::command::SinkRef;
use crate::fault::CmdFault;
use crate::text::{Keys, Text};
use px_tag::{ListFault, PropList, TagReader};
use std::alloc::Global;

pub(crate) fn text(alloc: Global, reader: &mut TagReader) -> Result<Option<Text>, CmdFault>
    ensures { Takes (λ text. text) result reader.new (text_at reader.old) }
{
    match reader.text()? {
        None => Ok(None),
        Some(bytes) => Ok(Some(Text::new(alloc, bytes)?)),
    }
}

pub(crate) fn cookie(alloc: Global, reader: &mut TagReader) -> Result<Text, CmdFault>
    ensures { Takes (λ text. text) result reader.new (counted_at 256 reader.old) }
{
    let bytes = reader.arbitrary_of(256)?;
    Ok(Text::new(alloc, bytes)?)
}

pub(crate) fn properties(alloc: Global, reader: &mut TagReader) -> Result<PropList, CmdFault>
    ensures { Takes (λ list. list) result reader.new (proplist_at reader.old) }
{
    match reader.proplist(alloc) {
        Ok(list) => Ok(list),
        Err(ListFault::Tag(fault)) => Err(CmdFault::Protocol(fault)),
        Err(ListFault::NoMemory) => Err(CmdFault::NoMemory),
    }
}

pub(crate) fn sink(alloc: Global, reader: &mut TagReader) -> Result<SinkRef, CmdFault>
    ensures { Takes sink_fields result reader.new (fields_at (u32 ∷ string ∷ []) reader.old) }
{
    let index = reader.number()?;
    let name = text(alloc, reader)?;
    Ok(SinkRef { index, name })
}

/// Keys, up to the null string.
pub(crate) fn keys(alloc: Global, reader: &mut TagReader) -> Result<Keys, CmdFault>
    ensures { Takes (λ keys. keys) result reader.new (keys_at (length reader.old.rest) reader.old) }
{
    let mut keys = Keys::new(alloc);
    loop {
        match text(alloc, reader)? {
            None => return Ok(keys),
            Some(key) => keys.push(key)?,
        }
    }
}

/// A flag that packets have from version `since` on: `None` in those of earlier versions, of which nothing is read.
pub(crate) fn flag_from(
    reader: &mut TagReader,
    since: u16,
    version: u16,
) -> Result<Option<bool>, CmdFault>
    ensures value { Takes optional result reader.new (fields_at (from_on since version) reader.old) }
    ensures of_version { IfOk result (IsFrom since version) }
{
    if version < since {
        return Ok(None);
    }
    Ok(Some(reader.flag()?))
}
