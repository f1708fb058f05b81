//! The fields of the commands.

ghost use Rattle.std.specs.Prelude.{◌≡◌};
ghost use Rattle.px_tag.specs.Reading.{text_at, proplist_at};
ghost use Rattle.px_cmd.specs.Field.{fields_at};
ghost use Rattle.px_cmd.specs.Packet.{Takes};
ghost use Rattle.px_scache.specs.Command.{upload_kinds, upload_fields, play_kinds, play_fields};

use px_cmd::{CmdFault, SinkRef, Text};
use px_tag::{ListFault, PropList, RawMap, RawSpec, TagReader};
use std::alloc::Global;

/// The fields of CREATE_UPLOAD_STREAM, as the packet has them: `length` is in bytes.
#[derive(Drop)]
pub struct UploadFields {
    pub name: Option<Text>,
    pub spec: RawSpec,
    pub map: RawMap,
    pub length: u32,
    pub list: PropList,
}

/// The fields of PLAY_SAMPLE, as the packet has them: `volume` is that of all channels, 65,536 for the full one, 0xFFFFFFFF where the
/// client leaves it open.
#[derive(Drop)]
pub struct PlayFields {
    pub sink: SinkRef,
    pub volume: u32,
    pub name: Option<Text>,
    pub list: PropList,
}

/// A string.
pub(crate) fn text(alloc: Global, reader: &mut TagReader) -> Result<Option<Text>, CmdFault>
    ensures { Takes (λ text. text) result reader.new (text_at reader.old) }
{
    match reader.text()? {
        None => Ok(None),
        Some(bytes) => Ok(Some(Text::new(alloc, bytes)?)),
    }
}

fn properties(alloc: Global, reader: &mut TagReader) -> Result<PropList, CmdFault>
    ensures { Takes (λ list. list) result reader.new (proplist_at reader.old) }
{
    match reader.proplist(alloc) {
        Ok(list) => Ok(list),
        Err(ListFault::Tag(fault)) => Err(CmdFault::Protocol(fault)),
        Err(ListFault::NoMemory) => Err(CmdFault::NoMemory),
    }
}

/// The fields of CREATE_UPLOAD_STREAM.
pub(crate) fn upload(alloc: Global, reader: &mut TagReader) -> Result<UploadFields, CmdFault>
    ensures { Takes upload_fields result reader.new (fields_at upload_kinds reader.old) }
{
    let name = text(alloc, reader)?;
    let spec = reader.spec()?;
    let map = reader.map()?;
    let length = reader.number()?;
    let list = properties(alloc, reader)?;
    Ok(UploadFields {
        name,
        spec,
        map,
        length,
        list,
    })
}

/// The fields of PLAY_SAMPLE.
pub(crate) fn play(alloc: Global, reader: &mut TagReader) -> Result<PlayFields, CmdFault>
    ensures { Takes play_fields result reader.new (fields_at play_kinds reader.old) }
{
    let index = reader.number()?;
    let sink = text(alloc, reader)?;
    let volume = reader.number()?;
    let name = text(alloc, reader)?;
    let list = properties(alloc, reader)?;
    Ok(PlayFields {
        sink: SinkRef { index, name: sink },
        volume,
        name,
        list,
    })
}
