//! The fields of CREATE_RECORD_STREAM.

ghost use Rattle.std.specs.Prelude.{◌≡◌, ◌∷◌, ◌++◌, []};
ghost use Rattle.px_tag.specs.Reading.{text_at, proplist_at};
ghost use Rattle.px_cmd.specs.Command.{optional, sink_fields};
ghost use Rattle.px_cmd.specs.Field.{fields_at, u32, string};
ghost use Rattle.px_cmd.specs.Packet.{Takes};
ghost use Rattle.px_cmd.specs.Table.{from_on};
ghost use Rattle.px_monitor.specs.Command.{shape_kinds, shape_fields, buffering_kinds, buffering_fields, matching_kinds, matching_fields, manner_kinds, manner_fields, later_kinds, later_fields, create_kinds, whole_fields};

use px_cmd::{CmdFault, SinkRef, Text};
use px_tag::{ListFault, PropList, RawMap, RawSpec, TagReader};
use std::alloc::Global;

/// The fields of CREATE_RECORD_STREAM of version 13, as the packet has them: `source` names a source, `maxlength` and `fragsize` are in
/// bytes, `direct_input` is the index of a sink input, 0xFFFFFFFF for none.
#[derive(Drop)]
pub struct RecordFields {
    pub spec: RawSpec,
    pub map: RawMap,
    pub source: SinkRef,
    pub maxlength: u32,
    pub corked: bool,
    pub fragsize: u32,
    pub no_remap: bool,
    pub no_remix: bool,
    pub fix_format: bool,
    pub fix_rate: bool,
    pub fix_channels: bool,
    pub no_move: bool,
    pub variable_rate: bool,
    pub peak_detect: bool,
    pub adjust_latency: bool,
    pub list: PropList,
    pub direct_input: u32,
}

// The stream's format, and the source asked for.
#[derive(Drop)]
struct Shape {
    spec: RawSpec,
    map: RawMap,
    source: SinkRef,
}

// How it is buffered and corked.
#[derive(Clone, Copy)]
struct Buffering {
    maxlength: u32,
    corked: bool,
    fragsize: u32,
}

// How its channels and its format are matched to the source's.
#[derive(Clone, Copy)]
struct Matching {
    no_remap: bool,
    no_remix: bool,
    fix_format: bool,
    fix_rate: bool,
    fix_channels: bool,
}

// What may happen to it, its properties, and the input whose sound it is to give.
#[derive(Drop)]
struct Manner {
    no_move: bool,
    variable_rate: bool,
    peak_detect: bool,
    adjust_latency: bool,
    list: PropList,
    direct_input: u32,
}

// The flags of later versions.
#[derive(Clone, Copy)]
pub(crate) struct Later {
    early_requests: Option<bool>,
    dont_inhibit_auto_suspend: Option<bool>,
    fail_on_suspend: Option<bool>,
}

// All fields of a version.
#[derive(Drop)]
pub(crate) struct Whole {
    pub fields: RecordFields,
    pub later: Later,
}

fn text(alloc: Global, reader: &mut TagReader) -> Result<Option<Text>, CmdFault>
    ensures { Takes (λ text. text) result reader.new (text_at reader.old) }
{
    match reader.text()? {
        None => Ok(None),
        Some(bytes) => Ok(Some(Text::new(alloc, bytes)?)),
    }
}

fn properties(alloc: Global, reader: &mut TagReader) -> Result<PropList, CmdFault>
    ensures { Takes (λ list. list) result reader.new (proplist_at reader.old) }
{
    match reader.proplist(alloc) {
        Ok(list) => Ok(list),
        Err(ListFault::Tag(fault)) => Err(CmdFault::Protocol(fault)),
        Err(ListFault::NoMemory) => Err(CmdFault::NoMemory),
    }
}

fn source(alloc: Global, reader: &mut TagReader) -> Result<SinkRef, CmdFault>
    ensures { Takes sink_fields result reader.new (fields_at (u32 ∷ string ∷ []) reader.old) }
{
    let index = reader.number()?;
    let name = text(alloc, reader)?;
    Ok(SinkRef { index, name })
}

// A flag that packets have from version `since` on: `None` in those of earlier versions, of which nothing is read.
fn flag_from(reader: &mut TagReader, since: u16, version: u16) -> Result<Option<bool>, CmdFault>
    ensures { Takes optional result reader.new (fields_at (from_on since version) reader.old) }
{
    if version < since {
        return Ok(None);
    }
    Ok(Some(reader.flag()?))
}

fn read_shape(alloc: Global, reader: &mut TagReader) -> Result<Shape, CmdFault>
    ensures { Takes shape_fields result reader.new (fields_at shape_kinds reader.old) }
{
    let spec = reader.spec()?;
    let map = reader.map()?;
    let source = source(alloc, reader)?;
    Ok(Shape { spec, map, source })
}

fn read_buffering(reader: &mut TagReader) -> Result<Buffering, CmdFault>
    ensures { Takes buffering_fields result reader.new (fields_at buffering_kinds reader.old) }
{
    let maxlength = reader.number()?;
    let corked = reader.flag()?;
    let fragsize = reader.number()?;
    Ok(Buffering {
        maxlength,
        corked,
        fragsize,
    })
}

fn read_matching(reader: &mut TagReader) -> Result<Matching, CmdFault>
    ensures { Takes matching_fields result reader.new (fields_at matching_kinds reader.old) }
{
    let no_remap = reader.flag()?;
    let no_remix = reader.flag()?;
    let fix_format = reader.flag()?;
    let fix_rate = reader.flag()?;
    let fix_channels = reader.flag()?;
    Ok(Matching {
        no_remap,
        no_remix,
        fix_format,
        fix_rate,
        fix_channels,
    })
}

fn read_manner(alloc: Global, reader: &mut TagReader) -> Result<Manner, CmdFault>
    ensures { Takes manner_fields result reader.new (fields_at manner_kinds reader.old) }
{
    let no_move = reader.flag()?;
    let variable_rate = reader.flag()?;
    let peak_detect = reader.flag()?;
    let adjust_latency = reader.flag()?;
    let list = properties(alloc, reader)?;
    let direct_input = reader.number()?;
    Ok(Manner {
        no_move,
        variable_rate,
        peak_detect,
        adjust_latency,
        list,
        direct_input,
    })
}

fn read_later(reader: &mut TagReader, version: u16) -> Result<Later, CmdFault>
    ensures { Takes later_fields result reader.new (fields_at (later_kinds version) reader.old) }
{
    let early_requests = flag_from(reader, 14, version)?;
    let dont_inhibit_auto_suspend = flag_from(reader, 15, version)?;
    let fail_on_suspend = flag_from(reader, 15, version)?;
    Ok(Later {
        early_requests,
        dont_inhibit_auto_suspend,
        fail_on_suspend,
    })
}

/// The fields of CREATE_RECORD_STREAM at this version.
pub(crate) fn create(alloc: Global, reader: &mut TagReader, version: u16) -> Result<Whole, CmdFault>
    ensures { Takes whole_fields result reader.new (fields_at (create_kinds version) reader.old) }
{
    let shape = read_shape(alloc, reader)?;
    let buffering = read_buffering(reader)?;
    let matching = read_matching(reader)?;
    let manner = read_manner(alloc, reader)?;
    let later = read_later(reader, version)?;
    let fields = RecordFields {
        spec: shape.spec,
        map: shape.map,
        source: shape.source,
        maxlength: buffering.maxlength,
        corked: buffering.corked,
        fragsize: buffering.fragsize,
        no_remap: matching.no_remap,
        no_remix: matching.no_remix,
        fix_format: matching.fix_format,
        fix_rate: matching.fix_rate,
        fix_channels: matching.fix_channels,
        no_move: manner.no_move,
        variable_rate: manner.variable_rate,
        peak_detect: manner.peak_detect,
        adjust_latency: manner.adjust_latency,
        list: manner.list,
        direct_input: manner.direct_input,
    };
    Ok(Whole { fields, later })
}
