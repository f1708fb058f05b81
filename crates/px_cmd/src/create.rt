//! The fields of CREATE_PLAYBACK_STREAM.

ghost use Rattle.std.specs.Prelude.{◌≡◌, ◌++◌, length, IfOk};
ghost use Rattle.px_cmd.specs.Command.{create_fields};
ghost use Rattle.px_cmd.specs.Create.{shape_kinds, shape_fields, buffering_kinds, buffering_fields, matching_kinds, matching_fields, playing_kinds, playing_fields, manner_kinds, manner_fields, later_fields, IsLater};
ghost use Rattle.px_cmd.specs.Field.{fields_at};
ghost use Rattle.px_cmd.specs.Meant.{AreFields};
ghost use Rattle.px_cmd.specs.Packet.{Takes};
ghost use Rattle.px_cmd.specs.Table.{create_kinds, create_later};

use crate::command::{CreateFields, SinkRef};
use crate::fault::CmdFault;
use crate::fields::{flag_from, properties, sink};
use px_tag::{PropList, RawMap, RawSpec, RawVolume, TagReader};
use std::alloc::Global;

// The stream's format, and the sink asked for.
#[derive(Drop)]
struct Shape {
    spec: RawSpec,
    map: RawMap,
    sink: SinkRef,
}

// How it is buffered and corked, its sync id and volume.
#[derive(Drop)]
struct Buffering {
    asked: [u32; 4],
    corked: bool,
    syncid: u32,
    volume: RawVolume,
}

// How its channels and its format are matched to the sink's.
#[derive(Clone, Copy)]
struct Matching {
    no_remap: bool,
    no_remix: bool,
    fix_format: bool,
    fix_rate: bool,
    fix_channels: bool,
}

// What may happen to it while it plays.
#[derive(Clone, Copy)]
struct Playing {
    no_move: bool,
    variable_rate: bool,
    muted: bool,
    adjust_latency: bool,
}

// How it is matched and played, and its properties.
#[derive(Drop)]
struct Manner {
    matching: Matching,
    playing: Playing,
    list: PropList,
}

// The flags of later versions.
#[derive(Clone, Copy)]
struct Later {
    volume_set: Option<bool>,
    early_requests: Option<bool>,
    muted_set: Option<bool>,
    dont_inhibit_auto_suspend: Option<bool>,
    fail_on_suspend: Option<bool>,
    relative_volume: Option<bool>,
    passthrough: Option<bool>,
}

fn read_shape(alloc: Global, reader: &mut TagReader) -> Result<Shape, CmdFault>
    ensures { Takes shape_fields result reader.new (fields_at shape_kinds reader.old) }
{
    let spec = reader.spec()?;
    let map = reader.map()?;
    let sink = sink(alloc, reader)?;
    Ok(Shape { spec, map, sink })
}

fn read_buffering(reader: &mut TagReader) -> Result<Buffering, CmdFault>
    ensures value { Takes buffering_fields result reader.new (fields_at buffering_kinds reader.old) }
    ensures asked { IfOk result (λ buffering. length buffering.asked ≡ 4) }
{
    let maxlength = reader.number()?;
    let corked = reader.flag()?;
    let tlength = reader.number()?;
    let prebuf = reader.number()?;
    let minreq = reader.number()?;
    let syncid = reader.number()?;
    let volume = reader.cvolume()?;
    Ok(Buffering {
        asked: [maxlength, tlength, prebuf, minreq],
        corked,
        syncid,
        volume,
    })
}

fn read_matching(reader: &mut TagReader) -> Result<Matching, CmdFault>
    ensures { Takes matching_fields result reader.new (fields_at matching_kinds reader.old) }
{
    let no_remap = reader.flag()?;
    let no_remix = reader.flag()?;
    let fix_format = reader.flag()?;
    let fix_rate = reader.flag()?;
    let fix_channels = reader.flag()?;
    Ok(Matching {
        no_remap,
        no_remix,
        fix_format,
        fix_rate,
        fix_channels,
    })
}

fn read_playing(reader: &mut TagReader) -> Result<Playing, CmdFault>
    ensures { Takes playing_fields result reader.new (fields_at playing_kinds reader.old) }
{
    let no_move = reader.flag()?;
    let variable_rate = reader.flag()?;
    let muted = reader.flag()?;
    let adjust_latency = reader.flag()?;
    Ok(Playing {
        no_move,
        variable_rate,
        muted,
        adjust_latency,
    })
}

fn read_manner(alloc: Global, reader: &mut TagReader) -> Result<Manner, CmdFault>
    ensures { Takes manner_fields result reader.new (fields_at manner_kinds reader.old) }
{
    let matching = read_matching(reader)?;
    let playing = read_playing(reader)?;
    let list = properties(alloc, reader)?;
    Ok(Manner {
        matching,
        playing,
        list,
    })
}

fn read_later(reader: &mut TagReader, version: u16) -> Result<Later, CmdFault>
    ensures value { Takes later_fields result reader.new (fields_at (create_later version) reader.old) }
    ensures of_version { IfOk result (IsLater version) }
{
    let volume_set = flag_from(reader, 14, version)?;
    let early_requests = flag_from(reader, 14, version)?;
    let muted_set = flag_from(reader, 15, version)?;
    let dont_inhibit_auto_suspend = flag_from(reader, 15, version)?;
    let fail_on_suspend = flag_from(reader, 15, version)?;
    let relative_volume = flag_from(reader, 17, version)?;
    let passthrough = flag_from(reader, 18, version)?;
    Ok(Later {
        volume_set,
        early_requests,
        muted_set,
        dont_inhibit_auto_suspend,
        fail_on_suspend,
        relative_volume,
        passthrough,
    })
}

/// The fields of CREATE_PLAYBACK_STREAM at this version.
pub(crate) fn create(
    alloc: Global,
    reader: &mut TagReader,
    version: u16,
) -> Result<CreateFields, CmdFault>
    ensures value { Takes create_fields result reader.new (fields_at (create_kinds ++ create_later version) reader.old) }
    ensures of_version { IfOk result (AreFields version) }
{
    let shape = read_shape(alloc, reader)?;
    let buffering = read_buffering(reader)?;
    let manner = read_manner(alloc, reader)?;
    let later = read_later(reader, version)?;
    let asked = buffering.asked;
    let matching = manner.matching;
    let playing = manner.playing;
    Ok(CreateFields {
        spec: shape.spec,
        map: shape.map,
        sink: shape.sink,
        asked,
        corked: buffering.corked,
        syncid: buffering.syncid,
        volume: buffering.volume,
        no_remap: matching.no_remap,
        no_remix: matching.no_remix,
        fix_format: matching.fix_format,
        fix_rate: matching.fix_rate,
        fix_channels: matching.fix_channels,
        no_move: playing.no_move,
        variable_rate: playing.variable_rate,
        muted: playing.muted,
        adjust_latency: playing.adjust_latency,
        list: manner.list,
        volume_set: later.volume_set,
        early_requests: later.early_requests,
        muted_set: later.muted_set,
        dont_inhibit_auto_suspend: later.dont_inhibit_auto_suspend,
        fail_on_suspend: later.fail_on_suspend,
        relative_volume: later.relative_volume,
        passthrough: later.passthrough,
    })
}
