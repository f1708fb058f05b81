//! The plays of samples.

ghost use Rattle.std.specs.Prelude.{◌≡◌, ◌≢◌, ◌++◌, ◌<◌, ◌≤◌, length, flat_map, IfOk, OnOk};
ghost use Rattle.px_types.specs.declared.limits.TheConstants.{CONTROL_CHANNEL};
ghost use Rattle.px_tag.specs.Item.{is_text};
ghost use Rattle.px_cmd.specs.Field.{spelling};
ghost use Rattle.px_frame.specs.declared.frame.Body.TheVariants.{Control};
ghost use Rattle.px_frame.specs.Spelling.{spelling_of};
ghost use Rattle.px_outcome.specs.Handled.{HandledAs};
ghost use Rattle.px_scache.specs.Play.{is_volume, volume_of, is_name, is_clear, begun, shape, buffering, manner, no_properties, later, create_packet, drain_packet, delete_packet, create_frame, drain_frame, delete_frame, data_frame, IsPlay};

use crate::cache::Cache;
use crate::fields::PlayFields;
use crate::sample::Sample;
use px_cmd::{SinkRef, Text, number};
use px_frame::{write_data, write_packet};
use px_outcome::{Refusal, check, raw_of};
use px_tag::{Packet, PropList, RawMap, RawVolume, TagWriter};
use px_types::limits::{MAX_LENGTH, NO_INDEX, UNSET};
use px_types::{ErrorCode, Mem, NoMemory, Text as Bytes};
use std::alloc::Global;

/// The plays that are under way, and whether the connection is closed that the server has of its own for them.
#[derive(Clone, Copy, Debug, PartialEq, Eq)]
pub struct Plays {
    pub under_way: u32,
    pub closed: bool,
}

/// A play of a sample as it stands in the cache: `sink` is that of PLAY_SAMPLE, `volume` that of all channels, 65,536 for the full one.
#[derive(Drop)]
pub struct Play {
    pub sink: SinkRef,
    pub volume: u32,
    pub sample: Sample,
}

// The most plays that are under way. Own.
const MAX_PLAYS: u32 = 64;

// The volume of PLAY_SAMPLE that is left open. Own.
const OPEN_VOLUME: u32 = 0xFFFF_FFFF;

// The full volume: `PA_VOLUME_NORM` of `pulse/volume.h`.
const NORM: u32 = 65_536;

// The greatest volume: `PA_VOLUME_MAX` of `pulse/volume.h`.
const MAX_VOLUME: u32 = 0x7FFF_FFFF;

// The most bytes of a sink's name. Own.
const MAX_NAME: usize = 64;

// Whether a volume is lawful, or left open.
fn is_volume(volume: u32) -> bool
    ensures { result ≡ is_volume volume }
{
    volume <= MAX_VOLUME || volume == OPEN_VOLUME
}

// The volume of a play: full where it is left open.
fn volume_of(volume: u32) -> u32
    ensures { result ≡ volume_of volume }
{
    if volume == OPEN_VOLUME { NORM } else { volume }
}

// Whether bytes have no zero among them.
fn is_text(bytes: &[u8]) -> bool
    ensures { result ≡ is_text bytes.now }
{
    bytes.iter().all(|b| *b != 0)
}

// Whether a sink can have this name, or none is given.
fn is_name(name: &Option<Text>) -> bool
    ensures { result ≡ is_name name.now }
{
    match name {
        None => true,
        Some(name) => name.as_slice().len() <= MAX_NAME && is_text(name.as_slice()),
    }
}

// Whether a name that no sink can have stands alone.
fn is_clear(sink: &SinkRef) -> bool
    ensures { result ≡ is_clear sink.now }
{
    is_name(&sink.name) || sink.index == NO_INDEX
}

/// The play that PLAY_SAMPLE asks for, with a copy of the sample. It is refused, by the first of these that holds: `NoEntity` where the
/// cache has no such sample; `Invalid` for a volume above 0x7FFFFFFF other than 0xFFFFFFFF; `TooLarge` where 64 plays are under way;
/// `BadState` where the server's own connection is closed; and, as CREATE_PLAYBACK_STREAM would be, for a sink name over 64 bytes
/// `Invalid` where there is an index too, else `NoEntity`.
pub(crate) fn begin(
    alloc: Global,
    plays: Plays,
    a: PlayFields,
    cache: &Cache,
) -> Result<Play, Refusal>
    ensures value { HandledAs result (begun plays a cache.now) }
    ensures lawful { IfOk result IsPlay }
{
    let sample = match cache.get(&a.name) {
        None => return Err(Refusal::Code(ErrorCode::NoEntity)),
        Some(sample) => sample.copied(alloc)?,
    };
    check(is_volume(a.volume), ErrorCode::Invalid)?;
    check(plays.under_way < MAX_PLAYS, ErrorCode::TooLarge)?;
    check(!plays.closed, ErrorCode::BadState)?;
    check(is_clear(&a.sink), ErrorCode::Invalid)?;
    check(is_name(&a.sink.name), ErrorCode::NoEntity)?;
    Ok(Play {
        sink: a.sink,
        volume: volume_of(a.volume),
        sample,
    })
}

// Appends the sample spec, the channel map and the sink of a play.
fn put_shape(writer: &mut TagWriter, p: &Play) -> px_tag::Mem<()>
    requires { IsPlay p.now }
    ensures { OnOk result (writer.new ≡ writer.old ++ flat_map spelling (shape p.now)) }
{
    writer.spec(&raw_of(&p.sample.spec))?;
    writer.map(&RawMap::new(p.sample.map.positions()))?;
    writer.number(p.sink.index)?;
    match &p.sink.name {
        None => writer.text(None),
        Some(name) => writer.text(Some(name.as_slice())),
    }
}

// Appends the buffer attributes, and the fields around them up to the volume.
fn put_buffering(writer: &mut TagWriter, p: &Play) -> px_tag::Mem<()>
    requires { IsPlay p.now }
    ensures { OnOk result (writer.new ≡ writer.old ++ flat_map spelling (buffering p.now)) }
{
    let length = p.sample.bytes.len() as u32;
    writer.number(MAX_LENGTH)?;
    writer.flag(false)?;
    writer.number(length)?;
    writer.number(UNSET)?;
    writer.number(length)?;
    writer.number(0)?;
    writer.cvolume(&RawVolume::new(&[p.volume]))
}

// Appends nine flags that aren't set.
fn put_manner(writer: &mut TagWriter) -> px_tag::Mem<()>
    ensures { OnOk result (writer.new ≡ writer.old ++ flat_map spelling manner) }
{
    writer.flag(false)?;
    writer.flag(false)?;
    writer.flag(false)?;
    writer.flag(false)?;
    writer.flag(false)?;
    writer.flag(false)?;
    writer.flag(false)?;
    writer.flag(false)?;
    writer.flag(false)
}

// Appends an empty property list.
fn put_no_properties(alloc: Global, writer: &mut TagWriter) -> px_tag::Mem<()>
    ensures { OnOk result (writer.new ≡ writer.old ++ flat_map spelling no_properties) }
{
    writer.proplist(&PropList::new(alloc))
}

// Appends the flags of later versions.
fn put_later(writer: &mut TagWriter) -> px_tag::Mem<()>
    ensures { OnOk result (writer.new ≡ writer.old ++ flat_map spelling later) }
{
    writer.flag(true)?;
    writer.flag(false)?;
    writer.flag(false)?;
    writer.flag(false)?;
    writer.flag(false)?;
    writer.flag(false)?;
    writer.flag(false)
}

// CREATE_PLAYBACK_STREAM of a play.
#[tactic(auto, using(crate::proofs::Packets::create_joined))]
fn create_packet(alloc: Global, tag: u32, p: &Play) -> px_tag::Mem<Packet>
    requires { IsPlay p.now }
    ensures { IfOk result (λ packet. packet ≡ create_packet tag p.now) }
{
    let mut writer = TagWriter::new(alloc);
    writer.number(number::CREATE_PLAYBACK_STREAM)?;
    writer.number(tag)?;
    put_shape(&mut writer, p)?;
    put_buffering(&mut writer, p)?;
    put_manner(&mut writer)?;
    put_no_properties(alloc, &mut writer)?;
    put_later(&mut writer)?;
    Ok(writer.finish())
}

// DRAIN_PLAYBACK_STREAM.
#[tactic(auto, unfolding(crate::specs::Play::drain_packet))]
fn drain_packet(alloc: Global, tag: u32, stream: u32) -> px_tag::Mem<Packet>
    ensures { IfOk result (λ packet. packet ≡ drain_packet tag stream) }
{
    let mut writer = TagWriter::new(alloc);
    writer.number(number::DRAIN_PLAYBACK_STREAM)?;
    writer.number(tag)?;
    writer.number(stream)?;
    Ok(writer.finish())
}

// DELETE_PLAYBACK_STREAM.
#[tactic(auto, unfolding(crate::specs::Play::delete_packet))]
fn delete_packet(alloc: Global, tag: u32, stream: u32) -> px_tag::Mem<Packet>
    ensures { IfOk result (λ packet. packet ≡ delete_packet tag stream) }
{
    let mut writer = TagWriter::new(alloc);
    writer.number(number::DELETE_PLAYBACK_STREAM)?;
    writer.number(tag)?;
    writer.number(stream)?;
    Ok(writer.finish())
}

// The frame of a packet.
fn framed(alloc: Global, packet: &Packet) -> Mem<Bytes>
    requires some { 0 < length packet.now }
    requires few { length packet.now ≤ 400 }
    ensures { IfOk result (λ frame. frame ≡ spelling_of (Control packet.now)) }
{
    match write_packet(alloc, packet.as_slice()) {
        Ok(frame) => Ok(Bytes::from_vec(frame.into_vec())),
        Err(_) => Err(NoMemory),
    }
}

impl Play {
    /// The frame of its CREATE_PLAYBACK_STREAM, under this tag.
    #[tactic(auto, using(crate::proofs::Packets::create_some, crate::proofs::Packets::create_few))]
    pub fn create(&self, alloc: Global, tag: u32) -> Mem<Bytes>
        requires { IsPlay self.now }
        ensures { IfOk result (λ frame. frame ≡ create_frame tag self.now) }
    {
        match create_packet(alloc, tag, self) {
            Ok(packet) => framed(alloc, &packet),
            Err(_) => Err(NoMemory),
        }
    }

    /// The data frame that writes the whole sample to its stream.
    pub fn data(&self, alloc: Global, stream: u32) -> Mem<Bytes>
        requires lawful { IsPlay self.now }
        requires channel { stream ≢ CONTROL_CHANNEL }
        ensures { IfOk result (λ frame. frame ≡ data_frame stream self.now.sample) }
    {
        match write_data(alloc, stream, 0, 0, self.sample.bytes.as_slice()) {
            Ok(frame) => Ok(Bytes::from_vec(frame.into_vec())),
            Err(_) => Err(NoMemory),
        }
    }
}

/// The frame of DRAIN_PLAYBACK_STREAM for the stream of a play, under this tag.
#[tactic(auto, using(crate::proofs::Packets::drain_size))]
pub fn drain(alloc: Global, tag: u32, stream: u32) -> Mem<Bytes>
    ensures { IfOk result (λ frame. frame ≡ drain_frame tag stream) }
{
    match drain_packet(alloc, tag, stream) {
        Ok(packet) => framed(alloc, &packet),
        Err(_) => Err(NoMemory),
    }
}

/// The frame of DELETE_PLAYBACK_STREAM for the stream of a play, under this tag.
#[tactic(auto, using(crate::proofs::Packets::delete_size))]
pub fn delete(alloc: Global, tag: u32, stream: u32) -> Mem<Bytes>
    ensures { IfOk result (λ frame. frame ≡ delete_frame tag stream) }
{
    match delete_packet(alloc, tag, stream) {
        Ok(packet) => framed(alloc, &packet),
        Err(_) => Err(NoMemory),
    }
}
