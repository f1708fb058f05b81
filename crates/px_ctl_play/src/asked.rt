//! The stream that a client asks for, and its sample spec, map and attributes on its sink.

ghost use Rattle.std.specs.Prelude.{◌≡◌, ◌≤◌, ◌⊎◌, true, nat_le, length, All, IfSome};
ghost use Rattle.std.specs.List.{list_all};
ghost use Rattle.px_sample.specs.Format.{format_with};
ghost use Rattle.px_chmap.specs.ChannelMap.{IsChannelMap};
ghost use Rattle.px_chmap.specs.Plan.{FeedsAll};
ghost use Rattle.px_vol.specs.Volume.{IsChannelVolume, greatest};
ghost use Rattle.px_model.specs.Orderly.{IsRepaired};
ghost use Rattle.px_msg.specs.Repair.{IsWithinBytes};
ghost use Rattle.px_outcome.specs.Target.{IsTarget};
ghost use Rattle.px_ctl_play.specs.Asked.{is_spec, is_map, are_volumes, is_lawful, format_on, rate_on, channels_on, positions_on, feed_on, spec_on, attr_on};

use px_chmap::{Feed, Map, plan};
use px_cmd::CreateFields;
use px_msg::{Attr, repair};
use px_outcome::Target;
use px_sample::{Format, Spec};
use px_tag::RawSpec;
use px_types::limits::{MAX_CHANNELS, MAX_RATE};
use px_vol::MAX;

// A known format, 1 to 32 channels, and a rate up to 192,000.
fn is_spec(spec: RawSpec) -> bool
    ensures value { result ≡ is_spec spec }
    ensures some { result ≡ true → 1 ≤ spec.channels }
    ensures few { result ≡ true → spec.channels ≤ 32 }
{
    spec.format <= 12
        && spec.channels > 0
        && spec.channels <= MAX_CHANNELS
        && spec.rate > 0
        && spec.rate <= MAX_RATE
}

// Positions, each one of the 51 known.
fn are_positions(positions: &[u8]) -> bool
    ensures value { result ≡ list_all (λ p. nat_le p 50) positions.now }
    ensures known { result ≡ true → All (λ p. p ≤ 50) positions.now }
{
    positions.iter().all(|p| *p <= 50)
}

// A position for each channel.
fn is_map(spec: RawSpec, positions: &[u8]) -> bool
    ensures value { result ≡ is_map spec positions.now }
    ensures length { result ≡ true → spec.channels ≡ length positions.now }
    ensures known { result ≡ true → All (λ p. p ≤ 50) positions.now }
{
    positions.len() == spec.channels as usize && are_positions(positions)
}

// Volumes, none above the maximum.
fn are_in_range(volumes: &[u32]) -> bool
    ensures value { result ≡ list_all (λ v. nat_le v greatest) volumes.now }
    ensures bounded { result ≡ true → All (λ v. v ≤ greatest) volumes.now }
{
    volumes.iter().all(|v| *v <= MAX)
}

// One volume for each channel, or one for all of them.
fn are_volumes(spec: RawSpec, volumes: &[u32]) -> bool
    ensures value { result ≡ are_volumes spec volumes.now }
    ensures bounded { result ≡ true → All (λ v. v ≤ greatest) volumes.now }
    ensures length { result ≡ true → (length volumes.now ≡ 1) ⊎ (length volumes.now ≡ spec.channels) }
{
    (volumes.len() == 1 || volumes.len() == spec.channels as usize) && are_in_range(volumes)
}

/// Whether the request is lawful: its spec, its map with a position for each channel, and its volumes, one for each channel
/// or one for all. Takes no memory.
pub(crate) fn is_lawful(a: &CreateFields) -> bool
    ensures value { result ≡ is_lawful a.now }
    ensures some { result ≡ true → 1 ≤ a.now.spec.channels }
    ensures few { result ≡ true → a.now.spec.channels ≤ 32 }
    ensures map { result ≡ true → IsChannelMap a.now.map }
    ensures length { result ≡ true → a.now.spec.channels ≡ length a.now.map }
    ensures volume { result ≡ true → IsChannelVolume a.now.volume }
{
    is_spec(a.spec) && is_map(a.spec, a.map.as_slice()) && are_volumes(a.spec, a.volume.as_slice())
}

/// The code of its format on a sink: the sink's where the client says so. Takes no memory.
pub(crate) fn format_on(sink: &Target, a: &CreateFields) -> u8
    ensures { result ≡ format_on sink.now a.now }
{
    if a.fix_format {
        sink.spec.format.code()
    } else {
        a.spec.format
    }
}

/// Its rate on a sink, in frames a second: the sink's where the client says so. Takes no memory.
pub(crate) fn rate_on(sink: &Target, a: &CreateFields) -> u32
    ensures { result ≡ rate_on sink.now a.now }
{
    if a.fix_rate {
        sink.spec.rate
    } else {
        a.spec.rate
    }
}

/// The number of its channels on a sink: the sink's where the client says so. Takes no memory.
pub(crate) fn channels_on(sink: &Target, a: &CreateFields) -> u8
    ensures { result ≡ channels_on sink.now a.now }
{
    if a.fix_channels {
        sink.spec.channels
    } else {
        a.spec.channels
    }
}

/// Its speaker positions on a sink: the sink's where the client says so. Takes no memory.
pub(crate) fn positions_on<'a>(sink: &'a Target, a: &'a CreateFields) -> &'a [u8]
    ensures value { result.now ≡ positions_on sink.now a.now }
    ensures few { length result.now ≤ 32 }
{
    if a.fix_channels {
        sink.map.positions()
    } else {
        a.map.as_slice()
    }
}

/// Its channel map on a sink: the sink's where the client says so. Takes no memory.
pub(crate) fn map_on(sink: &Target, a: &CreateFields) -> Map
    requires { IsChannelMap a.now.map }
    ensures { result ≡ positions_on sink.now a.now }
{
    if a.fix_channels {
        sink.map
    } else {
        Map::new(a.map.as_slice()).unwrap()
    }
}

/// The stream channel that feeds each of the sink's channels, by its channel map there. `None` exactly where there is no
/// channel plan (own: PulseAudio mixes channels there). Takes no memory.
pub(crate) fn feed_on(sink: &Target, a: &CreateFields) -> Option<Feed>
    requires { IsChannelMap a.now.map }
    ensures value { result ≡ feed_on sink.now a.now }
    ensures fits { IfSome result (FeedsAll (length (positions_on sink.now a.now)) (length sink.now.map)) }
{
    plan(&map_on(sink, a), &sink.map, a.no_remap, a.no_remix)
}

// The format with a code, 0 to 12.
fn format_with(code: u8) -> Format
    ensures { result ≡ format_with code }
{
    match code {
        1 => Format::Alaw,
        2 => Format::Ulaw,
        3 => Format::S16Le,
        4 => Format::S16Be,
        5 => Format::Float32Le,
        6 => Format::Float32Be,
        7 => Format::S32Le,
        8 => Format::S32Be,
        9 => Format::S24Le,
        10 => Format::S24Be,
        11 => Format::S24In32Le,
        12 => Format::S24In32Be,
        _ => Format::U8,
    }
}

/// Its sample spec on a sink. Takes no memory.
pub(crate) fn spec_on(sink: &Target, a: &CreateFields) -> Spec
    ensures { result ≡ spec_on sink.now a.now }
{
    Spec {
        format: format_with(format_on(sink, a)),
        channels: channels_on(sink, a),
        rate: rate_on(sink, a),
    }
}

/// Its buffer attributes on a sink, in frames, repaired. Takes no memory.
pub(crate) fn attr_on(sink: &Target, a: &CreateFields) -> Attr
    requires sink { IsTarget sink.now }
    requires asked { 1 ≤ a.now.spec.channels }
    ensures value { result ≡ attr_on sink.now a.now }
    ensures fits { IsRepaired result }
    ensures bytes { IsWithinBytes (spec_on sink.now a.now) result }
{
    repair(&spec_on(sink, a), a.asked)
}
