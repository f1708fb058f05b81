//! The checks of CREATE_UPLOAD_STREAM.

ghost use Rattle.std.specs.Prelude.{◌≡◌, ◌≤◌, ◌<◌, true, nat_le, length, All, MatchResult, Ok, Err};
ghost use Rattle.std.specs.List.{list_all};
ghost use Rattle.px_sample.specs.Format.{format_with};
ghost use Rattle.px_chmap.specs.ChannelMap.{IsChannelMap};
ghost use Rattle.px_ctl_play.specs.Asked.{is_spec, is_map};
ghost use Rattle.px_scache.specs.Uploads.{named, is_lawful, is_supported, spec_of, is_whole};

use crate::fields::UploadFields;
use px_cmd::Text;
use px_outcome::{Refusal, check};
use px_sample::{Format, Spec};
use px_tag::RawSpec;
use px_types::ErrorCode;
use px_types::limits::{MAX_CHANNELS, MAX_RATE};

// A known format, 1 to 32 channels, and a rate up to 192,000.
fn is_spec(spec: RawSpec) -> bool
    ensures value { result ≡ is_spec spec }
    ensures some { result ≡ true → 1 ≤ spec.channels }
    ensures few { result ≡ true → spec.channels ≤ 32 }
    ensures rate { result ≡ true → spec.rate ≤ 192000 }
{
    spec.format <= 12
        && spec.channels > 0
        && spec.channels <= MAX_CHANNELS
        && spec.rate > 0
        && spec.rate <= MAX_RATE
}

// Positions, each one of the 51 known.
fn are_positions(positions: &[u8]) -> bool
    ensures value { result ≡ list_all (λ p. nat_le p 50) positions.now }
    ensures known { result ≡ true → All (λ p. p ≤ 50) positions.now }
{
    positions.iter().all(|p| *p <= 50)
}

// A position for each channel.
fn is_map(spec: RawSpec, positions: &[u8]) -> bool
    ensures value { result ≡ is_map spec positions.now }
    ensures length { result ≡ true → spec.channels ≡ length positions.now }
    ensures known { result ≡ true → All (λ p. p ≤ 50) positions.now }
{
    positions.len() == spec.channels as usize && are_positions(positions)
}

/// The name of a sample, at least one byte. Takes no memory.
pub(crate) fn named(name: &Option<Text>) -> Result<&[u8], Refusal>
    ensures { MatchResult result (λ bytes. named name.now ≡ Ok bytes.now) (λ refusal. named name.now ≡ Err refusal) }
{
    match name {
        None => Err(Refusal::Code(ErrorCode::Invalid)),
        Some(name) => {
            check(name.as_slice().len() > 0, ErrorCode::Invalid)?;
            Ok(name.as_slice())
        }
    }
}

/// Whether the spec and the map are lawful. Takes no memory.
pub(crate) fn is_lawful(a: &UploadFields) -> bool
    ensures value { result ≡ is_lawful a.now }
    ensures map { result ≡ true → IsChannelMap a.now.map }
    ensures length { result ≡ true → a.now.spec.channels ≡ length a.now.map }
    ensures rate { result ≡ true → a.now.spec.rate ≤ 192000 }
{
    is_spec(a.spec) && is_map(a.spec, a.map.as_slice())
}

/// Whether the samples are whole numbers. Takes no memory.
pub(crate) fn is_supported(a: &UploadFields) -> bool
    ensures { result ≡ is_supported a.now }
{
    a.spec.format != 5 && a.spec.format != 6
}

// The format with a code, 0 to 12.
fn format_with(code: u8) -> Format
    ensures { result ≡ format_with code }
{
    match code {
        1 => Format::Alaw,
        2 => Format::Ulaw,
        3 => Format::S16Le,
        4 => Format::S16Be,
        5 => Format::Float32Le,
        6 => Format::Float32Be,
        7 => Format::S32Le,
        8 => Format::S32Be,
        9 => Format::S24Le,
        10 => Format::S24Be,
        11 => Format::S24In32Le,
        12 => Format::S24In32Be,
        _ => Format::U8,
    }
}

/// The sample spec that a packet has. Takes no memory.
pub(crate) fn spec_of(spec: RawSpec) -> Spec
    ensures { result ≡ spec_of spec }
{
    Spec {
        format: format_with(spec.format),
        channels: spec.channels,
        rate: spec.rate,
    }
}

/// Whether the sample has frames, all of them whole. Takes no memory.
pub(crate) fn is_whole(a: &UploadFields) -> bool
    requires some { 1 ≤ a.now.spec.channels }
    requires few { a.now.spec.channels ≤ 32 }
    ensures value { result ≡ is_whole a.now }
    ensures some { result ≡ true → 0 < a.now.length }
{
    a.length > 0 && a.length % spec_of(a.spec).frame_size() as u32 == 0
}
