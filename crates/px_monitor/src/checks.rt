//! The checks of CREATE_RECORD_STREAM.

ghost use Rattle.std.specs.Prelude.{◌≡◌, nat_le, find, bytes_eq, Ok, Err, MatchResult};
ghost use Rattle.std.specs.List.{list_all};
ghost use Rattle.std.specs.Option.{option_map};
ghost use Rattle.px_ctl_play.specs.Asked.{is_spec, is_map};
ghost use Rattle.px_types.specs.declared.error_code.ErrorCode.TheVariants.{NoEntity};
ghost use Rattle.px_outcome.specs.Handled.{present};
ghost use Rattle.px_outcome.specs.declared.target.Target.{Target as Source};
ghost use Rattle.px_monitor.specs.Create.{is_lawful, place_of, named, is_own_format, is_own_rate, are_own_channels, is_plain, is_supported};

use crate::fields::RecordFields;
use px_cmd::SinkRef;
use px_outcome::{Refusal, Target, check};
use px_tag::RawSpec;
use px_types::ErrorCode;
use px_types::limits::{MAX_CHANNELS, MAX_RATE, NO_INDEX};

// A known format, 1 to 32 channels, and a rate up to 192,000.
fn is_spec(spec: RawSpec) -> bool
    ensures { result ≡ is_spec spec }
{
    spec.format <= 12
        && spec.channels > 0
        && spec.channels <= MAX_CHANNELS
        && spec.rate > 0
        && spec.rate <= MAX_RATE
}

// Positions, each one of the 51 known.
fn are_positions(positions: &[u8]) -> bool
    ensures { result ≡ list_all (λ p. nat_le p 50) positions.now }
{
    positions.iter().all(|p| *p <= 50)
}

// A position for each channel.
fn is_map(spec: RawSpec, positions: &[u8]) -> bool
    ensures { result ≡ is_map spec positions.now }
{
    positions.len() == spec.channels as usize && are_positions(positions)
}

/// Whether the spec and the map that are asked for are lawful. Takes no memory.
pub(crate) fn is_lawful(a: &RecordFields) -> bool
    ensures { result ≡ is_lawful a.now }
{
    is_spec(a.spec) && is_map(a.spec, a.map.as_slice())
}

// The source with a name.
fn called<'a>(sources: &'a [Target], name: &[u8]) -> Option<&'a Target>
    ensures { option_map (λ s. s.now) result ≡ find (λ s. bytes_eq (Source.name s) name.now) sources.now }
{
    sources.iter().find(|source| source.name.as_slice() == name)
}

// The place of the source with an index, of the first where none is given.
fn place_of(index: u32) -> usize
    ensures { result ≡ place_of index }
{
    if index == NO_INDEX { 0 } else { index as usize }
}

// The source that was looked for.
fn found<'a>(source: Option<&'a Target>) -> Result<&'a Target, Refusal>
    ensures { MatchResult result (λ s. present (option_map (λ t. t.now) source.entry) NoEntity ≡ Ok s.now) (λ refusal. present (option_map (λ t. t.now) source.entry) NoEntity ≡ Err refusal) }
{
    match source {
        Some(source) => Ok(source),
        None => Err(Refusal::Code(ErrorCode::NoEntity)),
    }
}

/// The source that is named. Takes no memory.
pub(crate) fn named<'a>(sources: &'a [Target], source: &SinkRef) -> Result<&'a Target, Refusal>
    ensures { MatchResult result (λ s. named sources.now source.now.index source.now.name ≡ Ok s.now) (λ refusal. named sources.now source.now.index source.now.name ≡ Err refusal) }
{
    match &source.name {
        None => found(sources.get(place_of(source.index))),
        Some(name) => {
            check(source.index == NO_INDEX, ErrorCode::Invalid)?;
            found(called(sources, name.as_slice()))
        }
    }
}

// Whether the format is the source's, or left to it.
fn is_own_format(source: &Target, a: &RecordFields) -> bool
    ensures { result ≡ is_own_format source.now a.now }
{
    a.fix_format || a.spec.format == source.spec.format.code()
}

// Whether the rate is the source's, or left to it.
fn is_own_rate(source: &Target, a: &RecordFields) -> bool
    ensures { result ≡ is_own_rate source.now a.now }
{
    a.fix_rate || a.spec.rate == source.spec.rate
}

// Whether the channels are the source's, at its positions, or left to it.
fn are_own_channels(source: &Target, a: &RecordFields) -> bool
    ensures { result ≡ are_own_channels source.now a.now }
{
    a.fix_channels
        || a.spec.channels == source.spec.channels && a.map.as_slice() == source.map.positions()
}

// Whether nothing is asked for that no source does.
fn is_plain(a: &RecordFields) -> bool
    ensures { result ≡ is_plain a.now }
{
    a.spec.format != 5
        && a.spec.format != 6
        && !a.variable_rate
        && !a.peak_detect
        && !a.corked
        && a.direct_input == NO_INDEX
}

/// Whether the source gives the stream that is asked for. Takes no memory.
pub(crate) fn is_supported(source: &Target, a: &RecordFields) -> bool
    ensures { result ≡ is_supported source.now a.now }
{
    is_plain(a) && is_own_format(source, a) && is_own_rate(source, a) && are_own_channels(source, a)
}
