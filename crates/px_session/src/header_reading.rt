//! The fields of a header, read from left to right.

ghost use Rattle.std.specs.Prelude.{◌≡◌, ◌&&◌, ◌==◌, [], nat_le, slice_index, IfOk};
ghost use Rattle.std.specs.List.{list_all};
ghost use Rattle.px_sample.specs.Format.{code_of};
ghost use Rattle.px_session.specs.Place.{bytes_at, Gives, Reads};
ghost use Rattle.px_session.specs.Field.{byte_at, word_at, ruled};
ghost use Rattle.px_header.specs.HeaderRules.{is_from_to, IsFromTo, is_name, is_new, format_of, is_depth};
ghost use Rattle.px_session.specs.HeaderReading.{letter_at, form_of, last_at, magic_at, name_at, format_at, spec_at, position_at, more_at, room_at, sink_at, header_at};
ghost use Rattle.px_session.specs.HeaderRest.{rest_of_sink_at, rest_of_header_at};
ghost use Rattle.px_session.specs.Seen.{place_of, room_of};

use crate::fault::{Cause, ReadError};
use crate::form::Form;
use crate::place::Place;
use px_chmap::Map;
use px_header::{Header, SinkSpec, SinkSpecs};
use px_sample::{Format, Spec};
use px_types::limits::{MAX_CHANNELS, MAX_DEPTH, MAX_RATE, MAX_SINKS};
use px_types::{Mem, Text};
use std::alloc::Global;

// A letter of the word that begins at `start`.
#[tactic(auto, unfolding(crate::specs::HeaderReading::letter_at))]
fn letter(start: u64, letter: u8, place: Place<'_>) -> Result<(u8, Place<'_>), ReadError>
    ensures { Gives (λ read. (read.0, place_of read.1)) result (letter_at start letter (place_of place.entry)) }
{
    let (byte, after) = place.byte()?;
    if byte != letter {
        return Err(ReadError::Refused {
            at: start,
            cause: Cause::Magic,
        });
    }
    Ok((byte, after))
}

// The form whose word has this last letter.
fn form_named(byte: u8) -> Option<Form>
    ensures { result ≡ form_of byte }
{
    match byte {
        b'1' => Some(Form::One),
        b'2' => Some(Form::Two),
        _ => None,
    }
}

// The last letter of the word that begins at `start`.
#[tactic(auto, unfolding(crate::specs::HeaderReading::last_at))]
fn last_letter(start: u64, place: Place<'_>) -> Result<(Form, Place<'_>), ReadError>
    ensures { Gives (λ read. (read.0, place_of read.1)) result (last_at start (place_of place.entry)) }
{
    let (byte, after) = place.byte()?;
    match form_named(byte) {
        Some(form) => Ok((form, after)),
        None => Err(ReadError::Refused {
            at: start,
            cause: Cause::Magic,
        }),
    }
}

#[tactic(auto, unfolding(crate::specs::HeaderReading::magic_at, crate::specs::HeaderReading::letters_at, crate::specs::Place::and_then))]
fn magic(place: Place<'_>) -> Result<(Form, Place<'_>), ReadError>
    ensures { Gives (λ read. (read.0, place_of read.1)) result (magic_at (place_of place.entry)) }
{
    let start = place.at;
    let (_, rest) = letter(start, b'P', place)?;
    let (_, rest) = letter(start, b'R', rest)?;
    let (_, rest) = letter(start, b'S', rest)?;
    last_letter(start, rest)
}

// A byte from `low` to `high`.
#[tactic(auto, unfolding(crate::specs::Field::ruled))]
fn byte_within(place: Place<'_>, low: u8, high: u8) -> Result<(u8, Place<'_>), ReadError>
    ensures { Gives (λ read. (read.0, place_of read.1)) result (ruled (is_from_to low high) byte_at (place_of place.entry)) }
{
    let (value, after) = place.byte()?;
    if value < low || high < value {
        return Err(place.broken());
    }
    Ok((value, after))
}

fn is_printable(name: &[u8]) -> bool
    ensures { result ≡ list_all (is_from_to 0x21 0x7E) name.now }
{
    name.iter().all(|byte| 0x21 <= *byte && *byte <= 0x7E)
}

// Names that begin with @ are reserved for defaults.
fn begins_with_at(name: &[u8]) -> bool
    ensures { result ≡ (slice_index name.now 0 == 0x40) }
{
    match name {
        [first, ..] => *first == b'@',
        [] => false,
    }
}

fn is_lawful_name(name: &[u8]) -> bool
    ensures { result ≡ is_name name.now }
{
    is_printable(name) && !begins_with_at(name)
}

fn is_new_name(earlier: &[SinkSpec], name: &[u8]) -> bool
    ensures { result ≡ is_new earlier.now name.now }
{
    earlier.iter().all(|s| s.name.as_slice() != name)
}

// Bytes that are a valid sink name, which no earlier sink has.
#[tactic(auto, unfolding(crate::specs::Field::ruled))]
fn name_bytes<'a>(
    earlier: &[SinkSpec],
    size: u8,
    place: Place<'a>,
) -> Result<(&'a [u8], Place<'a>), ReadError>
    ensures { Gives (λ read. (read.0.now, place_of read.1)) result (ruled (λ name. is_name name && is_new earlier.now name) (bytes_at size) (place_of place.entry)) }
{
    let (name, after) = place.bytes(size as usize)?;
    if !(is_lawful_name(name) && is_new_name(earlier, name)) {
        return Err(place.broken());
    }
    Ok((name, after))
}

#[tactic(auto, unfolding(crate::specs::HeaderReading::name_at, crate::specs::Place::and_then))]
fn name<'a>(earlier: &[SinkSpec], place: Place<'a>) -> Result<(&'a [u8], Place<'a>), ReadError>
    ensures { Gives (λ read. (read.0.now, place_of read.1)) result (name_at earlier.now (place_of place.entry)) }
{
    let (size, rest) = byte_within(place, 1, 64)?;
    name_bytes(earlier, size, rest)
}

fn linear_format(code: u8) -> Option<Format>
    ensures { result ≡ format_of code }
{
    Format::from_code(code).filter(|format| format.is_linear())
}

#[tactic(auto, unfolding(crate::specs::HeaderReading::format_at))]
fn format(place: Place<'_>) -> Result<(Format, Place<'_>), ReadError>
    ensures { Gives (λ read. (read.0, place_of read.1)) result (format_at (place_of place.entry)) }
{
    let (code, after) = place.byte()?;
    match linear_format(code) {
        Some(format) => Ok((format, after)),
        None => Err(place.broken()),
    }
}

#[tactic(auto, unfolding(crate::specs::Field::ruled))]
fn rate(place: Place<'_>) -> Result<(u32, Place<'_>), ReadError>
    ensures { Gives (λ read. (read.0, place_of read.1)) result (ruled (is_from_to 1 192000) word_at (place_of place.entry)) }
{
    let (rate, after) = place.word()?;
    if rate < 1 || MAX_RATE < rate {
        return Err(place.broken());
    }
    Ok((rate, after))
}

#[tactic(auto, unfolding(crate::specs::HeaderReading::spec_at, crate::specs::Place::and_then))]
fn spec(place: Place<'_>) -> Result<(Spec, Place<'_>), ReadError>
    ensures { Gives (λ read. (read.0, place_of read.1)) result (spec_at (place_of place.entry)) }
{
    let (format, rest) = format(place)?;
    let (channels, rest) = byte_within(rest, 1, MAX_CHANNELS)?;
    let (rate, rest) = rate(rest)?;
    let spec = Spec {
        format,
        channels,
        rate,
    };
    Ok((spec, rest))
}

#[tactic(auto, unfolding(crate::specs::Field::ruled))]
fn depth(guard: u32, place: Place<'_>) -> Result<(u32, Place<'_>), ReadError>
    ensures { Gives (λ read. (read.0, place_of read.1)) result (ruled (is_depth guard) word_at (place_of place.entry)) }
{
    let (depth, after) = place.word()?;
    if depth < 1 || MAX_DEPTH < depth || depth < guard {
        return Err(place.broken());
    }
    Ok((depth, after))
}

// Guard and depth, both in frames.
#[tactic(auto, unfolding(crate::specs::HeaderReading::room_at, crate::specs::Place::and_then))]
fn room(place: Place<'_>) -> Result<(u32, u32, Place<'_>), ReadError>
    ensures { Gives (λ read. (room_of read.0 read.1, place_of read.2)) result (room_at (place_of place.entry)) }
{
    let (guard, rest) = place.word()?;
    let (depth, rest) = depth(guard, rest)?;
    Ok((guard, depth, rest))
}

// The next `count` speaker positions.
fn positions(alloc: Global, count: u8, place: Place<'_>) -> Result<(Vec<u8>, Place<'_>), ReadError>
    ensures { Gives (λ read. (read.0.items, place_of read.1)) result (more_at position_at [] count (place_of place.entry)) }
{
    let mut positions = Vec::new(alloc);
    let mut rest = place;
    for _ in 0..count {
        let (position, after) = position(rest)?;
        positions.push(position)?;
        rest = after;
    }
    Ok((positions, rest))
}

#[tactic(auto, unfolding(crate::specs::Field::ruled))]
fn position(place: Place<'_>) -> Result<(u8, Place<'_>), ReadError>
    ensures { Gives (λ read. (read.0, place_of read.1)) result (position_at [] (place_of place.entry)) }
{
    let (position, after) = place.byte()?;
    if 50 < position {
        return Err(place.broken());
    }
    Ok((position, after))
}

// The next `count` speaker positions, as a channel map.
fn map(alloc: Global, count: u8, place: &mut Place<'_>) -> Result<Map, ReadError>
    requires { IsFromTo 1 32 count }
    ensures { Reads (λ map. map) result (place_of place.new) (more_at position_at [] count (place_of place.old)) }
{
    let (positions, rest) = positions(alloc, count, *place)?;
    let map = Map::new(positions.as_slice()).unwrap();
    drop(positions);
    *place = rest;
    Ok(map)
}

// The sink with these fields.
fn sink_of(
    alloc: Global,
    name: &[u8],
    spec: Spec,
    map: Map,
    guard: u32,
    depth: u32,
) -> Mem<SinkSpec>
    ensures { IfOk result (λ s. s ≡ record { name = name.now; spec = spec; map = map; guard = guard; depth = depth }) }
{
    Ok(SinkSpec {
        name: Text::copied(alloc, name)?,
        spec,
        map,
        guard,
        depth,
    })
}

// The sink with this name and this sample spec, whose other fields are read at the place.
#[tactic(auto, unfolding(crate::specs::HeaderRest::rest_of_sink_at, crate::specs::Place::and_then))]
fn rest_of_sink(
    alloc: Global,
    name: &[u8],
    spec: Spec,
    place: &mut Place<'_>,
) -> Result<SinkSpec, ReadError>
    requires { IsFromTo 1 32 spec.channels }
    ensures { Reads (λ s. s) result (place_of place.new) (rest_of_sink_at name.now spec (place_of place.old)) }
{
    let map = map(alloc, spec.channels, place)?;
    let (guard, depth, rest) = room(*place)?;
    *place = rest;
    Ok(sink_of(alloc, name, spec, map, guard, depth)?)
}

#[tactic(auto, unfolding(crate::specs::HeaderReading::sink_at, crate::specs::Place::and_then))]
fn sink(alloc: Global, earlier: &[SinkSpec], place: &mut Place<'_>) -> Result<SinkSpec, ReadError>
    ensures { Reads (λ s. s) result (place_of place.new) (sink_at earlier.now (place_of place.old)) }
{
    let (name, rest) = name(earlier, *place)?;
    let (spec, rest) = spec(rest)?;
    *place = rest;
    rest_of_sink(alloc, name, spec, place)
}

fn sinks(alloc: Global, count: u8, place: &mut Place<'_>) -> Result<Vec<SinkSpec>, ReadError>
    ensures { Reads (λ sinks. sinks.items) result (place_of place.new) (more_at sink_at [] count (place_of place.old)) }
{
    let mut sinks = Vec::new(alloc);
    for _ in 0..count {
        let sink = sink(alloc, &sinks, place)?;
        sinks.push(sink)?;
    }
    Ok(sinks)
}

// The header with this cookie and these sinks.
fn header_of(alloc: Global, cookie: &[u8], sinks: Vec<SinkSpec>) -> Mem<Header>
    ensures { IfOk result (λ h. h ≡ record { cookie = cookie.now; sinks = sinks.items }) }
{
    match Text::copied(alloc, cookie) {
        Ok(cookie) => Ok(Header {
            cookie,
            sinks: SinkSpecs::from_vec(sinks),
        }),
        Err(error) => {
            drop(sinks);
            Err(error)
        }
    }
}

// The form, and the header with this cookie, whose other fields are read at the place.
#[tactic(auto, unfolding(crate::specs::HeaderRest::rest_of_header_at, crate::specs::Place::and_then))]
fn rest_of_header(
    alloc: Global,
    form: Form,
    cookie: &[u8],
    place: &mut Place<'_>,
) -> Result<(Form, Header), ReadError>
    ensures { Reads (λ h. h) result (place_of place.new) (rest_of_header_at form cookie.now (place_of place.old)) }
{
    let (count, rest) = byte_within(*place, 1, MAX_SINKS as u8)?;
    *place = rest;
    let sinks = sinks(alloc, count, place)?;
    let header = header_of(alloc, cookie, sinks)?;
    Ok((form, header))
}

/// Reads the form and the header at the place, and moves the place past them.
#[tactic(auto, unfolding(crate::specs::HeaderReading::header_at, crate::specs::Place::and_then))]
pub(crate) fn header(alloc: Global, place: &mut Place<'_>) -> Result<(Form, Header), ReadError>
    ensures { Reads (λ h. h) result (place_of place.new) (header_at (place_of place.old)) }
{
    let (form, rest) = magic(*place)?;
    let (cookie, rest) = rest.bytes(256)?;
    *place = rest;
    rest_of_header(alloc, form, cookie, place)
}
