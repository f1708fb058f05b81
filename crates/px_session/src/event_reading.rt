//! The fields of an event, read from left to right.

ghost use Rattle.std.specs.Prelude.{◌≡◌};
ghost use Rattle.px_session.specs.Place.{Gives, Reads};
ghost use Rattle.px_session.specs.Field.{word_at};
ghost use Rattle.px_session.specs.EventReading.{end_at, sized_at, data_at, turn_at, collect_at, stop_at, fields_at, event_at};
ghost use Rattle.px_session.specs.Seen.{place_of};

use crate::event::{Event, Step};
use crate::fault::{Cause, ReadError};
use crate::form::Form;
use crate::place::Place;
use crate::supply::Supply;
use px_types::{ConnId, SinkId};

// Nothing follows the end byte.
#[tactic(auto, unfolding(crate::specs::EventReading::end_at))]
fn end(place: &Place<'_>) -> Result<Step, ReadError>
    ensures { Reads (λ step. step) result (place_of place.now) (end_at (place_of place.now)) }
{
    match place.rest {
        [] => Ok(Step::End),
        [_, ..] => Err(ReadError::Refused {
            at: place.at,
            cause: Cause::Trailing,
        }),
    }
}

#[tactic(auto, unfolding(crate::specs::EventReading::sized_at))]
fn sized(
    form: Form,
    kind_at: u64,
    size: u64,
    place: Place<'_>,
) -> Result<(&[u8], Place<'_>), ReadError>
    ensures { Gives (λ read. (read.0.now, place_of read.1)) result (sized_at form kind_at size (place_of place.entry)) }
{
    if form.most_bytes() < size as usize {
        return Err(ReadError::Refused {
            at: kind_at,
            cause: Cause::TooLong(size),
        });
    }
    place.bytes(size as usize)
}

#[tactic(auto, unfolding(crate::specs::EventReading::data_at, crate::specs::Place::and_then))]
fn data(
    supply: &mut Supply,
    form: Form,
    kind_at: u64,
    place: &mut Place<'_>,
) -> Result<Step, ReadError>
    ensures { Reads (λ step. step) result (place_of place.new) (data_at form kind_at (place_of place.old)) }
{
    let (conn, rest) = place.word()?;
    let (size, rest) = rest.count(form)?;
    let (bytes, rest) = sized(form, kind_at, size, rest)?;
    let bytes = supply.copied(bytes)?;
    *place = rest;
    Ok(Step::Event(Event::Bytes(ConnId(conn), bytes)))
}

#[tactic(auto, unfolding(crate::specs::EventReading::turn_at, crate::specs::Place::and_then))]
fn turn(form: Form, place: &mut Place<'_>) -> Result<Step, ReadError>
    ensures { Reads (λ step. step) result (place_of place.new) (turn_at form (place_of place.old)) }
{
    let (sink, rest) = place.byte()?;
    let (frames, rest) = rest.count(form)?;
    let (take, rest) = rest.count(form)?;
    *place = rest;
    Ok(Step::Event(Event::Turn { sink, frames, take }))
}

#[tactic(auto, unfolding(crate::specs::EventReading::collect_at, crate::specs::Place::and_then))]
fn collect(form: Form, place: &mut Place<'_>) -> Result<Step, ReadError>
    ensures { Reads (λ step. step) result (place_of place.new) (collect_at form (place_of place.old)) }
{
    let (sink, rest) = place.byte()?;
    let (take, rest) = rest.count(form)?;
    *place = rest;
    Ok(Step::Event(Event::Collect { sink, take }))
}

#[tactic(auto, unfolding(crate::specs::EventReading::stop_at, crate::specs::Place::and_then))]
fn stop(place: &mut Place<'_>) -> Result<Step, ReadError>
    ensures { Reads (λ step. step) result (place_of place.new) (stop_at (place_of place.old)) }
{
    let (sink, rest) = place.byte()?;
    *place = rest;
    Ok(Step::Event(Event::Stop(SinkId(sink))))
}

// A connection's number, and nothing more.
#[tactic(auto, unfolding(crate::specs::Field::number_at))]
fn conn(place: &mut Place<'_>) -> Result<ConnId, ReadError>
    ensures { Reads (λ conn. conn.0) result (place_of place.new) (word_at (place_of place.old)) }
{
    let (conn, rest) = place.word()?;
    *place = rest;
    Ok(ConnId(conn))
}

#[tactic(auto, unfolding(crate::specs::EventReading::fields_at, crate::specs::EventReading::conn_at, crate::specs::Place::and_then))]
fn fields(
    supply: &mut Supply,
    form: Form,
    kind_at: u64,
    kind: u8,
    place: &mut Place<'_>,
) -> Result<Step, ReadError>
    ensures { Reads (λ step. step) result (place_of place.new) (fields_at form kind_at kind (place_of place.old)) }
{
    match kind {
        0 => end(place),
        1 => Ok(Step::Event(Event::Connect(conn(place)?))),
        2 => data(supply, form, kind_at, place),
        3 => Ok(Step::Event(Event::Close(conn(place)?))),
        4 => Ok(Step::Event(Event::Cut(conn(place)?))),
        5 => turn(form, place),
        6 => collect(form, place),
        7 if form.has_stop() => stop(place),
        _ => Err(ReadError::Refused {
            at: kind_at,
            cause: Cause::Kind(kind),
        }),
    }
}

/// Reads the event or the end at the place, and moves the place past it.
#[tactic(auto, unfolding(crate::specs::EventReading::event_at))]
pub(crate) fn event(
    supply: &mut Supply,
    form: Form,
    place: &mut Place<'_>,
) -> Result<Step, ReadError>
    ensures { Reads (λ step. step) result (place_of place.new) (event_at form (place_of place.old)) }
{
    let kind_at = place.at;
    let (kind, rest) = place.byte()?;
    *place = rest;
    fields(supply, form, kind_at, kind, place)
}
