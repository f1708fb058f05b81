//! What comes next in the bytes at hand, and the wait for enough of them.

ghost use Rattle.std.specs.Prelude.{◌≡◌, ◌<◌, ◌≤◌, ◌^◌, length, IfOk, MatchBool};
ghost use Rattle.px_session.specs.Place.{Reads};
ghost use Rattle.px_session.specs.Session.{step_at};
ghost use Rattle.px_session.specs.Found.{place_at, Finds, IsOpen, IsClosed, Settles, Awaits, NeverFails};
ghost use Rattle.px_session.specs.EventRules.{IsStep};
ghost use Rattle.px_session.specs.Held.{ReadCounts};
ghost use Rattle.px_session.specs.Seen.{place_of};

use crate::event::Step;
use crate::event_reading::event;
use crate::fault::{Cause, ReadError};
use crate::form::Form;
use crate::found::Found;
use crate::header_reading::header;
use crate::held::{Held, More};
use crate::place::Place;
use crate::supply::Supply;
use px_ends::Source;

// The form, and the header, or, once that was read, an event or the end.
#[tactic(auto, unfolding(crate::specs::Session::first_at, crate::specs::Session::later_at, crate::specs::Place::and_then))]
fn step(
    supply: &mut Supply,
    begun: Option<Form>,
    place: &mut Place<'_>,
) -> Result<(Form, Step), ReadError>
    ensures { Reads (λ step. step) result (place_of place.new) (step_at begun (place_of place.old)) }
{
    match begun {
        Some(form) => {
            let step = event(supply, form, place)?;
            Ok((form, step))
        }
        None => {
            let (form, header) = header(supply.alloc(), place)?;
            Ok((form, Step::Header(header)))
        }
    }
}

fn look(supply: &mut Supply, begun: Option<Form>, at: u64, bytes: &[u8]) -> Result<Found, ReadError>
    requires { at ≤ 2 ^ 40 }
    ensures finds { Finds result bytes.now (step_at begun (place_at at bytes.now)) }
    ensures within { IfOk result (λ found. found.at ≤ 2 ^ 40) }
    ensures forward { IfOk result (λ found. at < found.at) }
    ensures lawful { IfOk result (λ found. IsStep found.form found.step) }
    ensures never { NeverFails result }
{
    let mut place = Place { at, rest: bytes };
    let (form, step) = step(supply, begun, &mut place)?;
    Ok(Found {
        form,
        step,
        used: bytes.len() - place.rest.len(),
        at: place.at,
    })
}

// More bytes may change the answer.
fn is_open(read: &Result<Found, ReadError>) -> bool
    ensures { MatchBool result (IsOpen read.now) (IsClosed read.now) }
{
    match read {
        Ok(found) => matches!(found.step, Step::End),
        Err(ReadError::Refused { cause, .. }) => matches!(cause, Cause::Truncated),
        Err(_) => false,
    }
}

// What was read, where no more bytes can change it.
fn settled(read: Result<Found, ReadError>) -> Option<Result<Found, ReadError>>
    ensures { Settles result read }
{
    if is_open(&read) { None } else { Some(read) }
}

/// What comes next, in the bytes that are held and the further bytes of the source that it needs.
pub(crate) fn await_step<S: Source>(
    supply: &mut Supply,
    begun: Option<Form>,
    at: u64,
    held: &mut Held,
    input: &mut S,
) -> Result<Found, ReadError>
    requires { at ≤ 2 ^ 40 }
    ensures awaits { Awaits result begun at held.old held.new (S.left input.old) (S.left input.new) }
    ensures counts { ReadCounts result (S.faults input.old) (S.faults input.new) }
    ensures within { IfOk result (λ found. found.at ≤ 2 ^ 40) }
    ensures forward { IfOk result (λ found. at < found.at) }
    ensures lawful { IfOk result (λ found. IsStep found.form found.step) }
{
    loop {
        if let Some(read) = settled(look(supply, begun, at, held.as_slice())) {
            return read;
        }
        match held.more(input)? {
            More::Came => {}
            More::Ended => return look(supply, begun, at, held.as_slice()),
        }
    }
}
