//! The events of the objects of a facility, from their infos at two moments. Where indices rise in both lists, as they do in the
//! server's, one walk goes through both; in any other lists each next object is searched for.

ghost use Rattle.std.specs.Prelude.{◌≡◌, ◌<◌, ◌^◌, ◌++◌, All, IsTrue, IfOk, OnOk, IfSome, drop, not, bytes_eq};
ghost use Rattle.std.specs.Option.{option_map};
ghost use Rattle.px_subscribe.specs.Became.{became};
ghost use Rattle.px_subscribe.specs.Walk.{said, object_at, events_in, RisesFrom, first_index, head_at, rest_at, next_in};

use crate::event::{Event, Facility, Kind};
use crate::object::Object;
use px_types::Mem;
use std::alloc::Global;

// Whether the bytes of two infos differ.
fn differ<I: Object>(alloc: Global, before: &I, after: &I) -> Mem<bool>
    requires before { I.IsWritable before.now }
    requires after { I.IsWritable after.now }
    ensures { IfOk result (λ differ. differ ≡ not (bytes_eq (I.bytes_of before.now) (I.bytes_of after.now))) }
{
    if before.is_like(after) {
        return Ok(false);
    }
    let before = before.bytes(alloc)?;
    let after = after.bytes(alloc)?;
    Ok(before.as_slice() != after.as_slice())
}

// The kind of event of an object, by its info before and after.
fn became<I: Object>(alloc: Global, before: Option<&I>, after: Option<&I>) -> Mem<Option<Kind>>
    requires before { IfSome before (λ x. I.IsWritable x.now) }
    requires after { IfSome after (λ x. I.IsWritable x.now) }
    ensures { IfOk result (λ kind. kind ≡ became I.bytes_of (option_map (λ x. x.now) before.entry) (option_map (λ x. x.now) after.entry)) }
{
    match (before, after) {
        (None, None) => Ok(None),
        (None, Some(_)) => Ok(Some(Kind::New)),
        (Some(_), None) => Ok(Some(Kind::Remove)),
        (Some(before), Some(after)) => {
            if differ(alloc, before, after)? {
                Ok(Some(Kind::Change))
            } else {
                Ok(None)
            }
        }
    }
}

// Adds the event of one object, where there is one.
fn add_at<I: Object>(
    alloc: Global,
    events: &mut Vec<Event>,
    facility: Facility,
    before: Option<&I>,
    after: Option<&I>,
    index: u32,
) -> Mem<()>
    requires before { IfSome before (λ x. I.IsWritable x.now) }
    requires after { IfSome after (λ x. I.IsWritable x.now) }
    ensures { OnOk result (events.new.items ≡ events.old.items ++ said facility index (became I.bytes_of (option_map (λ x. x.now) before.entry) (option_map (λ x. x.now) after.entry))) }
{
    if let Some(kind) = became(alloc, before, after)? {
        events.push(Event {
            facility,
            kind,
            index,
        })?;
    }
    Ok(())
}

// ---- lists in which indices rise

// Whether indices rise.
fn rise<I: Object>(infos: &[I]) -> bool
    ensures { IsTrue result → RisesFrom I.index_of 0 infos.now }
{
    let mut least = 0;
    for info in infos {
        let index = info.index() as usize;
        if index < least {
            return false;
        }
        least = index + 1;
    }
    true
}

// The index of the object at `place`, or `end` where there is none or it isn't below.
fn index_at<I: Object>(infos: &[I], place: usize, end: usize) -> usize
    ensures value { result ≡ first_index I.index_of (drop place infos.now) end }
    ensures index { result < end → result < 2 ^ 32 }
{
    match infos.get(place) {
        None => end,
        Some(info) => end.min(info.index() as usize),
    }
}

// The object at `place`, where it has this index.
fn head_at<I: Object>(infos: &[I], place: usize, index: usize) -> Option<&I>
    ensures { option_map (λ x. x.now) result ≡ head_at I.index_of index (drop place infos.now) }
{
    match infos.get(place) {
        Some(info) if info.index() as usize == index => Some(info),
        _ => None,
    }
}

// The place after the object at `place`, where it has this index; else `place`.
fn past<I: Object>(infos: &[I], place: usize, index: usize) -> usize
    ensures { drop result infos.now ≡ rest_at I.index_of index (drop place infos.now) }
{
    match infos.get(place) {
        Some(info) if info.index() as usize == index => place + 1,
        _ => place,
    }
}

// Adds the events of all objects, by one walk through both lists.
fn add_rising<I: Object>(
    alloc: Global,
    events: &mut Vec<Event>,
    facility: Facility,
    before: &[I],
    after: &[I],
    given: usize,
) -> Mem<()>
    requires rising_before { RisesFrom I.index_of 0 before.now }
    requires rising_after { RisesFrom I.index_of 0 after.now }
    requires before { All I.IsWritable before.now }
    requires after { All I.IsWritable after.now }
    ensures { OnOk result (events.new.items ≡ events.old.items ++ events_in facility I.index_of I.bytes_of before.now after.now given) }
{
    let mut from = 0;
    let mut b = 0;
    let mut a = 0;
    while from < given {
        let next = index_at(after, a, index_at(before, b, given));
        if next >= given {
            return Ok(());
        }
        let gone = head_at(before, b, next);
        let come = head_at(after, a, next);
        add_at(alloc, events, facility, gone, come, next as u32)?;
        b = past(before, b, next);
        a = past(after, a, next);
        from = next + 1;
    }
    Ok(())
}

// ---- any lists

// The first object with an index.
fn object_at<I: Object>(infos: &[I], index: usize) -> Option<&I>
    ensures { option_map (λ x. x.now) result ≡ object_at I.index_of infos.now index }
{
    infos.iter().find(|info| info.index() as usize == index)
}

// The least index from `from` on among these, or `end` where none lies below it.
fn next_in<I: Object>(infos: &[I], from: usize, end: usize) -> usize
    ensures value { result ≡ next_in I.index_of infos.now from end }
    ensures index { result < end → result < 2 ^ 32 }
{
    let mut next = end;
    for info in infos {
        let index = info.index() as usize;
        if from <= index && index < next {
            next = index;
        }
    }
    next
}

// Adds the events of all objects, by a search for each next one.
fn add_searched<I: Object>(
    alloc: Global,
    events: &mut Vec<Event>,
    facility: Facility,
    before: &[I],
    after: &[I],
    given: usize,
) -> Mem<()>
    requires before { All I.IsWritable before.now }
    requires after { All I.IsWritable after.now }
    ensures { OnOk result (events.new.items ≡ events.old.items ++ events_in facility I.index_of I.bytes_of before.now after.now given) }
{
    let mut from = 0;
    while from < given {
        let next = next_in(after, from, next_in(before, from, given));
        if next >= given {
            return Ok(());
        }
        let gone = object_at(before, next);
        let come = object_at(after, next);
        add_at(alloc, events, facility, gone, come, next as u32)?;
        from = next + 1;
    }
    Ok(())
}

/// Adds the events of all objects of a facility, in rising index: an object that exists at neither moment has none.
pub(crate) fn add_all<I: Object>(
    alloc: Global,
    events: &mut Vec<Event>,
    facility: Facility,
    before: &[I],
    after: &[I],
    given: usize,
) -> Mem<()>
    requires before { All I.IsWritable before.now }
    requires after { All I.IsWritable after.now }
    ensures { OnOk result (events.new.items ≡ events.old.items ++ events_in facility I.index_of I.bytes_of before.now after.now given) }
{
    if rise(before) && rise(after) {
        return add_rising(alloc, events, facility, before, after, given);
    }
    add_searched(alloc, events, facility, before, after, given)
}
