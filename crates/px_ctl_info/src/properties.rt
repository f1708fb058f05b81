//! The property lists of clients (PulseAudio: `command_update_proplist` and `command_remove_proplist` of
//! `pulsecore/protocol-native.c`; that a missing key refuses the whole removal is own).

ghost use Rattle.std.specs.Prelude.{◌≡◌, ◌<◌, ◌≤◌, ◌∷◌, [], true, IfOk, OnOk, Ok, length, take, drop, fold, Some, slice_get};
ghost use Rattle.std.specs.List.{list_all};
ghost use Rattle.std.specs.Option.{option_map};
ghost use Rattle.px_tag.specs.Item.{is_text};
ghost use Rattle.px_tag.specs.PropList.{Property, has_key, is_property, with_value, with_all, without, updated};
ghost use Rattle.px_reply.specs.Front.{reply_to};
ghost use Rattle.px_outcome.specs.declared.change.Change.TheVariants.{Named};
ghost use Rattle.px_outcome.specs.Outcome.{replied};
ghost use Rattle.px_outcome.specs.Handled.{HandledAs};
ghost use Rattle.px_ctl_info.specs.Removed.{kept, marked, with_unmarked};
ghost use Rattle.px_ctl_info.specs.Properties.{text_in, text_under, list_of, mode_of, has_keys, without_keys, update_client, remove_client};

use px_cmd::Keys;
use px_names::Client;
use px_outcome::{Change, Connection, Refusal, StepOutcome, check, present};
use px_tag::{Mode, PropList};
use px_types::ErrorCode;
use std::alloc::Global;

// No byte is zero.
fn is_text(bytes: &[u8]) -> bool
    ensures { result ≡ is_text bytes.now }
{
    bytes.iter().all(|b| *b != 0)
}

// The text before the zero byte, where that is the last byte and the only zero.
fn text_in(bytes: &[u8]) -> Option<&[u8]>
    ensures { option_map (λ text. text.now) result ≡ text_in bytes.now }
{
    let count = bytes.len();
    if count > 0 && bytes[count - 1] == 0 && is_text(&bytes[..count - 1]) {
        Some(&bytes[..count - 1])
    } else {
        None
    }
}

/// The text under a key of a list, where its value is a text followed by a zero byte. Takes no memory.
pub(crate) fn text_under<'a>(list: &'a PropList, key: &[u8]) -> Option<&'a [u8]>
    ensures { option_map (λ text. text.now) result ≡ text_under list.now key.now }
{
    match list.get(key) {
        None => None,
        Some(value) => text_in(value),
    }
}

// A client's list.
fn list_of(alloc: Global, client: Option<&Client>) -> px_tag::Mem<PropList>
    ensures { IfOk result (λ list. list ≡ list_of (option_map (λ client. client.now) client.entry)) }
{
    match client {
        None => Ok(PropList::new(alloc)),
        Some(client) => client.list.copy(),
    }
}

/// The mode with a number. Takes no memory.
pub(crate) fn mode_of(number: u32) -> Option<Mode>
    ensures { result ≡ mode_of number }
{
    match number {
        0 => Some(Mode::Set),
        1 => Some(Mode::Merge),
        2 => Some(Mode::Replace),
        _ => None,
    }
}

/// Whether the list has each key of a command. Takes no memory.
pub(crate) fn has_keys(list: &PropList, keys: &Keys) -> bool
    ensures { result ≡ has_keys list.now keys.now }
{
    keys.as_slice()
        .iter()
        .all(|key| list.contains(key.as_slice()))
}

// Removes these keys from the list, one after the other: each moves the keys after it. Takes no memory.
fn remove_each(list: &mut PropList, keys: &Keys)
    ensures { list.new ≡ without_keys list.old keys.now }
{
    for key in keys.as_slice() {
        list.remove(key.as_slice());
    }
}

// Marks a key that the list has.
fn mark(marks: &mut PropList, list: &PropList, key: &[u8]) -> px_tag::Mem<()>
    requires { has_key list.now key.now ≡ true }
    ensures { OnOk result (marks.new ≡ with_value marks.old key.now []) }
{
    let _count = list.len();
    marks.set(key, &[])
}

// The keys of a command as a list of their own, without values. The list has all of them.
fn marked(alloc: Global, list: &PropList, keys: &Keys) -> px_tag::Mem<PropList>
    requires { has_keys list.now keys.now ≡ true }
    ensures { IfOk result (λ marks. marks ≡ marked [] keys.now) }
{
    let mut marks = PropList::new(alloc);
    for key in keys.as_slice() {
        mark(&mut marks, list, key.as_slice())?;
    }
    Ok(marks)
}

// Adds a property, unless its key is marked.
fn add_unmarked(made: &mut PropList, marks: &PropList, key: &[u8], value: &[u8]) -> px_tag::Mem<()>
    requires { is_property (key.now, value.now) ≡ true }
    ensures { OnOk result (made.new ≡ with_unmarked marks.now made.old (key.now, value.now)) }
{
    if marks.contains(key) {
        return Ok(());
    }
    made.set(key, value)
}

// Adds the property at a place of a list, unless its key is marked.
fn add_at(made: &mut PropList, marks: &PropList, list: &PropList, place: usize) -> px_tag::Mem<()>
    ensures { OnOk result ((p : Property) → slice_get list.now place ≡ Some p → made.new ≡ with_unmarked marks.now made.old p) }
{
    match list.get_index(place) {
        None => Ok(()),
        Some((key, value)) => add_unmarked(made, marks, key, value),
    }
}

// The properties of a list whose keys aren't marked.
fn unmarked(alloc: Global, list: &PropList, marks: &PropList) -> px_tag::Mem<PropList>
    ensures { IfOk result (λ made. made ≡ with_all [] (kept marks.now list.now)) }
{
    let mut made = PropList::new(alloc);
    for place in 0..list.len() {
        add_at(&mut made, marks, list, place)?;
    }
    Ok(made)
}

// The list without these keys, all of which it has: they are marked first, and one pass leaves the others.
fn without_marked(alloc: Global, list: &PropList, keys: &Keys) -> px_tag::Mem<PropList>
    requires { has_keys list.now keys.now ≡ true }
    ensures { IfOk result (λ made. made ≡ without_keys list.now keys.now) }
{
    let _count = list.len();
    let marks = marked(alloc, list, keys)?;
    let made = unmarked(alloc, list, &marks)?;
    Ok(made)
}

// The greatest number of keys that are removed one by one.
const FEW: usize = 4;

/// `list` without these keys, all of which it has.
pub(crate) fn without_keys(alloc: Global, mut list: PropList, keys: &Keys) -> px_tag::Mem<PropList>
    requires { has_keys list keys.now ≡ true }
    ensures { IfOk result (λ made. made ≡ without_keys list keys.now) }
{
    if keys.as_slice().len() > FEW {
        return without_marked(alloc, &list, keys);
    }
    remove_each(&mut list, keys);
    Ok(list)
}

/// `list`, updated by `other` in a mode.
pub(crate) fn updated(mut list: PropList, mode: Mode, other: &PropList) -> px_tag::Mem<PropList>
    ensures { IfOk result (λ made. made ≡ updated mode list other.now) }
{
    list.update(mode, other)?;
    Ok(list)
}

// A client's list, updated by `other` in a mode. It is copied only where some of it can stay.
fn client_updated(
    alloc: Global,
    client: Option<&Client>,
    mode: Mode,
    other: &PropList,
) -> px_tag::Mem<PropList>
    ensures { IfOk result (λ made. made ≡ updated mode (list_of (option_map (λ client. client.now) client.entry)) other.now) }
{
    match mode {
        Mode::Set => other.copy(),
        Mode::Merge | Mode::Replace => updated(list_of(alloc, client)?, mode, other),
    }
}

// Whether a client's list has each key of a command. Takes no memory.
fn client_has_keys(alloc: Global, client: Option<&Client>, keys: &Keys) -> bool
    ensures { result ≡ has_keys (list_of (option_map (λ client. client.now) client.entry)) keys.now }
{
    match client {
        None => has_keys(&PropList::new(alloc), keys),
        Some(client) => has_keys(&client.list, keys),
    }
}

// A plain reply, and a new list of a connection's client.
fn named<M: Drop, G: Drop>(
    alloc: Global,
    me: &Connection,
    tag: u32,
    list: PropList,
) -> Result<StepOutcome<M, G>, Refusal>
    ensures { HandledAs result (Ok (replied (reply_to tag) (Named me.now.conn list ∷ []))) }
{
    let reply = px_reply::plain(alloc, tag)?;
    let mut changes = Vec::new(alloc);
    changes.push(Change::Named(me.conn, list))?;
    Ok(StepOutcome::replied(alloc, reply, changes))
}

/// UPDATE_CLIENT_PROPLIST of a connection with this client, in the mode with this number. Refused: `Invalid` for another
/// number than 0, 1 or 2.
pub fn update_client<M: Drop, G: Drop>(
    alloc: Global,
    client: Option<&Client>,
    me: &Connection,
    tag: u32,
    number: u32,
    list: &PropList,
) -> Result<StepOutcome<M, G>, Refusal>
    ensures { HandledAs result (update_client (option_map (λ client. client.now) client.entry) me.now tag number list.now) }
{
    let mode = present(mode_of(number), ErrorCode::Invalid)?;
    let made = client_updated(alloc, client, mode, list)?;
    named(alloc, me, tag, made)
}

/// REMOVE_CLIENT_PROPLIST of a connection with this client. Refused: `NoEntity` where one of the keys is missing; then none
/// is removed.
pub fn remove_client<M: Drop, G: Drop>(
    alloc: Global,
    client: Option<&Client>,
    me: &Connection,
    tag: u32,
    keys: &Keys,
) -> Result<StepOutcome<M, G>, Refusal>
    ensures { HandledAs result (remove_client (option_map (λ client. client.now) client.entry) me.now tag keys.now) }
{
    check(client_has_keys(alloc, client, keys), ErrorCode::NoEntity)?;
    let made = without_keys(alloc, list_of(alloc, client)?, keys)?;
    named(alloc, me, tag, made)
}
