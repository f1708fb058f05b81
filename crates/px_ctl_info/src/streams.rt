//! The names and property lists of playback streams (PulseAudio: `command_update_proplist`, `command_remove_proplist` and
//! `command_set_stream_name` of `pulsecore/protocol-native.c`; that a missing key refuses the whole removal, and the
//! greatest length of a name, are own).

ghost use Rattle.std.specs.Prelude.{◌≡◌, ◌≤◌, ◌++◌, ◌∷◌, [], IsTrue, IfOk, IfSome, OnOk, Ok, length};
ghost use Rattle.std.specs.Option.{option_map};
ghost use Rattle.px_reply.specs.Front.{reply_to};
ghost use Rattle.px_outcome.specs.Outcome.{replied};
ghost use Rattle.px_outcome.specs.Handled.{HandledAs};
ghost use Rattle.px_outcome.specs.declared.change.Change.TheVariants.{Described};
ghost use Rattle.px_tag.specs.PropList.{with_value};
ghost use Rattle.px_names.specs.InputLists.{list_of};
ghost use Rattle.px_ctl_info.specs.Properties.{STREAM_NAME, update_stream, remove_stream, name_in, with_name, set_stream_name};

use crate::properties::{has_keys, mode_of, updated, without_keys};
use px_cmd::Keys;
use px_names::InputLists;
use px_outcome::{Change, Input, Refusal, StepOutcome, check, present};
use px_tag::PropList;
use px_types::{ErrorCode, InputId};
use std::alloc::Global;

/// The greatest length of a stream's name, in bytes.
const MOST_NAME: usize = 65_535;

// A plain reply, and a new property list of an input.
fn described<M: Drop, G: Drop>(
    alloc: Global,
    tag: u32,
    input: InputId,
    list: PropList,
) -> Result<StepOutcome<M, G>, Refusal>
    ensures { HandledAs result (Ok (replied (reply_to tag) (Described input list ∷ []))) }
{
    let reply = px_reply::plain(alloc, tag)?;
    let mut changes = Vec::new(alloc);
    changes.push(Change::Described(input, list))?;
    Ok(StepOutcome::replied(alloc, reply, changes))
}

/// UPDATE_PLAYBACK_STREAM_PROPLIST of a stream with this input, in the mode with this number. Refused: `NoEntity` where the
/// connection has no such stream, then `Invalid` for another number than 0, 1 or 2.
pub fn update_stream<M: Drop, G: Drop>(
    alloc: Global,
    stream: Option<Input>,
    lists: &InputLists,
    tag: u32,
    number: u32,
    list: &PropList,
) -> Result<StepOutcome<M, G>, Refusal>
    ensures { HandledAs result (update_stream stream lists.now.items tag number list.now) }
{
    let x = present(stream, ErrorCode::NoEntity)?;
    let mode = present(mode_of(number), ErrorCode::Invalid)?;
    let made = updated(lists.copy_of(x.index)?, mode, list)?;
    described(alloc, tag, x.index, made)
}

/// REMOVE_PLAYBACK_STREAM_PROPLIST of a stream with this input. Refused: `NoEntity` where the connection has no such stream,
/// and where one of the keys is missing; then none is removed.
pub fn remove_stream<M: Drop, G: Drop>(
    alloc: Global,
    stream: Option<Input>,
    lists: &InputLists,
    tag: u32,
    keys: &Keys,
) -> Result<StepOutcome<M, G>, Refusal>
    ensures { HandledAs result (remove_stream stream lists.now.items tag keys.now) }
{
    let x = present(stream, ErrorCode::NoEntity)?;
    let list = lists.copy_of(x.index)?;
    check(has_keys(&list, keys), ErrorCode::NoEntity)?;
    let made = without_keys(alloc, list, keys)?;
    described(alloc, tag, x.index, made)
}

// The stream's new name, where it is given and short enough.
fn name_in(name: Option<&[u8]>) -> Option<&[u8]>
    ensures value { option_map (λ text. text.now) result ≡ name_in (option_map (λ text. text.now) name.entry) }
    ensures few { IfSome result (λ text. length text.now ≤ 65535) }
{
    match name {
        Some(name) if name.len() <= MOST_NAME => Some(name),
        _ => None,
    }
}

// A text followed by a zero byte.
fn ended(alloc: Global, name: &[u8]) -> px_tag::Mem<Vec<u8>>
    ensures { IfOk result (λ bytes. bytes.items ≡ name.now ++ 0 ∷ []) }
{
    let mut bytes = Vec::new(alloc);
    bytes.extend_from_slice(name)?;
    bytes.push(0)?;
    Ok(bytes)
}

// Sets the name in the list.
fn put_name(list: &mut PropList, name: &[u8]) -> px_tag::Mem<()>
    requires { length name.now ≤ 65536 }
    ensures { OnOk result (list.new ≡ with_value list.old STREAM_NAME name.now) }
{
    list.set(b"media.name", name)
}

// A copy of an input's list, with this name.
fn list_with_name(
    alloc: Global,
    lists: &InputLists,
    input: InputId,
    name: &[u8],
) -> px_tag::Mem<PropList>
    requires { length name.now ≤ 65535 }
    ensures { IfOk result (λ list. list ≡ with_name (list_of lists.now.items input) name.now) }
{
    let mut list = lists.copy_of(input)?;
    let text = ended(alloc, name)?;
    put_name(&mut list, text.as_slice())?;
    Ok(list)
}

/// SET_PLAYBACK_STREAM_NAME of a stream with this input: its list's `media.name` is the name and a zero byte. Refused:
/// `NoEntity` where the connection has no such stream, then `Invalid` without a name, and for one of more than 65,535 bytes.
pub fn set_stream_name<M: Drop, G: Drop>(
    alloc: Global,
    stream: Option<Input>,
    lists: &InputLists,
    tag: u32,
    name: Option<&[u8]>,
) -> Result<StepOutcome<M, G>, Refusal>
    ensures { HandledAs result (set_stream_name stream lists.now.items tag (option_map (λ name. name.now) name.entry)) }
{
    let x = present(stream, ErrorCode::NoEntity)?;
    let Some(name) = name_in(name) else {
        return Err(Refusal::Code(ErrorCode::Invalid));
    };
    let made = list_with_name(alloc, lists, x.index, name)?;
    described(alloc, tag, x.index, made)
}
