//! AUTH, SET_CLIENT_NAME and SUBSCRIBE (PulseAudio: `command_auth`, `command_set_client_name` and `command_subscribe` of
//! `pulsecore/protocol-native.c`).

ghost use Rattle.std.specs.Prelude.{◌≡◌, ◌∷◌, [], nat_le, IfOk, Ok};
ghost use Rattle.std.specs.Option.{option_map};
ghost use Rattle.px_tag.specs.PropList.{updated};
ghost use Rattle.px_tag.specs.declared.mode.Mode.TheVariants.{Replace};
ghost use Rattle.px_outcome.specs.declared.change.Change.TheVariants.{Named};
ghost use Rattle.px_outcome.specs.Handled.{HandledAs};
ghost use Rattle.px_ctl_info.specs.Clients.{LEAST_VERSION, version_in, common_version, let_in, auth, list_with, set_client_name, is_mask, subscribe};

use px_names::{Client, Names};
use px_outcome::{Change, Connection, Refusal, StepOutcome, check};
use px_tag::{Mode, PropList};
use px_types::ErrorCode;
use px_types::limits::{LEAST_PROTOCOL_VERSION, PROTOCOL_VERSION};
use std::alloc::Global;

// The version that a client names: the upper half of the number offers shared memory.
fn version_in(version: u32) -> u16
    ensures { result ≡ version_in version }
{
    (version % 0x1_0000) as u16
}

// Whether the server accepts the version that a client names.
fn is_spoken(version: u32) -> bool
    ensures { result ≡ nat_le LEAST_VERSION (version_in version) }
{
    version_in(version) >= LEAST_PROTOCOL_VERSION
}

// The version that the server and the client both speak.
fn common_version(version: u32) -> u16
    ensures { result ≡ common_version version }
{
    version_in(version).min(PROTOCOL_VERSION)
}

// Accepts a connection's AUTH.
fn let_in<M: Drop, G: Drop>(
    alloc: Global,
    me: &Connection,
    tag: u32,
    version: u32,
) -> Result<StepOutcome<M, G>, Refusal>
    ensures { HandledAs result (Ok (let_in me.now tag version)) }
{
    let reply = px_reply::auth(alloc, tag, u32::from(PROTOCOL_VERSION))?;
    let mut changes = Vec::new(alloc);
    changes.push(Change::Authed(me.conn, common_version(version)))?;
    Ok(StepOutcome::replied(alloc, reply, changes))
}

/// AUTH of a client that gives its version (the lower half of the number) and a cookie. The reply has the server's version,
/// 18; the connection's version is the lesser of the two. Refused, by the first of these that holds: `BadState` after a
/// successful one, `Version` below 13, `Access` for another cookie than the server's.
pub fn auth<M: Drop, G: Drop>(
    alloc: Global,
    names: &Names,
    me: &Connection,
    tag: u32,
    version: u32,
    cookie: &[u8],
) -> Result<StepOutcome<M, G>, Refusal>
    ensures { HandledAs result (auth names.now me.now tag version cookie.now) }
{
    check(me.version.is_none(), ErrorCode::BadState)?;
    check(is_spoken(version), ErrorCode::Version)?;
    check(names.cookie_fits(cookie), ErrorCode::Access)?;
    let_in(alloc, me, tag, version)
}

// A copy of `list` with each key of `by` set.
fn updated(list: &PropList, by: &PropList) -> px_tag::Mem<PropList>
    ensures { IfOk result (λ made. made ≡ updated Replace list.now by.now) }
{
    let mut made = list.copy()?;
    made.update(Mode::Replace, by)?;
    Ok(made)
}

// A copy of the client's list with each key of `list` set.
fn list_with(client: Option<&Client>, list: PropList) -> px_tag::Mem<PropList>
    ensures { IfOk result (λ made. made ≡ list_with (option_map (λ client. client.now) client.entry) list) }
{
    match client {
        None => Ok(list),
        Some(client) => updated(&client.list, &list),
    }
}

// Sets each key of another list in the list of the connection's client.
fn named<M: Drop, G: Drop>(
    alloc: Global,
    client: Option<&Client>,
    me: &Connection,
    list: PropList,
) -> px_tag::Mem<Vec<Change<M, G>>>
    ensures { IfOk result (λ changes. changes.items ≡ Named me.now.conn (list_with (option_map (λ client. client.now) client.entry) list) ∷ []) }
{
    let list = list_with(client, list)?;
    let mut changes = Vec::new(alloc);
    changes.push(Change::Named(me.conn, list))?;
    Ok(changes)
}

/// SET_CLIENT_NAME of a connection with this client: each key of the list is set in the client's, and the reply gives the
/// client's index.
pub fn set_client_name<M: Drop, G: Drop>(
    alloc: Global,
    client: Option<&Client>,
    me: &Connection,
    tag: u32,
    list: PropList,
) -> Result<StepOutcome<M, G>, Refusal>
    ensures { HandledAs result (set_client_name (option_map (λ client. client.now) client.entry) me.now tag list) }
{
    let changes = named(alloc, client, me, list)?;
    let reply = px_reply::client_index(alloc, tag, me.client)?;
    Ok(StepOutcome::replied(alloc, reply, changes))
}

// Whether these bits are for existing facilities.
fn is_mask(mask: u32) -> bool
    ensures { result ≡ is_mask mask }
{
    matches!(mask / 256, 0 | 2)
}

/// SUBSCRIBE: the client is notified of events of these facilities from now on, a bit each (`pa_subscription_mask_t`).
/// Refused: `Invalid` for a bit of no facility.
pub fn subscribe<M: Drop, G: Drop>(
    alloc: Global,
    me: &Connection,
    tag: u32,
    mask: u32,
) -> Result<StepOutcome<M, G>, Refusal>
    ensures { HandledAs result (subscribe me.now tag mask) }
{
    check(is_mask(mask), ErrorCode::Invalid)?;
    let reply = px_reply::plain(alloc, tag)?;
    let mut changes = Vec::new(alloc);
    changes.push(Change::Masked(me.conn, mask))?;
    Ok(StepOutcome::replied(alloc, reply, changes))
}
