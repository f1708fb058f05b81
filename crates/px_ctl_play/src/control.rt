//! Commands that are posted to a stream's sink and answered at once (PulseAudio: `command_cork_playback_stream` and
//! `command_trigger_or_flush_or_prebuf_playback_stream` of `pulsecore/protocol-native.c`).

ghost use Rattle.std.specs.Prelude.{◌≡◌, Ok};
ghost use Rattle.px_outcome.specs.Handled.{HandledAs};
ghost use Rattle.px_ctl_play.specs.Control.{post_and_reply, cork, flush, trigger, prebuf};

use px_flat::Group;
use px_msg::Msg;
use px_outcome::{Change, Input, Refusal, StepOutcome, present};
use px_types::ErrorCode;
use std::alloc::Global;

// Posts the message to an input's sink, and replies to the client without fields.
fn post_and_reply<P: Drop>(
    alloc: Global,
    x: &Input,
    message: Msg<P>,
    tag: u32,
) -> Result<StepOutcome<Msg<P>, Group>, Refusal>
    ensures { HandledAs result (Ok (post_and_reply x.now message tag)) }
{
    let reply = px_reply::plain(alloc, tag)?;
    let mut changes = Vec::new(alloc);
    changes.push(Change::Posted(x.index, message))?;
    Ok(StepOutcome::replied(alloc, reply, changes))
}

/// CORK_PLAYBACK_STREAM: `NoEntity` where the connection has no stream of this number, else its sink is to cork it, or to
/// uncork it.
pub fn cork<P: Drop>(
    alloc: Global,
    stream: Option<Input>,
    on: bool,
    tag: u32,
) -> Result<StepOutcome<Msg<P>, Group>, Refusal>
    ensures { HandledAs result (cork stream on tag) }
{
    let x = present(stream, ErrorCode::NoEntity)?;
    post_and_reply(alloc, &x, Msg::Cork { input: x.index, on }, tag)
}

/// FLUSH_PLAYBACK_STREAM: `NoEntity` where the connection has no stream of this number, else its sink is to drop the
/// stream's frames.
pub fn flush<P: Drop>(
    alloc: Global,
    stream: Option<Input>,
    tag: u32,
) -> Result<StepOutcome<Msg<P>, Group>, Refusal>
    ensures { HandledAs result (flush stream tag) }
{
    let x = present(stream, ErrorCode::NoEntity)?;
    post_and_reply(alloc, &x, Msg::Flush { input: x.index }, tag)
}

/// TRIGGER_PLAYBACK_STREAM: `NoEntity` where the connection has no stream of this number, else its sink is to play it
/// without waiting for prebuf.
pub fn trigger<P: Drop>(
    alloc: Global,
    stream: Option<Input>,
    tag: u32,
) -> Result<StepOutcome<Msg<P>, Group>, Refusal>
    ensures { HandledAs result (trigger stream tag) }
{
    let x = present(stream, ErrorCode::NoEntity)?;
    post_and_reply(alloc, &x, Msg::Trigger { input: x.index }, tag)
}

/// PREBUF_PLAYBACK_STREAM: `NoEntity` where the connection has no stream of this number, else its sink is to let it wait for
/// prebuf frames again.
pub fn prebuf<P: Drop>(
    alloc: Global,
    stream: Option<Input>,
    tag: u32,
) -> Result<StepOutcome<Msg<P>, Group>, Refusal>
    ensures { HandledAs result (prebuf stream tag) }
{
    let x = present(stream, ErrorCode::NoEntity)?;
    post_and_reply(alloc, &x, Msg::Prebuf { input: x.index }, tag)
}
