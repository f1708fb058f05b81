//! Playing a stream to its end: DRAIN_PLAYBACK_STREAM, and the sink's notice (PulseAudio: `command_drain_playback_stream`
//! and PLAYBACK_STREAM_MESSAGE_DRAIN_ACK of `pulsecore/protocol-native.c`; which notices fit is own).

ghost use Rattle.std.specs.Prelude.{◌≡◌, IfOk};
ghost use Rattle.std.specs.Option.{option_map};
ghost use Rattle.px_outcome.specs.Handled.{HandledAs};
ghost use Rattle.px_outcome.specs.Waiting.{is_drain_under, drain_under};
ghost use Rattle.px_ctl_play.specs.Drain.{drain, drain_answered, drained};

use crate::answer::{answered, asked};
use crate::refusals::goes_on;
use px_flat::Group;
use px_msg::Msg;
use px_outcome::{Awaited, Connection, Input, Refusal, StepOutcome, Waiting, present};
use px_types::{ErrorCode, InputId, Mem, NoMemory};
use std::alloc::Global;
use std::collections::VecDeque;

/// DRAIN_PLAYBACK_STREAM: `NoEntity` where the connection has no stream of this number, else its sink is asked to play it
/// without waiting for prebuf and to send a notice when all of it was played. The client gets its reply then.
pub fn drain<P: Drop>(
    alloc: Global,
    stream: Option<Input>,
    tag: u32,
) -> Result<StepOutcome<Msg<P>, Group>, Refusal>
    ensures { HandledAs result (drain stream tag) }
{
    let x = present(stream, ErrorCode::NoEntity)?;
    let message = Msg::Drain {
        input: x.index,
        tag,
    };
    asked(alloc, &x, message, Awaited::Drained, tag)
}

// Whether `request` is a DRAIN of an input under a tag.
fn is_drain_under(input: InputId, tag: u32, request: &Waiting) -> bool
    ensures { result ≡ is_drain_under input tag request.now }
{
    request.input.0 == input.0 && request.tag == tag && matches!(request.awaited, Awaited::Drained)
}

// The first waiting DRAIN of an input under a tag.
fn drain_under(waiting: &VecDeque<Waiting>, input: InputId, tag: u32) -> Option<&Waiting>
    ensures { option_map (λ request. request.now) result ≡ drain_under waiting.now.items input tag }
{
    waiting
        .iter()
        .find(|request| is_drain_under(input, tag, request))
}

// Replies to the request without fields, where it waits.
fn drain_answered<P: Drop>(
    alloc: Global,
    owner: Option<Connection>,
    request: Option<&Waiting>,
) -> Mem<StepOutcome<Msg<P>, Group>>
    ensures { IfOk result (λ outcome. outcome ≡ drain_answered owner (option_map (λ request. request.now) request.entry)) }
{
    let Some(request) = request else {
        return Ok(StepOutcome::idle(alloc));
    };
    match px_reply::plain(alloc, request.tag) {
        Ok(reply) => answered(alloc, owner, *request, reply),
        Err(_) => Err(NoMemory),
    }
}

/// An input of the sink has drained: the first DRAIN under the tag that waits on it is answered by a reply without fields to
/// the connection of the input, where that is live. Ignored where the input has ended, and where no such request waits.
pub fn drained<P: Drop>(
    alloc: Global,
    input: Option<Input>,
    owner: Option<Connection>,
    waiting: &VecDeque<Waiting>,
    tag: u32,
) -> Mem<StepOutcome<Msg<P>, Group>>
    ensures { IfOk result (λ outcome. outcome ≡ drained input owner waiting.now.items tag) }
{
    match input {
        Some(x) if goes_on(&x) => {
            drain_answered(alloc, owner, drain_under(waiting, x.index, tag))
        }
        _ => Ok(StepOutcome::idle(alloc)),
    }
}
