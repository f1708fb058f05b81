//! New buffer attributes: SET_PLAYBACK_STREAM_BUFFER_ATTR (PulseAudio: `command_set_stream_buffer_attr` of
//! `pulsecore/protocol-native.c`).

ghost use Rattle.std.specs.Prelude.{◌≡◌, ◌≤◌, IfSome, Ok};
ghost use Rattle.px_msg.specs.Repair.{repaired};
ghost use Rattle.px_outcome.specs.Handled.{HandledAs};
ghost use Rattle.px_ctl_play.specs.Attributes.{attributed, attributes};

use crate::time::microseconds;
use px_flat::Group;
use px_msg::{Msg, in_bytes, repair};
use px_outcome::{Change, Input, Refusal, StepOutcome, present};
use px_types::ErrorCode;
use std::alloc::Global;

// Repairs the attributes that the client asks for, and posts them to the stream's sink.
fn attributed<P: Drop>(
    alloc: Global,
    depth: u32,
    rate: u32,
    x: &Input,
    asked: [u32; 4],
    tag: u32,
) -> Result<StepOutcome<Msg<P>, Group>, Refusal>
    requires rate { 1 ≤ rate }
    requires channels { 1 ≤ x.now.spec.channels }
    ensures { HandledAs result (Ok (attributed depth rate x.now (repaired x.now.spec asked) tag)) }
{
    let attr = repair(&x.spec, asked);
    let bytes = in_bytes(&x.spec, &attr);
    let reply = px_reply::attributes(alloc, tag, bytes, microseconds(rate, depth))?;
    let message = Msg::Attr {
        input: x.index,
        attr,
    };
    let mut changes = Vec::new(alloc);
    changes.push(Change::Posted(x.index, message))?;
    Ok(StepOutcome::replied(alloc, reply, changes))
}

/// SET_PLAYBACK_STREAM_BUFFER_ATTR, which asks for maxlength, tlength, prebuf and minreq in bytes: `NoEntity` where the
/// connection has no stream of this number, else the repaired attributes are posted to its sink, and the reply gives them to
/// the client, in bytes and with the sink's latency. `depth` is in frames and `rate` in frames a second, both of the sink
/// that the stream is on; a stream has a channel.
pub fn attributes<P: Drop>(
    alloc: Global,
    stream: Option<Input>,
    depth: u32,
    rate: u32,
    asked: [u32; 4],
    tag: u32,
) -> Result<StepOutcome<Msg<P>, Group>, Refusal>
    requires rate { 1 ≤ rate }
    requires channels { IfSome stream (λ x. 1 ≤ x.spec.channels) }
    ensures { HandledAs result (attributes stream depth rate asked tag) }
{
    let x = present(stream, ErrorCode::NoEntity)?;
    attributed(alloc, depth, rate, &x, asked, tag)
}
