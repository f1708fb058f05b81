//! MOVE_SINK_INPUT (PulseAudio: `command_move_stream` of `pulsecore/protocol-native.c`).

ghost use Rattle.std.specs.Prelude.{◌≡◌, length, IfSome, Ok};
ghost use Rattle.px_chmap.specs.Plan.{FeedsAll};
ghost use Rattle.px_outcome.specs.Input.{is_moving};
ghost use Rattle.px_outcome.specs.Handled.{HandledAs};
ghost use Rattle.px_ctl_play.specs.Move.{feed_to, has_place, sent, sent_off, moved_to, move_input};

use crate::refusals::count_bound;
use px_chmap::{Feed, Map, plan};
use px_outcome::{Change, Input, Named, Refusal, Standing, StepOutcome, Target, check, present};
use px_types::limits::MAX_INPUTS_ON_SINK;
use px_types::{ErrorCode, SinkId};
use std::alloc::Global;

// Whether an input is moving to another sink.
fn is_moving(standing: Standing) -> bool
    ensures { result ≡ is_moving standing }
{
    matches!(standing, Standing::Moving(_))
}

/// The stream channel that feeds each channel of a sink with this map; `None` where there is no channel plan. Takes no
/// memory.
pub(crate) fn feed_to(x: &Input, map: &Map) -> Option<Feed>
    ensures value { result ≡ feed_to x.now map.now }
    ensures feeds { IfSome result (FeedsAll (length x.now.map) (length map.now)) }
{
    plan(&x.map, map, x.no_remap, x.no_remix)
}

// Whether one more input may be bound for a sink.
fn has_place(inputs: &[Input], sink: SinkId) -> bool
    ensures { result ≡ has_place inputs.now sink }
{
    count_bound(inputs, sink) < MAX_INPUTS_ON_SINK
}

// The outcome of a move that is accepted: the reply, and the move.
fn sent<M: Drop, G: Drop>(
    alloc: Global,
    x: &Input,
    sink: &Target,
    tag: u32,
) -> Result<StepOutcome<M, G>, Refusal>
    ensures { HandledAs result (Ok (sent x.now sink.now tag)) }
{
    let reply = px_reply::plain(alloc, tag)?;
    let mut changes = Vec::new(alloc);
    changes.push(Change::Moves(x.index, sink.index))?;
    Ok(StepOutcome::replied(alloc, reply, changes))
}

// The checks of a move to a sink that the input isn't on.
fn sent_off<M: Drop, G: Drop>(
    alloc: Global,
    x: &Input,
    sink: &Target,
    inputs: &[Input],
    tag: u32,
) -> Result<StepOutcome<M, G>, Refusal>
    ensures { HandledAs result (sent_off x.now sink.now inputs.now tag) }
{
    check(!x.no_move, ErrorCode::Invalid)?;
    check(x.spec.rate == sink.spec.rate, ErrorCode::NotSupported)?;
    present(feed_to(x, &sink.map), ErrorCode::NotSupported)?;
    check(has_place(inputs, sink.index), ErrorCode::TooLarge)?;
    sent(alloc, x, sink, tag)
}

// On the sink that it is on already, nothing changes.
fn moved_to<M: Drop, G: Drop>(
    alloc: Global,
    x: &Input,
    sink: &Target,
    inputs: &[Input],
    tag: u32,
) -> Result<StepOutcome<M, G>, Refusal>
    ensures { HandledAs result (moved_to x.now sink.now inputs.now tag) }
{
    if x.sink.0 == sink.index.0 {
        let reply = px_reply::plain(alloc, tag)?;
        Ok(StepOutcome::replied(alloc, reply, Vec::new(alloc)))
    } else {
        sent_off(alloc, x, sink, inputs, tag)
    }
}

/// MOVE_SINK_INPUT of an input to a sink, where `inputs` are all inputs: it is to be on the sink, once the one that it is on
/// has detached its stream; where it is on that sink already, nothing changes. Refused, by the first of these that holds: `Invalid`
/// where a sink is named by both index and name, or by neither; `NoEntity` where no such input or no such sink exists;
/// `Busy` where the input is already moving; and, unless it is on that sink, `Invalid` where its client said that it may not move;
/// `NotSupported` where the sink has another rate, and where no channel plan feeds its channels from the stream's;
/// `TooLarge` where 256 inputs are bound for it.
pub fn move_input<M: Drop, G: Drop>(
    alloc: Global,
    input: Option<Input>,
    named: Named,
    inputs: &[Input],
    tag: u32,
) -> Result<StepOutcome<M, G>, Refusal>
    ensures { HandledAs result (move_input input named inputs.now tag) }
{
    check(named.is_clear(), ErrorCode::Invalid)?;
    let x = present(input, ErrorCode::NoEntity)?;
    let sink = present(named.target(), ErrorCode::NoEntity)?;
    check(!is_moving(x.standing), ErrorCode::Busy)?;
    moved_to(alloc, &x, &sink, inputs, tag)
}
