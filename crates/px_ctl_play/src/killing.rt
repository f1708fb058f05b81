//! The end of a stream by another client's request: KILL_SINK_INPUT (PulseAudio: `command_kill` and `sink_input_kill_cb` of
//! `pulsecore/protocol-native.c`; that waiting requests get an error is own).

ghost use Rattle.std.specs.Prelude.{◌≡◌, IfOk, Ok};
ghost use Rattle.px_outcome.specs.Handled.{HandledAs};
ghost use Rattle.px_ctl_play.specs.Answer.{sent_to};
ghost use Rattle.px_ctl_play.specs.Kill.{errors_to, killed_message, killed, kill_input};

use crate::answer::sent_to;
use crate::deletion::{ended, errors_for};
use px_outcome::{Connection, Input, Refusal, Sending, StepOutcome, Waiting, present};
use px_types::{ErrorCode, Mem, NoMemory};
use std::alloc::Global;
use std::collections::VecDeque;

// The errors for all waiting requests of an input, where its connection `owner` is live.
fn errors_to(
    alloc: Global,
    owner: Option<Connection>,
    x: &Input,
    waiting: &VecDeque<Waiting>,
) -> px_tag::Mem<Vec<Sending>>
    ensures { IfOk result (λ errors. errors.items ≡ errors_to owner x.now waiting.now.items) }
{
    match owner {
        None => Ok(Vec::new(alloc)),
        Some(_) => errors_for(alloc, x, waiting),
    }
}

// PLAYBACK_STREAM_KILLED to the connection `owner` of an input, where it is live.
fn notified(alloc: Global, owner: Option<Connection>, x: &Input) -> Mem<Vec<Sending>>
    ensures { IfOk result (λ sent. sent.items ≡ sent_to owner (killed_message x.now)) }
{
    match px_reply::killed(alloc, x.stream) {
        Ok(packet) => sent_to(alloc, owner, packet),
        Err(_) => Err(NoMemory),
    }
}

// An input ends, and its own client is notified.
fn killed<M: Drop, G: Drop>(
    alloc: Global,
    x: &Input,
    owner: Option<Connection>,
    waiting: &VecDeque<Waiting>,
    tag: u32,
) -> Result<StepOutcome<M, G>, Refusal>
    ensures { HandledAs result (Ok (killed x.now owner waiting.now.items tag)) }
{
    let errors = errors_to(alloc, owner, x, waiting)?;
    let notified = notified(alloc, owner, x)?;
    ended(alloc, x, errors, notified, tag)
}

/// KILL_SINK_INPUT of this input, whose connection is `owner` where that is live: the input ends. After the plain reply the
/// owner gets the error `NoEntity` for each waiting request of the input, in the order of the requests, and then
/// PLAYBACK_STREAM_KILLED. Refused: `NoEntity` where there is no such input, or it has ended.
pub fn kill_input<M: Drop, G: Drop>(
    alloc: Global,
    input: Option<Input>,
    owner: Option<Connection>,
    waiting: &VecDeque<Waiting>,
    tag: u32,
) -> Result<StepOutcome<M, G>, Refusal>
    ensures { HandledAs result (kill_input input owner waiting.now.items tag) }
{
    let x = present(input, ErrorCode::NoEntity)?;
    killed(alloc, &x, owner, waiting, tag)
}
