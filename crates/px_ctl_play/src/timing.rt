//! A stream's indices and latency: GET_PLAYBACK_LATENCY, and the sink's notice (PulseAudio: `command_get_playback_latency`
//! of `pulsecore/protocol-native.c`; that the reply gives the client's own time twice, and which notices fit, is own).

ghost use Rattle.std.specs.Prelude.{◌≡◌, ◌≤◌, IfOk};
ghost use Rattle.std.specs.Option.{option_map};
ghost use Rattle.px_outcome.specs.Handled.{HandledAs};
ghost use Rattle.px_outcome.specs.Waiting.{is_question_under, question_under};
ghost use Rattle.px_ctl_play.specs.Latency.{latency, index_in_bytes, count_in_bytes, silent_for, playing_for, time_given, fields_of, latency_answered, measured};

use crate::answer::{answered, asked};
use crate::data::frame_size;
use crate::refusals::goes_on;
use crate::time::microseconds;
use px_flat::Group;
use px_msg::{Msg, Run};
use px_outcome::{Awaited, Connection, Input, Refusal, StepOutcome, Waiting, present};
use px_reply::LatencyFields;
use px_sample::Spec;
use px_tag::TimeVal;
use px_types::{ErrorCode, InputId, Mem, NoMemory};
use std::alloc::Global;
use std::collections::VecDeque;

/// A stream's indices and run, in frames, as its sink reports them.
#[derive(Clone, Copy, Debug, PartialEq, Eq)]
pub struct Progress {
    /// The next frame to write.
    pub write: i64,
    /// The read index after all rendered frames.
    pub read: i64,
    /// The number of frames in the sink's buffer.
    pub buffered: u32,
    /// Whether it plays at `read`.
    pub playing: bool,
    /// Its run at `read`.
    pub run: Run,
}

/// GET_PLAYBACK_LATENCY: `NoEntity` where the connection has no stream of this number, else its sink is asked for the
/// stream's indices. The client gets its reply, with the time that it gave, once the sink's notice has come.
pub fn latency<P: Drop>(
    alloc: Global,
    stream: Option<Input>,
    time: TimeVal,
    tag: u32,
) -> Result<StepOutcome<Msg<P>, Group>, Refusal>
    ensures { HandledAs result (latency stream time tag) }
{
    let x = present(stream, ErrorCode::NoEntity)?;
    let message = Msg::Query {
        input: x.index,
        tag,
    };
    asked(alloc, &x, message, Awaited::Latency(time), tag)
}

// An index in bytes, saturated to 64 bits.
fn index_in_bytes(spec: Spec, index: i64) -> i64
    ensures { result ≡ index_in_bytes spec index }
{
    index.saturating_mul(frame_size(spec) as i64)
}

// `frames` in bytes, saturated to 64 bits.
fn count_in_bytes(spec: Spec, frames: u64) -> u64
    ensures { result ≡ count_in_bytes spec frames }
{
    frames.saturating_mul(frame_size(spec) as u64)
}

// The number of frames that it has been silent for.
fn silent_for(run: Run) -> u64
    ensures { result ≡ silent_for run }
{
    match run {
        Run::Quiet(frames) => frames,
        Run::Playing(_) => 0,
    }
}

// The number of frames that it has played for.
fn playing_for(run: Run) -> u64
    ensures { result ≡ playing_for run }
{
    match run {
        Run::Quiet(_) => 0,
        Run::Playing(frames) => frames,
    }
}

// The time that the client gave.
fn time_given(awaited: Awaited) -> TimeVal
    ensures { result ≡ time_given awaited }
{
    match awaited {
        Awaited::Drained => TimeVal {
            seconds: 0,
            micros: 0,
        },
        Awaited::Latency(time) => time,
    }
}

// The fields of the reply to the client that gave this time.
fn fields_of(rate: u32, x: &Input, progress: Progress, time: TimeVal) -> LatencyFields
    requires { 1 ≤ rate }
    ensures { result ≡ fields_of rate x.now progress time }
{
    LatencyFields {
        usec: microseconds(rate, progress.buffered),
        playing: progress.playing,
        time,
        write: index_in_bytes(x.spec, progress.write),
        read: index_in_bytes(x.spec, progress.read),
        underrun: count_in_bytes(x.spec, silent_for(progress.run)),
        played: count_in_bytes(x.spec, playing_for(progress.run)),
    }
}

// Whether `request` is a latency request of an input under a tag.
fn is_question_under(input: InputId, tag: u32, request: &Waiting) -> bool
    ensures { result ≡ is_question_under input tag request.now }
{
    request.input.0 == input.0 && request.tag == tag && !matches!(request.awaited, Awaited::Drained)
}

// The first waiting latency request of an input under a tag.
fn question_under(waiting: &VecDeque<Waiting>, input: InputId, tag: u32) -> Option<&Waiting>
    ensures { option_map (λ request. request.now) result ≡ question_under waiting.now.items input tag }
{
    waiting
        .iter()
        .find(|request| is_question_under(input, tag, request))
}

// Replies to the request, where it waits.
fn latency_answered<P: Drop>(
    alloc: Global,
    rate: u32,
    x: &Input,
    owner: Option<Connection>,
    request: Option<&Waiting>,
    progress: Progress,
) -> Mem<StepOutcome<Msg<P>, Group>>
    requires { 1 ≤ rate }
    ensures { IfOk result (λ outcome. outcome ≡ latency_answered rate x.now owner (option_map (λ request. request.now) request.entry) progress) }
{
    let Some(request) = request else {
        return Ok(StepOutcome::idle(alloc));
    };
    let fields = fields_of(rate, x, progress, time_given(request.awaited));
    match px_reply::latency(alloc, request.tag, &fields) {
        Ok(reply) => answered(alloc, owner, *request, reply),
        Err(_) => Err(NoMemory),
    }
}

/// A sink of a rate, in frames a second, reports the indices of an input of its own: the first latency request under the tag
/// that waits on the input is answered to the input's connection, where that is live. Ignored where the input has ended, and
/// where no such request waits. A value that a field of the reply can't hold is saturated.
pub fn measured<P: Drop>(
    alloc: Global,
    input: Option<Input>,
    owner: Option<Connection>,
    waiting: &VecDeque<Waiting>,
    rate: u32,
    tag: u32,
    progress: Progress,
) -> Mem<StepOutcome<Msg<P>, Group>>
    requires { 1 ≤ rate }
    ensures { IfOk result (λ outcome. outcome ≡ measured input owner waiting.now.items rate tag progress) }
{
    match input {
        Some(x) if goes_on(&x) => {
            let request = question_under(waiting, x.index, tag);
            latency_answered(alloc, rate, &x, owner, request, progress)
        }
        _ => Ok(StepOutcome::idle(alloc)),
    }
}
