//! The outcome of a sink's notice (PulseAudio: `sink_input_process_msg` of `pulsecore/protocol-native.c`; which notices fit
//! is own).

ghost use Rattle.std.specs.Prelude.{◌≡◌, [], None, Some, slice_get, IfOk, IfErr, OnOk, OnErr};
ghost use Rattle.px_header.specs.HeaderRules.{AreSinks};
ghost use Rattle.px_subscribe.specs.Moments.{AreShown};
ghost use Rattle.px_ctl_play.specs.Notified.{IsMemberIn};
ghost use Rattle.px_core.specs.Consistency.{IsConsistent, IsRising};
ghost use Rattle.px_core.specs.Notice.{IsNews, owner_of, notified_of, drained_of, measured_of, input_on, left_of, given_up, notice_answer};
ghost use Rattle.px_state.specs.State.{input_of};
ghost use Rattle.px_core.specs.Step.{answer_effects, answered};
ghost use Rattle.px_state.specs.Tables.{state_of};

use crate::arriving::arrive_with;
use crate::found::{going_on, input_on};
use px_ctl_play::{News, Progress, drained, hands_over, left, measured, notify};
use px_flat::Group;
use px_msg::{Msg, Notice, Parcel};
use px_outcome::{Connection, Input, Standing, StepOutcome};
use px_sinks::{group_on, rate_on};
use px_state::{Effects, Tables, finish};
use px_types::{InputId, Mem, SinkId};
use std::alloc::Global;

/// The connection of an input, where both exist and it is live. Takes no memory.
pub(crate) fn owner_of(connections: &[Connection], input: &Option<Input>) -> Option<Connection>
    ensures { result ≡ owner_of connections.now input.now }
{
    match input {
        None => None,
        Some(x) => going_on(connections, x.conn),
    }
}

// The outcome of a notice about an input on the sink.
fn notified_of<P: Drop>(
    alloc: Global,
    tables: &Tables<P>,
    input: Option<Input>,
    news: News,
) -> Mem<StepOutcome<Msg<P>, Group>>
    ensures { IfOk result (λ outcome. outcome ≡ notified_of (state_of tables.now) input news) }
{
    let owner = owner_of(&tables.connections, &input);
    notify(alloc, input, owner, news)
}

// An input on the sink has drained: the DRAIN under the tag is answered.
fn drained_of<P: Drop>(
    alloc: Global,
    tables: &Tables<P>,
    input: Option<Input>,
    tag: u32,
) -> Mem<StepOutcome<Msg<P>, Group>>
    ensures { IfOk result (λ outcome. outcome ≡ drained_of (state_of tables.now) input tag) }
{
    let owner = owner_of(&tables.connections, &input);
    drained(alloc, input, owner, &tables.waiting, tag)
}

// The sink reports the indices of an input on it: the latency request under the tag is answered.
fn measured_of<P: Drop>(
    alloc: Global,
    tables: &Tables<P>,
    input: Option<Input>,
    sink: SinkId,
    tag: u32,
    progress: Progress,
) -> Mem<StepOutcome<Msg<P>, Group>>
    requires { AreSinks [] tables.now.sinks }
    ensures { IfOk result (λ outcome. outcome ≡ measured_of (state_of tables.now) input sink tag progress) }
{
    let owner = owner_of(&tables.connections, &input);
    let rate = rate_on(tables.sinks.as_slice(), sink);
    measured(alloc, input, owner, &tables.waiting, rate, tag, progress)
}

// The outcome of a notice about a stream. One that doesn't fit is ignored: of an input that isn't on the sink, of one that
// has ended, and an answer to a request that doesn't wait.
fn notice_answer<P: Parcel + Drop>(
    alloc: Global,
    tables: &Tables<P>,
    sink: SinkId,
    notice: &Notice<P>,
) -> Mem<StepOutcome<Msg<P>, Group>>
    requires sinks { AreSinks [] tables.now.sinks }
    requires rising { IsRising tables.now.inputs.items }
    requires news { IsNews notice.now }
    ensures { IfOk result (λ outcome. outcome ≡ notice_answer P.spec_of (state_of tables.now) sink notice.now) }
{
    let inputs = tables.inputs.as_slice();
    match notice {
        Notice::Request { input, frames } => {
            let input = input_on(inputs, sink, *input);
            notified_of(alloc, tables, input, News::Request(*frames))
        }
        Notice::Overflow { input } => {
            let input = input_on(inputs, sink, *input);
            notified_of(alloc, tables, input, News::Overflow)
        }
        Notice::Underflow { input } => {
            let input = input_on(inputs, sink, *input);
            notified_of(alloc, tables, input, News::Underflow)
        }
        Notice::Started { input } => {
            let input = input_on(inputs, sink, *input);
            notified_of(alloc, tables, input, News::Started)
        }
        Notice::Drained { input, tag } => {
            let input = input_on(inputs, sink, *input);
            drained_of(alloc, tables, input, *tag)
        }
        Notice::Latency {
            input,
            tag,
            write,
            read,
            buffered,
            playing,
            run,
        } => {
            let progress = Progress {
                write: *write,
                read: *read,
                buffered: *buffered,
                playing: *playing,
                run: *run,
            };
            let input = input_on(inputs, sink, *input);
            measured_of(alloc, tables, input, sink, *tag, progress)
        }
        Notice::Detached { .. } => unreachable!(),
    }
}

// Takes in a notice about a stream. Where there is no memory for it, it is handed back, and nothing has changed.
fn take_news<P: Parcel + Drop>(
    alloc: Global,
    tables: &mut Tables<P>,
    sink: SinkId,
    notice: Notice<P>,
) -> Result<Effects, Notice<P>>
    requires sinks { AreSinks [] tables.old.sinks }
    requires rising { IsRising tables.old.inputs.items }
    requires news { IsNews notice }
    requires before { AreShown tables.old.inputs.items }
    requires after { AreShown (answered (state_of tables.old) (notice_answer P.spec_of (state_of tables.old) sink notice)).inputs }
    ensures effects { IfOk result (λ effects. effects ≡ answer_effects None (state_of tables.old) (notice_answer P.spec_of (state_of tables.old) sink notice)) }
    ensures after { OnOk result (state_of tables.new ≡ answered (state_of tables.old) (notice_answer P.spec_of (state_of tables.old) sink notice)) }
    ensures back { IfErr result (λ back. back ≡ notice) }
    ensures err { OnErr result (state_of tables.new ≡ state_of tables.old) }
{
    let Ok(outcome) = notice_answer(alloc, tables, sink, &notice) else {
        return Err(notice);
    };
    match finish(alloc, tables, None, outcome) {
        Ok(effects) => Ok(effects),
        Err(_) => Err(notice),
    }
}

// A sink has detached the stream of an input that has ended, or of one that wasn't to be detached.
fn take_left<P: Parcel + Drop>(
    alloc: Global,
    tables: &mut Tables<P>,
    sink: SinkId,
    x: Input,
    parcel: P,
) -> Result<Effects, P>
    requires sinks { AreSinks [] tables.old.sinks }
    requires member { IsMemberIn (slice_get tables.old.groups.items sink.0) x }
    requires before { AreShown tables.old.inputs.items }
    requires after { AreShown (answered (state_of tables.old) (left_of P.spec_of (state_of tables.old) sink (Some x) parcel)).inputs }
    ensures effects { IfOk result (λ effects. effects ≡ answer_effects None (state_of tables.old) (left_of P.spec_of (state_of tables.old) sink (Some x) parcel)) }
    ensures after { OnOk result (state_of tables.new ≡ answered (state_of tables.old) (left_of P.spec_of (state_of tables.old) sink (Some x) parcel)) }
    ensures back { IfErr result (λ back. back ≡ parcel) }
    ensures err { OnErr result (state_of tables.new ≡ state_of tables.old) }
{
    let group = group_on(&tables.groups, sink);
    let handled = left(
        alloc,
        Some(x),
        group,
        parcel.spec(),
        tables.inputs.as_slice(),
    );
    let Ok(outcome) = handled else {
        return Err(parcel);
    };
    match finish(alloc, tables, None, outcome) {
        Ok(effects) => Ok(effects),
        Err(_) => Err(parcel),
    }
}

// A sink has detached the stream of an input that is on it: one that moves is settled on the sink that it moves to, and one
// that has ended is removed. A notice that doesn't fit is ignored: of an input that the sink got no message to detach, and a
// stream with another spec.
fn leave_with<P: Parcel + Drop>(
    alloc: Global,
    tables: &mut Tables<P>,
    sink: SinkId,
    x: Input,
    parcel: P,
) -> Result<Effects, P>
    requires consistent { IsConsistent P.spec_of (state_of tables.old) }
    requires here { input_of tables.old.inputs.items x.index ≡ Some x }
    requires member { IsMemberIn (slice_get tables.old.groups.items sink.0) x }
    requires after { AreShown (answered (state_of tables.old) (given_up P.spec_of (state_of tables.old) sink (Some x) parcel)).inputs }
    ensures effects { IfOk result (λ effects. effects ≡ answer_effects None (state_of tables.old) (given_up P.spec_of (state_of tables.old) sink (Some x) parcel)) }
    ensures after { OnOk result (state_of tables.new ≡ answered (state_of tables.old) (given_up P.spec_of (state_of tables.old) sink (Some x) parcel)) }
    ensures back { IfErr result (λ back. back ≡ parcel) }
    ensures err { OnErr result (state_of tables.new ≡ state_of tables.old) }
{
    match x.standing {
        Standing::Moving(to) => {
            if hands_over(parcel.spec(), &x) {
                arrive_with(alloc, tables, to, &x, parcel)
            } else {
                take_left(alloc, tables, sink, x, parcel)
            }
        }
        Standing::Settled | Standing::Leaving => take_left(alloc, tables, sink, x, parcel),
    }
}

// The same for an input that may not be on the sink, in which case the notice is ignored.
#[tactic(auto, using(crate::proofs::EntryLaws::found_by_index))]
fn detach<P: Parcel + Drop>(
    alloc: Global,
    tables: &mut Tables<P>,
    sink: SinkId,
    input: InputId,
    parcel: P,
) -> Result<Effects, P>
    requires consistent { IsConsistent P.spec_of (state_of tables.old) }
    requires after { AreShown (answered (state_of tables.old) (given_up P.spec_of (state_of tables.old) sink (input_on tables.old.inputs.items sink input) parcel)).inputs }
    ensures effects { IfOk result (λ effects. effects ≡ answer_effects None (state_of tables.old) (given_up P.spec_of (state_of tables.old) sink (input_on tables.old.inputs.items sink input) parcel)) }
    ensures after { OnOk result (state_of tables.new ≡ answered (state_of tables.old) (given_up P.spec_of (state_of tables.old) sink (input_on tables.old.inputs.items sink input) parcel)) }
    ensures back { IfErr result (λ back. back ≡ parcel) }
    ensures err { OnErr result (state_of tables.new ≡ state_of tables.old) }
{
    match input_on(tables.inputs.as_slice(), sink, input) {
        None => Ok(Effects::new(alloc)),
        Some(x) => leave_with(alloc, tables, sink, x, parcel),
    }
}

/// Takes in a sink's notice. Where there is no memory for it, it is handed back, and nothing has changed.
pub(crate) fn take<P: Parcel + Drop>(
    alloc: Global,
    tables: &mut Tables<P>,
    sink: SinkId,
    notice: Notice<P>,
) -> Result<Effects, Notice<P>>
    requires { IsConsistent P.spec_of (state_of tables.old) }
    ensures effects { IfOk result (λ effects. effects ≡ answer_effects None (state_of tables.old) (notice_answer P.spec_of (state_of tables.old) sink notice)) }
    ensures after { OnOk result (state_of tables.new ≡ answered (state_of tables.old) (notice_answer P.spec_of (state_of tables.old) sink notice)) }
    ensures back { IfErr result (λ back. back ≡ notice) }
    ensures err { OnErr result (state_of tables.new ≡ state_of tables.old) }
{
    match notice {
        Notice::Detached { input, parcel } => {
            match detach(alloc, tables, sink, input, parcel) {
                Ok(effects) => Ok(effects),
                Err(parcel) => Err(Notice::Detached { input, parcel }),
            }
        }
        Notice::Request { .. }
        | Notice::Overflow { .. }
        | Notice::Underflow { .. }
        | Notice::Started { .. }
        | Notice::Drained { .. }
        | Notice::Latency { .. } => take_news(alloc, tables, sink, notice),
    }
}
