//! A sink has detached the stream of a moving input: the input is settled on the sink that it moves to.

ghost use Rattle.std.specs.Prelude.{◌≡◌, IfOk, IfErr, OnOk, OnErr, None, Some, slice_get};
ghost use Rattle.px_outcome.specs.declared.input.Standing.TheVariants.{Moving};
ghost use Rattle.px_outcome.specs.Target.{IsTarget};
ghost use Rattle.px_sinks.specs.Sinks.{target_at};
ghost use Rattle.px_subscribe.specs.Moments.{AreShown};
ghost use Rattle.px_core.specs.Consistency.{IsConsistent};
ghost use Rattle.px_core.specs.Notice.{arrival_at, arrival_between, arrived_with};
ghost use Rattle.px_state.specs.State.{input_of};
ghost use Rattle.px_core.specs.Step.{answer_effects, answered};
ghost use Rattle.px_state.specs.Tables.{state_of};

use crate::notice::owner_of;
use px_ctl_play::{Arrival, arrive};
use px_flat::Group;
use px_msg::{Msg, Parcel};
use px_outcome::{Input, Target};
use px_sinks::{group_on, target_at};
use px_state::{Effects, Tables, delayed_count, finish_arrival};
use px_types::{Mem, SinkId};
use std::alloc::Global;

// The outcome of an input's arrival on this sink, but for its parcel.
fn arrival_on<P: Parcel + Drop>(
    alloc: Global,
    tables: &Tables<P>,
    to: SinkId,
    sink: &Target,
    x: &Input,
) -> Mem<Option<Arrival<Msg<P>, Group>>>
    requires consistent { IsConsistent P.spec_of (state_of tables.now) }
    requires here { input_of tables.now.inputs.items x.now.index ≡ Some x.now }
    requires moves { x.now.standing ≡ Moving to }
    requires there { target_at tables.now.sinks to ≡ Some sink.now }
    requires lawful { IsTarget sink.now }
    ensures { IfOk result (λ made. made ≡ arrival_between (state_of tables.now) x.now (Some sink.now) (slice_get tables.now.groups.items x.now.sink.0) (slice_get tables.now.groups.items to.0)) }
{
    let Some(from) = group_on(&tables.groups, x.sink) else {
        return Ok(None);
    };
    let Some(group) = group_on(&tables.groups, to) else {
        return Ok(None);
    };
    let owner = owner_of(&tables.connections, &Some(*x));
    let waited = delayed_count(&tables.delayed, x.index);
    arrive(
        alloc,
        x,
        from,
        group,
        sink,
        owner,
        tables.inputs.as_slice(),
        waited,
    )
}

// The outcome of an input's arrival on the sink with an index, but for its parcel.
fn arrival_at<P: Parcel + Drop>(
    alloc: Global,
    tables: &Tables<P>,
    to: SinkId,
    x: &Input,
) -> Mem<Option<Arrival<Msg<P>, Group>>>
    requires consistent { IsConsistent P.spec_of (state_of tables.now) }
    requires here { input_of tables.now.inputs.items x.now.index ≡ Some x.now }
    requires moves { x.now.standing ≡ Moving to }
    ensures { IfOk result (λ made. made ≡ arrival_at (state_of tables.now) to x.now) }
{
    let Some(sink) = target_at(alloc, tables.sinks.as_slice(), to)? else {
        return Ok(None);
    };
    let made = arrival_on(alloc, tables, to, &sink, x);
    drop(sink);
    made
}

/// Settles an input on the sink that it moves to, with this parcel. Where there is no memory for it the parcel is handed
/// back, and nothing has changed.
pub(crate) fn arrive_with<P: Parcel + Drop>(
    alloc: Global,
    tables: &mut Tables<P>,
    to: SinkId,
    x: &Input,
    parcel: P,
) -> Result<Effects, P>
    requires consistent { IsConsistent P.spec_of (state_of tables.old) }
    requires here { input_of tables.old.inputs.items x.now.index ≡ Some x.now }
    requires moves { x.now.standing ≡ Moving to }
    requires after { AreShown (answered (state_of tables.old) (arrived_with x.now.index parcel (arrival_at (state_of tables.old) to x.now))).inputs }
    ensures effects { IfOk result (λ effects. effects ≡ answer_effects None (state_of tables.old) (arrived_with x.now.index parcel (arrival_at (state_of tables.old) to x.now))) }
    ensures after { OnOk result (state_of tables.new ≡ answered (state_of tables.old) (arrived_with x.now.index parcel (arrival_at (state_of tables.old) to x.now))) }
    ensures back { IfErr result (λ back. back ≡ parcel) }
    ensures err { OnErr result (state_of tables.new ≡ state_of tables.old) }
{
    match arrival_at(alloc, tables, to, x) {
        Ok(Some(made)) => finish_arrival(alloc, tables, x.index, parcel, made),
        Ok(None) => Ok(Effects::new(alloc)),
        Err(_) => Err(parcel),
    }
}
