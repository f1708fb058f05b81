//! The commands on volumes and mutes, each on the parts of the state that it reads.

ghost use Rattle.std.specs.Prelude.{[], false};
ghost use Rattle.px_outcome.specs.Handled.{HandledAs};
ghost use Rattle.px_header.specs.HeaderRules.{AreSinks};
ghost use Rattle.px_core.specs.Command.{sink_volume, sink_mute, input_volume, input_mute};
ghost use Rattle.px_state.specs.State.{input_named};
ghost use Rattle.px_state.specs.Tables.{state_of};
ghost use Rattle.px_sinks.specs.Sinks.{named_by};

use px_cmd::SinkRef;
use px_ctl_vol::{set_input_mute, set_input_volume, set_sink_mute, set_sink_volume};
use px_flat::Group;
use px_msg::Msg;
use px_outcome::{Refusal, StepOutcome};
use px_sinks::{group_named, group_under, named_by};
use px_state::Tables;
use px_tag::RawVolume;
use std::alloc::Global;

/// The volume of the named sink.
pub(crate) fn sink_volume<P: Drop>(
    alloc: Global,
    tables: &Tables<P>,
    sink: &SinkRef,
    volume: &RawVolume,
    tag: u32,
) -> Result<StepOutcome<Msg<P>, Group>, Refusal>
    requires { AreSinks [] tables.now.sinks }
    ensures { HandledAs result (sink_volume (state_of tables.now) (named_by tables.now.names tables.now.sinks sink.now false) volume.now tag) }
{
    let named = named_by(alloc, &tables.names, tables.sinks.as_slice(), sink, false)?;
    let group = group_named(&tables.groups, &named);
    set_sink_volume(alloc, named, group, tables.inputs.as_slice(), volume, tag)
}

/// The sink's mute.
pub(crate) fn sink_mute<P: Drop>(
    alloc: Global,
    tables: &Tables<P>,
    sink: &SinkRef,
    on: bool,
    tag: u32,
) -> Result<StepOutcome<Msg<P>, Group>, Refusal>
    requires { AreSinks [] tables.now.sinks }
    ensures { HandledAs result (sink_mute (state_of tables.now) (named_by tables.now.names tables.now.sinks sink.now false) on tag) }
{
    let named = named_by(alloc, &tables.names, tables.sinks.as_slice(), sink, false)?;
    let group = group_named(&tables.groups, &named);
    set_sink_mute(alloc, named, group, tables.inputs.as_slice(), on, tag)
}

/// The volume of an input.
pub(crate) fn input_volume<P: Drop>(
    alloc: Global,
    tables: &Tables<P>,
    input: u32,
    volume: &RawVolume,
    tag: u32,
) -> Result<StepOutcome<Msg<P>, Group>, Refusal>
    ensures { HandledAs result (input_volume (state_of tables.now) (input_named tables.now.inputs.items input) volume.now tag) }
{
    let x = tables.inputs.input_named(input);
    let group = group_under(&tables.groups, &x);
    set_input_volume(alloc, x, group, tables.inputs.as_slice(), volume, tag)
}

/// The input's mute.
pub(crate) fn input_mute<P: Drop>(
    alloc: Global,
    tables: &Tables<P>,
    input: u32,
    on: bool,
    tag: u32,
) -> Result<StepOutcome<Msg<P>, Group>, Refusal>
    ensures { HandledAs result (input_mute (state_of tables.now) (input_named tables.now.inputs.items input) on tag) }
{
    let x = tables.inputs.input_named(input);
    let group = group_under(&tables.groups, &x);
    set_input_mute(alloc, x, group, tables.inputs.as_slice(), on, tag)
}
