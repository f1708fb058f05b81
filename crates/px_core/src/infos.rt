//! The commands that ask for infos of sinks, inputs and the server, each on the parts of the state that it reads.

ghost use Rattle.std.specs.Prelude.{◌≡◌, ◌≤◌, [], false, All, IfSome};
ghost use Rattle.std.specs.List.{AllByRecursion};
ghost use Rattle.px_outcome.specs.declared.input.Input.{Input};
ghost use Rattle.px_outcome.specs.Handled.{HandledAs};
ghost use Rattle.px_header.specs.HeaderRules.{AreSinks};
ghost use Rattle.px_ctl_info.specs.Infos.{sink_info, sink_infos, input_info, input_infos};
ghost use Rattle.px_ctl_info.specs.Sinks.{server_info};
ghost use Rattle.px_sinks.specs.Sinks.{named_by, targets_of};
ghost use Rattle.px_core.specs.Command.{default_sink};
ghost use Rattle.px_core.specs.Consistency.{IsInput};
ghost use Rattle.px_state.specs.State.{input_named};
ghost use Rattle.px_state.specs.Tables.{state_of};

use px_cmd::SinkRef;
use px_ctl_info::{input_info, input_infos, server_info, sink_info, sink_infos};
use px_flat::Group;
use px_msg::Msg;
use px_outcome::{Input, Refusal, StepOutcome};
use px_sinks::{default_sink, named_by, targets_of};
use px_state::Tables;
use std::alloc::Global;

/// The named sink, as a connection of this version is told.
pub(crate) fn handle_sink_info<P: Drop>(
    alloc: Global,
    tables: &Tables<P>,
    sink: &SinkRef,
    version: u16,
    tag: u32,
) -> Result<StepOutcome<Msg<P>, Group>, Refusal>
    requires { AreSinks [] tables.now.sinks }
    ensures { HandledAs result (sink_info (named_by tables.now.names tables.now.sinks sink.now false) tables.now.groups.items version tag) }
{
    let named = named_by(alloc, &tables.names, tables.sinks.as_slice(), sink, false)?;
    sink_info(alloc, named, &tables.groups, version, tag)
}

/// All sinks, as a connection of this version is told.
pub(crate) fn handle_sink_infos<P: Drop>(
    alloc: Global,
    tables: &Tables<P>,
    version: u16,
    tag: u32,
) -> Result<StepOutcome<Msg<P>, Group>, Refusal>
    requires { AreSinks [] tables.now.sinks }
    ensures { HandledAs result (sink_infos (targets_of tables.now.sinks) tables.now.groups.items version tag) }
{
    let sinks = targets_of(alloc, tables.sinks.as_slice())?;
    sink_infos(alloc, &sinks, &tables.groups, version, tag)
}

// The input with an index, where it is live.
#[tactic(auto, using(crate::proofs::StreamLaws::few_channels))]
fn input_there<P>(tables: &Tables<P>, index: u32) -> Option<Input>
    requires { AllByRecursion (IsInput tables.now.sinks tables.now.inputs_made) tables.now.inputs.items }
    ensures value { result ≡ input_named tables.now.inputs.items index }
    ensures channels { IfSome result (λ x. x.spec.channels ≤ 32) }
{
    tables.inputs.input_named(index)
}

/// The input with an index, where it is live.
pub(crate) fn handle_input_info<P: Drop>(
    alloc: Global,
    tables: &Tables<P>,
    index: u32,
    tag: u32,
) -> Result<StepOutcome<Msg<P>, Group>, Refusal>
    requires { AllByRecursion (IsInput tables.now.sinks tables.now.inputs_made) tables.now.inputs.items }
    ensures { HandledAs result (input_info (input_named tables.now.inputs.items index) tables.now.groups.items tables.now.lists.items tag) }
{
    let x = input_there(tables, index);
    input_info(alloc, x, &tables.groups, &tables.lists, tag)
}

// All inputs.
#[tactic(auto, using(crate::proofs::StreamLaws::each_few_channels))]
fn all_inputs<P>(tables: &Tables<P>) -> &[Input]
    requires { AllByRecursion (IsInput tables.now.sinks tables.now.inputs_made) tables.now.inputs.items }
    ensures value { result.now ≡ tables.now.inputs.items }
    ensures channels { All (λ x. (Input.spec x).channels ≤ 32) result.now }
{
    tables.inputs.as_slice()
}

/// All live inputs.
pub(crate) fn handle_input_infos<P: Drop>(
    alloc: Global,
    tables: &Tables<P>,
    tag: u32,
) -> Result<StepOutcome<Msg<P>, Group>, Refusal>
    requires { AllByRecursion (IsInput tables.now.sinks tables.now.inputs_made) tables.now.inputs.items }
    ensures { HandledAs result (input_infos tables.now.inputs.items tables.now.groups.items tables.now.lists.items tag) }
{
    input_infos(
        alloc,
        all_inputs(tables),
        &tables.groups,
        &tables.lists,
        tag,
    )
}

/// The server's info, as a connection of this version is told.
pub(crate) fn server<P: Drop>(
    alloc: Global,
    tables: &Tables<P>,
    version: u16,
    tag: u32,
) -> Result<StepOutcome<Msg<P>, Group>, Refusal>
    requires { AreSinks [] tables.now.sinks }
    ensures { HandledAs result (server_info tables.now.names.source (default_sink (state_of tables.now)) version tag) }
{
    let named = default_sink(alloc, &tables.names, tables.sinks.as_slice())?;
    server_info(alloc, tables.names.source(), named, version, tag)
}
