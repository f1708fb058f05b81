//! The handlers of the commands on sinks and on inputs of any client.

ghost use Rattle.std.specs.Prelude.{[], false};
ghost use Rattle.std.specs.List.{AllByRecursion};
ghost use Rattle.px_outcome.specs.declared.input.Connection.{Connection};
ghost use Rattle.px_outcome.specs.Handled.{HandledAs};
ghost use Rattle.px_header.specs.HeaderRules.{AreSinks};
ghost use Rattle.px_ctl_play.specs.Move.{move_input};
ghost use Rattle.px_sinks.specs.Sinks.{named_by};
ghost use Rattle.px_state.specs.State.{input_named};
ghost use Rattle.px_state.specs.Tables.{state_of};
ghost use Rattle.px_core.specs.Command.{IsOnInputs, IsOnSinks, killed_input, handle};
ghost use Rattle.px_core.specs.Consistency.{IsInput};

use crate::command::spoken_by;
use crate::infos::{handle_input_info, handle_input_infos, handle_sink_info, handle_sink_infos};
use crate::notice::owner_of;
use crate::volumes::{input_mute, input_volume, sink_mute, sink_volume};
use px_cmd::{Command, SinkRef};
use px_ctl_play::{kill_input, move_input};
use px_flat::Group;
use px_msg::Msg;
use px_outcome::{Connection, Input, Refusal, StepOutcome};
use px_sinks::named_by;
use px_state::Tables;
use std::alloc::Global;

// MOVE_SINK_INPUT of an input to the named sink.
fn moved<P: Drop>(
    alloc: Global,
    tables: &Tables<P>,
    input: u32,
    sink: &SinkRef,
    tag: u32,
) -> Result<StepOutcome<Msg<P>, Group>, Refusal>
    requires { AreSinks [] tables.now.sinks }
    ensures { HandledAs result (move_input (input_named tables.now.inputs.items input) (named_by tables.now.names tables.now.sinks sink.now false) tables.now.inputs.items tag) }
{
    let named = named_by(alloc, &tables.names, tables.sinks.as_slice(), sink, false)?;
    let x = tables.inputs.input_named(input);
    move_input(alloc, x, named, tables.inputs.as_slice(), tag)
}

// Ends an input, and notifies its connection where that is live.
fn killed_input<P: Drop>(
    alloc: Global,
    tables: &Tables<P>,
    input: Option<Input>,
    tag: u32,
) -> Result<StepOutcome<Msg<P>, Group>, Refusal>
    ensures { HandledAs result (killed_input (state_of tables.now) input tag) }
{
    let owner = owner_of(&tables.connections, &input);
    kill_input(alloc, input, owner, &tables.waiting, tag)
}

/// The handler of a command on sinks.
pub(crate) fn handle_on_sinks<P: Drop>(
    alloc: Global,
    tables: &Tables<P>,
    me: &Connection,
    tag: u32,
    command: &Command,
) -> Result<StepOutcome<Msg<P>, Group>, Refusal>
    requires sinks { AreSinks [] tables.now.sinks }
    requires family { IsOnSinks command.now }
    ensures { HandledAs result (handle (state_of tables.now) me.now tag command.now) }
{
    match command {
        Command::SinkInfo { sink } => handle_sink_info(alloc, tables, sink, spoken_by(me), tag),
        Command::SinkInfoList => handle_sink_infos(alloc, tables, spoken_by(me), tag),
        Command::SinkVolume { sink, volume } => sink_volume(alloc, tables, sink, volume, tag),
        Command::SinkMute { sink, on } => sink_mute(alloc, tables, sink, *on, tag),
        _ => unreachable!(),
    }
}

/// The handler of a command on inputs of any client.
pub(crate) fn handle_on_inputs<P: Drop>(
    alloc: Global,
    tables: &Tables<P>,
    tag: u32,
    command: &Command,
) -> Result<StepOutcome<Msg<P>, Group>, Refusal>
    requires sinks { AreSinks [] tables.now.sinks }
    requires inputs { AllByRecursion (IsInput tables.now.sinks tables.now.inputs_made) tables.now.inputs.items }
    requires family { IsOnInputs command.now }
    ensures { (me : Connection) → HandledAs result (handle (state_of tables.now) me tag command.now) }
{
    match command {
        Command::InputInfo { input } => handle_input_info(alloc, tables, *input, tag),
        Command::InputInfoList => handle_input_infos(alloc, tables, tag),
        Command::KillInput { input } => {
            killed_input(alloc, tables, tables.inputs.input_named(*input), tag)
        }
        Command::InputVolume { input, volume } => input_volume(alloc, tables, *input, volume, tag),
        Command::InputMute { input, on } => input_mute(alloc, tables, *input, *on, tag),
        Command::Move { input, sink } => moved(alloc, tables, *input, sink, tag),
        _ => unreachable!(),
    }
}
