//! The outcome of a control packet, and the order in which it is refused (PulseAudio: `pa_pdispatch_run` and the handlers of
//! `pulsecore/protocol-native.c`; the order is own).

ghost use Rattle.std.specs.Prelude.{◌≡◌, [], IfOk};
ghost use Rattle.std.specs.List.{AllByRecursion};
ghost use Rattle.px_cmd.specs.Meant.{meant};
ghost use Rattle.px_header.specs.HeaderRules.{AreSinks};
ghost use Rattle.px_state.specs.Tables.{state_of};
ghost use Rattle.px_core.specs.Command.{spoken_by, is_barred, read_answer, command_answer, packet_answer};
ghost use Rattle.px_core.specs.Grouped.{AreGrouped};
ghost use Rattle.px_core.specs.Consistency.{IsInput};

use crate::handlers::handle;
use px_cmd::number::AUTH;
use px_cmd::{CmdFault, read_command, read_head};
use px_flat::Group;
use px_msg::Msg;
use px_outcome::{Connection, StepOutcome};
use px_state::{Tables, broken_off, refused, requested};
use px_types::limits::LEAST_PROTOCOL_VERSION;
use px_types::{ErrorCode, Mem, NoMemory};
use std::alloc::Global;

/// The version by which a connection's commands are read and answered; before AUTH, whose fields are the same at each version, the least. Takes
/// no memory.
pub(crate) fn spoken_by(c: &Connection) -> u16
    ensures { result ≡ spoken_by c.now }
{
    c.version.unwrap_or(LEAST_PROTOCOL_VERSION)
}

// Whether the connection hasn't authenticated yet, and the command isn't AUTH.
fn is_barred(c: &Connection, command: u32) -> bool
    ensures { result ≡ is_barred c.now command }
{
    c.version.is_none() && command != AUTH
}

// The outcome of a packet that no rule before its fields refuses.
fn read_answer<P: Drop>(
    alloc: Global,
    tables: &Tables<P>,
    c: &Connection,
    at: u64,
    tag: u32,
    packet: &[u8],
) -> Mem<StepOutcome<Msg<P>, Group>>
    requires sinks { AreSinks [] tables.now.sinks }
    requires inputs { AllByRecursion (IsInput tables.now.sinks tables.now.inputs_made) tables.now.inputs.items }
    requires groups { AreGrouped [] tables.now.sinks tables.now.inputs.items tables.now.groups.items }
    ensures { IfOk result (λ outcome. outcome ≡ read_answer (state_of tables.now) c.now at tag (meant (spoken_by c.now) packet.now)) }
{
    match read_command(alloc, packet, spoken_by(c)) {
        Ok(command) => requested(alloc, tag, handle(alloc, tables, c, tag, command)),
        Err(CmdFault::Protocol(fault)) => broken_off(alloc, c.conn, at, fault),
        Err(CmdFault::Unknown(_)) => refused(alloc, tag, ErrorCode::Command),
        Err(CmdFault::Unsupported(_)) => refused(alloc, tag, ErrorCode::NotSupported),
        Err(CmdFault::NoMemory) => Err(NoMemory),
    }
}

// The outcome of a packet whose front was read.
fn command_answer<P: Drop>(
    alloc: Global,
    tables: &Tables<P>,
    c: &Connection,
    at: u64,
    packet: &[u8],
    command: u32,
    tag: u32,
) -> Mem<StepOutcome<Msg<P>, Group>>
    requires sinks { AreSinks [] tables.now.sinks }
    requires inputs { AllByRecursion (IsInput tables.now.sinks tables.now.inputs_made) tables.now.inputs.items }
    requires groups { AreGrouped [] tables.now.sinks tables.now.inputs.items tables.now.groups.items }
    ensures { IfOk result (λ outcome. outcome ≡ command_answer (state_of tables.now) c.now at packet.now command tag) }
{
    if is_barred(c, command) {
        return refused(alloc, tag, ErrorCode::Access);
    }
    read_answer(alloc, tables, c, at, tag, packet)
}

/// The outcome of a connection's control packet whose first byte has the offset `at`. Refused, by the first of these that
/// holds: a fault in its front ends the connection; `Access` before a successful AUTH for any other command; `Command` for a
/// number above the last; `NotSupported` for one that isn't in the table; a fault in its fields ends the connection; then as
/// the command's handler says; and `TooLarge` where no frame can carry the reply.
pub(crate) fn packet_answer<P: Drop>(
    alloc: Global,
    tables: &Tables<P>,
    c: &Connection,
    at: u64,
    packet: &[u8],
) -> Mem<StepOutcome<Msg<P>, Group>>
    requires sinks { AreSinks [] tables.now.sinks }
    requires inputs { AllByRecursion (IsInput tables.now.sinks tables.now.inputs_made) tables.now.inputs.items }
    requires groups { AreGrouped [] tables.now.sinks tables.now.inputs.items tables.now.groups.items }
    ensures { IfOk result (λ outcome. outcome ≡ packet_answer (state_of tables.now) c.now at packet.now) }
{
    match read_head(packet) {
        Err(fault) => broken_off(alloc, c.conn, at, fault),
        Ok(head) => command_answer(alloc, tables, c, at, packet, head.command, head.tag),
    }
}
