//! The outcome of a frame of a connection.

ghost use Rattle.std.specs.Prelude.{◌≡◌, [], Some, IfOk, IfErr, OnOk, OnErr};
ghost use Rattle.std.specs.List.{AllByRecursion};
ghost use Rattle.px_frame.specs.Frame.{IsBody};
ghost use Rattle.px_header.specs.HeaderRules.{AreSinks};
ghost use Rattle.px_subscribe.specs.Moments.{AreShown};
ghost use Rattle.px_core.specs.Command.{packet_answer};
ghost use Rattle.px_core.specs.Grouped.{AreGrouped};
ghost use Rattle.px_core.specs.Consistency.{IsInput, IsRising};
ghost use Rattle.px_core.specs.Step.{answer_effects, answered, body_answer, frame_answer};
ghost use Rattle.px_state.specs.Tables.{state_of};

use crate::command::packet_answer;
use crate::data::write;
use crate::found::going_on;
use px_frame::{Body, Frame};
use px_outcome::Connection;
use px_state::{Effects, Tables, finish};
use px_types::{ConnId, Mem};
use std::alloc::Global;

// A control packet of a live connection.
fn control<P: Drop>(
    alloc: Global,
    tables: &mut Tables<P>,
    conn: ConnId,
    c: &Connection,
    at: u64,
    packet: &[u8],
) -> Mem<Effects>
    requires sinks { AreSinks [] tables.old.sinks }
    requires inputs { AllByRecursion (IsInput tables.old.sinks tables.old.inputs_made) tables.old.inputs.items }
    requires groups { AreGrouped [] tables.old.sinks tables.old.inputs.items tables.old.groups.items }
    requires after { AreShown (answered (state_of tables.old) (packet_answer (state_of tables.old) c.now at packet.now)).inputs }
    ensures effects { IfOk result (λ effects. effects ≡ answer_effects (Some conn) (state_of tables.old) (packet_answer (state_of tables.old) c.now at packet.now)) }
    ensures after { OnOk result (state_of tables.new ≡ answered (state_of tables.old) (packet_answer (state_of tables.old) c.now at packet.now)) }
    ensures err { OnErr result (state_of tables.new ≡ state_of tables.old) }
{
    let outcome = packet_answer(alloc, tables, c, at, packet)?;
    finish(alloc, tables, Some(conn), outcome)
}

// The body of a frame of a live connection, the one with this number. Where there is no memory for it, it is handed back.
#[tactic(auto, using(crate::proofs::Silent::data_notifies_nobody))]
fn body<P: Drop>(
    alloc: Global,
    tables: &mut Tables<P>,
    conn: ConnId,
    c: &Connection,
    at: u64,
    body: Body,
) -> Result<Effects, Body>
    requires sinks { AreSinks [] tables.old.sinks }
    requires inputs { AllByRecursion (IsInput tables.old.sinks tables.old.inputs_made) tables.old.inputs.items }
    requires groups { AreGrouped [] tables.old.sinks tables.old.inputs.items tables.old.groups.items }
    requires rising { IsRising tables.old.inputs.items }
    requires body { IsBody body }
    requires after { AreShown (answered (state_of tables.old) (body_answer (state_of tables.old) c.now at body)).inputs }
    ensures effects { IfOk result (λ effects. effects ≡ answer_effects (Some conn) (state_of tables.old) (body_answer (state_of tables.old) c.now at body)) }
    ensures after { OnOk result (state_of tables.new ≡ answered (state_of tables.old) (body_answer (state_of tables.old) c.now at body)) }
    ensures back { IfErr result (λ back. back ≡ body) }
    ensures err { OnErr result (state_of tables.new ≡ state_of tables.old) }
{
    match body {
        Body::Control(packet) => match control(alloc, tables, conn, c, at, packet.bytes()) {
            Ok(effects) => Ok(effects),
            Err(_) => Err(Body::Control(packet)),
        },
        Body::Write {
            stream,
            offset,
            seek,
            bytes,
        } => match write(tables, c.conn, stream, offset, seek, bytes) {
            Ok(()) => Ok(Effects::new(alloc)),
            Err(bytes) => Err(Body::Write {
                stream,
                offset,
                seek,
                bytes,
            }),
        },
    }
}

/// Takes in a frame of a connection. Ignored where the connection doesn't exist, or has ended. Where there is no memory for
/// it, it is handed back, and nothing has changed.
pub(crate) fn take<P: Drop>(
    alloc: Global,
    tables: &mut Tables<P>,
    conn: ConnId,
    frame: Frame,
) -> Result<Effects, Frame>
    requires sinks { AreSinks [] tables.old.sinks }
    requires inputs { AllByRecursion (IsInput tables.old.sinks tables.old.inputs_made) tables.old.inputs.items }
    requires groups { AreGrouped [] tables.old.sinks tables.old.inputs.items tables.old.groups.items }
    requires rising { IsRising tables.old.inputs.items }
    requires body { IsBody frame.body }
    requires after { AreShown (answered (state_of tables.old) (frame_answer (state_of tables.old) conn frame)).inputs }
    ensures effects { IfOk result (λ effects. effects ≡ answer_effects (Some conn) (state_of tables.old) (frame_answer (state_of tables.old) conn frame)) }
    ensures after { OnOk result (state_of tables.new ≡ answered (state_of tables.old) (frame_answer (state_of tables.old) conn frame)) }
    ensures back { IfErr result (λ back. back ≡ frame) }
    ensures err { OnErr result (state_of tables.new ≡ state_of tables.old) }
{
    match going_on(&tables.connections, conn) {
        None => { Ok(Effects::new(alloc)) }
        Some(c) => match body(alloc, tables, conn, &c, frame.at, frame.body) {
            Ok(effects) => Ok(effects),
            Err(body) => Err(Frame { at: frame.at, body }),
        },
    }
}
