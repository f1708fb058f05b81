//! Connections begin and end (PulseAudio: `pa_native_protocol_connect` and `native_connection_unlink` of
//! `pulsecore/protocol-native.c`; that an ended connection is removed in a step of its own is own).

ghost use Rattle.std.specs.Prelude.{◌≡◌, ◌++◌, ◌∷◌, [], ℕ, List, Option, None, Some, false, filter, flat_map, IsFalse, IfOk, OnOk, OnErr};
ghost use Rattle.std.specs.Option.{option_map};
ghost use Rattle.px_outcome.specs.declared.sending.Reason.{Reason};
ghost use Rattle.px_outcome.specs.declared.sending.Reason.TheVariants.{Protocol};
ghost use Rattle.px_frame.specs.Fault.{code_of};
ghost use Rattle.px_outcome.specs.declared.input.Connection.{Connection};
ghost use Rattle.px_outcome.specs.declared.input.Input.{Input};
ghost use Rattle.px_outcome.specs.Outcome.{changing};
ghost use Rattle.px_header.specs.HeaderRules.{AreSinks};
ghost use Rattle.px_subscribe.specs.Moments.{AreShown};
ghost use Rattle.px_state.specs.State.{connection_of, marked_of, is_from};
ghost use Rattle.px_core.specs.Connecting.{is_full, connected, going_on, ended, ends, swept, sweep_of};
ghost use Rattle.px_state.specs.Change.{joined};
ghost use Rattle.px_state.specs.Events.{step_events};
ghost use Rattle.px_state.specs.Effect.{closed_at, IsSendable};
ghost use Rattle.px_state.specs.Outcome.{outcome_effects};
ghost use Rattle.px_core.specs.Step.{answered, answer_effects, admitted_effects};
ghost use Rattle.px_state.specs.Tables.{state_of};

use crate::found::{connection_of, going_on};
use px_flat::Group;
use px_frame::FrameFault;
use px_input_table::goes_on;
use px_msg::Msg;
use px_outcome::{Change, Connection, Input, Reason, StepOutcome};
use px_state::{
    CoreChange, Effect, Effects, Tables, closed_for, finish, join, joined_events, mark,
};
use px_types::limits::{MAX_CONNECTIONS, NO_INDEX};
use px_types::{ConnId, Mem};
use std::alloc::Global;

// Whether no more connections are accepted: the most are there, or no unused client index is left.
fn is_full<P>(tables: &Tables<P>) -> bool
    ensures { result ≡ is_full (state_of tables.now) }
{
    tables.connections.len() >= MAX_CONNECTIONS || tables.clients_made == NO_INDEX
}

/// Ends a live connection: marks it, and returns its number. Takes no memory.
pub(crate) fn end<P>(tables: &mut Tables<P>, conn: ConnId) -> Option<ConnId>
    ensures conn { result ≡ option_map (λ c. c.conn) (going_on tables.old.connections.items conn) }
    ensures after { (reason : Option Reason) (fault at : ℕ) →
        state_of tables.new ≡ answered (state_of tables.old) (ended (going_on tables.old.connections.items conn) reason fault at) }
{
    match going_on(&tables.connections, conn) {
        None => None,
        Some(c) => {
            mark(tables, c.conn);
            Some(c.conn)
        }
    }
}

// Adds the changes of one more input, where it is the connection's and live.
fn add_ends<P: Drop>(changes: &mut Vec<CoreChange<P>>, conn: ConnId, input: &Input) -> Mem<()>
    ensures { OnOk result ((more : List Input) →
        changes.new.items ++ flat_map ends (filter (is_from conn) more) ≡ changes.old.items ++ flat_map ends (filter (is_from conn) (input.now ∷ more))) }
{
    if input.conn.0 == conn.0 && goes_on(input) {
        changes.push(Change::Leaves(input.index))?;
    }
    Ok(())
}

// Adds the changes that end all streams of a connection.
fn add_streams<P: Drop>(changes: &mut Vec<CoreChange<P>>, conn: ConnId, inputs: &[Input]) -> Mem<()>
    ensures { OnOk result (changes.new.items ≡ changes.old.items ++ flat_map ends (filter (is_from conn) inputs.now)) }
{
    for input in inputs {
        add_ends(changes, conn, input)?;
    }
    Ok(())
}

// Adds the changes that remove one connection: the ends of its streams, and the removal of its client.
fn add_forgotten<P: Drop>(
    changes: &mut Vec<CoreChange<P>>,
    inputs: &[Input],
    c: &Connection,
) -> Mem<()>
    ensures { OnOk result (changes.new.items ≡ changes.old.items ++ swept inputs.now c.now) }
{
    add_streams(changes, c.conn, inputs)?;
    changes.push(Change::Forgotten(c.conn))?;
    Ok(())
}

// Adds the changes of one more connection, where it has ended. The others, which are nearly all, cost a look.
fn add_swept<P: Drop>(changes: &mut Vec<CoreChange<P>>, inputs: &[Input], c: &Connection) -> Mem<()>
    ensures { OnOk result ((more : List Connection) →
        changes.new.items ++ flat_map (swept inputs.now) (marked_of more) ≡ changes.old.items ++ flat_map (swept inputs.now) (marked_of (c.now ∷ more))) }
{
    if c.marked {
        add_forgotten(changes, inputs, c)?;
    }
    Ok(())
}

// The changes that remove the connections that have ended: the streams of each end, in order, and its client is removed.
fn swept_changes<P: Drop>(
    alloc: Global,
    connections: &[Connection],
    inputs: &[Input],
) -> Mem<Vec<CoreChange<P>>>
    ensures { IfOk result (λ changes. changes.items ≡ flat_map (swept inputs.now) (marked_of connections.now)) }
{
    let mut changes = Vec::new(alloc);
    for c in connections {
        add_swept(&mut changes, inputs, c)?;
    }
    Ok(changes)
}

// The outcome that removes them.
fn sweep<P: Drop>(
    alloc: Global,
    connections: &[Connection],
    inputs: &[Input],
) -> Mem<StepOutcome<Msg<P>, Group>>
    ensures { IfOk result (λ outcome. outcome ≡ changing (flat_map (swept inputs.now) (marked_of connections.now))) }
{
    let changes = swept_changes(alloc, connections, inputs)?;
    Ok(StepOutcome::changing(alloc, changes))
}

// Whether any connection has ended. It looks at all, since a loop with no way out is the shorter one where none has, as nearly always.
fn has_marked(connections: &[Connection]) -> bool
    ensures { IsFalse result → marked_of connections.now ≡ [] }
{
    let mut any = false;
    for c in connections {
        if c.marked {
            any = true;
        }
    }
    any
}

/// Removes the connections that have ended. Where there is no memory for it nothing has changed. Most sweeps find none, and
/// end with that look.
pub(crate) fn sweep_away<P: Drop>(alloc: Global, tables: &mut Tables<P>) -> Mem<Effects>
    requires sinks { AreSinks [] tables.old.sinks }
    requires before { AreShown tables.old.inputs.items }
    requires after { AreShown (answered (state_of tables.old) (sweep_of (state_of tables.old))).inputs }
    ensures effects { IfOk result (λ effects. effects ≡ answer_effects None (state_of tables.old) (sweep_of (state_of tables.old))) }
    ensures after { OnOk result (state_of tables.new ≡ answered (state_of tables.old) (sweep_of (state_of tables.old))) }
    ensures err { OnErr result (state_of tables.new ≡ state_of tables.old) }
{
    if !has_marked(&tables.connections) {
        return Ok(Effects::new(alloc));
    }
    let outcome = sweep(alloc, &tables.connections, tables.inputs.as_slice())?;
    finish(alloc, tables, None, outcome)
}

// Accepts a client. Where there is no memory for it nothing has changed.
fn admit<P>(alloc: Global, tables: &mut Tables<P>, conn: ConnId) -> Mem<Effects>
    requires sinks { AreSinks [] tables.old.sinks }
    requires shown { AreShown tables.old.inputs.items }
    requires room { is_full (state_of tables.old) ≡ false }
    ensures effects { IfOk result (λ effects. effects ≡ step_events (state_of tables.old) (joined conn (state_of tables.old))) }
    ensures after { OnOk result (state_of tables.new ≡ joined conn (state_of tables.old)) }
    ensures err { OnErr result (state_of tables.new ≡ state_of tables.old) }
{
    let effects = joined_events(alloc, tables, conn)?;
    match join(tables, conn) {
        Ok(()) => Ok(effects),
        Err(err) => {
            drop(effects);
            Err(err)
        }
    }
}

/// A client connects. A number in use already changes nothing; where no more are accepted the server ends the new one. Where
/// there is no memory for it nothing has changed.
pub(crate) fn connect<P>(alloc: Global, tables: &mut Tables<P>, conn: ConnId) -> Mem<Effects>
    requires sinks { AreSinks [] tables.old.sinks }
    requires shown { AreShown tables.old.inputs.items }
    ensures effects { IfOk result (λ effects. effects ≡ admitted_effects (connection_of tables.old.connections.items conn) conn (state_of tables.old)) }
    ensures after { OnOk result (state_of tables.new ≡ connected (connection_of tables.old.connections.items conn) conn (state_of tables.old)) }
    ensures err { OnErr result (state_of tables.new ≡ state_of tables.old) }
{
    if connection_of(&tables.connections, conn).is_some() {
        return Ok(Effects::new(alloc));
    }
    if is_full(tables) {
        return Effects::of(alloc, closed_for(conn, Reason::Limit));
    }
    admit(alloc, tables, conn)
}

// The end of a connection for breaking a rule of the protocol, at an offset of its bytes.
fn closed_at(conn: ConnId, fault: u8, at: u64) -> Effect
    ensures value { result ≡ closed_at conn fault at }
    ensures sendable { IsSendable result }
{
    Effect::Closed {
        conn,
        reason: Reason::Protocol,
        fault,
        at,
    }
}

/// A fault in a connection's frames, at an offset of its bytes: a live one ends. Where there is no memory for the effect
/// nothing has changed.
pub(crate) fn break_off<P>(
    alloc: Global,
    tables: &mut Tables<P>,
    conn: ConnId,
    fault: FrameFault,
    at: u64,
) -> Mem<Effects>
    ensures effects { IfOk result (λ effects. effects ≡ outcome_effects {P = P} (Some conn) (ended (going_on tables.old.connections.items conn) (Some Protocol) (code_of fault) at)) }
    ensures after { OnOk result (state_of tables.new ≡ answered (state_of tables.old) (ended (going_on tables.old.connections.items conn) (Some Protocol) (code_of fault) at)) }
    ensures err { OnErr result (state_of tables.new ≡ state_of tables.old) }
{
    let effects = match going_on(&tables.connections, conn) {
        None => Effects::new(alloc),
        Some(c) => Effects::of(alloc, closed_at(c.conn, fault.code(), at))?,
    };
    end(tables, conn);
    Ok(effects)
}
