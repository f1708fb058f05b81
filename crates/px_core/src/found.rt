//! Connections and inputs by their numbers.

ghost use Rattle.std.specs.Prelude.{◌≡◌, ◌<◌, ◌≤◌, length, slice_index_or};
ghost use Rattle.std.specs.Option.{option_map};
ghost use Rattle.px_state.specs.State.{connection_of};
ghost use Rattle.px_core.specs.Connecting.{going_on, version_of};
ghost use Rattle.px_core.specs.Consistency.{IsRising};
ghost use Rattle.px_core.specs.Notice.{input_on, is_on};
ghost use Rattle.px_core.specs.Places.{AreBelow};
ghost use Rattle.px_outcome.specs.declared.input.Input.{Input as DeclaredInput};

use px_outcome::{Connection, Input};
use px_types::{ConnId, InputId, SinkId};

/// The connection with a number. Takes no memory.
pub(crate) fn connection_of(connections: &[Connection], conn: ConnId) -> Option<&Connection>
    ensures { option_map (λ c. c.now) result ≡ connection_of connections.now conn }
{
    connections.iter().find(|c| c.conn.0 == conn.0)
}

/// The version that the connection with a number agreed on, where it exists and has authenticated. Takes no memory.
pub(crate) fn version_of(connections: &[Connection], conn: ConnId) -> Option<u16>
    ensures { result ≡ version_of connections.now conn }
{
    match connection_of(connections, conn) {
        Some(c) => c.version,
        None => None,
    }
}

/// The connection with a number, where it is live. Takes no memory.
pub(crate) fn going_on(connections: &[Connection], conn: ConnId) -> Option<Connection>
    ensures { result ≡ going_on connections.now conn }
{
    match connection_of(connections, conn) {
        Some(c) if c.marked => None,
        Some(c) => Some(*c),
        None => None,
    }
}

// The number of inputs with an index below `index`, by binary search: a sink sends notices about its inputs every turn, and
// there may be 1,024.
fn place(inputs: &[Input], index: InputId) -> usize
    requires { IsRising inputs.now }
    ensures below { AreBelow index.0 result inputs.now }
    ensures few { result ≤ length inputs.now }
    ensures end { (d : DeclaredInput) → result < length inputs.now → index.0 ≤ (DeclaredInput.index (slice_index_or inputs.now result d)).0 }
{
    inputs.partition_point(|x| x.index.0 < index.0)
}

// Whether it has the index, and is on the sink.
fn is_on(x: &Input, sink: SinkId, index: InputId) -> bool
    ensures { result ≡ is_on sink index x.now }
{
    x.index.0 == index.0 && x.sink.0 == sink.0
}

/// The input with an index, where it is on the sink. Takes no memory.
pub(crate) fn input_on(inputs: &[Input], sink: SinkId, index: InputId) -> Option<Input>
    requires { IsRising inputs.now }
    ensures { result ≡ input_on inputs.now sink index }
{
    let place = place(inputs, index);
    if place >= inputs.len() {
        return None;
    }
    let x = inputs[place];
    if is_on(&x, sink, index) {
        return Some(x);
    }
    None
}

/// A copy of the input, where one was found. Takes no memory.
pub(crate) fn copied(x: Option<&Input>) -> Option<Input>
    ensures { result ≡ option_map (λ x. x.now) x.entry }
{
    match x {
        None => None,
        Some(x) => Some(*x),
    }
}
