//! Changes of connections and their clients, and of the default sink.

ghost use Rattle.std.specs.Prelude.{◌≡◌, ◌+◌, ℕ};
ghost use Rattle.px_outcome.specs.declared.change.Change.TheVariants.{Authed, Forgotten};
ghost use Rattle.px_state.specs.Change.{changed, marked, with_connection, defaulted};
ghost use Rattle.px_state.specs.Families.{IsOfClient};
ghost use Rattle.px_state.specs.Tables.{state_of, HasRoom};

use crate::change::CoreChange;
use crate::tables::Tables;
use px_names::Names;
use px_outcome::Change;
use px_types::{ConnId, SinkId};

// Makes an existing sink the default sink.
fn make_default(names: &mut Names, sink: SinkId)
    ensures { names.new ≡ defaulted sink names.old }
{
    if usize::from(sink.0) < names.sinks().as_slice().len() {
        names.set_default(sink);
    }
}

// Sets the version that a connection agreed on.
fn set_version<P>(tables: &mut Tables<P>, conn: ConnId, version: u16)
    ensures state { state_of tables.new ≡ changed (state_of tables.old) (Authed conn version) }
    ensures room { (n : ℕ) → HasRoom (n + 1) tables.old → HasRoom n tables.new }
{
    px_input_table::set_version(&mut tables.connections, conn, version);
}

// Marks a connection as ended.
fn mark<P>(tables: &mut Tables<P>, conn: ConnId)
    ensures state { state_of tables.new ≡ with_connection conn marked (state_of tables.old) }
    ensures room { (n : ℕ) → HasRoom (n + 1) tables.old → HasRoom n tables.new }
{
    px_input_table::mark(&mut tables.connections, conn);
}

// Removes a connection and its client.
fn forget<P>(tables: &mut Tables<P>, conn: ConnId)
    ensures state { state_of tables.new ≡ changed (state_of tables.old) (Forgotten conn) }
    ensures room { (n : ℕ) → HasRoom (n + 1) tables.old → HasRoom n tables.new }
{
    px_input_table::forget(&mut tables.connections, conn);
    tables.names.forget(conn);
}

/// Makes a change of this kind. Takes no memory.
pub(crate) fn apply<P: Drop>(tables: &mut Tables<P>, change: CoreChange<P>)
    requires { IsOfClient change }
    ensures state { state_of tables.new ≡ changed (state_of tables.old) change }
    ensures room { (n : ℕ) → HasRoom (n + 1) tables.old → HasRoom n tables.new }
{
    match change {
        Change::Authed(conn, version) => set_version(tables, conn, version),
        Change::Named(conn, list) => tables.names.set_list(conn, list),
        Change::Masked(conn, mask) => tables.names.set_mask(conn, mask),
        Change::Defaulted(sink) => make_default(&mut tables.names, sink),
        Change::Ended { conn, .. } => mark(tables, conn),
        Change::Forgotten(conn) => forget(tables, conn),
        _ => unreachable!(),
    }
}
