//! Adds connections, and marks them once they have ended.

ghost use Rattle.std.specs.Prelude.{◌≡◌, ◌<◌, OnOk, OnErr};
ghost use Rattle.px_state.specs.Change.{joined, marked, with_connection};
ghost use Rattle.px_state.specs.Tables.{state_of};

use crate::tables::Tables;
use px_outcome::Connection;
use px_types::{ConnId, Mem};

/// Adds a connection and its client. Where there is no memory for it nothing has changed.
pub fn join<P>(tables: &mut Tables<P>, conn: ConnId) -> Mem<()>
    requires { tables.old.clients_made < 4294967295 }
    ensures after { OnOk result (state_of tables.new ≡ joined conn (state_of tables.old)) }
    ensures err { OnErr result (state_of tables.new ≡ state_of tables.old) }
{
    let client = tables.clients_made;
    tables.connections.reserve(1)?;
    tables.names.admit(conn, client)?;
    tables.connections.push_reserved(Connection {
        conn,
        client,
        version: None,
        streams: 0,
        marked: false,
    });
    tables.clients_made = client + 1;
    Ok(())
}

/// Marks a connection as ended, until it is removed. Takes no memory.
pub fn mark<P>(tables: &mut Tables<P>, conn: ConnId)
    ensures { state_of tables.new ≡ with_connection conn marked (state_of tables.old) }
{
    px_input_table::mark(&mut tables.connections, conn);
}
