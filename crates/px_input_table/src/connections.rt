//! Changes of a connection in a list: the first with a number, where there is one, is changed or removed. Nothing takes
//! memory.

ghost use Rattle.std.specs.Prelude.{◌≡◌, ◌<◌, ◌≤◌, vec_len, vec_capacity};
ghost use Rattle.std.specs.List.{position};
ghost use Rattle.px_outcome.specs.Input.{has_number};
ghost use Rattle.px_input_table.specs.Lists.{change_first, drop_first};
ghost use Rattle.px_input_table.specs.Connections.{authed, marked, with_streams};

use px_outcome::Connection;
use px_types::ConnId;

// The place of the connection with a number.
fn place_of(connections: &[Connection], conn: ConnId) -> Option<usize>
    ensures { result ≡ position (has_number conn) connections.now }
{
    connections.iter().position(|c| c.conn.0 == conn.0)
}

/// Sets the version that a connection agreed on.
pub fn set_version(connections: &mut [Connection], conn: ConnId, version: u16)
    ensures { connections.new ≡ change_first (has_number conn) (authed version) connections.old }
{
    if let Some(place) = place_of(connections, conn) {
        connections[place].version = Some(version);
    }
}

/// Marks a connection as ended.
pub fn mark(connections: &mut [Connection], conn: ConnId)
    ensures { connections.new ≡ change_first (has_number conn) marked connections.old }
{
    if let Some(place) = place_of(connections, conn) {
        connections[place].marked = true;
    }
}

/// Sets the number of a connection's next stream.
pub fn set_streams(connections: &mut [Connection], conn: ConnId, streams: u32)
    ensures { connections.new ≡ change_first (has_number conn) (with_streams streams) connections.old }
{
    if let Some(place) = place_of(connections, conn) {
        connections[place].streams = streams;
    }
}

/// Removes a connection.
pub fn forget(connections: &mut Vec<Connection>, conn: ConnId)
    ensures items { connections.new.items ≡ drop_first (has_number conn) connections.old.items }
    ensures capacity { vec_capacity connections.new ≡ vec_capacity connections.old }
    ensures len { vec_len connections.new ≤ vec_len connections.old }
{
    if let Some(place) = place_of(connections.as_slice(), conn) {
        connections.remove(place);
    }
}
