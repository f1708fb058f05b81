//! KILL_CLIENT (PulseAudio: `command_kill` of `pulsecore/protocol-native.c`).

ghost use Rattle.std.specs.Prelude.{◌≡◌, IfOk};
ghost use Rattle.px_outcome.specs.Handled.{HandledAs};
ghost use Rattle.std.specs.Option.{option_map};
ghost use Rattle.px_ctl_info.specs.Clients.{connection_with, killed, kill_client};

use px_outcome::{Change, Connection, Reason, Refusal, StepOutcome, present};
use px_types::{ErrorCode, Mem};
use std::alloc::Global;

// The connection of the client with an index, in the table.
fn found_with(connections: &[Connection], client: u32) -> Option<&Connection>
    ensures { option_map (λ c. c.now) result ≡ connection_with connections.now client }
{
    connections.iter().find(|c| c.client == client)
}

/// The connection of the client with an index, where there is one. Takes no memory.
pub fn connection_with(connections: &[Connection], client: u32) -> Option<Connection>
    ensures { result ≡ connection_with connections.now client }
{
    match found_with(connections, client) {
        None => None,
        Some(c) => Some(*c),
    }
}

// A connection ends, where it is live.
fn killed<M: Drop, G: Drop>(alloc: Global, c: Connection) -> Mem<Vec<Change<M, G>>>
    ensures { IfOk result (λ changes. changes.items ≡ killed c) }
{
    let mut changes = Vec::new(alloc);
    if !c.marked {
        changes.push(Change::Ended {
            conn: c.conn,
            reason: Some(Reason::Killed),
            fault: 0,
            at: 0,
        })?;
    }
    Ok(changes)
}

/// KILL_CLIENT, where this is the connection of the client: it ends. The client that asks is answered first, even where it
/// ends itself. Refused: `NoEntity` where there is no such client.
pub fn kill_client<M: Drop, G: Drop>(
    alloc: Global,
    client: Option<Connection>,
    tag: u32,
) -> Result<StepOutcome<M, G>, Refusal>
    ensures { HandledAs result (kill_client client tag) }
{
    let c = present(client, ErrorCode::NoEntity)?;
    let changes = killed(alloc, c)?;
    let reply = px_reply::plain(alloc, tag)?;
    Ok(StepOutcome::replied(alloc, reply, changes))
}
