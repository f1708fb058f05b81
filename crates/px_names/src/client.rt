//! One client, and the look-ups among all of them.

ghost use Rattle.std.specs.Prelude.{◌≡◌, OnOk, OnErr};
ghost use Rattle.std.specs.List.{position};
ghost use Rattle.px_names.specs.Clients.{is_on, has_index, change_first, with_mask, with_list, with_update, without_first};

use px_tag::{Mode, PropList};
use px_types::{ConnId, Mem, NoMemory};

/// A client (`pa_client`): the one that a connection has from its start to its end.
#[derive(Drop)]
pub struct Client {
    /// The connection's number.
    pub conn: ConnId,
    /// The client's index, which no other client ever has.
    pub index: u32,
    /// The facilities that its connection subscribes to (`pa_subscription_mask_t`), a bit each.
    pub mask: u32,
    /// Its property list.
    pub list: PropList,
}

/// The place of a connection's client. Takes no memory.
pub fn place_on(clients: &[Client], conn: ConnId) -> Option<usize>
    ensures { result ≡ position (is_on conn) clients.now }
{
    clients.iter().position(|client| client.conn.0 == conn.0)
}

/// The place of the client with an index. Takes no memory.
pub fn place_numbered(clients: &[Client], index: u32) -> Option<usize>
    ensures { result ≡ position (has_index index) clients.now }
{
    clients.iter().position(|client| client.index == index)
}

/// Sets the mask of a connection's client. Takes no memory.
pub fn set_mask(clients: &mut [Client], conn: ConnId, mask: u32)
    ensures { clients.new ≡ change_first (is_on conn) (with_mask mask) clients.old }
{
    if let Some(place) = place_on(clients, conn) {
        clients[place].mask = mask;
    }
}

/// Gives a connection's client another property list. Takes no memory.
pub fn set_list(clients: &mut [Client], conn: ConnId, list: PropList)
    ensures { clients.new ≡ change_first (is_on conn) (with_list list) clients.old }
{
    if let Some(place) = place_on(clients, conn) {
        clients[place].list = list;
    }
}

/// Updates the property list of the client with an index. Where memory runs out, nothing has changed.
pub fn update(clients: &mut [Client], index: u32, mode: Mode, list: &PropList) -> Mem<()>
    ensures updated { OnOk result (clients.new ≡ change_first (has_index index) (with_update mode list.now) clients.old) }
    ensures unchanged { OnErr result (clients.new ≡ clients.old) }
{
    let Some(place) = place_numbered(clients, index) else {
        return Ok(());
    };
    match clients[place].list.update(mode, list) {
        Ok(()) => Ok(()),
        Err(_) => Err(NoMemory),
    }
}

/// Removes a connection's client. Takes no memory.
pub fn forget(clients: &mut Vec<Client>, conn: ConnId)
    ensures { clients.new.items ≡ without_first (is_on conn) clients.old.items }
{
    if let Some(place) = place_on(clients.as_slice(), conn) {
        clients.remove(place);
    }
}
