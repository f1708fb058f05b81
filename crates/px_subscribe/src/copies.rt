//! Copies of the parts of a scene.
ghost use Rattle.std.specs.Prelude.{◌≡◌, ◌++◌, ◌∷◌, [], IfOk, OnOk};

use px_flat::Group;
use px_names::{Client, InputLists};
use px_outcome::{Connection, Input};
use px_tag::PropList;
use px_types::{Mem, NoMemory};
use std::alloc::Global;

// Copies one more client.
fn add_client(copies: &mut Vec<Client>, client: &Client) -> Mem<()>
    ensures { OnOk result (copies.new.items ≡ copies.old.items ++ client.now ∷ []) }
{
    let Ok(list) = client.list.copy() else {
        return Err(NoMemory);
    };
    copies.push(Client {
        conn: client.conn,
        index: client.index,
        mask: client.mask,
        list,
    })?;
    Ok(())
}

/// A copy of the clients.
pub(crate) fn copy_clients(alloc: Global, clients: &[Client]) -> Mem<Vec<Client>>
    ensures { IfOk result (λ copies. copies.items ≡ clients.now) }
{
    let mut copies = Vec::new(alloc);
    for client in clients.iter() {
        add_client(&mut copies, client)?;
    }
    Ok(copies)
}

// Copies one more group.
fn add_group(alloc: Global, copies: &mut Vec<Group>, group: &Group) -> Mem<()>
    ensures { OnOk result (copies.new.items ≡ copies.old.items ++ group.now ∷ []) }
{
    let Ok(copy) = group.copy(alloc) else {
        return Err(NoMemory);
    };
    copies.push(copy)?;
    Ok(())
}

/// A copy of the groups.
pub(crate) fn copy_groups(alloc: Global, groups: &[Group]) -> Mem<Vec<Group>>
    ensures { IfOk result (λ copies. copies.items ≡ groups.now) }
{
    let mut copies = Vec::new(alloc);
    for group in groups.iter() {
        add_group(alloc, &mut copies, group)?;
    }
    Ok(copies)
}

/// A copy of the inputs.
pub(crate) fn copy_inputs(alloc: Global, inputs: &[Input]) -> Mem<Vec<Input>>
    ensures { IfOk result (λ copies. copies.items ≡ inputs.now) }
{
    let mut copies = Vec::new(alloc);
    copies.extend_from_slice(inputs)?;
    Ok(copies)
}

/// A copy of the connections.
pub(crate) fn copy_connections(alloc: Global, connections: &[Connection]) -> Mem<Vec<Connection>>
    ensures { IfOk result (λ copies. copies.items ≡ connections.now) }
{
    let mut copies = Vec::new(alloc);
    copies.extend_from_slice(connections)?;
    Ok(copies)
}

/// A copy of the inputs' property lists.
pub(crate) fn copy_lists(lists: &InputLists) -> Mem<InputLists>
    ensures { IfOk result (λ made. made.items ≡ lists.now.items) }
{
    match lists.copy() {
        Ok(made) => Ok(made),
        Err(_) => Err(NoMemory),
    }
}

/// A copy of a property list.
pub(crate) fn copy_list(list: &PropList) -> Mem<PropList>
    ensures { IfOk result (λ made. made ≡ list.now) }
{
    match list.copy() {
        Ok(made) => Ok(made),
        Err(_) => Err(NoMemory),
    }
}
