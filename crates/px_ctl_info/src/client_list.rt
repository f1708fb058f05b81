//! The infos of clients (PulseAudio: `command_get_info` and `command_get_info_list` of `pulsecore/protocol-native.c`).

ghost use Rattle.std.specs.Prelude.{◌≡◌, List, ◌∷◌, ◌++◌, [], All, IfOk, OnOk, Ok, map};
ghost use Rattle.std.specs.Option.{option_map};
ghost use Rattle.px_tag.specs.Item.{IsText};
ghost use Rattle.px_outcome.specs.Outcome.{replied};
ghost use Rattle.px_outcome.specs.Handled.{HandledAs};
ghost use Rattle.px_names.specs.declared.client.Client.{Client};
ghost use Rattle.px_reply.specs.Front.{reply_to};
ghost use Rattle.px_reply.specs.Info.{with_client};
ghost use Rattle.px_reply.specs.declared.info.ClientInfo.{ClientInfo};
ghost use Rattle.px_ctl_info.specs.Properties.{text_under};
ghost use Rattle.px_ctl_info.specs.Clients.{NAME, info_of, client_info, client_infos};

use crate::properties::text_under;
use px_names::Client;
use px_outcome::{Refusal, StepOutcome};
use px_reply::ClientInfo;
use px_tag::{Packet, PropList};
use px_types::{ErrorCode, Mem, NoMemory, Text};
use std::alloc::Global;

// The name in a client's property list.
fn name_of(alloc: Global, list: &PropList) -> Mem<Option<Text>>
    ensures value { IfOk result (λ name. name ≡ text_under list.now NAME) }
    ensures text { IfOk result IsText }
{
    match text_under(list, b"application.name") {
        None => Ok(None),
        Some(name) => Ok(Some(Text::copied(alloc, name)?)),
    }
}

// The info of a client.
fn info_of(alloc: Global, client: &Client) -> Mem<ClientInfo>
    ensures value { IfOk result (λ info. info ≡ info_of client.now) }
    ensures text { IfOk result (λ info. IsText info.name) }
{
    let name = name_of(alloc, &client.list)?;
    match client.list.copy() {
        Err(_) => Err(NoMemory),
        Ok(list) => Ok(ClientInfo {
            index: client.index,
            name,
            list,
        }),
    }
}

// Adds the info of one more client.
#[tactic(auto, using(crate::proofs::Named::one_more))]
fn add(alloc: Global, infos: &mut Vec<ClientInfo>, client: &Client) -> Mem<()>
    ensures value { OnOk result ((more : List Client) → infos.new.items ++ map info_of more ≡ infos.old.items ++ map info_of (client.now ∷ more)) }
    ensures text { OnOk result (All (λ info. IsText (ClientInfo.name info)) infos.old.items → All (λ info. IsText (ClientInfo.name info)) infos.new.items) }
{
    infos.push(info_of(alloc, client)?)?;
    Ok(())
}

/// The infos of these clients, in their order.
pub fn client_info_list(alloc: Global, clients: &[Client]) -> Mem<Vec<ClientInfo>>
    ensures value { IfOk result (λ infos. infos.items ≡ map info_of clients.now) }
    ensures text { IfOk result (λ infos. All (λ info. IsText info.name) infos.items) }
{
    let mut infos = Vec::new(alloc);
    for client in clients {
        add(alloc, &mut infos, client)?;
    }
    Ok(infos)
}

// The packet with the info of a client.
fn client_packet(alloc: Global, client: &Client, tag: u32) -> Result<Packet, Refusal>
    ensures { HandledAs result (Ok (with_client (reply_to tag) (info_of client.now))) }
{
    let info = info_of(alloc, client)?;
    let packet = px_reply::client_info(alloc, tag, &info)?;
    Ok(packet)
}

// The reply with the info of a client.
fn client_reply<M: Drop, G: Drop>(
    alloc: Global,
    client: &Client,
    tag: u32,
) -> Result<StepOutcome<M, G>, Refusal>
    ensures { HandledAs result (Ok (replied (with_client (reply_to tag) (info_of client.now)) [])) }
{
    let reply = client_packet(alloc, client, tag)?;
    Ok(StepOutcome::replied(alloc, reply, Vec::new(alloc)))
}

/// GET_CLIENT_INFO of this client. Refused: `NoEntity` where there is none.
pub fn client_info<M: Drop, G: Drop>(
    alloc: Global,
    client: Option<&Client>,
    tag: u32,
) -> Result<StepOutcome<M, G>, Refusal>
    ensures { HandledAs result (client_info (option_map (λ client. client.now) client.entry) tag) }
{
    match client {
        None => Err(Refusal::Code(ErrorCode::NoEntity)),
        Some(client) => client_reply(alloc, client, tag),
    }
}

/// GET_CLIENT_INFO_LIST: the clients in order of connecting, which is that of their indices.
pub fn client_infos<M: Drop, G: Drop>(
    alloc: Global,
    clients: &[Client],
    tag: u32,
) -> Result<StepOutcome<M, G>, Refusal>
    ensures { HandledAs result (client_infos clients.now tag) }
{
    let infos = client_info_list(alloc, clients)?;
    let reply = px_reply::client_infos(alloc, tag, infos.as_slice())?;
    Ok(StepOutcome::replied(alloc, reply, Vec::new(alloc)))
}
