//! Requests that are answered later, once the notice of the stream's sink has come.

ghost use Rattle.std.specs.Prelude.{◌≡◌, IfOk, Ok};
ghost use Rattle.px_outcome.specs.Handled.{HandledAs};
ghost use Rattle.px_ctl_play.specs.Answer.{asked, sent_to, answered};

use px_flat::Group;
use px_msg::Msg;
use px_outcome::{Awaited, Change, Connection, Input, Refusal, Sending, StepOutcome, Waiting};
use px_tag::Packet;
use px_types::Mem;
use std::alloc::Global;

/// Posts the question to an input's sink; the request waits.
pub(crate) fn asked<P: Drop>(
    alloc: Global,
    x: &Input,
    message: Msg<P>,
    awaited: Awaited,
    tag: u32,
) -> Result<StepOutcome<Msg<P>, Group>, Refusal>
    ensures { HandledAs result (Ok (asked x.now message awaited tag)) }
{
    let mut changes = Vec::new(alloc);
    changes.push(Change::Posted(x.index, message))?;
    changes.push(Change::Asked(Waiting {
        input: x.index,
        tag,
        awaited,
    }))?;
    Ok(StepOutcome::changing(alloc, changes))
}

/// A packet for the connection `owner`, where it is live.
pub(crate) fn sent_to(alloc: Global, owner: Option<Connection>, packet: Packet) -> Mem<Vec<Sending>>
    ensures { IfOk result (λ sent. sent.items ≡ sent_to owner packet) }
{
    let mut sent = Vec::new(alloc);
    match owner {
        Some(owner) => {
            sent.push(Sending {
                conn: owner.conn,
                packet,
            })?;
            Ok(sent)
        }
        None => Ok(sent),
    }
}

/// Removes a waiting request, and sends the reply to its connection `owner`, where that is live.
pub(crate) fn answered<P: Drop>(
    alloc: Global,
    owner: Option<Connection>,
    request: Waiting,
    reply: Packet,
) -> Mem<StepOutcome<Msg<P>, Group>>
    ensures { IfOk result (λ outcome. outcome ≡ answered owner request reply) }
{
    let notified = sent_to(alloc, owner, reply)?;
    let mut changes = Vec::new(alloc);
    changes.push(Change::Answered(request))?;
    Ok(StepOutcome {
        reply: None,
        errors: Vec::new(alloc),
        notified,
        changes,
    })
}
