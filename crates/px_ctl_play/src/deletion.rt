//! The end of a stream: DELETE_PLAYBACK_STREAM (PulseAudio: `command_delete_stream` of `pulsecore/protocol-native.c`; that
//! waiting requests get an error is own).

ghost use Rattle.std.specs.Prelude.{◌≡◌, ◌++◌, ◌∷◌, List, IfOk, OnOk, Ok};
ghost use Rattle.px_outcome.specs.declared.waiting.Waiting.{Waiting};
ghost use Rattle.px_outcome.specs.Handled.{HandledAs};
ghost use Rattle.px_ctl_play.specs.Delete.{errors_for, ended, delete};

use crate::changes::one;
use px_flat::Group;
use px_msg::Msg;
use px_outcome::{Change, Input, Refusal, Sending, StepOutcome, Waiting, present};
use px_tag::Mem;
use px_types::ErrorCode;
use std::alloc::Global;
use std::collections::VecDeque;

// Adds the error for a request, where it is about the input.
fn add_error(alloc: Global, errors: &mut Vec<Sending>, x: &Input, w: &Waiting) -> Mem<()>
    ensures { OnOk result ((more : List Waiting) →
        errors.new.items ++ errors_for x.now more ≡ errors.old.items ++ errors_for x.now (w.now ∷ more)) }
{
    if w.input.0 == x.index.0 {
        errors.push(Sending {
            conn: x.conn,
            packet: px_reply::error(alloc, w.tag, ErrorCode::NoEntity)?,
        })?;
    }
    Ok(())
}

/// The errors for all waiting requests of an input, in the order of the requests.
pub(crate) fn errors_for(alloc: Global, x: &Input, waiting: &VecDeque<Waiting>) -> Mem<Vec<Sending>>
    ensures { IfOk result (λ errors. errors.items ≡ errors_for x.now waiting.now.items) }
{
    let mut errors = Vec::new(alloc);
    for request in waiting.iter() {
        add_error(alloc, &mut errors, x, request)?;
    }
    Ok(errors)
}

/// An input ends: the client has its reply, followed by these errors and these messages.
pub(crate) fn ended<M: Drop, G: Drop>(
    alloc: Global,
    x: &Input,
    errors: Vec<Sending>,
    notified: Vec<Sending>,
    tag: u32,
) -> Result<StepOutcome<M, G>, Refusal>
    ensures { HandledAs result (Ok (ended x.now errors.items notified.items tag)) }
{
    let reply = px_reply::plain(alloc, tag)?;
    let changes = one(alloc, Change::Leaves(x.index))?;
    Ok(StepOutcome {
        reply: Some(reply),
        errors,
        notified,
        changes,
    })
}

/// DELETE_PLAYBACK_STREAM, where the requests `waiting` wait: `NoEntity` where the connection has no stream of this number,
/// else the stream ends. After the plain reply each waiting request of the stream is answered by the error `NoEntity`, in
/// the order of the requests.
pub fn delete<P: Drop>(
    alloc: Global,
    stream: Option<Input>,
    waiting: &VecDeque<Waiting>,
    tag: u32,
) -> Result<StepOutcome<Msg<P>, Group>, Refusal>
    ensures { HandledAs result (delete stream waiting.now.items tag) }
{
    let x = present(stream, ErrorCode::NoEntity)?;
    let errors = errors_for(alloc, &x, waiting)?;
    ended(alloc, &x, errors, Vec::new(alloc), tag)
}
