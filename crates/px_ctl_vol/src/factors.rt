//! A sink gets another group of volumes, and the factors that it gives are posted to the sink.

ghost use Rattle.std.specs.Prelude.{◌≡◌, ◌∷◌, [], Ok};
ghost use Rattle.px_outcome.specs.Outcome.{replied};
ghost use Rattle.px_outcome.specs.Handled.{HandledAs};
ghost use Rattle.px_reply.specs.Front.{reply_to};
ghost use Rattle.px_ctl_vol.specs.Factors.{regrouped};

use px_flat::Group;
use px_msg::Msg;
use px_outcome::{Change, Input, Refusal, StepOutcome};
use px_types::SinkId;
use std::alloc::Global;

// An outcome of this change alone, with a reply without fields.
fn replied<M: Drop, G: Drop>(
    alloc: Global,
    change: Change<M, G>,
    tag: u32,
) -> Result<StepOutcome<M, G>, Refusal>
    ensures { HandledAs result (Ok (replied (reply_to tag) (change ∷ []))) }
{
    let mut changes = Vec::new(alloc);
    changes.push(change)?;
    let reply = px_reply::plain(alloc, tag)?;
    Ok(StepOutcome::replied(alloc, reply, changes))
}

/// Sets a sink's group, and posts to the sink the factors of the inputs that are settled on it, in rising index; the client
/// has a reply without fields.
pub(crate) fn regrouped<P: Drop>(
    alloc: Global,
    sink: SinkId,
    group: Group,
    inputs: &[Input],
    tag: u32,
) -> Result<StepOutcome<Msg<P>, Group>, Refusal>
    ensures { HandledAs result (Ok (regrouped sink group inputs.now tag)) }
{
    let change = px_ctl_play::regrouped(alloc, sink, group, inputs)?;
    replied(alloc, change, tag)
}
