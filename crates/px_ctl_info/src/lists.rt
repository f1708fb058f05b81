//! The lists that are always empty: of sources, modules, source outputs, samples and cards. Own: PulseAudio has such objects.

ghost use Rattle.px_outcome.specs.Handled.{HandledAs};
ghost use Rattle.px_ctl_info.specs.Lists.{empty_list};

use px_outcome::{Refusal, StepOutcome};
use std::alloc::Global;

/// A list that is always empty: a reply without fields.
pub fn empty_list<M: Drop, G: Drop>(alloc: Global, tag: u32) -> Result<StepOutcome<M, G>, Refusal>
    ensures { HandledAs result (empty_list tag) }
{
    let reply = px_reply::plain(alloc, tag)?;
    Ok(StepOutcome::replied(alloc, reply, Vec::new(alloc)))
}
