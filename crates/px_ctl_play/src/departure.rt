//! A sink has detached an ended stream (PulseAudio: `pa_sink_input_unlink`; that the input stays until then is own).

ghost use Rattle.std.specs.Prelude.{◌≡◌, IfOk, IfSome, IsSome};
ghost use Rattle.std.specs.Option.{option_map};
ghost use Rattle.px_flat.specs.FlatVolume.{member_of, detached};
ghost use Rattle.px_msg.specs.View.{sample_spec};
ghost use Rattle.px_ctl_play.specs.Notified.{same_spec, gives_up, gone, left, IsMemberIn};

use crate::changes::two;
use crate::factors::regrouped;
use px_flat::Group;
use px_msg::Msg;
use px_outcome::{Change, Input, Standing, StepOutcome, Way};
use px_sample::Spec;
use px_types::{InputId, Mem};
use std::alloc::Global;

/// Whether two specs are the same. Takes no memory.
pub(crate) fn same_spec(a: Spec, b: Spec) -> bool
    ensures { result ≡ same_spec (sample_spec a) (sample_spec b) }
{
    a.format.code() == b.format.code() && a.channels == b.channels && a.rate == b.rate
}

// Whether a stream with this spec is what a sink detaches for an input: the input ends, and its sink got the message to
// detach it.
fn gives_up(spec: Spec, x: &Input) -> bool
    ensures { result ≡ gives_up (sample_spec spec) x.now }
{
    matches!(x.standing, Standing::Leaving) && x.way == Way::Left && same_spec(spec, x.spec)
}

/// The group without `input`, which is in it.
pub(crate) fn without(alloc: Global, group: &Group, input: InputId) -> Mem<Group>
    requires { IsSome (member_of group.now.members input) }
    ensures { IfOk result (λ made. made ≡ detached input group.now) }
{
    let mut made = group.copy(alloc)?;
    made.detach(input);
    Ok(made)
}

// Removes an ended input and takes it out of the group of its sink, to which the factors of the remaining inputs are posted.
fn gone<P: Drop>(
    alloc: Global,
    x: &Input,
    group: Option<&Group>,
    inputs: &[Input],
) -> Mem<StepOutcome<Msg<P>, Group>>
    requires { IsMemberIn (option_map (λ g. g.now) group) x.now }
    ensures { IfOk result (λ outcome. outcome ≡ gone x.now (option_map (λ g. g.now) group.entry) inputs.now) }
{
    let Some(group) = group else {
        return Ok(StepOutcome::idle(alloc));
    };
    let group = without(alloc, group, x.index)?;
    let regrouped = regrouped(alloc, x.sink, group, inputs)?;
    let changes = two(alloc, Change::Gone(x.index), regrouped)?;
    Ok(StepOutcome::changing(alloc, changes))
}

/// A sink with this group has detached a stream with this spec, for an input of its own, which is in the group: an ended
/// input is removed and leaves the group, and the factors of those that stay are posted to the sink. A notice that doesn't
/// fit is ignored: of an input that doesn't exist or is live, of one whose sink got no message to detach it, and of a stream
/// with another spec.
pub fn left<P: Drop>(
    alloc: Global,
    input: Option<Input>,
    group: Option<&Group>,
    spec: Spec,
    inputs: &[Input],
) -> Mem<StepOutcome<Msg<P>, Group>>
    requires { IfSome input (IsMemberIn (option_map (λ g. g.now) group)) }
    ensures { IfOk result (λ outcome. outcome ≡ left input (option_map (λ g. g.now) group.entry) (sample_spec spec) inputs.now) }
{
    match input {
        Some(x) if gives_up(spec, &x) => gone(alloc, &x, group, inputs),
        _ => Ok(StepOutcome::idle(alloc)),
    }
}
