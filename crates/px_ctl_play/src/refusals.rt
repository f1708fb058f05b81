//! Why a lawful stream isn't created on its sink.

ghost use Rattle.std.specs.Prelude.{◌≡◌, ◌<◌, true, length};
ghost use Rattle.px_outcome.specs.Input.{belongs_to, is_bound_for, bound_for, going_of, is_leaving, goes_on};
ghost use Rattle.px_ctl_play.specs.Asked.{is_supported, has_room};

use crate::asked::{format_on, rate_on};
use px_cmd::CreateFields;
use px_outcome::{Connection, Input, Standing, Target};
use px_types::SinkId;
use px_types::limits::{MAX_INPUTS, MAX_INPUTS_ON_SINK, NO_INDEX};

/// Whether the sink can play the stream: no floating point, no variable rate, the sink's own rate, and no passthrough. Takes no
/// memory.
pub(crate) fn is_supported(sink: &Target, a: &CreateFields) -> bool
    ensures { result ≡ is_supported sink.now a.now }
{
    let format = format_on(sink, a);
    format != 5
        && format != 6
        && !a.variable_rate
        && rate_on(sink, a) == sink.spec.rate
        && !a.passthrough.unwrap_or(false)
}

// Whether an input on the sink `on` belongs to `sink`.
fn belongs_to(sink: SinkId, on: SinkId, standing: Standing) -> bool
    ensures { result ≡ belongs_to sink on standing }
{
    match standing {
        Standing::Settled => on.0 == sink.0,
        Standing::Moving(to) => to.0 == sink.0,
        Standing::Leaving => false,
    }
}

// Whether an input is settled on the sink, or moving there.
fn is_bound_for(sink: SinkId, x: &Input) -> bool
    ensures { result ≡ is_bound_for sink x.now }
{
    belongs_to(sink, x.sink, x.standing)
}

/// Whether an input is live: it hasn't ended. Takes no memory.
pub(crate) fn goes_on(x: &Input) -> bool
    ensures { result ≡ goes_on x.now }
{
    !matches!(x.standing, Standing::Leaving)
}

/// The number of inputs bound for a sink. Takes no memory.
pub(crate) fn count_bound(inputs: &[Input], sink: SinkId) -> usize
    ensures { result ≡ length (bound_for inputs.now sink) }
{
    inputs.iter().filter(|x| is_bound_for(sink, x)).count()
}

// The number of live inputs, on all sinks.
fn count_in_all(inputs: &[Input]) -> usize
    ensures { result ≡ length (going_of inputs.now) }
{
    inputs.iter().filter(|x| goes_on(x)).count()
}

/// Whether there is room for one more input on a sink and in all, and an unused index and stream number are left. Takes no
/// memory. Own: PulseAudio counts the inputs of a sink alone.
pub(crate) fn has_room(inputs: &[Input], made: u32, me: &Connection, sink: SinkId) -> bool
    ensures value { result ≡ has_room inputs.now made me.now sink }
    ensures inputs { result ≡ true → made < 4294967295 }
    ensures streams { result ≡ true → me.now.streams < 4294967295 }
{
    count_bound(inputs, sink) < MAX_INPUTS_ON_SINK
        && count_in_all(inputs) < MAX_INPUTS
        && made < NO_INDEX
        && me.streams < NO_INDEX
}
