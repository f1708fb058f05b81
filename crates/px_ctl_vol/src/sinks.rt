//! SET_SINK_VOLUME and SET_SINK_MUTE (PulseAudio: `command_set_volume` and `command_set_mute` of `pulsecore/protocol-native.c`; that
//! one volume is for all channels is own).

ghost use Rattle.std.specs.Prelude.{Ok};
ghost use Rattle.std.specs.Option.{option_map};
ghost use Rattle.px_vol.specs.Volume.{IsChannelVolume};
ghost use Rattle.px_flat.specs.FlatVolume.{with_sink_mute};
ghost use Rattle.px_outcome.specs.Handled.{HandledAs};
ghost use Rattle.px_ctl_vol.specs.Factors.{regrouped};
ghost use Rattle.px_ctl_vol.specs.Sinks.{with_suiting_volume, set_sink_volume, set_sink_mute};

use crate::asked::{asked, fits, is_volume};
use crate::factors::regrouped;
use px_flat::Group;
use px_msg::Msg;
use px_outcome::{Input, Named, Refusal, StepOutcome, check, present};
use px_tag::RawVolume;
use px_types::{ErrorCode, SinkId};
use std::alloc::Global;

// Sets the volume of the sink; its inputs follow. `Invalid` for another count than 1 and that of its channels.
fn with_volume<P: Drop>(
    alloc: Global,
    sink: SinkId,
    group: &Group,
    inputs: &[Input],
    volume: &RawVolume,
    tag: u32,
) -> Result<StepOutcome<Msg<P>, Group>, Refusal>
    requires { IsChannelVolume volume.now }
    ensures { HandledAs result (with_suiting_volume sink group.now inputs.now volume.now tag) }
{
    check(
        fits(volume, group.reference().values().len()),
        ErrorCode::Invalid,
    )?;
    let mut changed = group.copy(alloc)?;
    changed.set_sink(&asked(volume));
    regrouped(alloc, sink, changed, inputs, tag)
}

// Mutes or unmutes the sink.
fn with_mute<P: Drop>(
    alloc: Global,
    sink: SinkId,
    group: &Group,
    inputs: &[Input],
    on: bool,
    tag: u32,
) -> Result<StepOutcome<Msg<P>, Group>, Refusal>
    ensures { HandledAs result (Ok (regrouped sink (with_sink_mute on group.now) inputs.now tag)) }
{
    let mut changed = group.copy(alloc)?;
    changed.mute_sink(on);
    regrouped(alloc, sink, changed, inputs, tag)
}

/// SET_SINK_VOLUME of the named sink, which has this group: its volume is set, one for all its channels or one each, the
/// ratio of each of its inputs to it stays, and the factors of those that are settled on it are posted to it. Refused, by
/// the first of these that holds: `Invalid` where a sink is named by both index and name or not at all, and for no volume or
/// one above the maximum; `NoEntity` where no such sink exists; `Invalid` for another count than 1 and that of its channels.
pub fn set_sink_volume<P: Drop>(
    alloc: Global,
    named: Named,
    group: Option<&Group>,
    inputs: &[Input],
    volume: &RawVolume,
    tag: u32,
) -> Result<StepOutcome<Msg<P>, Group>, Refusal>
    ensures { HandledAs result (set_sink_volume named (option_map (λ group. group.now) group.entry) inputs.now volume.now tag) }
{
    check(named.is_clear(), ErrorCode::Invalid)?;
    check(is_volume(volume), ErrorCode::Invalid)?;
    let sink = present(named.target(), ErrorCode::NoEntity)?;
    let Some(group) = group else {
        return Err(Refusal::Code(ErrorCode::NoEntity));
    };
    with_volume(alloc, sink.index, group, inputs, volume, tag)
}

/// SET_SINK_MUTE of the named sink, which has this group: it is muted or unmuted, and the factors of the inputs that are
/// settled on it are posted to it. Refused, by the first of these that holds: `Invalid` where a sink is named by both index
/// and name or not at all; `NoEntity` where no such sink exists.
pub fn set_sink_mute<P: Drop>(
    alloc: Global,
    named: Named,
    group: Option<&Group>,
    inputs: &[Input],
    on: bool,
    tag: u32,
) -> Result<StepOutcome<Msg<P>, Group>, Refusal>
    ensures { HandledAs result (set_sink_mute named (option_map (λ group. group.now) group.entry) inputs.now on tag) }
{
    check(named.is_clear(), ErrorCode::Invalid)?;
    let sink = present(named.target(), ErrorCode::NoEntity)?;
    let Some(group) = group else {
        return Err(Refusal::Code(ErrorCode::NoEntity));
    };
    with_mute(alloc, sink.index, group, inputs, on, tag)
}
