//! SET_SINK_INPUT_VOLUME and SET_SINK_INPUT_MUTE (PulseAudio: `command_set_volume` and `command_set_mute` of
//! `pulsecore/protocol-native.c`; that one volume is for all channels, and that a moving input is busy, is own).

ghost use Rattle.std.specs.Prelude.{◌≡◌, length, IsSome, IfSome, Ok};
ghost use Rattle.std.specs.Option.{option_map};
ghost use Rattle.px_vol.specs.Volume.{IsChannelVolume};
ghost use Rattle.px_flat.specs.Member.{SuitsChannels};
ghost use Rattle.px_flat.specs.FlatVolume.{member_of, with_input_volume, with_input_mute};
ghost use Rattle.px_outcome.specs.Input.{is_moving};
ghost use Rattle.px_outcome.specs.Handled.{HandledAs};
ghost use Rattle.px_ctl_vol.specs.Factors.{regrouped};
ghost use Rattle.px_ctl_vol.specs.Inputs.{with_suiting_volume, set_input_volume, set_input_mute};

use crate::asked::{asked, fits, is_volume};
use crate::factors::regrouped;
use px_flat::{Group, Member};
use px_msg::Msg;
use px_outcome::{Input, Refusal, Standing, StepOutcome, check, present};
use px_tag::RawVolume;
use px_types::{ErrorCode, InputId};
use std::alloc::Global;

// The member of an input, where there is one.
fn found(members: &[Member], input: InputId) -> Option<&Member>
    ensures { option_map (λ m. m.now) result ≡ member_of members.now input }
{
    members.iter().find(|member| member.input.0 == input.0)
}

// The same, as a copy.
fn member_of(members: &[Member], input: InputId) -> Option<Member>
    ensures { result ≡ member_of members.now input }
{
    match found(members, input) {
        Some(member) => Some(*member),
        None => None,
    }
}

// Whether an input is moving to another sink.
fn is_moving(standing: Standing) -> bool
    ensures { result ≡ is_moving standing }
{
    matches!(standing, Standing::Moving(_))
}

// Sets the volume of the input; the sink and its other inputs follow.
fn with_volume<P: Drop>(
    alloc: Global,
    x: &Input,
    group: &Group,
    inputs: &[Input],
    volume: &RawVolume,
    tag: u32,
) -> Result<StepOutcome<Msg<P>, Group>, Refusal>
    requires valid { IsChannelVolume volume.now }
    requires there { IsSome (member_of group.now.members x.now.index) }
    requires suits { IfSome (member_of group.now.members x.now.index) (λ m. SuitsChannels volume.now (length m.volume)) }
    ensures { HandledAs result (Ok (regrouped x.now.sink (with_input_volume x.now.index volume.now group.now) inputs.now tag)) }
{
    let mut changed = group.copy(alloc)?;
    changed.set_input(x.index, &asked(volume));
    regrouped(alloc, x.sink, changed, inputs, tag)
}

// Sets the volume of the input, a member of this group, where it fits its channels and the input isn't moving.
fn with_suiting_volume<P: Drop>(
    alloc: Global,
    x: &Input,
    group: &Group,
    inputs: &[Input],
    volume: &RawVolume,
    tag: u32,
) -> Result<StepOutcome<Msg<P>, Group>, Refusal>
    requires { IsChannelVolume volume.now }
    ensures { HandledAs result (with_suiting_volume x.now group.now inputs.now volume.now tag) }
{
    let member = present(member_of(group.members(), x.index), ErrorCode::NoEntity)?;
    check(
        fits(volume, member.volume.values().len()),
        ErrorCode::Invalid,
    )?;
    check(!is_moving(x.standing), ErrorCode::Busy)?;
    with_volume(alloc, x, group, inputs, volume, tag)
}

// Mutes or unmutes the input.
fn with_mute<P: Drop>(
    alloc: Global,
    x: &Input,
    group: &Group,
    inputs: &[Input],
    on: bool,
    tag: u32,
) -> Result<StepOutcome<Msg<P>, Group>, Refusal>
    requires { IsSome (member_of group.now.members x.now.index) }
    ensures { HandledAs result (Ok (regrouped x.now.sink (with_input_mute x.now.index on group.now) inputs.now tag)) }
{
    let mut changed = group.copy(alloc)?;
    changed.mute_input(x.index, on);
    regrouped(alloc, x.sink, changed, inputs, tag)
}

/// SET_SINK_INPUT_VOLUME of an input, where the sink that it is on has this group: its volume is set, one for all channels
/// of its stream or one each, the sink's volume is raised to it where it is below, and the factors of the inputs that are
/// settled on the sink are posted to it. Refused, by the first of these that holds: `Invalid` for no volume or one above the
/// maximum; `NoEntity` where no such input exists; `Invalid` for another count than 1 and that of its channels; `Busy`
/// where it is moving to another sink.
pub fn set_input_volume<P: Drop>(
    alloc: Global,
    input: Option<Input>,
    group: Option<&Group>,
    inputs: &[Input],
    volume: &RawVolume,
    tag: u32,
) -> Result<StepOutcome<Msg<P>, Group>, Refusal>
    ensures { HandledAs result (set_input_volume input (option_map (λ group. group.now) group.entry) inputs.now volume.now tag) }
{
    check(is_volume(volume), ErrorCode::Invalid)?;
    let x = present(input, ErrorCode::NoEntity)?;
    let Some(group) = group else {
        return Err(Refusal::Code(ErrorCode::NoEntity));
    };
    with_suiting_volume(alloc, &x, group, inputs, volume, tag)
}

/// SET_SINK_INPUT_MUTE of an input, where the sink that it is on has this group: it is muted or unmuted, and the factors of
/// the inputs that are settled on the sink are posted to it. Refused, by the first of these that holds: `NoEntity` where no
/// such input exists; `Busy` where it is moving to another sink.
pub fn set_input_mute<P: Drop>(
    alloc: Global,
    input: Option<Input>,
    group: Option<&Group>,
    inputs: &[Input],
    on: bool,
    tag: u32,
) -> Result<StepOutcome<Msg<P>, Group>, Refusal>
    ensures { HandledAs result (set_input_mute input (option_map (λ group. group.now) group.entry) inputs.now on tag) }
{
    let x = present(input, ErrorCode::NoEntity)?;
    let Some(group) = group else {
        return Err(Refusal::Code(ErrorCode::NoEntity));
    };
    present(member_of(group.members(), x.index), ErrorCode::NoEntity)?;
    check(!is_moving(x.standing), ErrorCode::Busy)?;
    with_mute(alloc, &x, group, inputs, on, tag)
}
