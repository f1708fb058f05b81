//! The infos of sinks and of sink inputs (PulseAudio: `sink_fill_tagstruct`, `sink_input_fill_tagstruct`, `command_get_info`
//! and `command_get_info_list` of `pulsecore/protocol-native.c`).

ghost use Rattle.std.specs.Prelude.{◌≡◌, ℕ, ◌<◌, ◌≤◌, ◌++◌, ◌∷◌, [], List, length, drop, slice_index_or, All, IsTrue, IfOk, IfSome, OnOk, Ok};
ghost use Rattle.std.specs.Option.{option_map};
ghost use Rattle.px_tag.specs.Item.{IsText};
ghost use Rattle.px_flat.specs.FlatVolume.{FlatGroup, member_of};
ghost use Rattle.px_flat.specs.declared.member.Member.{Member as DeclaredMember};
ghost use Rattle.px_names.specs.InputLists.{list_of};
ghost use Rattle.px_reply.specs.Front.{reply_to};
ghost use Rattle.px_reply.specs.Info.{with_sink, with_input};
ghost use Rattle.px_outcome.specs.declared.input.Input.{Input};
ghost use Rattle.px_outcome.specs.declared.target.Target.{Target};
ghost use Rattle.px_outcome.specs.Input.{goes_on};
ghost use Rattle.px_outcome.specs.Outcome.{replied};
ghost use Rattle.px_outcome.specs.Handled.{HandledAs};
ghost use Rattle.px_outcome.specs.Target.{IsTarget, IsNamed};
ghost use Rattle.px_ctl_info.specs.Properties.{STREAM_NAME, text_under};
ghost use Rattle.px_ctl_info.specs.Infos.{IsSinkInfo, IsInputInfo, sink_of, group_on, sink_info, sink_info_list, sink_infos, RisesFrom, first_of, member_on, input_of, input_info, input_info_list, input_infos};

use crate::properties::text_under;
use px_flat::{Group, Member};
use px_names::InputLists;
use px_outcome::{Input, Named, Refusal, Standing, StepOutcome, Target, check, present, raw_of};
use px_reply::{InputInfo, SinkInfo};
use px_tag::{PropList, RawMap, RawVolume};
use px_types::{ErrorCode, InputId, Mem, NoMemory, Text};
use std::alloc::Global;

// ---- sinks

// The info of a sink.
fn sink_of(alloc: Global, sink: &Target, group: &Group) -> Mem<SinkInfo>
    requires { IsTarget sink.now }
    ensures value { IfOk result (λ info. info ≡ sink_of sink.now group.now) }
    ensures writable { IfOk result IsSinkInfo }
{
    Ok(SinkInfo {
        index: u32::from(sink.index.0),
        name: Text::copied(alloc, sink.name.as_slice())?,
        spec: raw_of(&sink.spec),
        map: RawMap::new(sink.map.positions()),
        volume: RawVolume::new(group.reference().values()),
        mute: group.muted(),
    })
}

// The group of a sink.
fn group_on<'a>(groups: &'a [Group], sink: &Target) -> Option<&'a Group>
    ensures { option_map (λ g. g.now) result ≡ group_on groups.now sink.now }
{
    groups.get(usize::from(sink.index.0))
}

// The reply with the info of a sink with its group.
fn sink_reply<M: Drop, G: Drop>(
    alloc: Global,
    sink: &Target,
    group: &Group,
    version: u16,
    tag: u32,
) -> Result<StepOutcome<M, G>, Refusal>
    requires { IsTarget sink.now }
    ensures { HandledAs result (Ok (replied (with_sink version (reply_to tag) (sink_of sink.now group.now)) [])) }
{
    let info = sink_of(alloc, sink, group)?;
    let reply = px_reply::sink_info(alloc, tag, version, &info)?;
    Ok(StepOutcome::replied(alloc, reply, Vec::new(alloc)))
}

/// GET_SINK_INFO of the named sink at a client's version, where each sink has the group of its index. Refused: `Invalid`
/// where index and name don't select one sink, then `NoEntity` where it doesn't exist.
pub fn sink_info<M: Drop, G: Drop>(
    alloc: Global,
    named: Named,
    groups: &[Group],
    version: u16,
    tag: u32,
) -> Result<StepOutcome<M, G>, Refusal>
    requires { IsNamed named }
    ensures { HandledAs result (sink_info named groups.now version tag) }
{
    check(named.is_clear(), ErrorCode::Invalid)?;
    let sink = present(named.target(), ErrorCode::NoEntity)?;
    let Some(group) = group_on(groups, &sink) else {
        return Err(Refusal::Code(ErrorCode::NoEntity));
    };
    sink_reply(alloc, &sink, group, version, tag)
}

// Adds the info of one more sink.
#[tactic(auto, using(crate::proofs::Sayable::one_more_sink))]
fn add_sink(alloc: Global, infos: &mut Vec<SinkInfo>, sink: &Target, groups: &[Group]) -> Mem<()>
    requires { IsTarget sink.now }
    ensures value { OnOk result ((more : List Target) → infos.new.items ++ sink_info_list groups.now more ≡ infos.old.items ++ sink_info_list groups.now (sink.now ∷ more)) }
    ensures writable { OnOk result (All IsSinkInfo infos.old.items → All IsSinkInfo infos.new.items) }
{
    if let Some(group) = group_on(groups, sink) {
        infos.push(sink_of(alloc, sink, group)?)?;
    }
    Ok(())
}

/// The infos of those of these sinks that have a group, in their order.
pub fn sink_info_list(alloc: Global, sinks: &[Target], groups: &[Group]) -> Mem<Vec<SinkInfo>>
    requires { All IsTarget sinks.now }
    ensures value { IfOk result (λ infos. infos.items ≡ sink_info_list groups.now sinks.now) }
    ensures writable { IfOk result (λ infos. All IsSinkInfo infos.items) }
{
    let mut infos = Vec::new(alloc);
    for sink in sinks {
        add_sink(alloc, &mut infos, sink, groups)?;
    }
    Ok(infos)
}

/// GET_SINK_INFO_LIST at a client's version: these sinks in their order, each with the group of its index.
pub fn sink_infos<M: Drop, G: Drop>(
    alloc: Global,
    sinks: &[Target],
    groups: &[Group],
    version: u16,
    tag: u32,
) -> Result<StepOutcome<M, G>, Refusal>
    requires { All IsTarget sinks.now }
    ensures { HandledAs result (sink_infos sinks.now groups.now version tag) }
{
    let infos = sink_info_list(alloc, sinks, groups)?;
    let reply = px_reply::sink_infos(alloc, tag, version, infos.as_slice())?;
    Ok(StepOutcome::replied(alloc, reply, Vec::new(alloc)))
}

// ---- sink inputs

// Whether the indices of these members rise, as they do until an input moves.
fn rise(members: &[Member]) -> bool
    ensures { IsTrue result → RisesFrom 0 members.now }
{
    let mut least = 0;
    for m in members {
        let index = m.input.0 as usize;
        if index < least {
            return false;
        }
        least = index + 1;
    }
    true
}

// Whether the indices of each group's members rise.
fn all_rise(groups: &[Group]) -> bool
    ensures { IsTrue result → All (λ g. RisesFrom 0 (FlatGroup.members g)) groups.now }
{
    for group in groups {
        if !rise(group.members()) {
            return false;
        }
    }
    true
}

// The number of members with an index below `input`, by halves.
fn lower(members: &[Member], input: InputId) -> usize
    requires { RisesFrom 0 members.now }
    ensures below { (k : ℕ) (d : DeclaredMember) → k < result → (DeclaredMember.input (slice_index_or members.now k d)).0 < input.0 }
    ensures few { result ≤ length members.now }
    ensures end { (d : DeclaredMember) → result < length members.now → input.0 ≤ (DeclaredMember.input (slice_index_or members.now result d)).0 }
{
    members.partition_point(|m| m.input.0 < input.0)
}

// The member at `place`, where it has this index.
fn member_at(members: &[Member], place: usize, input: InputId) -> Option<&Member>
    ensures { option_map (λ m. m.now) result ≡ first_of input (drop place members.now) }
{
    match members.get(place) {
        Some(m) if m.input.0 == input.0 => Some(m),
        _ => None,
    }
}

// The member with an index: by halves, where the indices of the members are known to rise.
fn member_in(members: &[Member], rising: bool, input: InputId) -> Option<&Member>
    requires { IsTrue rising → RisesFrom 0 members.now }
    ensures { option_map (λ m. m.now) result ≡ member_of members.now input }
{
    if !rising {
        return members.iter().find(|m| m.input.0 == input.0);
    }
    let place = lower(members, input);
    member_at(members, place, input)
}

// An input as a member of its sink's group, where the indices of each group's members are known to rise, or not.
fn member_on<'a>(groups: &'a [Group], rising: bool, x: &Input) -> Option<&'a Member>
    requires { IsTrue rising → All (λ g. RisesFrom 0 (FlatGroup.members g)) groups.now }
    ensures { option_map (λ m. m.now) result ≡ member_on groups.now x.now }
{
    match groups.get(usize::from(x.sink.0)) {
        None => None,
        Some(group) => member_in(group.members(), rising, x.index),
    }
}

// The name in a stream's property list.
fn name_of(alloc: Global, list: &PropList) -> Mem<Option<Text>>
    ensures value { IfOk result (λ name. name ≡ text_under list.now STREAM_NAME) }
    ensures text { IfOk result IsText }
{
    match text_under(list, b"media.name") {
        None => Ok(None),
        Some(name) => Ok(Some(Text::copied(alloc, name)?)),
    }
}

// The info of an input with this property list.
fn input_of(alloc: Global, x: &Input, m: &Member, list: PropList) -> Mem<InputInfo>
    requires { x.now.spec.channels ≤ 32 }
    ensures value { IfOk result (λ info. info ≡ input_of x.now m.now list) }
    ensures writable { IfOk result IsInputInfo }
{
    Ok(InputInfo {
        index: x.index.0,
        name: name_of(alloc, &list)?,
        client: x.client,
        sink: u32::from(x.sink.0),
        spec: raw_of(&x.spec),
        map: RawMap::new(x.map.positions()),
        volume: RawVolume::new(m.volume.values()),
        mute: m.muted,
        list,
    })
}

// The info of an input that is a member.
fn input_info_of(alloc: Global, x: &Input, m: &Member, lists: &InputLists) -> Mem<InputInfo>
    requires { x.now.spec.channels ≤ 32 }
    ensures value { IfOk result (λ info. info ≡ input_of x.now m.now (list_of lists.now.items x.now.index)) }
    ensures writable { IfOk result IsInputInfo }
{
    match lists.copy_of(x.index) {
        Ok(list) => input_of(alloc, x, m, list),
        Err(_) => Err(NoMemory),
    }
}

// The reply with the info of an input that is a member.
fn input_reply<M: Drop, G: Drop>(
    alloc: Global,
    x: &Input,
    m: &Member,
    lists: &InputLists,
    tag: u32,
) -> Result<StepOutcome<M, G>, Refusal>
    requires { x.now.spec.channels ≤ 32 }
    ensures { HandledAs result (Ok (replied (with_input (reply_to tag) (input_of x.now m.now (list_of lists.now.items x.now.index))) [])) }
{
    let info = input_info_of(alloc, x, m, lists)?;
    let reply = px_reply::input_info(alloc, tag, &info)?;
    Ok(StepOutcome::replied(alloc, reply, Vec::new(alloc)))
}

/// GET_SINK_INPUT_INFO of this input, of at most 32 channels, where each sink has the group of its index. Refused:
/// `NoEntity` where there is no such input.
pub fn input_info<M: Drop, G: Drop>(
    alloc: Global,
    input: Option<Input>,
    groups: &[Group],
    lists: &InputLists,
    tag: u32,
) -> Result<StepOutcome<M, G>, Refusal>
    requires { IfSome input (λ x. x.spec.channels ≤ 32) }
    ensures { HandledAs result (input_info input groups.now lists.now.items tag) }
{
    let x = present(input, ErrorCode::NoEntity)?;
    let Some(m) = member_on(groups, false, &x) else {
        return Err(Refusal::Code(ErrorCode::NoEntity));
    };
    input_reply(alloc, &x, m, lists, tag)
}

// Whether an input is live: it hasn't ended.
fn goes_on(x: &Input) -> bool
    ensures { result ≡ goes_on x.now }
{
    !matches!(x.standing, Standing::Leaving)
}

// Adds the info of one more input, where it is live.
#[tactic(auto, using(crate::proofs::Sayable::one_more_input))]
fn add_input(
    alloc: Global,
    infos: &mut Vec<InputInfo>,
    x: &Input,
    groups: &[Group],
    rising: bool,
    lists: &InputLists,
) -> Mem<()>
    requires channels { x.now.spec.channels ≤ 32 }
    requires rising { IsTrue rising → All (λ g. RisesFrom 0 (FlatGroup.members g)) groups.now }
    ensures value { OnOk result ((more : List Input) → infos.new.items ++ input_info_list groups.now lists.now.items more ≡ infos.old.items ++ input_info_list groups.now lists.now.items (x.now ∷ more)) }
    ensures writable { OnOk result (All IsInputInfo infos.old.items → All IsInputInfo infos.new.items) }
{
    if !goes_on(x) {
        return Ok(());
    }
    if let Some(m) = member_on(groups, rising, x) {
        infos.push(input_info_of(alloc, x, m, lists)?)?;
    }
    Ok(())
}

/// The infos of those of these inputs that are live and members of their sinks' groups, in their order.
pub fn input_info_list(
    alloc: Global,
    inputs: &[Input],
    groups: &[Group],
    lists: &InputLists,
) -> Mem<Vec<InputInfo>>
    requires { All (λ x. (Input.spec x).channels ≤ 32) inputs.now }
    ensures value { IfOk result (λ infos. infos.items ≡ input_info_list groups.now lists.now.items inputs.now) }
    ensures writable { IfOk result (λ infos. All IsInputInfo infos.items) }
{
    let rising = all_rise(groups);
    let mut infos = Vec::with_capacity(alloc, inputs.len())?;
    for x in inputs {
        add_input(alloc, &mut infos, x, groups, rising, lists)?;
    }
    Ok(infos)
}

/// GET_SINK_INPUT_INFO_LIST: the live ones of these inputs, each of at most 32 channels, in their order. Each sink has the
/// group of its index.
pub fn input_infos<M: Drop, G: Drop>(
    alloc: Global,
    inputs: &[Input],
    groups: &[Group],
    lists: &InputLists,
    tag: u32,
) -> Result<StepOutcome<M, G>, Refusal>
    requires { All (λ x. (Input.spec x).channels ≤ 32) inputs.now }
    ensures { HandledAs result (input_infos inputs.now groups.now lists.now.items tag) }
{
    let infos = input_info_list(alloc, inputs, groups, lists)?;
    let reply = px_reply::input_infos(alloc, tag, infos.as_slice())?;
    Ok(StepOutcome::replied(alloc, reply, Vec::new(alloc)))
}
