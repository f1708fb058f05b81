//! CREATE_PLAYBACK_STREAM (PulseAudio: `command_create_playback_stream` of `pulsecore/protocol-native.c`).

ghost use Rattle.std.specs.Prelude.{◌≡◌, ◌+◌, ◌<◌, ◌≤◌, ◌∷◌, [], length, IfOk, IsSome, Ok};
ghost use Rattle.std.specs.Option.{option_map};
ghost use Rattle.px_chmap.specs.ChannelMap.{IsChannelMap};
ghost use Rattle.px_chmap.specs.Plan.{FeedsAll};
ghost use Rattle.px_vol.specs.Volume.{IsChannelVolume};
ghost use Rattle.px_flat.specs.FlatVolume.{member_of};
ghost use Rattle.px_model.specs.Orderly.{IsRepaired};
ghost use Rattle.px_msg.specs.Repair.{IsWithinBytes};
ghost use Rattle.px_outcome.specs.Handled.{HandledAs};
ghost use Rattle.px_outcome.specs.Target.{IsTarget, IsNamed};
ghost use Rattle.px_outcome.specs.declared.change.Change.TheVariants.{Made, Described};
ghost use Rattle.px_ctl_play.specs.Asked.{channels_on};
ghost use Rattle.px_ctl_play.specs.Joining.{IsReady, IsReadyAt};
ghost use Rattle.px_ctl_play.specs.Create.{input_made, new_of, begun, changes_of, created, create_on, create};

use crate::asked::{attr_on, feed_on, is_lawful, map_on, spec_on};
use crate::changes::{and_then, one};
use crate::created::{new_of, reply_of};
use crate::factors::regrouped_with;
use crate::joining::joined;
use crate::refusals::{has_room, is_supported};
use px_chmap::Feed;
use px_cmd::CreateFields;
use px_flat::Group;
use px_msg::Msg;
use px_outcome::{
    Change, Connection, Input, Named, Refusal, Standing, StepOutcome, Target, Way, check, present,
};
use px_types::{ErrorCode, InputId, Mem, NoMemory};
use std::alloc::Global;

// The input that a connection creates on a sink.
fn input_made(made: u32, me: &Connection, sink: &Target, a: &CreateFields) -> Input
    requires sink { IsTarget sink.now }
    requires some { 1 ≤ a.now.spec.channels }
    requires few { a.now.spec.channels ≤ 32 }
    requires map { IsChannelMap a.now.map }
    ensures value { result ≡ input_made made me.now sink.now a.now }
    ensures some { 1 ≤ result.spec.channels }
    ensures few { result.spec.channels ≤ 32 }
    ensures repaired { IsRepaired result.attr }
    ensures bytes { IsWithinBytes result.spec result.attr }
{
    Input {
        index: InputId(made),
        conn: me.conn,
        client: me.client,
        stream: me.streams,
        sink: sink.index,
        spec: spec_on(sink, a),
        map: map_on(sink, a),
        no_move: a.no_move,
        no_remap: a.no_remap,
        no_remix: a.no_remix,
        attr: attr_on(sink, a),
        way: Way::Coming,
        standing: Standing::Settled,
    }
}

// Sets the property list that the client gave the input.
fn described<M: Drop, G: Drop>(input: InputId, a: &CreateFields) -> Mem<Change<M, G>>
    ensures { IfOk result (λ change. change ≡ Described input a.now.list) }
{
    match a.list.copy() {
        Ok(list) => Ok(Change::Described(input, list)),
        Err(_) => Err(NoMemory),
    }
}

// The first change of a new stream: its input is added, and the stream is posted to its sink.
fn made_on<P: Drop>(
    alloc: Global,
    made: u32,
    me: &Connection,
    a: &CreateFields,
    group: &Group,
    feed: Feed,
    x: &Input,
) -> Mem<Vec<Change<Msg<P>, Group>>>
    requires there { IsSome (member_of group.now.members x.now.index) }
    requires inputs { made < 4294967295 }
    requires streams { me.now.streams < 4294967295 }
    ensures { IfOk result (λ changes. changes.items ≡ Made x.now (new_of a.now group.now feed x.now) (me.now.streams + 1) (made + 1) ∷ []) }
{
    let change = Change::Made {
        input: *x,
        new: new_of(a, group, feed, x),
        streams: me.streams + 1,
        inputs: made + 1,
    };
    one(alloc, change)
}

// The first changes of a new stream: the stream is posted to its sink, and the sink gets this group, in which the input is.
fn begun<P: Drop>(
    alloc: Global,
    inputs: &[Input],
    made: u32,
    me: &Connection,
    a: &CreateFields,
    group: Group,
    feed: Feed,
    x: &Input,
) -> Mem<Vec<Change<Msg<P>, Group>>>
    requires there { IsSome (member_of group.members x.now.index) }
    requires inputs { made < 4294967295 }
    requires streams { me.now.streams < 4294967295 }
    ensures { IfOk result (λ changes. changes.items ≡ begun inputs.now made me.now a.now group feed x.now) }
{
    let changes = made_on(alloc, made, me, a, &group, feed, x)?;
    match regrouped_with(alloc, x.sink, group, inputs, x) {
        Ok(regrouped) => and_then(changes, regrouped),
        Err(error) => {
            drop(changes);
            Err(error)
        }
    }
}

// The changes of a new stream whose input is in this group of its sink.
fn changes_of<P: Drop>(
    alloc: Global,
    inputs: &[Input],
    made: u32,
    me: &Connection,
    a: &CreateFields,
    group: Group,
    feed: Feed,
    x: Input,
) -> Mem<Vec<Change<Msg<P>, Group>>>
    requires there { IsSome (member_of group.members x.index) }
    requires inputs { made < 4294967295 }
    requires streams { me.now.streams < 4294967295 }
    ensures { IfOk result (λ changes. changes.items ≡ changes_of inputs.now made me.now a.now group feed x) }
{
    let changes = begun(alloc, inputs, made, me, a, group, feed, &x)?;
    match described(x.index, a) {
        Ok(described) => and_then(changes, described),
        Err(error) => {
            drop(changes);
            Err(error)
        }
    }
}

// Creates the stream.
fn created<P: Drop>(
    alloc: Global,
    inputs: &[Input],
    made: u32,
    me: &Connection,
    tag: u32,
    sink: Target,
    group: &Group,
    a: &CreateFields,
    feed: Feed,
) -> Result<StepOutcome<Msg<P>, Group>, Refusal>
    requires sink { IsTarget sink }
    requires ready { IsReady sink made group.now }
    requires some { 1 ≤ a.now.spec.channels }
    requires few { a.now.spec.channels ≤ 32 }
    requires map { IsChannelMap a.now.map }
    requires volume { IsChannelVolume a.now.volume }
    requires feeds { FeedsAll (channels_on sink a.now) sink.spec.channels feed }
    requires inputs { made < 4294967295 }
    requires streams { me.now.streams < 4294967295 }
    ensures { HandledAs result (Ok (created inputs.now made me.now tag sink group.now a.now feed (input_made made me.now sink a.now))) }
{
    let x = input_made(made, me, &sink, a);
    let group = joined(alloc, group, &sink, a, &feed, &x)?;
    let changes = changes_of(alloc, inputs, made, me, a, group, feed, x)?;
    match reply_of(alloc, tag, sink, a, &x) {
        Ok(reply) => Ok(StepOutcome::replied(alloc, reply, changes)),
        Err(_) => {
            drop(changes);
            Err(Refusal::NoMemory)
        }
    }
}

// Creates the stream on this sink, which has this group, where the sink can play it and there is room for it.
fn create_on<P: Drop>(
    alloc: Global,
    inputs: &[Input],
    made: u32,
    me: &Connection,
    tag: u32,
    sink: Target,
    group: &Group,
    a: &CreateFields,
) -> Result<StepOutcome<Msg<P>, Group>, Refusal>
    requires sink { IsTarget sink }
    requires ready { IsReady sink made group.now }
    requires some { 1 ≤ a.now.spec.channels }
    requires few { a.now.spec.channels ≤ 32 }
    requires map { IsChannelMap a.now.map }
    requires length { a.now.spec.channels ≡ length a.now.map }
    requires volume { IsChannelVolume a.now.volume }
    ensures { HandledAs result (create_on inputs.now made me.now tag sink group.now a.now) }
{
    check(is_supported(&sink, a), ErrorCode::NotSupported)?;
    let feed = present(feed_on(&sink, a), ErrorCode::NotSupported)?;
    check(has_room(inputs, made, me, sink.index), ErrorCode::TooLarge)?;
    created(alloc, inputs, made, me, tag, sink, group, a, feed)
}

/// CREATE_PLAYBACK_STREAM of a connection, where `inputs` are all inputs, `made` were ever made, and the named sink has this
/// group, which can take one more: a stream is created on the sink. Its volume in the sink's group is the one given, as a part
/// of the sink's where `relative_volume` is true; where `volume_set` is false, it is the sink's. Refused, by the first of
/// these that holds: `Invalid` for an unlawful spec, map or volumes, and where a sink is named by both index and name;
/// `NoEntity` where no such sink exists; `NotSupported` for floating point, a variable rate, another rate than the sink's or
/// passthrough, and where no channel plan feeds the sink's channels from the stream's; `TooLarge` where 256 inputs are bound
/// for the sink, or 1,024 are live in all, or no number is left. Format, rate and channel map are the sink's where the client
/// says so. Own: PulseAudio resamples, mixes channels and has passthrough, and has no such limits; `early_requests` and
/// `muted_set` have no effect.
pub fn create<P: Drop>(
    alloc: Global,
    inputs: &[Input],
    made: u32,
    me: &Connection,
    tag: u32,
    named: Named,
    group: Option<&Group>,
    a: &CreateFields,
) -> Result<StepOutcome<Msg<P>, Group>, Refusal>
    requires named { IsNamed named }
    requires ready { IsReadyAt named made (option_map (λ g. g.now) group) }
    ensures { HandledAs result (create inputs.now made me.now tag named (option_map (λ g. g.now) group.entry) a.now) }
{
    check(is_lawful(a), ErrorCode::Invalid)?;
    check(named.is_clear(), ErrorCode::Invalid)?;
    let sink = present(named.target(), ErrorCode::NoEntity)?;
    let Some(group) = group else {
        return Err(Refusal::Code(ErrorCode::NoEntity));
    };
    create_on(alloc, inputs, made, me, tag, sink, group, a)
}
