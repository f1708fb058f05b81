//! An input arrives at the sink that it moves to, once the sink that it was on has detached its stream (PulseAudio:
//! `pa_sink_input_finish_move` of `pulsecore/sink-input.c`; that messages wait meanwhile is own).

ghost use Rattle.std.specs.Prelude.{◌≡◌, ◌≤◌, ◌++◌, length, replicate, IsSome, IfSome, IfOk, OnOk};
ghost use Rattle.std.specs.Option.{option_map};
ghost use Rattle.px_chmap.specs.Plan.{FeedsAll};
ghost use Rattle.px_flat.specs.FlatVolume.{member_of};
ghost use Rattle.px_flat.specs.Member.{IsMember, AreRatios};
ghost use Rattle.px_msg.specs.View.{sample_spec};
ghost use Rattle.px_outcome.specs.declared.change.Change.TheVariants.{Released};
ghost use Rattle.px_outcome.specs.Target.{IsTarget};
ghost use Rattle.px_ctl_play.specs.Answer.{sent_to};
ghost use Rattle.px_ctl_play.specs.Arrival.{hands_over, attributes_in_bytes, arrived_message, joined_by, both_regrouped, later, arrival_of, arrive, HasChannels, CanJoin};

use crate::answer::sent_to;
use crate::changes::two;
use crate::created::latency_of;
use crate::departure::{same_spec, without};
use crate::factors::{own_factors, regrouped, regrouped_and};
use crate::moving::feed_to;
use crate::notified::bytes_asked;
use px_chmap::Feed;
use px_flat::{Group, How, Member};
use px_msg::Msg;
use px_outcome::{Change, Connection, Input, Sending, Target, Way};
use px_sample::Spec;
use px_tag::Packet;
use px_types::{InputId, Mem, NoMemory, SinkId};
use px_vol::Factors;
use std::alloc::Global;
use std::marker::Model;

/// The outcome of an input's arrival at a sink, but for the parcel of its stream.
#[derive(Drop)]
pub struct Arrival<M, G> {
    /// The stream channel that feeds each channel of the sink, and the factor of each, in 16.16.
    pub feed: Feed,
    pub factors: Factors,
    /// The packets to clients.
    pub notified: Vec<Sending>,
    /// The changes after the arrival, in order.
    pub later: Vec<Change<M, G>>,
}

impl<M, G> Model for Arrival<M, G> {
    ghost use Rattle.px_ctl_play.specs.Arrival.{Arriving};

    ghost Value = { Arriving M G };

    ghost view = { λ a. record { feed = a.feed; factors = a.factors; notified = a.notified.items; later = a.later.items } };
}

/// Whether a stream with this spec is what a sink hands over for an input: the sink got the message to do so, and the spec
/// is the input's. Takes no memory.
pub fn hands_over(spec: Spec, x: &Input) -> bool
    ensures { result ≡ hands_over (sample_spec spec) x.now }
{
    x.way == Way::Left && same_spec(spec, x.spec)
}

// The buffer attributes of its stream, in bytes.
fn attributes_in_bytes(x: &Input) -> [u32; 4]
    ensures { result ≡ attributes_in_bytes x.now }
{
    [
        bytes_asked(x, x.attr.maxlength),
        bytes_asked(x, x.attr.tlength),
        bytes_asked(x, x.attr.prebuf),
        bytes_asked(x, x.attr.minreq),
    ]
}

// PLAYBACK_STREAM_MOVED.
fn arrived_message(alloc: Global, x: &Input, sink: &Target) -> px_tag::Mem<Packet>
    requires { IsTarget sink.now }
    ensures { IfOk result (λ packet. packet ≡ arrived_message x.now sink.now) }
{
    px_reply::moved(
        alloc,
        x.stream,
        u32::from(sink.index.0),
        sink.name.as_slice(),
        attributes_in_bytes(x),
        latency_of(sink),
    )
}

// The message to the connection `owner` of the input, where it is live.
fn notified(alloc: Global, x: &Input, sink: &Target, owner: Option<Connection>) -> Mem<Vec<Sending>>
    requires { IsTarget sink.now }
    ensures { IfOk result (λ sent. sent.items ≡ sent_to owner (arrived_message x.now sink.now)) }
{
    match arrived_message(alloc, x, sink) {
        Ok(packet) => sent_to(alloc, owner, packet),
        Err(_) => Err(NoMemory),
    }
}

// The member of a list for the input `index`, where there is one.
fn found(members: &[Member], index: InputId) -> Option<&Member>
    ensures { option_map (λ m. m.now) result ≡ member_of members.now index }
{
    members.iter().find(|member| member.input.0 == index.0)
}

// The input `index` as a member of a group.
fn member_of(group: &Group, index: InputId) -> Option<Member>
    ensures value { result ≡ member_of group.now.members index }
    ensures is { IfSome result (IsMember (length group.now.reference)) }
{
    match found(group.members(), index) {
        Some(member) => Some(*member),
        None => None,
    }
}

// The group of the new sink with the input, which retains both ratios and its mute.
fn joined_by(
    alloc: Global,
    x: &Input,
    m: &Member,
    sink: &Target,
    feed: &Feed,
    group: &Group,
) -> Mem<Group>
    requires sink { IsTarget sink.now }
    requires joins { CanJoin sink.now x.now.index group.now }
    requires feeds { FeedsAll (length x.now.map) (length sink.now.map) feed.now }
    requires some { 1 ≤ length x.now.map }
    requires volume { length m.now.volume ≡ length x.now.map }
    requires ratios { AreRatios (length m.now.volume) m.now.ratios }
    ensures value { IfOk result (λ made. made ≡ joined_by x.now.index m.now feed.now group.now) }
    ensures there { IfOk result (λ made. IsSome (member_of made.members x.now.index)) }
{
    let mut made = group.copy(alloc)?;
    made.attach(x.index, &m.volume, How::Kept(m.ratios), m.muted, feed)?;
    Ok(made)
}

// Releases the held messages of an input to its sink's queue, one change each.
fn release<M: Drop, G: Drop>(
    changes: &mut Vec<Change<M, G>>,
    index: InputId,
    waited: usize,
) -> Mem<()>
    ensures { OnOk result (changes.new.items ≡ changes.old.items ++ replicate waited (Released index)) }
{
    for _ in 0..waited {
        changes.push(Change::Released(index))?;
    }
    Ok(())
}

// Sets the groups of both sinks.
fn both_regrouped<P: Drop>(
    alloc: Global,
    x: &Input,
    from: Group,
    sink: SinkId,
    joined: Group,
    inputs: &[Input],
) -> Mem<Vec<Change<Msg<P>, Group>>>
    ensures { IfOk result (λ changes. changes.items ≡ both_regrouped x.now from sink joined inputs.now) }
{
    let left = regrouped(alloc, x.sink, from, inputs)?;
    match regrouped_and(alloc, sink, joined, inputs, x.index) {
        Ok(reached) => two(alloc, left, reached),
        Err(error) => {
            drop(left);
            Err(error)
        }
    }
}

// The changes after the arrival.
fn later<P: Drop>(
    alloc: Global,
    x: &Input,
    from: Group,
    sink: SinkId,
    joined: Group,
    inputs: &[Input],
    waited: usize,
) -> Mem<Vec<Change<Msg<P>, Group>>>
    ensures { IfOk result (λ changes. changes.items ≡ later x.now from sink joined inputs.now waited) }
{
    let mut changes = both_regrouped(alloc, x, from, sink, joined, inputs)?;
    release(&mut changes, x.index, waited)?;
    Ok(changes)
}

// The arrival of an input that is member `m` of its old sink's group, fed by `feed` on the new one.
fn arrival_of<P: Drop>(
    alloc: Global,
    x: &Input,
    m: &Member,
    feed: Feed,
    from: &Group,
    group: &Group,
    sink: &Target,
    owner: Option<Connection>,
    inputs: &[Input],
    waited: usize,
) -> Mem<Arrival<Msg<P>, Group>>
    requires sink { IsTarget sink.now }
    requires there { IsSome (member_of from.now.members x.now.index) }
    requires joins { CanJoin sink.now x.now.index group.now }
    requires feeds { FeedsAll (length x.now.map) (length sink.now.map) feed }
    requires some { 1 ≤ length x.now.map }
    requires volume { length m.now.volume ≡ length x.now.map }
    requires ratios { AreRatios (length m.now.volume) m.now.ratios }
    ensures { IfOk result (λ made. made ≡ arrival_of x.now m.now feed from.now group.now sink.now owner inputs.now waited) }
{
    let joined = joined_by(alloc, x, m, sink, &feed, group)?;
    let factors = own_factors(&joined, x.index);
    let notified = notified(alloc, x, sink, owner)?;
    let from = without(alloc, from, x.index)?;
    let later = later(alloc, x, from, sink.index, joined, inputs, waited)?;
    Ok(Arrival {
        feed,
        factors,
        notified,
        later,
    })
}

/// The outcome of an input's arrival at the sink that it moves to, but for the parcel of its stream: from a sink with the
/// group `from` to one with `group`. `waited` of its messages are held. The input leaves the first group and joins the
/// second, where its ratios and its mute stay; the factors of the inputs that stay are posted to the old sink, and to the
/// new one those of all that are settled there then, followed by the held messages; the client is notified of the new sink,
/// where `owner`, the connection of the input, is live. `None` where it isn't in the first group, and where no channel plan
/// feeds the sink's channels from its own.
pub fn arrive<P: Drop>(
    alloc: Global,
    x: &Input,
    from: &Group,
    group: &Group,
    sink: &Target,
    owner: Option<Connection>,
    inputs: &[Input],
    waited: usize,
) -> Mem<Option<Arrival<Msg<P>, Group>>>
    requires sink { IsTarget sink.now }
    requires some { 1 ≤ length x.now.map }
    requires channels { HasChannels x.now from.now }
    requires joins { CanJoin sink.now x.now.index group.now }
    ensures { IfOk result (λ made. made ≡ arrive x.now from.now group.now sink.now owner inputs.now waited) }
{
    let Some(m) = member_of(from, x.index) else {
        return Ok(None);
    };
    let Some(feed) = feed_to(x, &sink.map) else {
        return Ok(None);
    };
    let made = arrival_of(alloc, x, &m, feed, from, group, sink, owner, inputs, waited)?;
    Ok(Some(made))
}
