//! The message and the reply that announce a new stream: to its sink, and to the client that created it.

ghost use Rattle.std.specs.Prelude.{◌≡◌, ◌≤◌, IsSome, IfOk};
ghost use Rattle.px_flat.specs.FlatVolume.{member_of};
ghost use Rattle.px_model.specs.Orderly.{IsRepaired};
ghost use Rattle.px_msg.specs.Repair.{IsWithinBytes};
ghost use Rattle.px_reply.specs.Message.{created_reply};
ghost use Rattle.px_outcome.specs.Target.{IsTarget};
ghost use Rattle.px_ctl_play.specs.Create.{new_of, latency_of, created_of};

use crate::asked::positions_on;
use crate::factors::own_factors;
use crate::time::microseconds;
use px_chmap::Feed;
use px_cmd::CreateFields;
use px_flat::Group;
use px_msg::{Msg, NewStream, in_bytes};
use px_outcome::{Input, Target, raw_of};
use px_reply::Created;
use px_tag::{Packet, RawMap};
use std::alloc::Global;

/// The message that brings the stream of `x`, a member of the sink's group `group`, to its sink; `feed` is the stream
/// channel that feeds each of the sink's channels. Takes no memory.
pub(crate) fn new_of<P>(a: &CreateFields, group: &Group, feed: Feed, x: &Input) -> Msg<P>
    requires { IsSome (member_of group.now.members x.now.index) }
    ensures { result ≡ new_of a.now group.now feed x.now }
{
    Msg::New(NewStream {
        input: x.index,
        spec: x.spec,
        feed,
        factors: own_factors(group, x.index),
        attr: x.attr,
        corked: a.corked,
    })
}

/// The longest time that a frame waits before the sink plays it, in microseconds. Takes no memory.
pub(crate) fn latency_of(sink: &Target) -> u64
    requires { IsTarget sink.now }
    ensures { result ≡ latency_of sink.now }
{
    microseconds(sink.spec.rate, sink.depth)
}

// The fields of the reply to the client that created the stream. The stream has a channel and repaired attributes.
fn created_of(sink: Target, a: &CreateFields, x: &Input) -> Created
    requires sink { IsTarget sink }
    requires channels { 1 ≤ x.now.spec.channels }
    requires repaired { IsRepaired x.now.attr }
    requires bytes { IsWithinBytes x.now.spec x.now.attr }
    ensures { result ≡ created_of sink a.now x.now }
{
    Created {
        stream: x.stream,
        input: x.index.0,
        attr: in_bytes(&x.spec, &x.attr),
        spec: raw_of(&x.spec),
        map: RawMap::new(positions_on(&sink, a)),
        sink: u32::from(x.sink.0),
        usec: latency_of(&sink),
        name: sink.name,
    }
}

/// The reply packet to the client that created a stream of 1 to 32 channels with repaired attributes.
pub(crate) fn reply_of(
    alloc: Global,
    tag: u32,
    sink: Target,
    a: &CreateFields,
    x: &Input,
) -> px_tag::Mem<Packet>
    requires sink { IsTarget sink }
    requires some { 1 ≤ x.now.spec.channels }
    requires few { x.now.spec.channels ≤ 32 }
    requires repaired { IsRepaired x.now.attr }
    requires bytes { IsWithinBytes x.now.spec x.now.attr }
    ensures { IfOk result (λ packet. packet ≡ created_reply tag (created_of sink a.now x.now)) }
{
    px_reply::created(alloc, tag, &created_of(sink, a, x))
}
