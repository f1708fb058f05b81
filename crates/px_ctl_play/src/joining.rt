//! A new input joins the group of its sink, with the volume that the client asks for.

ghost use Rattle.std.specs.Prelude.{◌≡◌, ◌≤◌, length, true, None, IsSome, IfOk};
ghost use Rattle.px_vol.specs.Volume.{IsChannelVolume};
ghost use Rattle.px_chmap.specs.Plan.{FeedsAll};
ghost use Rattle.px_flat.specs.Channels.{greatest_of};
ghost use Rattle.px_flat.specs.FlatVolume.{member_of};
ghost use Rattle.px_ctl_play.specs.Asked.{channels_on};
ghost use Rattle.px_ctl_play.specs.Joining.{gives_each, volume_on, leaves_volume, given_on, how_on, joined};

use crate::asked::channels_on;
use px_chmap::Feed;
use px_cmd::CreateFields;
use px_flat::{Group, How};
use px_outcome::{Input, Target};
use px_types::Mem;
use px_vol::{CVolume, NORM};
use std::alloc::Global;

// The greatest of `volumes`.
fn greatest_of(volumes: &[u32]) -> u32
    ensures { result ≡ greatest_of volumes.now }
{
    let mut greatest: u32 = 0;
    for volume in volumes {
        greatest = greatest.max(*volume);
    }
    greatest
}

// Whether the client gave one volume for all channels of the input on its sink, or one each.
fn gives_each(sink: &Target, a: &CreateFields) -> bool
    ensures { result ≡ gives_each sink.now a.now }
{
    let count = a.volume.as_slice().len();
    count == 1 || count == usize::from(channels_on(sink, a))
}

// The volumes given, on the channels that the input has on its sink: where their number is another, the greatest of them for
// all.
#[tactic(auto, using(crate::proofs::Joined::one_volume))]
fn volume_on(sink: &Target, a: &CreateFields) -> CVolume
    requires { IsChannelVolume a.now.volume }
    ensures { result ≡ volume_on sink.now a.now }
{
    if gives_each(sink, a) {
        CVolume::new(a.volume.as_slice()).unwrap()
    } else {
        CVolume::new(&[greatest_of(a.volume.as_slice())]).unwrap()
    }
}

// Whether the client leaves the volume to the server: it has the field `volume_set`, which is false.
fn leaves_volume(a: &CreateFields) -> bool
    ensures { result ≡ leaves_volume a.now }
{
    !a.volume_set.unwrap_or(true)
}

// The input's volume on its sink: the neutral one where the client leaves it to the server.
fn given_on(sink: &Target, a: &CreateFields) -> CVolume
    requires { IsChannelVolume a.now.volume }
    ensures { result ≡ given_on sink.now a.now }
{
    if leaves_volume(a) {
        CVolume::new(&[NORM]).unwrap()
    } else {
        volume_on(sink, a)
    }
}

// How that volume is meant: as a part of the sink's where the client leaves it to the server or says that it is relative, else
// as it is.
fn how_on(a: &CreateFields) -> How
    ensures { result ≡ how_on a.now }
{
    if leaves_volume(a) || a.relative_volume.unwrap_or(false) {
        How::Relative
    } else {
        How::Absolute
    }
}

/// The sink's group with the new input, not in it yet, fed by `feed`, with the volume and the mute that the client asks for.
pub(crate) fn joined(
    alloc: Global,
    group: &Group,
    sink: &Target,
    a: &CreateFields,
    feed: &Feed,
    x: &Input,
) -> Mem<Group>
    requires new { member_of group.now.members x.now.index ≡ None }
    requires some { 1 ≤ channels_on sink.now a.now }
    requires feeds { FeedsAll (channels_on sink.now a.now) (length group.now.reference) feed.now }
    requires volume { IsChannelVolume a.now.volume }
    ensures value { IfOk result (λ made. made ≡ joined group.now sink.now a.now feed.now x.now) }
    ensures there { IfOk result (λ made. IsSome (member_of made.members x.now.index)) }
{
    let mut made = group.copy(alloc)?;
    made.attach(x.index, &given_on(sink, a), how_on(a), a.muted, feed)?;
    Ok(made)
}
