//! All members of a group. No call takes memory.
ghost use Rattle.std.specs.Prelude.{◌≡◌, ◌<◌, ◌≤◌, length, map, IsSome, IfSome, Some};
ghost use Rattle.std.specs.List.{AllByRecursion, position};
ghost use Rattle.std.specs.Option.{option_map};
ghost use Rattle.px_vol.specs.Volume.{greatest};
ghost use Rattle.px_flat.specs.Member.{IsMember, SuitsChannels, is_input, with_volume, with_mute, at_reference, to_reference, to_real};
ghost use Rattle.px_flat.specs.FlatVolume.{member_of, change_first, without_first, real_at, real_over, followed_over, raised_over, settled_over};

use crate::channels::{in_channels, raised};
use crate::member::Member;
use px_types::InputId;
use px_vol::CVolume;

/// The place of an input's member.
pub fn place_of(members: &[Member], input: InputId) -> Option<usize>
    ensures { result ≡ position (is_input input) members.now }
{
    members.iter().position(|member| member.input.0 == input.0)
}

/// The member of an input, if it is in the group.
pub fn found(members: &[Member], input: InputId) -> Option<&Member>
    ensures { option_map (λ m. m.now) result ≡ member_of members.now input }
{
    members.iter().find(|member| member.input.0 == input.0)
}

/// The member of an input that is in the group.
pub fn member_of(members: &[Member], input: InputId) -> &Member
    requires { IsSome (member_of members.now input) }
    ensures { member_of members.now input ≡ Some result.now }
{
    let place = place_of(members, input).unwrap();
    &members[place]
}

// The greatest volume that members have at a sink's channel.
fn real_at(members: &[Member], sinks: usize, s: usize) -> u32
    requires members { AllByRecursion (IsMember sinks) members.now }
    requires there { s < sinks }
    ensures value { result ≡ real_at members.now s }
    ensures bounded { result ≤ greatest }
{
    let mut loudest: u32 = 0;
    for member in members {
        loudest = loudest.max(member.volume_at(s));
    }
    loudest
}

/// The real volume of a sink: the greatest volume of its members, channel by channel; the reference volume where there is none.
pub fn real_of(reference: &CVolume, members: &[Member]) -> CVolume
    requires { AllByRecursion (IsMember (length reference.now)) members.now }
    ensures value { result ≡ real_over reference.now members.now }
    ensures length { length result ≡ length reference.now }
{
    if members.len() == 0 {
        return *reference;
    }
    let channels = reference.values().len();
    let mut items = [0; 32];
    let values = &mut items[..channels];
    for (c, value) in values.iter_mut().enumerate() {
        *value = real_at(members, channels, c);
    }
    in_channels(values)
}

// Sets each member's ratio to the real volume to match its volume.
fn each_follows_real(members: &mut [Member], real: &CVolume)
    requires { AllByRecursion (IsMember (length real.now)) members.old }
    ensures { members.new ≡ map (to_real real.now) members.old }
{
    for member in members.iter_mut() {
        member.follow_real(real);
    }
}

// Sets each member's ratios to the reference volume and to the real volume to match its volume.
fn each_follows_both(members: &mut [Member], reference: &CVolume, real: &CVolume)
    requires reference { AllByRecursion (IsMember (length reference.now)) members.old }
    requires real { AllByRecursion (IsMember (length real.now)) members.old }
    ensures { members.new ≡ map (λ m. to_real real.now (to_reference reference.now m)) members.old }
{
    for member in members.iter_mut() {
        member.follow_reference(reference);
        member.follow_real(real);
    }
}

// Sets each member's volume to what its ratio to this reference volume gives.
fn each_at_reference(members: &mut [Member], reference: &CVolume)
    requires { AllByRecursion (IsMember (length reference.now)) members.old }
    ensures { members.new ≡ map (at_reference reference.now) members.old }
{
    for member in members.iter_mut() {
        member.set_at_reference(reference);
    }
}

// Sets the ratios to the real volume to match it.
fn each_follows(reference: &CVolume, members: &mut [Member])
    requires { AllByRecursion (IsMember (length reference.now)) members.old }
    ensures { members.new ≡ followed_over reference.now members.old }
{
    let real = real_of(reference, members);
    each_follows_real(members, &real);
}

// Raises the reference volume to the real volume, and sets all ratios to match.
fn each_settles(reference: &mut CVolume, members: &mut [Member])
    requires { AllByRecursion (IsMember (length reference.old)) members.old }
    ensures reference { reference.new ≡ raised_over reference.old members.old }
    ensures members { members.new ≡ settled_over reference.old members.old }
{
    let real = real_of(reference, members);
    *reference = raised(reference, &real);
    each_follows_both(members, reference, &real);
}

// Sets each member's volume to what its ratio to this reference volume gives, and its ratio to the real volume to match.
fn each_is_set(reference: &CVolume, members: &mut [Member])
    requires { AllByRecursion (IsMember (length reference.now)) members.old }
    ensures { members.new ≡ followed_over reference.now (map (at_reference reference.now) members.old) }
{
    each_at_reference(members, reference);
    each_follows(reference, members);
}

/// Sets the ratios to the real volume to match it.
pub fn follow(reference: &CVolume, members: &mut Vec<Member>)
    requires { AllByRecursion (IsMember (length reference.now)) members.old.items }
    ensures { members.new.items ≡ followed_over reference.now members.old.items }
{
    each_follows(reference, members.as_mut_slice());
}

/// Raises the reference volume to the real volume, and sets all ratios to match.
pub fn settle(reference: &mut CVolume, members: &mut Vec<Member>)
    requires { AllByRecursion (IsMember (length reference.old)) members.old.items }
    ensures reference { reference.new ≡ raised_over reference.old members.old.items }
    ensures members { members.new.items ≡ settled_over reference.old members.old.items }
{
    each_settles(reference, members.as_mut_slice());
}

/// Sets each member's volume to what its ratio to this reference volume gives, and its ratio to the real volume to match.
pub fn set_all(reference: &CVolume, members: &mut Vec<Member>)
    requires { AllByRecursion (IsMember (length reference.now)) members.old.items }
    ensures { members.new.items ≡ followed_over reference.now (map (at_reference reference.now) members.old.items) }
{
    each_is_set(reference, members.as_mut_slice());
}

/// Sets the volume of an input's member: one for all channels, or one each.
pub fn set_volume(members: &mut Vec<Member>, input: InputId, volume: &CVolume)
    requires { IfSome (member_of members.old.items input) (λ m. SuitsChannels volume.now (length m.volume)) }
    ensures { members.new.items ≡ change_first (is_input input) (with_volume volume.now) members.old.items }
{
    if let Some(place) = place_of(members.as_slice(), input) {
        members[place].set_volume(volume);
    }
}

/// Mutes an input's member, or unmutes it.
pub fn mute(members: &mut Vec<Member>, input: InputId, on: bool)
    ensures { members.new.items ≡ change_first (is_input input) (with_mute on) members.old.items }
{
    if let Some(place) = place_of(members.as_slice(), input) {
        members[place].muted = on;
    }
}

/// Removes an input's member.
pub fn forget(members: &mut Vec<Member>, input: InputId)
    ensures { members.new.items ≡ without_first (is_input input) members.old.items }
{
    if let Some(place) = place_of(members.as_slice(), input) {
        members.remove(place);
    }
}
