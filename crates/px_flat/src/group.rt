//! A sink's group.
ghost use Rattle.std.specs.Prelude.{◌≡◌, ◌<◌, ◌≤◌, length, IsSome, IfSome, None, IfOk, OnOk, OnErr};
ghost use Rattle.std.specs.List.{AllByRecursion};
ghost use Rattle.px_chmap.specs.Plan.{FeedsAll};
ghost use Rattle.px_flat.specs.Member.{channels_of, SuitsChannels, SuitsHow, IsMember};
ghost use Rattle.px_flat.specs.FlatVolume.{new_group, member_of, attached, detached, with_input_volume, with_sink_volume, with_input_mute, with_sink_mute, factors_of, factors_for, real_of};
ghost use Rattle.px_flat.specs.Keeps.{IsTrueTo};

use crate::channels::{neutral, widened};
use crate::member::{How, Member, Ratios, coming, factors_under};
use crate::members::{
    follow, forget, found, member_of, mute, real_of, set_all, set_volume, settle,
};
use px_chmap::Feed;
use px_types::{InputId, Mem};
use px_vol::{CVolume, Factors, dividing_is_undone};
use std::alloc::Global;
use std::marker::Model;

/// The volumes of a sink and its inputs under flat volumes: the sink's real volume is that of its loudest input, and each input's
/// is a ratio of it. Volumes are PulseAudio's, `0x10000` leaves the sound as it is; ratios and factors are in 16.16. Contracts see
/// the reference volume, the mute and the list of inputs. Source: `pulsecore/sink.c` and `sink-input.c`; the exact ratios are own.
#[derive(Drop)]
pub struct Group {
    reference: CVolume,
    muted: bool,
    members: Vec<Member>,
}

impl Model for Group {
    ghost use Rattle.px_flat.specs.FlatVolume.{FlatGroup};
    ghost use Rattle.px_flat.specs.Keeps.{IsGroup};

    ghost Value = { FlatGroup };

    ghost view = { λ g. record { reference = g.reference; muted = g.muted; members = g.members.items } };

    ghost invariant = { λ g. IsGroup (record { reference = g.reference; muted = g.muted; members = g.members.items }) };
}

impl Group {
    /// The group of a sink of 1 to 32 channels without inputs, at the neutral volume. Takes no memory.
    pub fn new(alloc: Global, channels: u8) -> Group
        requires some { 0 < channels }
        requires few { channels ≤ 32 }
        ensures { result ≡ new_group channels }
    {
        Group {
            reference: neutral(usize::from(channels)),
            muted: false,
            members: Vec::new(alloc),
        }
    }

    /// Attaches an input that isn't in the group, with the stream channel that feeds each channel of the sink, and a volume: one for all
    /// channels of its stream, or one each. The reference volume is raised to the real volume. Without memory nothing changes.
    pub fn attach(
        &mut self,
        input: InputId,
        given: &CVolume,
        how: How,
        muted: bool,
        feed: &Feed,
    ) -> Mem<()>
        requires new { member_of self.old.members input ≡ None }
        requires feeds { FeedsAll (channels_of feed.now) (length self.old.reference) feed.now }
        requires given { SuitsChannels given.now (channels_of feed.now) }
        requires how { SuitsHow how (channels_of feed.now) }
        ensures attached { OnOk result (self.new ≡ attached input given.now how muted feed.now self.old) }
        ensures unchanged { OnErr result (self.new ≡ self.old) }
    {
        dividing_is_undone();
        self.members
            .push(coming(input, &self.reference, given, &how, muted, feed))?;
        settle(&mut self.reference, &mut self.members);
        Ok(())
    }

    /// Detaches an input that is in the group, and answers its ratios. The real volume follows, the reference volume stays. Takes no
    /// memory.
    pub fn detach(&mut self, input: InputId) -> Ratios
        requires { IsSome (member_of self.old.members input) }
        ensures group { self.new ≡ detached input self.old }
        ensures ratios { IfSome (member_of self.old.members input) (λ m. result ≡ m.ratios) }
    {
        dividing_is_undone();
        let ratios = member_of(self.members.as_slice(), input).ratios;
        forget(&mut self.members, input);
        follow(&self.reference, &mut self.members);
        ratios
    }

    /// Sets the volume of an input that is in the group: one for all channels, or one each. The reference volume is raised to the real
    /// volume, and all ratios follow. Takes no memory.
    pub fn set_input(&mut self, input: InputId, volume: &CVolume)
        requires there { IsSome (member_of self.old.members input) }
        requires suits { IfSome (member_of self.old.members input) (λ m. SuitsChannels volume.now (length m.volume)) }
        ensures { self.new ≡ with_input_volume input volume.now self.old }
    {
        dividing_is_undone();
        set_volume(&mut self.members, input, volume);
        settle(&mut self.reference, &mut self.members);
    }

    /// Sets the sink's volume: one for all channels, or one each. Each input's ratio to it stays. Takes no memory.
    pub fn set_sink(&mut self, volume: &CVolume)
        requires { SuitsChannels volume.now (length self.old.reference) }
        ensures { self.new ≡ with_sink_volume volume.now self.old }
    {
        dividing_is_undone();
        self.reference = widened(volume, self.reference.values().len());
        set_all(&self.reference, &mut self.members);
    }

    /// Mutes an input that is in the group, or unmutes it. Its volume stays. Takes no memory.
    pub fn mute_input(&mut self, input: InputId, on: bool)
        requires { IsSome (member_of self.old.members input) }
        ensures { self.new ≡ with_input_mute input on self.old }
    {
        mute(&mut self.members, input, on);
    }

    /// Mutes the sink, or unmutes it. Its volume stays. Takes no memory.
    pub fn mute_sink(&mut self, on: bool)
        ensures { self.new ≡ with_sink_mute on self.old }
    {
        self.muted = on;
    }

    /// The linear factors of an input in the group, one a channel of the sink; 0 where it or the sink is muted. Takes no memory.
    pub fn factors(&self, input: InputId) -> Factors
        requires { IsSome (member_of self.now.members input) }
        ensures { IfSome (member_of self.now.members input) (λ m. result ≡ factors_of self.now m) }
    {
        let member = member_of(self.members.as_slice(), input);
        let real = real_of(&self.reference, self.members.as_slice());
        factors_under(&real, self.muted || member.muted, member)
    }

    /// The linear factors of an input, one a channel of the sink, where `real` is the sink's real volume, so that it isn't computed anew
    /// for each of many inputs; 0 where the input or the sink is muted. `None` exactly where the input isn't in the group. Takes no memory.
    pub fn factors_under(&self, real: &CVolume, input: InputId) -> Option<Factors>
        requires { real.now ≡ real_of self.now }
        ensures { result ≡ factors_for self.now input }
    {
        match found(self.members.as_slice(), input) {
            None => None,
            Some(member) => Some(factors_under(real, self.muted || member.muted, member)),
        }
    }

    /// The volume of an input in the group, one number a channel of its stream. Takes no memory.
    pub fn volume(&self, input: InputId) -> CVolume
        requires { IsSome (member_of self.now.members input) }
        ensures { IfSome (member_of self.now.members input) (λ m. result ≡ m.volume) }
    {
        member_of(self.members.as_slice(), input).volume
    }

    /// The reference volume, one number a channel of the sink: the volume that the user set, raised to the loudest input's. Takes no
    /// memory.
    pub fn reference(&self) -> CVolume
        ensures { result ≡ self.now.reference }
    {
        self.reference
    }

    /// The real volume, one number a channel of the sink: that of its loudest input; the reference volume where it has none. Where
    /// it leaves or lowers the sound, each input's ratio to it gives the input's volume again, exactly. Takes no memory.
    pub fn real(&self) -> CVolume
        ensures value { result ≡ real_of self.now }
        ensures exact { AllByRecursion (IsTrueTo (real_of self.now)) self.now.members }
    {
        real_of(&self.reference, self.members.as_slice())
    }

    /// Whether the sink is muted. Takes no memory.
    pub fn muted(&self) -> bool
        ensures { result ≡ self.now.muted }
    {
        self.muted
    }

    /// The inputs, in the order in which they were attached. Takes no memory.
    pub fn members(&self) -> &[Member]
        ensures members { result.now ≡ self.now.members }
        ensures each { AllByRecursion (IsMember (length self.now.reference)) result.now }
    {
        self.members.as_slice()
    }

    /// A copy of the group, which can take in one more input without moving the others.
    pub fn copy(&self, alloc: Global) -> Mem<Group>
        ensures { IfOk result (λ copy. copy ≡ self.now) }
    {
        let mut members = Vec::with_capacity(alloc, self.members.len().saturating_add(1))?;
        members.extend_from_slice(self.members.as_slice())?;
        Ok(Group {
            reference: self.reference,
            muted: self.muted,
            members,
        })
    }
}
