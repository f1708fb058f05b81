//! An input as a member of its sink's group. No call takes memory.
ghost use Rattle.std.specs.Prelude.{◌≡◌, ◌<◌, ◌≤◌, length};
ghost use Rattle.px_vol.specs.Volume.{greatest};
ghost use Rattle.px_chmap.specs.Plan.{FeedsAll};
ghost use Rattle.px_flat.specs.Member.{IsMember, SuitsChannels, SuitsHow, channels_of, coming_volume, coming_ratios, coming, volume_at, with_volume, with_mute, at_reference, to_reference, to_real, factor_at, factors_under};

use crate::channels::{are_after, neutral, products, ratios_after, values_for, widened};
use px_chmap::Feed;
use px_types::InputId;
use px_vol::{CVolume, Factors, cube, multiply};

/// The ratios of an input's volume, in 16.16, one a channel of its stream: to the reference volume of its sink, and to its real
/// volume (`reference_ratio` and `real_factor` of `pa_sink_input` in PulseAudio's `pulsecore/sink-input.h`).
#[derive(Clone, Copy, Debug, PartialEq, Eq, Drop)]
pub struct Ratios {
    pub reference: CVolume,
    pub real: CVolume,
}

/// How the volume of a new input is meant.
#[derive(Clone, Copy, Debug, PartialEq, Eq, Drop)]
pub enum How {
    /// As it is given.
    Absolute,
    /// As a part of the sink's reference volume.
    Relative,
    /// As in the group that the input left: both ratios stay, and the volume follows from the ratio to the reference volume.
    Kept(Ratios),
}

/// An input in its sink's group.
#[derive(Clone, Copy, Debug, PartialEq, Eq, Drop)]
pub struct Member {
    /// Its index.
    pub input: InputId,
    /// Its volume, one number a channel of its stream.
    pub volume: CVolume,
    pub ratios: Ratios,
    pub muted: bool,
    /// The stream channel that feeds each channel of the sink.
    pub feed: Feed,
}

/// How many channels a stream with this feed has: the feed names each of them.
pub fn channels_of(feed: &Feed) -> usize
    ensures value { result ≡ channels_of feed.now }
    ensures few { result ≤ 32 }
{
    let mut greatest: u8 = 0;
    for channel in feed.channels() {
        greatest = greatest.max(*channel);
    }
    usize::from(greatest) + 1
}

// The volume of a new input.
fn coming_volume(reference: &CVolume, given: &CVolume, how: &How, feed: &Feed) -> CVolume
    requires feeds { FeedsAll (channels_of feed.now) (length reference.now) feed.now }
    requires given { SuitsChannels given.now (channels_of feed.now) }
    requires how { SuitsHow how.now (channels_of feed.now) }
    ensures { result ≡ coming_volume reference.now given.now how.now feed.now }
{
    let channels = channels_of(feed);
    match how {
        How::Absolute => widened(given, channels),
        How::Relative => products(
            &widened(given, channels),
            &values_for(feed, reference, channels),
        ),
        How::Kept(ratios) => products(&ratios.reference, &values_for(feed, reference, channels)),
    }
}

// The ratios of a new input.
fn coming_ratios(how: &How, feed: &Feed) -> Ratios
    ensures { result ≡ coming_ratios how.now feed.now }
{
    match how {
        How::Absolute | How::Relative => Ratios {
            reference: neutral(channels_of(feed)),
            real: neutral(channels_of(feed)),
        },
        How::Kept(ratios) => *ratios,
    }
}

/// A new input of a sink with this reference volume.
pub fn coming(
    input: InputId,
    reference: &CVolume,
    given: &CVolume,
    how: &How,
    muted: bool,
    feed: &Feed,
) -> Member
    requires feeds { FeedsAll (channels_of feed.now) (length reference.now) feed.now }
    requires given { SuitsChannels given.now (channels_of feed.now) }
    requires how { SuitsHow how.now (channels_of feed.now) }
    ensures { result ≡ coming input reference.now given.now how.now muted feed.now }
{
    Member {
        input,
        volume: coming_volume(reference, given, how, feed),
        ratios: coming_ratios(how, feed),
        muted,
        feed: *feed,
    }
}

impl Member {
    // How many channels its stream has.
    fn channels(&self) -> usize
        ensures value { result ≡ length self.now.volume }
        ensures some { 0 < result }
        ensures few { result ≤ 32 }
    {
        self.volume.values().len()
    }

    /// Its volume at a sink's channel.
    pub fn volume_at(&self, s: usize) -> u32
        requires member { IsMember (length self.now.feed) self.now }
        requires there { s < length self.now.feed }
        ensures value { result ≡ volume_at s self.now }
        ensures bounded { result ≤ greatest }
    {
        self.volume.values()[usize::from(self.feed.channels()[s])]
    }

    /// Sets its volume: one for all channels, or one each.
    pub fn set_volume(&mut self, volume: &CVolume)
        requires { SuitsChannels volume.now (length self.old.volume) }
        ensures { self.new ≡ with_volume volume.now self.old }
    {
        let channels = self.channels();
        self.volume = widened(volume, channels);
    }

    /// Sets its volume to what its ratio to this reference volume gives.
    pub fn set_at_reference(&mut self, reference: &CVolume)
        requires { IsMember (length reference.now) self.old }
        ensures { self.new ≡ at_reference reference.now self.old }
    {
        let channels = self.channels();
        let reference = values_for(&self.feed, reference, channels);
        let volume = products(&self.ratios.reference, &reference);
        self.volume = volume;
    }

    /// Sets its ratio to the reference volume to match its volume.
    pub fn follow_reference(&mut self, reference: &CVolume)
        requires { IsMember (length reference.now) self.old }
        ensures { self.new ≡ to_reference reference.now self.old }
    {
        if !are_after(&self.ratios.reference, &self.volume, &self.feed, reference) {
            self.match_reference(reference);
        }
    }

    // Sets that ratio, whatever it is.
    fn match_reference(&mut self, reference: &CVolume)
        requires { IsMember (length reference.now) self.old }
        ensures { self.new ≡ to_reference reference.now self.old }
    {
        let channels = self.channels();
        let reference = values_for(&self.feed, reference, channels);
        let ratios = ratios_after(&self.ratios.reference, &self.volume, &reference);
        self.ratios.reference = ratios;
    }

    /// Sets its ratio to the real volume to match its volume.
    pub fn follow_real(&mut self, real: &CVolume)
        requires { IsMember (length real.now) self.old }
        ensures { self.new ≡ to_real real.now self.old }
    {
        if !are_after(&self.ratios.real, &self.volume, &self.feed, real) {
            self.match_real(real);
        }
    }

    // Sets that ratio, whatever it is.
    fn match_real(&mut self, real: &CVolume)
        requires { IsMember (length real.now) self.old }
        ensures { self.new ≡ to_real real.now self.old }
    {
        let channels = self.channels();
        let real = values_for(&self.feed, real, channels);
        let ratios = ratios_after(&self.ratios.real, &self.volume, &real);
        self.ratios.real = ratios;
    }

    /// Its linear factor at a sink's channel, in 16.16, under the sink's real volume.
    pub fn factor_at(&self, real: &CVolume, s: usize) -> u32
        requires member { IsMember (length real.now) self.now }
        requires there { s < length real.now }
        ensures { result ≡ factor_at real.now self.now s }
    {
        let ratio = self.ratios.real.values()[usize::from(self.feed.channels()[s])];
        cube(multiply(ratio, real.values()[s]))
    }
}

// One factor a channel.
fn in_sink(factors: &[u32]) -> Factors
    requires { length factors.now ≤ 32 }
    ensures { result ≡ factors.now }
{
    Factors::new(factors).unwrap()
}

/// A member's linear factors, one a channel of the sink, under the sink's real volume; 0 where it is `silent`.
pub fn factors_under(real: &CVolume, silent: bool, member: &Member) -> Factors
    requires { IsMember (length real.now) member.now }
    ensures { result ≡ factors_under real.now silent member.now }
{
    let channels = real.values().len();
    let mut items = [0; 32];
    let factors = &mut items[..channels];
    for (s, factor) in factors.iter_mut().enumerate() {
        *factor = if silent { 0 } else { member.factor_at(real, s) };
    }
    in_sink(factors)
}
