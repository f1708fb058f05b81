//! The arithmetic of per-channel numbers. No call takes memory.
ghost use Rattle.std.specs.Prelude.{◌≡◌, ◌<◌, ◌≤◌, length, replicate, max, ◌==◌, if◌then◌else◌, true};
ghost use Rattle.px_vol.specs.Volume.{IsChannelVolume, norm, greatest};
ghost use Rattle.px_flat.specs.Channels.{at, value_for, values_for, widened, products_of, raised_to, ratio_after, ratios_after};
ghost use Rattle.px_flat.specs.Member.{SuitsChannels};

use px_chmap::Feed;
use px_vol::{CVolume, NORM, divide, multiply};

/// One volume a channel.
pub fn in_channels(numbers: &[u32]) -> CVolume
    requires { IsChannelVolume numbers.now }
    ensures { result ≡ numbers.now }
{
    CVolume::new(numbers).unwrap()
}

/// The neutral volume, which leaves the sound as it is, in each of 1 to 32 channels.
pub fn neutral(channels: usize) -> CVolume
    requires some { 0 < channels }
    requires few { channels ≤ 32 }
    ensures { result ≡ replicate channels norm }
{
    in_channels(&[NORM; 32][..channels])
}

// The volume of a sink's channel for a stream's channel: 0 where the latter doesn't feed it.
fn heard(fed: u8, channel: usize, volume: u32) -> u32
    requires { volume ≤ greatest }
    ensures value { result ≡ if fed == channel then volume else 0 }
    ensures bounded { result ≤ greatest }
{
    if usize::from(fed) == channel {
        volume
    } else {
        0
    }
}

// The value of a sink's volumes for a stream's channel.
fn value_for(feed: &[u8], volumes: &[u32], channel: usize) -> u32
    requires places { length feed.now ≡ length volumes.now }
    requires valid { IsChannelVolume volumes.now }
    ensures value { result ≡ value_for feed.now volumes.now channel }
    ensures bounded { result ≤ greatest }
{
    let mut loudest: u32 = 0;
    for s in 0..feed.len() {
        loudest = loudest.max(heard(feed[s], channel, volumes[s]));
    }
    loudest
}

/// The values of a sink's volumes for each of a stream's 1 to 32 channels: the greatest over the sink's channels that it feeds.
pub fn values_for(feed: &Feed, volumes: &CVolume, channels: usize) -> CVolume
    requires places { length feed.now ≡ length volumes.now }
    requires some { 0 < channels }
    requires few { channels ≤ 32 }
    ensures { result ≡ values_for feed.now volumes.now channels }
{
    let mut items = [0; 32];
    let values = &mut items[..channels];
    for (c, value) in values.iter_mut().enumerate() {
        *value = value_for(feed.channels(), volumes.values(), c);
    }
    in_channels(values)
}

/// A volume for 1 to 32 channels: the one given for all, or one each.
pub fn widened(volume: &CVolume, channels: usize) -> CVolume
    requires some { 0 < channels }
    requires few { channels ≤ 32 }
    requires suits { SuitsChannels volume.now channels }
    ensures { result ≡ widened volume.now channels }
{
    let given = volume.values();
    let mut items = [0; 32];
    let values = &mut items[..channels];
    for (c, value) in values.iter_mut().enumerate() {
        *value = given[if given.len() == 1 { 0 } else { c }];
    }
    in_channels(values)
}

/// The volumes multiplied channel by channel.
pub fn products(ratios: &CVolume, volumes: &CVolume) -> CVolume
    requires { length ratios.now ≡ length volumes.now }
    ensures { result ≡ products_of ratios.now volumes.now }
{
    let (ratios, volumes) = (ratios.values(), volumes.values());
    let mut items = [0; 32];
    let values = &mut items[..ratios.len()];
    for (c, value) in values.iter_mut().enumerate() {
        *value = multiply(ratios[c], volumes[c]);
    }
    in_channels(values)
}

/// The greater volume, channel by channel.
pub fn raised(volumes: &CVolume, others: &CVolume) -> CVolume
    requires { length volumes.now ≡ length others.now }
    ensures value { result ≡ raised_to volumes.now others.now }
    ensures length { length result ≡ length volumes.now }
{
    let (volumes, others) = (volumes.values(), others.values());
    let mut items = [0; 32];
    let values = &mut items[..volumes.len()];
    for (c, value) in values.iter_mut().enumerate() {
        *value = volumes[c].max(others[c]);
    }
    in_channels(values)
}

// The ratio of a volume to a base.
fn ratio_after(ratio: u32, volume: u32, base: u32) -> u32
    requires ratio { ratio ≤ greatest }
    requires volume { volume ≤ greatest }
    requires base { base ≤ greatest }
    ensures value { result ≡ ratio_after ratio volume base }
    ensures bounded { result ≤ greatest }
{
    if base == 0 || multiply(ratio, base) == volume {
        ratio
    } else {
        divide(volume, base)
    }
}

/// Whether the ratio of each volume to the value of a sink's volumes for its channel stays what it is: where `feed` has the channel that feeds
/// each channel of the sink, the ratios after these volumes are then these ratios.
pub fn are_after(ratios: &CVolume, volumes: &CVolume, feed: &Feed, bases: &CVolume) -> bool
    requires volumes { length ratios.now ≡ length volumes.now }
    requires places { length feed.now ≡ length bases.now }
    ensures { result ≡ true → ratios_after ratios.now volumes.now (values_for feed.now bases.now (length volumes.now)) ≡ ratios.now }
{
    let (feed, bases) = (feed.channels(), bases.values());
    let (ratios, volumes) = (ratios.values(), volumes.values());
    for c in 0..ratios.len() {
        if ratio_after(ratios[c], volumes[c], value_for(feed, bases, c)) != ratios[c] {
            return false;
        }
    }
    true
}

/// The ratio of a volume to a base, channel by channel. Unchanged where the base is 0, or where it already gives the volume.
pub fn ratios_after(ratios: &CVolume, volumes: &CVolume, bases: &CVolume) -> CVolume
    requires volumes { length ratios.now ≡ length volumes.now }
    requires bases { length ratios.now ≡ length bases.now }
    ensures { result ≡ ratios_after ratios.now volumes.now bases.now }
{
    let (ratios, volumes, bases) = (ratios.values(), volumes.values(), bases.values());
    let mut items = [0; 32];
    let values = &mut items[..ratios.len()];
    for (c, value) in values.iter_mut().enumerate() {
        *value = ratio_after(ratios[c], volumes[c], bases[c]);
    }
    in_channels(values)
}
