//! The volume that a command asks for. No call takes memory.

ghost use Rattle.std.specs.Prelude.{◌≡◌, ◌≤◌, true, nat_le, length};
ghost use Rattle.std.specs.List.{list_all};
ghost use Rattle.px_vol.specs.Volume.{IsChannelVolume, greatest};
ghost use Rattle.px_flat.specs.Member.{SuitsChannels};
ghost use Rattle.px_ctl_vol.specs.Asked.{is_volume, fits};

use px_tag::RawVolume;
use px_vol::{CVolume, MAX};

// Whether no volume is above the maximum.
fn are_in_range(volumes: &[u32]) -> bool
    ensures { result ≡ list_all (λ v. nat_le v greatest) volumes.now }
{
    volumes.iter().all(|v| *v <= MAX)
}

/// Whether the volumes are lawful: one at least, and none above the maximum.
pub(crate) fn is_volume(volume: &RawVolume) -> bool
    ensures value { result ≡ is_volume volume.now }
    ensures valid { result ≡ true → IsChannelVolume volume.now }
{
    let volumes = volume.as_slice();
    volumes.len() > 0 && are_in_range(volumes)
}

/// Whether the volumes fit `channels` channels: one for all of them, or one each.
pub(crate) fn fits(volume: &RawVolume, channels: usize) -> bool
    ensures value { result ≡ fits volume.now channels }
    ensures suits { result ≡ true → SuitsChannels volume.now channels }
{
    let count = volume.as_slice().len();
    count == 1 || count == channels
}

/// The volumes that are asked for, one a channel.
pub(crate) fn asked(volume: &RawVolume) -> CVolume
    requires { IsChannelVolume volume.now }
    ensures { result ≡ volume.now }
{
    CVolume::new(volume.as_slice()).unwrap()
}
