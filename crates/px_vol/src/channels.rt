ghost use Rattle.std.specs.Prelude.{◌≡◌, ◌↔◌, ◌≤◌, ◌<◌, length, replicate, IsSome, IsTrue, IfSome};
ghost use Rattle.px_vol.specs.Volume.{IsChannelVolume, greatest};

use crate::held::in_place;
use crate::volume::MAX;
use std::marker::Model;

/// The volumes of a stream or a sink, one a channel, as a list of 1 to 32 numbers, each at most `MAX`:
/// `pa_cvolume` in PulseAudio's `pulse/volume.h`.
#[derive(Clone, Copy, Debug, PartialEq, Eq, Drop)]
pub struct CVolume {
    count: u8,
    items: [u32; 32],
}

impl Model for CVolume {
    ghost use Rattle.std.specs.Prelude.{List, ℕ, ◌≡◌, length, take};
    ghost use Rattle.px_vol.specs.Volume.{IsChannelVolume};
    ghost use Rattle.px_vol.specs.Held.{IsHeld, padded};

    ghost Value = { List ℕ };

    ghost view = { λ v. take v.count v.items };

    ghost invariant = { λ v. (IsHeld v.count v.items) × IsChannelVolume (take v.count v.items) };

    ghost inverse = { λ volumes. record { count = length volumes; items = padded volumes } };

    ghost inverse_ok = { λ v h i. record { count = h.0.held i; items = h.0.rest i } };
}

fn is_channel_volume(volumes: &[u32]) -> bool
    ensures { IsTrue result ↔ IsChannelVolume volumes.now }
{
    !volumes.is_empty() && volumes.len() <= 32 && volumes.iter().all(|volume| *volume <= MAX)
}

impl CVolume {
    /// The volumes of these channels. `None` exactly where there are 0 or more than 32, or one is above
    /// `MAX`. Takes no memory.
    pub fn new(values: &[u32]) -> Option<Self>
        ensures valid { IsSome result ↔ IsChannelVolume values.now }
        ensures value { IfSome result (λ volume. volume ≡ values.now) }
    {
        if is_channel_volume(values) {
            Some(CVolume {
                count: values.len() as u8,
                items: in_place(values),
            })
        } else {
            None
        }
    }

    /// The volumes, one a channel. Takes no memory.
    pub fn values(&self) -> &[u32]
        ensures value { result.now ≡ self.now }
        ensures valid { IsChannelVolume self.now }
    {
        &self.items[..self.count as usize]
    }
}

/// Linear factors in 16.16, one a channel of a sink, as a list of up to 32 numbers.
#[derive(Clone, Copy, Debug, PartialEq, Eq, Drop)]
pub struct Factors {
    count: u8,
    items: [u32; 32],
}

impl Model for Factors {
    ghost use Rattle.std.specs.Prelude.{List, ℕ, ◌≡◌, length, take};
    ghost use Rattle.px_vol.specs.Held.{IsHeld, padded};

    ghost Value = { List ℕ };

    ghost view = { λ f. take f.count f.items };

    ghost invariant = { λ f. IsHeld f.count f.items };

    ghost inverse = { λ factors. record { count = length factors; items = padded factors } };

    ghost inverse_ok = { λ f h i. record { count = h.held i; items = h.rest i } };
}

impl Factors {
    /// These factors, one a channel. `None` exactly where there are more than 32. Takes no memory.
    pub fn new(values: &[u32]) -> Option<Self>
        ensures valid { IsSome result ↔ (length values.now ≤ 32) }
        ensures value { IfSome result (λ factors. factors ≡ values.now) }
    {
        if values.len() <= 32 {
            Some(Factors {
                count: values.len() as u8,
                items: in_place(values),
            })
        } else {
            None
        }
    }

    /// The factors, one a channel. Takes no memory.
    pub fn values(&self) -> &[u32]
        ensures value { result.now ≡ self.now }
        ensures valid { length self.now ≤ 32 }
    {
        &self.items[..self.count as usize]
    }
}
