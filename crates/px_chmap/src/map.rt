ghost use Rattle.std.specs.Prelude.{◌≡◌, ◌↔◌, length, IsSome, IsTrue, IfSome};
ghost use Rattle.px_chmap.specs.ChannelMap.{IsChannelMap};

use crate::held::in_place;
use std::marker::Model;

/// The speaker positions of a stream or a sink, one a channel, as a list of 1 to 32 numbers. Each is a
/// position of `pa_channel_position_t` in PulseAudio's `pulse/channelmap.h`, from 0 (mono) to 50 (top
/// rear center).
#[derive(Clone, Copy, Debug, PartialEq, Eq, Drop)]
pub struct Map {
    count: u8,
    items: [u8; 32],
}

impl Model for Map {
    ghost use Rattle.std.specs.Prelude.{List, ℕ, ◌≡◌, length, take};
    ghost use Rattle.px_chmap.specs.ChannelMap.{IsChannelMap};
    ghost use Rattle.px_chmap.specs.Held.{IsHeld, padded};

    ghost Value = { List ℕ };

    ghost view = { λ m. take m.count m.items };

    ghost invariant = { λ m. (IsHeld m.count m.items) × IsChannelMap (take m.count m.items) };

    ghost inverse = { λ positions. record { count = length positions; items = padded positions } };

    ghost inverse_ok = { λ m h i. record { count = h.0.held i; items = h.0.rest i } };
}

fn is_channel_map(positions: &[u8]) -> bool
    ensures { IsTrue result ↔ IsChannelMap positions.now }
{
    !positions.is_empty()
        && positions.len() <= 32
        && positions.iter().all(|position| *position <= 50)
}

impl Map {
    /// The map with these speaker positions, one a channel. `None` exactly where there are 0 or more
    /// than 32, or one is above 50. Takes no memory.
    pub fn new(positions: &[u8]) -> Option<Self>
        ensures valid { IsSome result ↔ IsChannelMap positions.now }
        ensures value { IfSome result (λ map. map ≡ positions.now) }
    {
        if is_channel_map(positions) {
            Some(Map {
                count: positions.len() as u8,
                items: in_place(positions),
            })
        } else {
            None
        }
    }

    /// The speaker positions, one a channel. Takes no memory.
    pub fn positions(&self) -> &[u8]
        ensures value { result.now ≡ self.now }
        ensures valid { IsChannelMap self.now }
    {
        &self.items[..self.count as usize]
    }

    /// How many channels there are, from 1 to 32. Takes no memory.
    pub fn channels(&self) -> u8
        ensures value { result ≡ length self.now }
        ensures valid { IsChannelMap self.now }
    {
        self.count
    }
}
