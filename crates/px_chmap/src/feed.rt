ghost use Rattle.std.specs.Prelude.{◌≡◌, ◌↔◌, IsSome, IsTrue, IfSome};
ghost use Rattle.px_chmap.specs.Plan.{IsFeed};

use crate::held::in_place;
use std::marker::Model;

/// The stream channel that feeds each channel of a sink, as a list of 1 to 32 numbers, each below 32:
/// the matrix of PulseAudio's `pulsecore/resampler.c`, where every sink channel has one source.
#[derive(Clone, Copy, Debug, PartialEq, Eq, Drop)]
pub struct Feed {
    count: u8,
    items: [u8; 32],
}

impl Model for Feed {
    ghost use Rattle.std.specs.Prelude.{List, ℕ, ◌≡◌, length, take};
    ghost use Rattle.px_chmap.specs.Plan.{IsFeed};
    ghost use Rattle.px_chmap.specs.Held.{IsHeld, padded};

    ghost Value = { List ℕ };

    ghost view = { λ f. take f.count f.items };

    ghost invariant = { λ f. (IsHeld f.count f.items) × IsFeed (take f.count f.items) };

    ghost inverse = { λ channels. record { count = length channels; items = padded channels } };

    ghost inverse_ok = { λ f h i. record { count = h.0.held i; items = h.0.rest i } };
}

fn is_feed(channels: &[u8]) -> bool
    ensures { IsTrue result ↔ IsFeed channels.now }
{
    !channels.is_empty() && channels.len() <= 32 && channels.iter().all(|channel| *channel < 32)
}

impl Feed {
    /// The feed with a stream channel for each sink channel. `None` exactly where there are 0 or more
    /// than 32, or one is above 31. Takes no memory.
    pub fn new(channels: &[u8]) -> Option<Self>
        ensures valid { IsSome result ↔ IsFeed channels.now }
        ensures value { IfSome result (λ feed. feed ≡ channels.now) }
    {
        if is_feed(channels) {
            Some(Feed {
                count: channels.len() as u8,
                items: in_place(channels),
            })
        } else {
            None
        }
    }

    /// The stream channel of each sink channel. Takes no memory.
    pub fn channels(&self) -> &[u8]
        ensures value { result.now ≡ self.now }
        ensures valid { IsFeed self.now }
    {
        &self.items[..self.count as usize]
    }
}
