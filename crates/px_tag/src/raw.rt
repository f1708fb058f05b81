//! The values of items with several parts.

ghost use Rattle.std.specs.Prelude.{◌≡◌, ◌≤◌, length, take, drop, ◌++◌};

use std::marker::Model;

/// The most items that a channel map or channel volumes may have: `PA_CHANNELS_MAX` of `pulse/sample.h`.
pub const CHANNELS_MAX: usize = 32;

/// A sample spec as the packet has it (`pulse/sample.h`): any format code, up to 32 channels, any rate in frames a second. The command
/// checks whether they make sense.
#[derive(Clone, Copy, Debug, PartialEq, Eq)]
pub struct RawSpec {
    pub format: u8,
    pub channels: u8,
    pub rate: u32,
}

/// A time value as the packet has it: any numbers of seconds and microseconds.
#[derive(Clone, Copy, Debug, PartialEq, Eq)]
pub struct TimeVal {
    pub seconds: u32,
    pub micros: u32,
}

/// A channel map as the packet has it (`pulse/channelmap.h`): up to 32 positions, any bytes. A contract sees the list of them.
#[derive(Debug, Drop)]
pub struct RawMap {
    count: u8,
    items: [u8; 32],
}

impl Model for RawMap {
    ghost use Rattle.std.specs.Prelude.{ℕ, ◌≤◌, List, take};

    ghost Value = { List ℕ };

    ghost view = { λ map. take map.count map.items };

    ghost invariant = { λ map. map.count ≤ 32 };
}

impl RawMap {
    /// The map with these positions. Takes no memory.
    pub fn new(positions: &[u8]) -> Self
        requires { length positions.now ≤ 32 }
        ensures { result ≡ positions.now }
    {
        let mut items = [0; 32];
        items[..positions.len()].copy_from_slice(positions);
        RawMap {
            count: positions.len() as u8,
            items,
        }
    }

    /// Its positions, one a channel, up to 32. Takes no memory.
    pub fn as_slice(&self) -> &[u8]
        ensures value { result.now ≡ self.now }
        ensures few { length self.now ≤ 32 }
    {
        &self.items[..self.count as usize]
    }
}

/// Channel volumes as the packet has them (`pulse/volume.h`): up to 32, any numbers. A contract sees the list of them.
#[derive(Debug, Drop)]
pub struct RawVolume {
    count: u8,
    items: [u32; 32],
}

impl Model for RawVolume {
    ghost use Rattle.std.specs.Prelude.{ℕ, ◌≤◌, List, take};

    ghost Value = { List ℕ };

    ghost view = { λ volume. take volume.count volume.items };

    ghost invariant = { λ volume. volume.count ≤ 32 };
}

impl RawVolume {
    /// These volumes. Takes no memory.
    pub fn new(volumes: &[u32]) -> Self
        requires { length volumes.now ≤ 32 }
        ensures { result ≡ volumes.now }
    {
        let mut items = [0; 32];
        items[..volumes.len()].copy_from_slice(volumes);
        RawVolume {
            count: volumes.len() as u8,
            items,
        }
    }

    /// The volumes, one a channel, up to 32. Takes no memory.
    pub fn as_slice(&self) -> &[u32]
        ensures value { result.now ≡ self.now }
        ensures few { length self.now ≤ 32 }
    {
        &self.items[..self.count as usize]
    }
}
