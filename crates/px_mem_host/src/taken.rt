// What a host in memory took back.
ghost use Rattle.std.specs.Prelude.{◌≡◌};

use px_annals::{CoreEntry, LaneEntry, MemRecorder};
use px_ends::{MemDevice, ServeOptions};
use px_types::SinkId;
use std::marker::Model;

/// The device and the history of a sink.
#[derive(Debug, Drop)]
pub struct Retired {
    pub sink: SinkId,
    pub device: MemDevice,
    pub recorder: MemRecorder<LaneEntry>,
}

impl Model for Retired {
    ghost use Rattle.px_annals.specs.Memory.{MemoryRecorder};
    ghost use Rattle.px_annals.specs.declared.entry.LaneEntry.{LaneEntry};
    ghost use Rattle.px_ends.specs.Host.{Part};
    ghost use Rattle.px_ends.specs.MemoryDevice.{MemoryDevice};

    ghost Value = { Part MemoryDevice (MemoryRecorder LaneEntry) };

    ghost view = { λ r. record { sink = r.sink; device = r.device; recorder = r.recorder } };
}

/// What a host took: the options of its starts, and what it took back of sinks and of the core, each in order.
#[derive(Debug, Drop)]
pub struct Taken {
    pub started: Vec<ServeOptions>,
    pub parts: Vec<Retired>,
    pub core_recorders: Vec<MemRecorder<CoreEntry>>,
}
