//! The header before the events of a session: the cookie and the sinks.

ghost use Rattle.std.specs.Prelude.{◌≡◌, length};

use px_chmap::Map;
use px_sample::Spec;
use px_types::Text;
use std::marker::Model;

/// The header of a session. Own: PulseAudio records no sessions.
#[derive(Debug, Drop)]
pub struct Header {
    /// The 256 bytes that a client must show to authenticate, as PulseAudio's `pulsecore/authkey.c` has them.
    pub cookie: Text,
    /// The sinks in the order of their indices, 1 to 16. The first is the default sink at first.
    pub sinks: SinkSpecs,
}

/// A sink of the header. Own: PulseAudio gets its sinks from modules.
#[derive(Debug, Drop)]
pub struct SinkSpec {
    /// 1 to 64 bytes from 0x21 to 0x7E, the first not `@`, and no other sink's name.
    pub name: Text,
    /// A format of whole numbers in even steps, 1 to 32 channels, and 1 to 192,000 frames a second.
    pub spec: Spec,
    /// A speaker position for each channel.
    pub map: Map,
    /// How many frames past the last consumed one no rewind reaches, at most `depth` (PulseAudio: `rewind_safeguard`).
    pub guard: u32,
    /// The most frames that may be filled past the last consumed one, 1 to 65,536.
    pub depth: u32,
}

/// A list of sinks. Contracts see it as the list.
#[derive(Debug, Drop)]
pub struct SinkSpecs {
    sinks: Vec<SinkSpec>,
}

impl Model for SinkSpecs {
    ghost use Rattle.std.specs.Prelude.{List};
    ghost use Rattle.px_header.specs.declared.header.SinkSpec.{SinkSpec};

    ghost Value = { List SinkSpec };

    ghost view = { λ s. s.sinks.items };
}

impl SinkSpecs {
    /// The sinks of a vector. Takes no memory.
    pub fn from_vec(sinks: Vec<SinkSpec>) -> SinkSpecs
        ensures { result ≡ sinks.items }
    {
        SinkSpecs { sinks }
    }

    /// The sinks in order. Takes no memory.
    pub fn as_slice(&self) -> &[SinkSpec]
        ensures { result.now ≡ self.now }
    {
        self.sinks.as_slice()
    }

    /// How many sinks there are. Takes no memory.
    pub fn len(&self) -> usize
        ensures { result ≡ length self.now }
    {
        self.sinks.len()
    }
}
