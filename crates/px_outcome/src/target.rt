//! The sink that a command names.

ghost use Rattle.std.specs.Prelude.{◌≡◌};
ghost use Rattle.px_outcome.specs.Target.{is_clear, target_of, raw_of};

use px_chmap::Map;
use px_sample::Spec;
use px_tag::RawSpec;
use px_types::{SinkId, Text};

/// A sink as a command sees it (`pa_sink`).
#[derive(Debug, Drop)]
pub struct Target {
    pub index: SinkId,
    /// Its name, 1 to 64 bytes.
    pub name: Text,
    /// Its sample spec.
    pub spec: Spec,
    /// A speaker position for each of its channels.
    pub map: Map,
    /// The sink's depth: the most frames that are filled past the consumed ones.
    pub depth: u32,
}

/// What a command's sink index and sink name mean together.
#[derive(Debug, Drop)]
pub enum Named {
    /// Nothing: both are given, or neither where one is needed.
    Unclear,
    /// No sink has the index or the name.
    Unknown,
    /// This sink.
    Sink(Target),
}

impl Named {
    /// Whether index and name select one sink, existing or not. Takes no memory.
    pub fn is_clear(&self) -> bool
        ensures { result ≡ is_clear self.now }
    {
        !matches!(self, Named::Unclear)
    }

    /// The sink that is named; `None` where it doesn't exist. Takes no memory.
    pub fn target(self) -> Option<Target>
        ensures { result ≡ target_of self }
    {
        match self {
            Named::Sink(target) => Some(target),
            Named::Unclear | Named::Unknown => None,
        }
    }
}

/// The sample spec in the form that packets carry. Takes no memory.
pub fn raw_of(spec: &Spec) -> RawSpec
    ensures { result ≡ raw_of spec.now }
{
    RawSpec {
        format: spec.format.code(),
        channels: spec.channels,
        rate: spec.rate,
    }
}
