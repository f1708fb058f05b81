//! A sample of the cache.

ghost use Rattle.std.specs.Prelude.{◌≡◌, IfOk};

use px_chmap::Map;
use px_sample::Spec;
use px_types::{Mem, Text};
use std::alloc::Global;

/// A sample: its name, its sample spec with a speaker position for each channel, and its bytes, whole frames.
#[derive(Drop)]
pub struct Sample {
    pub name: Text,
    pub spec: Spec,
    pub map: Map,
    pub bytes: Text,
}

impl Sample {
    /// A copy of the sample.
    pub(crate) fn copied(&self, alloc: Global) -> Mem<Sample>
        ensures { IfOk result (λ sample. sample ≡ self.now) }
    {
        let name = Text::copied(alloc, self.name.as_slice())?;
        let bytes = Text::copied(alloc, self.bytes.as_slice())?;
        Ok(Sample {
            name,
            spec: self.spec,
            map: self.map,
            bytes,
        })
    }
}
