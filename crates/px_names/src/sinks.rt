//! The names of the sinks.

ghost use Rattle.std.specs.Prelude.{◌≡◌, ◌≤◌, ◌↔◌, length, IsSome, IsTrue, IfSome, IfOk};
ghost use Rattle.std.specs.List.{position};
ghost use Rattle.px_names.specs.Sinks.{AreSinks};
ghost use Rattle.px_names.specs.Names.{same_text};

use px_types::limits::MAX_SINKS;
use px_types::{Mem, Text};
use std::alloc::Global;
use std::marker::Model;

/// The names of a server's sinks, 1 to 16 of them, in order: the name at place k is that of the sink with index
/// k (`pa_sink`'s `name`).
#[derive(Drop)]
pub struct SinkNames {
    names: Vec<Text>,
}

impl Model for SinkNames {
    ghost use Rattle.std.specs.Prelude.{ℕ, List};
    ghost use Rattle.px_names.specs.Sinks.{AreSinks};

    ghost Value = { List (List ℕ) };

    ghost view = { λ s. s.names.items };

    ghost invariant = { λ s. AreSinks s.names.items };
}

impl SinkNames {
    /// These names. `None` exactly where there are none, or more than 16. Takes no memory.
    pub fn new(names: Vec<Text>) -> Option<SinkNames>
        ensures valid { IsSome result ↔ AreSinks names.items }
        ensures value { IfSome result (λ made. made ≡ names.items) }
    {
        if names.is_empty() || names.len() > MAX_SINKS {
            return None;
        }
        Some(SinkNames { names })
    }

    /// The names, in order. Takes no memory.
    pub fn as_slice(&self) -> &[Text]
        ensures names { result.now ≡ self.now }
        ensures valid { AreSinks self.now }
    {
        self.names.as_slice()
    }

    /// The place of the first sink with a name. Takes no memory.
    pub(crate) fn place_of(&self, name: &[u8]) -> Option<usize>
        ensures { result ≡ position (λ sink. same_text sink name.now) self.now }
    {
        self.names.iter().position(|sink| sink.as_slice() == name)
    }

    /// A copy of the names.
    pub fn copy(&self, alloc: Global) -> Mem<SinkNames>
        ensures { IfOk result (λ made. made ≡ self.now) }
    {
        let mut names = Vec::new(alloc);
        for name in self.names.iter() {
            names.push(Text::copied(alloc, name.as_slice())?)?;
        }
        Ok(SinkNames { names })
    }
}
