//! The name of the default source.

ghost use Rattle.std.specs.Prelude.{◌≡◌, ◌↔◌, IsSome, IsTrue, IfSome, IfOk};
ghost use Rattle.std.specs.List.{list_all};
ghost use Rattle.std.specs.Option.{option_map};
ghost use Rattle.px_tag.specs.Item.{is_text};
ghost use Rattle.px_names.specs.Source.{is_visible, is_source_name};

use px_types::{Mem, Text};
use std::alloc::Global;
use std::marker::Model;

/// The greatest length of a source's name, in bytes.
const MAX_SOURCE_NAME: usize = 64;

/// The name of the default source that a server tells its clients: 1 to 64 visible characters of ASCII. Own: no source has
/// it; it is for clients that rely on there being a name.
#[derive(Drop)]
pub struct SourceName {
    name: Text,
}

impl Model for SourceName {
    ghost use Rattle.std.specs.Prelude.{ℕ, List, IsTrue};
    ghost use Rattle.px_names.specs.Source.{is_source_name};

    ghost Value = { List ℕ };

    ghost view = { λ s. s.name };

    ghost invariant = { λ s. IsTrue (is_source_name s.name) };
}

// Whether the byte is a visible character of ASCII.
fn is_visible(byte: u8) -> bool
    ensures { result ≡ is_visible byte }
{
    (0x21..=0x7E).contains(&byte)
}

// Whether all bytes are visible characters of ASCII.
fn are_visible(bytes: &[u8]) -> bool
    ensures { result ≡ list_all is_visible bytes.now }
{
    bytes.iter().all(|byte| is_visible(*byte))
}

impl SourceName {
    /// The name with these bytes. `None` exactly where there are none, or more than 64, or one of them isn't 0x21 to 0x7E.
    /// Takes no memory.
    pub fn read(text: Text) -> Option<SourceName>
        ensures valid { IsSome result ↔ IsTrue (is_source_name text) }
        ensures value { IfSome result (λ made. made ≡ text) }
    {
        let count = text.len();
        if count == 0 || count > MAX_SOURCE_NAME || !are_visible(text.as_slice()) {
            return None;
        }
        Some(SourceName { name: text })
    }

    /// The bytes of the name. Takes no memory.
    pub fn as_slice(&self) -> &[u8]
        ensures name { result.now ≡ self.now }
        ensures valid { IsTrue (is_source_name self.now) }
        ensures text { IsTrue (is_text self.now) }
    {
        self.name.as_slice()
    }

    /// A copy of the name.
    pub fn copy(&self, alloc: Global) -> Mem<SourceName>
        ensures { IfOk result (λ made. made ≡ self.now) }
    {
        Ok(SourceName {
            name: Text::copied(alloc, self.name.as_slice())?,
        })
    }
}

/// A copy of the name, where there is one.
pub fn copied_source(alloc: Global, source: Option<&SourceName>) -> Mem<Option<SourceName>>
    ensures { IfOk result (λ made. made ≡ option_map (λ name. name.now) source.entry) }
{
    match source {
        None => Ok(None),
        Some(name) => Ok(Some(name.copy(alloc)?)),
    }
}
