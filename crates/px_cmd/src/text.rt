//! Bytes and keys that a command holds.

ghost use Rattle.std.specs.Prelude.{◌≡◌, ◌++◌, ◌∷◌, [], length, slice_get, IfOk, OnOk, OnErr};
ghost use Rattle.std.specs.Option.{option_map};

use px_tag::{Mem, NoMemory};
use std::alloc::Global;
use std::marker::Model;

/// Bytes, such as a name or a cookie. A contract sees the list.
#[derive(Debug, Drop)]
pub struct Text {
    bytes: Vec<u8>,
}

impl Model for Text {
    ghost use Rattle.std.specs.Prelude.{List, ℕ};

    ghost Value = { List ℕ };

    ghost view = { λ text. text.bytes.items };
}

impl Text {
    /// A copy of these bytes.
    pub fn new(alloc: Global, bytes: &[u8]) -> Mem<Self>
        ensures { IfOk result (λ text. text ≡ bytes.now) }
    {
        Ok(Text {
            bytes: Vec::from_slice(alloc, bytes)?,
        })
    }

    /// Its bytes. Takes no memory.
    pub fn as_slice(&self) -> &[u8]
        ensures { result.now ≡ self.now }
    {
        self.bytes.as_slice()
    }
}

/// Keys of properties, in the order of the packet. A contract sees the list of them.
#[derive(Debug, Drop)]
pub struct Keys {
    keys: Vec<Text>,
}

impl Model for Keys {
    ghost use Rattle.std.specs.Prelude.{List, ℕ};

    ghost Value = { List (List ℕ) };

    ghost view = { λ keys. keys.keys.items };
}

impl Keys {
    /// No keys. Takes no memory.
    pub fn new(alloc: Global) -> Self
        ensures { result ≡ [] }
    {
        Keys {
            keys: Vec::new(alloc),
        }
    }

    /// Adds a key at the end. Without memory nothing is added.
    pub fn push(&mut self, key: Text) -> Mem<()>
        ensures added { OnOk result (self.new ≡ self.old ++ key ∷ []) }
        ensures unchanged { OnErr result (self.new ≡ self.old) }
    {
        self.keys.push(key)?;
        Ok(())
    }

    /// How many keys there are. Takes no memory.
    pub fn len(&self) -> usize
        ensures { result ≡ length self.now }
    {
        self.keys.len()
    }

    /// The key at place `index`, or `None` past the last. Takes no memory.
    pub fn get(&self, index: usize) -> Option<&[u8]>
        ensures { option_map (λ key. key.now) result ≡ slice_get self.now index }
    {
        match self.keys.get(index) {
            None => None,
            Some(key) => Some(key.as_slice()),
        }
    }

    /// The keys, in order. Takes no memory.
    pub fn as_slice(&self) -> &[Text]
        ensures { result.now ≡ self.now }
    {
        self.keys.as_slice()
    }
}
