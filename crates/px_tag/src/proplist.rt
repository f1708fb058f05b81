//! Property lists.

ghost use Rattle.std.specs.Prelude.{◌≡◌, ◌<◌, ◌≤◌, ℕ, [], length, take, slice_get, IsTrue, IfOk, IfSome, OnOk, OnErr, if◌then◌else◌};
ghost use Rattle.std.specs.Option.{option_map};
ghost use Rattle.px_tag.specs.PropList.{is_key, is_value, is_property, is_proplist, has_key, value_of, with_value, without, with_all, with_missing, updated};

use crate::memory::Mem;
use crate::mode::Mode;
use indexmap::IndexMap;
use std::alloc::Global;
use std::marker::Model;

/// A property list (`pulse/proplist.h`): keys with their values, in the order in which the keys came. A key has at least one byte, all from
/// 0x01 to 0x7F; a value has up to 65,536 bytes of any kind. A contract sees the list of pairs.
#[derive(Drop)]
pub struct PropList {
    table: IndexMap<Vec<u8>, Vec<u8>>,
    alloc: Global,
}

impl Model for PropList {
    ghost use Rattle.std.specs.Prelude.{ℕ, List, map, IsTrue};
    ghost use Rattle.px_tag.specs.PropList.{is_proplist};

    ghost Value = { List (List ℕ × List ℕ) };

    ghost view = { λ list. map (λ e. (e.0.items, e.1.items)) list.table.entries };

    ghost invariant = { λ list. IsTrue (is_proplist (map (λ e. (e.0.items, e.1.items)) list.table.entries)) };
}

impl PropList {
    /// An empty list. Takes no memory.
    pub fn new(alloc: Global) -> Self
        ensures { result ≡ [] }
    {
        PropList {
            table: IndexMap::new(alloc),
            alloc,
        }
    }

    // An empty list with room for `count` properties.
    fn with_room(alloc: Global, count: usize) -> Mem<Self>
        ensures { IfOk result (λ made. made ≡ []) }
    {
        Ok(PropList {
            table: IndexMap::with_capacity(alloc, count)?,
            alloc,
        })
    }

    /// How many keys it has. Takes no memory.
    pub fn len(&self) -> usize
        ensures count { result ≡ length self.now }
        ensures rules { IsTrue (is_proplist self.now) }
    {
        self.table.len()
    }

    /// The value of a key, or `None` where the key isn't there. Takes no memory.
    pub fn get(&self, key: &[u8]) -> Option<&[u8]>
        ensures { option_map (λ value. value.now) result ≡ value_of self.now key.now }
    {
        match self.table.get(key) {
            None => None,
            Some(value) => Some(value.as_slice()),
        }
    }

    /// Whether a key is there. Takes no memory.
    pub fn contains(&self, key: &[u8]) -> bool
        ensures { result ≡ has_key self.now key.now }
    {
        self.table.contains_key(key)
    }

    /// The key and the value at place `index`, or `None` past the last. Takes no memory.
    pub fn get_index(&self, index: usize) -> Option<(&[u8], &[u8])>
        ensures entry { option_map (λ p. (p.0.now, p.1.now)) result ≡ slice_get self.now index }
        ensures rules { IfSome result (λ p. IsTrue (is_property (p.0.now, p.1.now))) }
    {
        match self.table.get_index(index) {
            None => None,
            Some((key, value)) => Some((key.as_slice(), value.as_slice())),
        }
    }

    /// Sets the value of a key. A key that is there stays in its place, and a new one goes last. Without memory nothing has changed.
    pub fn set(&mut self, key: &[u8], value: &[u8]) -> Mem<()>
        requires key { IsTrue (is_key key.now) }
        requires value { IsTrue (is_value value.now) }
        ensures set { OnOk result (self.new ≡ with_value self.old key.now value.now) }
        ensures unchanged { OnErr result (self.new ≡ self.old) }
    {
        let key = Vec::from_slice(self.alloc, key)?;
        let value = Vec::from_slice(self.alloc, value)?;
        self.table.insert(key, value)?;
        Ok(())
    }

    /// Removes a key, and answers whether it was there. The order of the others stays. Takes no memory.
    pub fn remove(&mut self, key: &[u8]) -> bool
        ensures there { result ≡ has_key self.old key.now }
        ensures removed { self.new ≡ without self.old key.now }
    {
        self.table.shift_remove(key).is_some()
    }

    // The property at place `index`.
    pub(crate) fn property(&self, index: usize) -> (&[u8], &[u8])
        requires { index < length self.now }
        ensures entry { slice_get self.now index ≡ Some (result.0.now, result.1.now) }
        ensures key { IsTrue (is_key result.0.now) }
        ensures value { IsTrue (is_value result.1.now) }
    {
        self.get_index(index).unwrap()
    }

    // Sets each key of the other list. Where memory runs out, some may be set.
    fn set_all(&mut self, other: &PropList) -> Mem<()>
        ensures { OnOk result (self.new ≡ with_all self.old other.now) }
    {
        for i in 0..other.len() {
            let (key, value) = other.property(i);
            self.set(key, value)?;
        }
        Ok(())
    }

    // Sets a key that isn't there, and leaves one that is.
    fn set_one_missing(&mut self, key: &[u8], value: &[u8]) -> Mem<()>
        requires key { IsTrue (is_key key.now) }
        requires value { IsTrue (is_value value.now) }
        ensures set { OnOk result (self.new ≡ (if has_key self.old key.now then self.old else with_value self.old key.now value.now)) }
        ensures front { (before : ℕ) → before ≤ length self.old → take before self.new ≡ take before self.old }
        ensures longer { length self.old ≤ length self.new }
    {
        if self.contains(key) {
            return Ok(());
        }
        self.set(key, value)?;
        Ok(())
    }

    // Sets each key of the other list that isn't there, last. Where memory runs out, some may be set.
    fn set_missing(&mut self, other: &PropList) -> Mem<()>
        ensures set { OnOk result (self.new ≡ with_missing self.old other.now) }
        ensures front { take (length self.old) self.new ≡ self.old }
    {
        for i in 0..other.len() {
            let (key, value) = other.property(i);
            self.set_one_missing(key, value)?;
        }
        Ok(())
    }

    /// A copy of the list.
    pub fn copy(&self) -> Mem<PropList>
        ensures { IfOk result (λ made. made ≡ self.now) }
    {
        let mut made = PropList::with_room(self.alloc, self.len())?;
        made.set_all(self)?;
        Ok(made)
    }

    // Becomes another list, or stays where memory runs out.
    fn replace_by(&mut self, other: &PropList) -> Mem<()>
        ensures set { OnOk result (self.new ≡ other.now) }
        ensures unchanged { OnErr result (self.new ≡ self.old) }
    {
        *self = other.copy()?;
        Ok(())
    }

    // Gets each property of the other list whose key isn't there. Where memory runs out, nothing has changed.
    fn merge(&mut self, other: &PropList) -> Mem<()>
        ensures set { OnOk result (self.new ≡ with_missing self.old other.now) }
        ensures unchanged { OnErr result (self.new ≡ self.old) }
    {
        let before = self.len();
        match self.set_missing(other) {
            Ok(()) => Ok(()),
            Err(error) => {
                self.table.truncate(before);
                Err(error)
            }
        }
    }

    // Takes over all properties of the other list. Where memory runs out, nothing has changed.
    fn append(&mut self, mut other: PropList) -> Mem<()>
        ensures set { OnOk result (self.new ≡ with_all self.old other) }
        ensures unchanged { OnErr result (self.new ≡ self.old) }
    {
        self.table.append(&mut other.table)?;
        Ok(())
    }

    /// Updates the list in place by another, as `pa_proplist_update` does. Where memory runs out, nothing has changed.
    pub fn update(&mut self, mode: Mode, other: &PropList) -> Mem<()>
        ensures updated { OnOk result (self.new ≡ updated mode self.old other.now) }
        ensures unchanged { OnErr result (self.new ≡ self.old) }
    {
        match mode {
            Mode::Set => self.replace_by(other),
            Mode::Merge => self.merge(other),
            Mode::Replace => self.append(other.copy()?),
        }
    }
}
