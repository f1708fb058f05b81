//! The property lists of sink inputs.

ghost use Rattle.std.specs.Prelude.{◌≡◌, ℕ, ◌+◌, ◌<◌, ◌≤◌, ◌++◌, ◌∷◌, [], length, slice_index_or, vec_len, vec_capacity, IsTrue, IfOk, OnOk};
ghost use Rattle.std.specs.List.{find, position};
ghost use Rattle.std.specs.Option.{option_map};
ghost use Rattle.px_names.specs.declared.input_lists.InputList.{InputList as DeclaredList};
ghost use Rattle.px_names.specs.InputLists.{is_of, list_of, with_list_of, without_list_of, RisesFrom};

use px_tag::PropList;
use px_types::{InputId, Mem};
use std::alloc::Global;
use std::marker::Model;

/// The property list of a sink input (`proplist` of `pa_sink_input`).
#[derive(Drop)]
pub struct InputList {
    /// The input's index.
    pub input: InputId,
    pub list: PropList,
}

/// The property lists of the sink inputs, in the order in which they were made, each found by its input's index: by halves, as
/// long as indices rise. A contract sees the lists, and the number of lists that the table holds without memory.
#[derive(Drop)]
pub struct InputLists {
    lists: Vec<InputList>,
    /// Only where the indices of the inputs rise.
    rising: bool,
    alloc: Global,
}

impl Model for InputLists {
    ghost use Rattle.std.specs.Prelude.{vec_capacity, IsTrue};
    ghost use Rattle.px_names.specs.InputLists.{RoomyLists, RisesFrom};

    ghost Value = { RoomyLists };

    ghost view = { λ t. record { items = t.lists.items; places = vec_capacity t.lists } };

    ghost invariant = { λ t. IsTrue t.rising → RisesFrom 0 t.lists.items };
}

// The number of lists of inputs with a lower index, by halves.
fn lower(lists: &[InputList], input: InputId) -> usize
    requires { RisesFrom 0 lists.now }
    ensures below { (k : ℕ) (d : DeclaredList) → k < result → (DeclaredList.input (slice_index_or lists.now k d)).0 < input.0 }
    ensures few { result ≤ length lists.now }
    ensures end { (k : ℕ) (d : DeclaredList) → result ≤ k → k < length lists.now → input.0 ≤ (DeclaredList.input (slice_index_or lists.now k d)).0 }
{
    lists.partition_point(|l| l.input.0 < input.0)
}

// The place of an input's list, where indices rise.
fn halved(lists: &[InputList], input: InputId) -> Option<usize>
    requires { RisesFrom 0 lists.now }
    ensures { result ≡ position (is_of input) lists.now }
{
    let place = lower(lists, input);
    if place >= lists.len() {
        return None;
    }
    if lists[place].input.0 == input.0 {
        return Some(place);
    }
    None
}

// The place of an input's list: by halves, where indices are known to rise.
fn place_of(lists: &[InputList], rising: bool, input: InputId) -> Option<usize>
    requires { IsTrue rising → RisesFrom 0 lists.now }
    ensures { result ≡ position (is_of input) lists.now }
{
    if rising {
        return halved(lists, input);
    }
    lists.iter().position(|l| l.input.0 == input.0)
}

// The entry of an input.
fn entry_of(lists: &[InputList], rising: bool, input: InputId) -> Option<&InputList>
    requires { IsTrue rising → RisesFrom 0 lists.now }
    ensures { option_map (λ l. l.now) result ≡ find (is_of input) lists.now }
{
    match place_of(lists, rising, input) {
        None => None,
        Some(place) => Some(&lists[place]),
    }
}

// Whether indices rise, and still do once the list of this input comes last.
fn follows(lists: &[InputList], rising: bool, input: InputId) -> bool
    requires { IsTrue rising → RisesFrom 0 lists.now }
    ensures { IsTrue result → (list : DeclaredList) → list.input ≡ input → RisesFrom 0 (lists.now ++ list ∷ []) }
{
    if !rising {
        return false;
    }
    if lists.len() == 0 {
        return true;
    }
    lists[lists.len() - 1].input.0 < input.0
}

// Sets an input's list, where it has one or there is room for one. Returns whether indices are known to rise then.
fn put(lists: &mut Vec<InputList>, rising: bool, input: InputId, list: PropList) -> bool
    requires rising { IsTrue rising → RisesFrom 0 lists.old.items }
    requires room { vec_len lists.old + 1 ≤ vec_capacity lists.old }
    ensures items { lists.new.items ≡ with_list_of input list lists.old.items }
    ensures rising { IsTrue result → RisesFrom 0 lists.new.items }
    ensures capacity { vec_capacity lists.new ≡ vec_capacity lists.old }
    ensures len { vec_len lists.new ≤ vec_len lists.old + 1 }
{
    let held = lists.as_slice();
    let follows = follows(held, rising, input);
    match place_of(held, rising, input) {
        Some(place) => {
            lists[place].list = list;
            rising
        }
        None => {
            lists.push_reserved(InputList { input, list });
            follows
        }
    }
}

// Removes an input's list.
fn drop_of(lists: &mut Vec<InputList>, rising: bool, input: InputId)
    requires { IsTrue rising → RisesFrom 0 lists.old.items }
    ensures items { lists.new.items ≡ without_list_of input lists.old.items }
    ensures rising { IsTrue rising → RisesFrom 0 lists.new.items }
    ensures capacity { vec_capacity lists.new ≡ vec_capacity lists.old }
    ensures len { vec_len lists.new ≤ vec_len lists.old }
{
    if let Some(place) = place_of(lists.as_slice(), rising, input) {
        lists.remove(place);
    }
}

// Copies one more list.
fn add_copy(lists: &mut Vec<InputList>, one: &InputList) -> px_tag::Mem<()>
    ensures { OnOk result (lists.new.items ≡ lists.old.items ++ one.now ∷ []) }
{
    lists.push(InputList {
        input: one.input,
        list: one.list.copy()?,
    })?;
    Ok(())
}

impl InputLists {
    /// No lists. Takes no memory.
    pub fn new(alloc: Global) -> InputLists
        ensures { result.items ≡ [] }
    {
        InputLists {
            lists: Vec::new(alloc),
            rising: true,
            alloc,
        }
    }

    /// Reserves room for `more` further lists. The lists stay.
    pub fn reserve(&mut self, more: usize) -> Mem<()>
        ensures items { self.new.items ≡ self.old.items }
        ensures places { OnOk result (length self.new.items + more ≤ self.new.places) }
    {
        self.lists.reserve(more)?;
        Ok(())
    }

    /// A copy of an input's list; empty where it has none.
    pub fn copy_of(&self, input: InputId) -> px_tag::Mem<PropList>
        ensures { IfOk result (λ list. list ≡ list_of self.now.items input) }
    {
        match entry_of(&self.lists, self.rising, input) {
            None => Ok(PropList::new(self.alloc)),
            Some(l) => l.list.copy(),
        }
    }

    /// A copy of all lists.
    pub fn copy(&self) -> px_tag::Mem<InputLists>
        ensures { IfOk result (λ made. made.items ≡ self.now.items) }
    {
        let mut lists = Vec::new(self.alloc);
        for one in self.lists.iter() {
            add_copy(&mut lists, one)?;
        }
        Ok(InputLists {
            lists,
            rising: self.rising,
            alloc: self.alloc,
        })
    }

    /// Sets an input's list, in the place of its present one, else after the others. Takes no memory.
    pub fn set(&mut self, input: InputId, list: PropList)
        requires { length self.old.items + 1 ≤ self.old.places }
        ensures items { self.new.items ≡ with_list_of input list self.old.items }
        ensures len { length self.new.items ≤ length self.old.items + 1 }
        ensures places { self.new.places ≡ self.old.places }
    {
        self.rising = put(&mut self.lists, self.rising, input, list);
    }

    /// Removes an input's list. Takes no memory.
    pub fn remove(&mut self, input: InputId)
        ensures items { self.new.items ≡ without_list_of input self.old.items }
        ensures len { length self.new.items ≤ length self.old.items }
        ensures places { self.new.places ≡ self.old.places }
    {
        drop_of(&mut self.lists, self.rising, input);
    }
}
