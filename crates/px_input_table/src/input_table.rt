//! The inputs, in rising index and by their streams.

ghost use Rattle.std.specs.Prelude.{◌≡◌, ◌⊎◌, ◌+◌, ◌<◌, ◌≤◌, ◌++◌, ◌∷◌, [], length, cond, vec_capacity, true, Some, IsSome, IfSome, OnOk};
ghost use Rattle.std.specs.List.{find};
ghost use Rattle.std.specs.Option.{option_map};
ghost use Rattle.indexmap.specs.IndexMap.{get, spare, ContainsKey};
ghost use Rattle.px_input_table.specs.declared.input_table.StreamKey.{StreamKey as Key};
ghost use Rattle.px_outcome.specs.Input.{has_index, input_of, input_named, stream_of, goes_on};
ghost use Rattle.px_input_table.specs.Lists.{change_first, drop_first};
ghost use Rattle.px_input_table.specs.Inputs.{leaving, with_attr, moving_to, arrived_at};
ghost use Rattle.px_input_table.specs.InputTable.{same_stream, key_of, first_of};
ghost use Rattle.px_input_table.specs.Inputs.{on_way};

use crate::inputs;
use crate::inputs::input_of;
use crate::standing::goes_on;
use indexmap::IndexMap;
use px_model::Attr;
use px_outcome::{Input, Way};
use px_types::{ConnId, InputId, Mem, SinkId};
use std::alloc::Global;
use std::marker::Model;

/// A stream of a connection, by its number there.
#[derive(Clone, Copy, PartialEq, Eq, Hash, Drop)]
pub(crate) struct StreamKey {
    conn: ConnId,
    stream: u32,
}

/// All inputs in rising index, of which the live ones are found by their streams without a walk. Contracts see the inputs,
/// and the room for more.
#[derive(Drop)]
pub struct InputTable {
    all: Vec<Input>,
    /// The first live input of each stream.
    by_stream: IndexMap<StreamKey, Input>,
}

impl Model for InputTable {
    ghost use Rattle.std.specs.Prelude.{vec_capacity};
    ghost use Rattle.indexmap.specs.IndexMap.{spare};
    ghost use Rattle.px_input_table.specs.InputTable.{RoomyInputs, AreByStream};

    ghost Value = { RoomyInputs };

    ghost view = { λ t. record { items = t.all.items; places = vec_capacity t.all; streams = spare t.by_stream } };

    ghost invariant = { λ t. AreByStream t.all.items t.by_stream };
}

fn key_of(input: &Input) -> StreamKey
    ensures { result ≡ key_of input.now }
{
    StreamKey {
        conn: input.conn,
        stream: input.stream,
    }
}

// The stream of the input with an index.
fn key_at(inputs: &[Input], index: InputId) -> Option<StreamKey>
    ensures { result ≡ option_map key_of (find (has_index index) inputs.now) }
{
    match inputs.iter().find(|x| x.index.0 == index.0) {
        None => None,
        Some(input) => Some(key_of(input)),
    }
}

// The first live input of a stream.
fn first_of(inputs: &[Input], key: StreamKey) -> Option<&Input>
    ensures { option_map (λ x. x.now) result ≡ first_of inputs.now key }
{
    inputs.iter().find(|x| x.conn.0 == key.conn.0 && x.stream == key.stream && goes_on(x))
}

// Sets the entry of a stream to its first live input; the others stay.
fn renew(by_stream: &mut IndexMap<StreamKey, Input>, all: &[Input], key: StreamKey)
    requires { IsSome (first_of all.now key) → (0 < spare by_stream.old) ⊎ ContainsKey same_stream by_stream.old key }
    ensures entries { (other : Key) → get same_stream by_stream.new other
        ≡ cond (same_stream key other) (first_of all.now key) (get same_stream by_stream.old other) }
    ensures room { spare by_stream.old ≤ spare by_stream.new + 1 }
{
    match first_of(all, key) {
        Some(input) => {
            by_stream.insert(key, *input).unwrap();
        }
        None => {
            by_stream.swap_remove(&key);
        }
    }
}

impl InputTable {
    /// No inputs. Takes no memory.
    pub fn new(alloc: Global) -> InputTable
        ensures { result.items ≡ [] }
    {
        InputTable {
            all: Vec::new(alloc),
            by_stream: IndexMap::new(alloc),
        }
    }

    /// All inputs, in rising index.
    pub fn as_slice(&self) -> &[Input]
        ensures { result.now ≡ self.now.items }
    {
        self.all.as_slice()
    }

    /// The input of a connection's stream. Takes no memory.
    pub fn stream_of(&self, conn: ConnId, stream: u32) -> Option<&Input>
        ensures { option_map (λ x. x.now) result ≡ stream_of self.now.items conn stream }
    {
        self.by_stream.get(&StreamKey { conn, stream })
    }

    /// The input with an index. Takes no memory.
    pub fn input_of(&self, index: InputId) -> Option<Input>
        ensures { result ≡ input_of self.now.items index }
    {
        match input_of(&self.all, index) {
            None => None,
            Some(x) => Some(*x),
        }
    }

    /// The input with an index, where it is live. Takes no memory.
    pub fn input_named(&self, index: u32) -> Option<Input>
        ensures { result ≡ input_named self.now.items index }
    {
        match self.input_of(InputId(index)) {
            Some(x) if goes_on(&x) => Some(x),
            _ => None,
        }
    }

    /// Reserves room for `more` further inputs. The inputs stay.
    pub fn reserve(&mut self, more: usize) -> Mem<()>
        ensures items { self.new.items ≡ self.old.items }
        ensures places { OnOk result (length self.new.items + more ≤ self.new.places) }
        ensures streams { OnOk result (more ≤ self.new.streams) }
    {
        self.all.reserve(more)?;
        self.by_stream.reserve(more)?;
        Ok(())
    }

    /// Appends an input.
    pub fn push(&mut self, input: Input)
        requires place { length self.old.items + 1 ≤ self.old.places }
        requires stream { 1 ≤ self.old.streams }
        ensures items { self.new.items ≡ self.old.items ++ input ∷ [] }
        ensures places { self.new.places ≡ self.old.places }
        ensures streams { self.old.streams ≤ self.new.streams + 1 }
    {
        self.all.push_reserved(input);
        renew(&mut self.by_stream, &self.all, key_of(&input));
    }

    /// Ends the input with an index.
    pub fn leave(&mut self, index: InputId)
        ensures items { self.new.items ≡ change_first (has_index index) leaving self.old.items }
        ensures len { length self.new.items ≤ length self.old.items }
        ensures places { self.new.places ≡ self.old.places }
        ensures streams { self.old.streams ≤ self.new.streams + 1 }
    {
        if let Some(key) = key_at(&self.all, index) {
            inputs::leave(&mut self.all, index);
            renew(&mut self.by_stream, &self.all, key);
        }
    }

    /// Sets the sink that the input with an index moves to. It stays live.
    pub fn depart(&mut self, index: InputId, to: SinkId)
        requires { IfSome (input_of self.old.items index) (λ x. goes_on x ≡ true) }
        ensures items { self.new.items ≡ change_first (has_index index) (moving_to to) self.old.items }
        ensures len { length self.new.items ≤ length self.old.items }
        ensures places { self.new.places ≡ self.old.places }
        ensures streams { self.old.streams ≤ self.new.streams + 1 }
    {
        if let Some(key) = key_at(&self.all, index) {
            inputs::depart(&mut self.all, index, to);
            renew(&mut self.by_stream, &self.all, key);
        }
    }

    /// Settles the input with an index on a sink; the message with its stream is still to be handed out. It stays live.
    pub fn arrive(&mut self, index: InputId, to: SinkId)
        requires { IfSome (input_of self.old.items index) (λ x. goes_on x ≡ true) }
        ensures items { self.new.items ≡ change_first (has_index index) (arrived_at to) self.old.items }
        ensures len { length self.new.items ≤ length self.old.items }
        ensures places { self.new.places ≡ self.old.places }
        ensures streams { self.old.streams ≤ self.new.streams + 1 }
    {
        if let Some(key) = key_at(&self.all, index) {
            inputs::arrive(&mut self.all, index, to);
            renew(&mut self.by_stream, &self.all, key);
        }
    }

    /// Sets the buffer attributes of the input with an index.
    pub fn set_attr(&mut self, index: InputId, attr: Attr)
        ensures items { self.new.items ≡ change_first (has_index index) (with_attr attr) self.old.items }
        ensures len { length self.new.items ≤ length self.old.items }
        ensures places { self.new.places ≡ self.old.places }
        ensures streams { self.old.streams ≤ self.new.streams + 1 }
    {
        if let Some(key) = key_at(&self.all, index) {
            inputs::set_attr(&mut self.all, index, attr);
            renew(&mut self.by_stream, &self.all, key);
        }
    }

    /// Sets the `way` of the stream of the input with an index.
    pub fn set_way(&mut self, index: InputId, way: Way)
        ensures items { self.new.items ≡ change_first (has_index index) (on_way way) self.old.items }
    {
        if let Some(key) = key_at(&self.all, index) {
            inputs::set_way(&mut self.all, index, way);
            renew(&mut self.by_stream, &self.all, key);
        }
    }

    /// Removes the input with an index.
    pub fn remove(&mut self, index: InputId)
        ensures items { self.new.items ≡ drop_first (has_index index) self.old.items }
        ensures len { length self.new.items ≤ length self.old.items }
        ensures places { self.new.places ≡ self.old.places }
        ensures streams { self.old.streams ≤ self.new.streams + 1 }
    {
        if let Some(key) = key_at(&self.all, index) {
            inputs::remove(&mut self.all, index);
            renew(&mut self.by_stream, &self.all, key);
        }
    }
}
