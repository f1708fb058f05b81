// The ramps of all inputs of a sink.
ghost use Rattle.std.specs.Prelude.{◌≡◌, ◌≤◌, ◌<◌, ◌+◌, ◌-◌, [], length, map, drop, vec_len, vec_capacity, OnOk};
ghost use Rattle.std.specs.Option.{option_map};
ghost use Rattle.px_msg.specs.View.{gains, message_of};
ghost use Rattle.px_stream.specs.HeldStream.{HeldStream};
ghost use Rattle.px_ramp.specs.Ramp.{ramps_at, without_ramps, with_flat, with_aim, with_aims, ramps_with, ramps_with_all};

use crate::ramps::{InputRamps, Ramps};
use px_lane::Prepared;
use px_msg::{InputFactors, Msg};
use px_stream::Stream;
use px_types::{Mem, NoMemory};
use px_vol::Factors;
use std::alloc::Global;
use std::marker::Model;

/// The ramps of the inputs of a sink.
#[derive(Debug, Drop)]
pub struct RampTable {
    items: Vec<InputRamps>,
}

impl Model for RampTable {
    ghost use Rattle.std.specs.Prelude.{◌-◌, vec_capacity, length};
    ghost use Rattle.px_ramp.specs.Table.{RoomyRamps};

    ghost Value = { RoomyRamps };

    ghost view = { λ t. record { ramps = t.items.items; room = vec_capacity t.items - length t.items.items } };
}

// Drops the ramps of an input.
fn drop_ramps(items: &mut Vec<InputRamps>, input: u32)
    ensures items { items.new.items ≡ without_ramps input items.old.items }
    ensures capacity { vec_capacity items.new ≡ vec_capacity items.old }
    ensures len { length items.new.items ≤ length items.old.items }
{
    items.retain(|x| x.input != input);
}

// Inserts an input with factors that stay.
fn insert_flat(items: &mut Vec<InputRamps>, input: u32, factors: &Factors)
    requires { length items.old.items < vec_capacity items.old }
    ensures items { items.new.items ≡ with_flat input factors.now items.old.items }
    ensures capacity { vec_capacity items.new ≡ vec_capacity items.old }
    ensures len { length items.new.items ≤ length items.old.items + 1 }
{
    drop_ramps(items, input);
    items.push_reserved(InputRamps {
        input,
        ramps: Ramps::flat(factors),
    });
}

// Aims the ramps of one input, if it is there, at other factors.
fn aim_one(items: &mut [InputRamps], frames: u32, at: u64, entry: &InputFactors)
    requires { 1 ≤ frames }
    ensures { items.new ≡ with_aim frames at (gains entry.now) items.old }
{
    for item in items.iter_mut() {
        if item.input == entry.input.0 {
            item.ramps.aim(frames, at, &entry.factors);
        }
    }
}

// Aims the ramps of several inputs, in order.
fn aim_all(items: &mut [InputRamps], frames: u32, at: u64, each: &[InputFactors])
    requires { 1 ≤ frames }
    ensures { items.new ≡ with_aims frames at (map gains each.now) items.old }
{
    for entry in each {
        aim_one(items, frames, at, entry);
    }
}

// The ramps of an input, if it is there.
fn found(items: &[InputRamps], input: u32) -> Option<&Ramps>
    ensures { option_map (λ ramps. ramps.now) result ≡ ramps_at input items.now }
{
    for item in items {
        if item.input == input {
            return Some(&item.ramps);
        }
    }
    None
}

impl RampTable {
    /// No ramps. Takes no memory.
    pub fn new(alloc: Global) -> RampTable
        ensures { result.ramps ≡ [] }
    {
        RampTable {
            items: Vec::new(alloc),
        }
    }

    /// Makes room for `inputs` more inputs. Without memory the ramps stay what they are.
    pub fn reserve(&mut self, inputs: usize) -> Mem<()>
        ensures value { self.new.ramps ≡ self.old.ramps }
        ensures ok { OnOk result (inputs ≤ self.new.room) }
    {
        self.items.reserve(inputs)?;
        Ok(())
    }

    /// The ramps of an input, if it is there.
    pub fn get(&self, input: u32) -> Option<&Ramps>
        ensures { option_map (λ ramps. ramps.now) result ≡ ramps_at input self.now.ramps }
    {
        found(self.items.as_slice(), input)
    }

    /// Applies a message that a sink takes at horizon `at`, where a ramp takes `frames` frames. Uses up the room of one input at most, and takes no
    /// memory.
    pub fn take(&mut self, message: &Msg<Stream>, frames: u32, at: u64)
        requires some { 1 ≤ frames }
        requires room { 1 ≤ self.old.room }
        ensures ramps { self.new.ramps ≡ ramps_with frames at (message_of HeldStream.stream message.now) self.old.ramps }
        ensures room { self.old.room ≤ self.new.room + 1 }
    {
        match message {
            Msg::New(fresh) => insert_flat(&mut self.items, fresh.input.0, &fresh.factors),
            Msg::Attach { input, factors, .. } => insert_flat(&mut self.items, input.0, factors),
            Msg::Detach { input } => drop_ramps(&mut self.items, input.0),
            Msg::Factors(list) => aim_all(self.items.as_mut_slice(), frames, at, list.as_slice()),
            _ => {}
        }
    }
}

// Applies message `i` of these, if it is there.
fn take_at(table: &mut RampTable, messages: &Prepared, i: usize, frames: u32, at: u64)
    requires some { 1 ≤ frames }
    requires room { 1 ≤ table.old.room }
    ensures ramps { ramps_with_all frames at (drop (i + 1) messages.now.messages) table.new.ramps ≡ ramps_with_all frames at (drop i messages.now.messages) table.old.ramps }
    ensures room { table.old.room ≤ table.new.room + 1 }
{
    match messages.get(i) {
        Some(message) => table.take(message, frames, at),
        None => {}
    }
}

// Applies all `count` messages, in order.
fn take_each(table: &mut RampTable, messages: &Prepared, count: usize, frames: u32, at: u64)
    requires some { 1 ≤ frames }
    requires count { count ≡ length messages.now.messages }
    requires room { count ≤ table.old.room }
    ensures ramps { table.new.ramps ≡ ramps_with_all frames at messages.now.messages table.old.ramps }
{
    for i in 0..count {
        take_at(table, messages, i, frames, at);
    }
}

impl RampTable {
    /// Applies all `count` messages, in order, that a sink takes at horizon `at`, where a ramp takes `frames` frames. Takes no memory.
    pub(crate) fn take_all(&mut self, messages: &Prepared, count: usize, frames: u32, at: u64)
        requires some { 1 ≤ frames }
        requires count { count ≡ length messages.now.messages }
        requires room { count ≤ self.old.room }
        ensures ramps { self.new.ramps ≡ ramps_with_all frames at messages.now.messages self.old.ramps }
    {
        take_each(self, messages, count, frames, at);
    }
}
