//! Volume commands through a core.

use crate::data::{CLIENT, Stub, ask, deliver, fill, new_core};
use px_core::Core;
use px_types::Mem;
use std::alloc::Global;

// SET_SINK_INPUT_VOLUME, up to the index of its input.
const SET: &[u8] = b"L\x00\x00\x00\x25L\x00\x00\x00\x03L";

// Sets the volume of a mono stream's input, in 256ths of the norm volume.
fn set_volume(alloc: Global, core: &mut Core<Stub>, input: u32, volume: u8) -> Mem<()> {
    let mut packet = Vec::from_slice(alloc, SET)?;
    packet.extend_from_slice(&[0, 0, (input / 256 % 256) as u8, (input % 256) as u8])?;
    packet.extend_from_slice(b"v\x01")?;
    packet.extend_from_slice(&[0, 0, volume, 0])?;
    ask(core, CLIENT, packet)
}

// Fills a core with inputs and listeners, and sets `commands` volumes, each of the next input; returns the number of messages to the sinks.
fn set_volumes(
    alloc: Global,
    core: &mut Core<Stub>,
    inputs: u32,
    listeners: u32,
    commands: u32,
) -> Mem<u64> {
    fill(alloc, core, inputs, listeners)?;
    let mut messages = deliver(core);
    for command in 0..commands {
        let input = command % inputs.max(1);
        set_volume(alloc, core, input, (command % 256) as u8)?;
        messages = messages.wrapping_add(deliver(core));
    }
    Ok(messages)
}

// The same, on a new core.
fn notified(alloc: Global, inputs: u32, listeners: u32, commands: u32) -> Mem<u64> {
    let mut core = new_core(alloc)?;
    let messages = set_volumes(alloc, &mut core, inputs, listeners, commands);
    drop(core);
    messages
}

/// Sets the volume of a core's inputs `commands` times, each time of the next input, while `listeners` clients are subscribed to all events; the line
/// has the number of messages to the sinks. Takes memory.
pub fn volumes_line(alloc: Global, inputs: u32, commands: u32, listeners: u32) -> Mem<String> {
    let messages = notified(alloc, inputs, listeners, commands)?;
    Ok(format!(in alloc;
        "{inputs} inputs, {listeners} listeners, {commands} volumes, {messages} messages"
    )?)
}
