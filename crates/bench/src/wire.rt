// Commands and replies.
use px_cmd::{Command, read_command};
use px_reply::{Created, created};
use px_tag::{RawMap, RawSpec};
use px_types::limits::LEAST_PROTOCOL_VERSION;
use px_types::{Mem, Text};
use std::alloc::Global;

// Whether the packet is a CREATE_PLAYBACK_STREAM of version 13.
fn is_create(alloc: Global, packet: &[u8]) -> bool {
    let read = read_command(alloc, packet, LEAST_PROTOCOL_VERSION);
    let is_create = matches!(&read, Ok(Command::Create(_)));
    drop(read);
    is_create
}

// Reads the packet `rounds` times, and counts how often it is that command.
fn commands(alloc: Global, rounds: u32, packet: &[u8]) -> u64 {
    let mut found = 0u64;
    for _ in 0..rounds {
        if is_create(alloc, packet) {
            found = found.wrapping_add(1);
        }
    }
    found
}

// Writes `rounds` replies, and counts their bytes.
fn replies(alloc: Global, rounds: u32) -> Mem<u64> {
    let name = Text::copied(alloc, b"out")?;
    let fields = Created {
        stream: 0,
        input: 0,
        attr: [4_194_304, 192_000, 190_082, 1_920],
        spec: RawSpec {
            format: 3,
            channels: 2,
            rate: 44_100,
        },
        map: RawMap::new(&[1, 2]),
        sink: 0,
        name,
        usec: 2_083,
    };
    let mut bytes = 0u64;
    for tag in 0..rounds {
        if let Ok(packet) = created(alloc, tag, &fields) {
            bytes = bytes.wrapping_add(packet.as_slice().len() as u64);
        }
    }
    Ok(bytes)
}

/// Reads a packet as a command and writes the reply to a CREATE_PLAYBACK_STREAM, `rounds` times; the line has how often the packet was one and how
/// many bytes the replies had. Takes memory.
pub fn wire_line(alloc: Global, rounds: u32, packet: &[u8]) -> Mem<String> {
    let found = commands(alloc, rounds, packet);
    let bytes = replies(alloc, rounds)?;
    Ok(format!(in alloc; "{found} commands, {bytes} bytes of replies")?)
}
