// Frames out of pieces.
use px_block::Fresh;
use px_frame::{Body, Decoder, Frames, write_data};
use px_types::{Mem, NoMemory};
use std::alloc::Global;

// The frames of one round.
const FRAMES: u32 = 16;

// The bytes of a frame's payload.
const PAYLOAD: usize = 65_536;

// The stream of one round.
fn stream(alloc: Global) -> Mem<Vec<u8>> {
    let payload = vec![in alloc; 7u8; PAYLOAD]?;
    let mut bytes = Vec::new(alloc);
    for _ in 0..FRAMES {
        let Ok(frame) = write_data(alloc, 5, 0, 0, &payload) else {
            return Err(NoMemory);
        };
        bytes.extend_from_slice(frame.bytes())?;
    }
    Ok(bytes)
}

// A number of frames, and of their bytes.
#[derive(Clone, Copy)]
struct Count {
    frames: u64,
    bytes: u64,
}

fn counted(before: Count, frames: &Frames) -> Count {
    let mut count = before;
    for frame in frames.as_slice() {
        count.frames = count.frames.wrapping_add(1);
        match &frame.body {
            Body::Control(packet) => {
                count.bytes = count.bytes.wrapping_add(packet.bytes().len() as u64);
            }
            Body::Write { bytes, .. } => {
                for block in bytes.as_slice() {
                    count.bytes = count.bytes.wrapping_add(block.bytes().len() as u64);
                }
            }
        }
    }
    count
}

// Decodes `rounds` rounds with one decoder.
fn decoded(alloc: Global, rounds: u32, piece: usize, stream: &[u8]) -> Mem<Count> {
    let mut source = Fresh::new(alloc);
    let mut decoder = Decoder::new(alloc);
    let mut all = Count {
        frames: 0,
        bytes: 0,
    };
    for _ in 0..rounds {
        for part in stream.chunks(piece.max(1)) {
            match decoder.feed(part, &mut source) {
                Ok(frames) => all = counted(all, &frames),
                Err(_) => return Err(NoMemory),
            }
        }
    }
    Ok(all)
}

/// Decodes frames of 64 KiB, 16 a round, in pieces of `piece` bytes; the line has the numbers of frames and bytes. Takes memory.
pub fn frame_line(alloc: Global, rounds: u32, piece: u32) -> Mem<String> {
    let bytes = stream(alloc)?;
    let all = decoded(alloc, rounds, piece as usize, &bytes)?;
    Ok(format!(in alloc; "{} frames, {} bytes", all.frames, all.bytes)?)
}
