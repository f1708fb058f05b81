// Writes that wait, read in turns.
ghost use Rattle.std.specs.Prelude.{◌≡◌, ℕ, ◌*◌, ◌≤◌, length, IfOk};

use px_block::{Blocks, Fresh};
use px_queue::{FrameQueue, Span};
use px_types::{Mem, NoMemory};
use std::alloc::Global;

// The frames of a turn, of four bytes each.
const TURN: u32 = 480;

// The most frames of a write, which one block holds.
const MOST: u32 = 16_384;

// The bytes that writes are cut from.
fn sound(bytes: &mut [u8]) {
    for (place, byte) in bytes.iter_mut().enumerate() {
        *byte = (place % 251) as u8;
    }
}

// These bytes in a block that is fitted to them.
fn fitted(alloc: Global, source: &mut Fresh, bytes: &[u8]) -> px_block::Mem<Blocks>
    requires { length bytes.now ≤ 65_536 }
    ensures { IfOk result (λ blocks. blocks ≡ bytes.now) }
{
    let mut blocks = Blocks::new(alloc);
    blocks.put(source, bytes)?;
    blocks.fit();
    Ok(blocks)
}

// Pushes one more write.
fn push(
    alloc: Global,
    queue: &mut FrameQueue,
    source: &mut Fresh,
    bytes: &[u8],
    frames: u32,
) -> Mem<()>
    requires frame { queue.old.frame ≡ 4 }
    requires few { length bytes.now ≤ 65_536 }
    requires whole { length bytes.now ≡ frames * 4 }
    ensures { queue.new.frame ≡ 4 }
{
    queue.reserve(1, 1)?;
    let Ok(blocks) = fitted(alloc, source, bytes) else {
        return Err(NoMemory);
    };
    let ahead = queue.read_index();
    queue.push(0, 0, blocks, frames, ahead, i64::MAX, source);
    Ok(())
}

// Reads and drops a turn's bytes, and returns their sum.
fn turn(queue: &mut FrameQueue, source: &mut Fresh, out: &mut [u8]) -> u64
    requires frame { queue.old.frame ≡ 4 }
    requires size { length out.old ≡ 1_920 }
    ensures { queue.new.frame ≡ 4 }
{
    let mut sum = 0u64;
    if let Span::Frames(_) = queue.peek(0, out) {
        for byte in out.iter() {
            sum = sum.wrapping_add(*byte as u64);
        }
    }
    queue.settle(TURN as u64, source);
    sum
}

// Pushes writes until `waiting` frames wait, and returns the number of writes so far.
fn fill(
    alloc: Global,
    queue: &mut FrameQueue,
    source: &mut Fresh,
    sound: &[u8],
    frames: u32,
    waiting: u32,
    before: u32,
) -> Mem<u32>
    requires frame { queue.old.frame ≡ 4 }
    requires few { frames ≤ 16_384 }
    requires sound { length sound.now ≡ 66_048 }
    ensures { queue.new.frame ≡ 4 }
{
    let mut writes = before;
    for _ in 0..waiting {
        if queue.end_index().wrapping_sub(queue.read_index()) >= waiting as i64 {
            return Ok(writes);
        }
        let from = (writes % 256) as usize;
        push(
            alloc,
            queue,
            source,
            &sound[from..from + frames as usize * 4],
            frames,
        )?;
        writes = writes.wrapping_add(1);
    }
    Ok(writes)
}

/// Reads `turns` turns of 480 frames, each after writes of `frames` frames until `waiting` wait; the line has the number of writes and the sum of all
/// bytes that were read. Takes memory.
pub fn queue_line(alloc: Global, turns: u32, frames: u32, waiting: u32) -> Mem<String> {
    let mut bytes = vec![in alloc; 0u8; 66_048]?;
    sound(bytes.as_mut_slice());
    let (writes, sum) = played(alloc, &bytes, turns, frames.min(MOST), waiting)?;
    Ok(format!(in alloc; "{} writes, {} in all", writes, sum)?)
}

fn played(alloc: Global, sound: &[u8], turns: u32, frames: u32, waiting: u32) -> Mem<(u32, u64)>
    requires few { frames ≤ 16_384 }
    requires sound { length sound.now ≡ 66_048 }
{
    let mut source = Fresh::new(alloc);
    let mut queue = FrameQueue::new(alloc, 4);
    let mut out = [0; 1_920];
    let mut writes = 0;
    let mut sum = 0u64;
    for _ in 0..turns {
        writes = fill(
            alloc,
            &mut queue,
            &mut source,
            sound,
            frames,
            waiting,
            writes,
        )?;
        sum = sum.wrapping_add(turn(&mut queue, &mut source, &mut out));
    }
    Ok((writes, sum))
}
