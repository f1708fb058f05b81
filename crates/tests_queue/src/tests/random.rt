// A queue compared with the list of its writes.
ghost use Rattle.std.specs.Prelude.{◌≡◌, ◌<◌, ◌≤◌, IfOk, length};

use crate::tests::blocks::{Counting, packed};
use crate::tests::former::{Ended, Former, LAST};
use px_block::Blocks;
use px_queue::{FrameQueue, Pushed, Span};
use px_types::Mem;
use std::alloc::Global;

// A number below `sides` that looks random, by a rule of George Marsaglia (xorshift, 2003).
fn throw(dice: &mut u64, sides: u64) -> u64
    requires { 1 ≤ sides }
    ensures { result < sides }
{
    let mut x = *dice;
    x ^= x << 13;
    x ^= x >> 7;
    x ^= x << 17;
    *dice = x;
    (x >> 11) % sides
}

// `count` bytes that count up from `byte`, in one block.
fn counted(alloc: Global, count: u32, byte: u8) -> Mem<Blocks>
    requires { count ≤ 40 }
    ensures { IfOk result (λ made. length made ≡ count) }
{
    let mut bytes = [0u8; 40];
    for (place, cell) in bytes.iter_mut().enumerate() {
        *cell = byte.wrapping_add((place & 255) as u8);
    }
    let mut made = packed(alloc, &bytes[..count as usize])?;
    made.fit();
    Ok(made)
}

fn ending_of(pushed: Pushed) -> Ended {
    match pushed {
        Pushed::Stored => Ended::Stored,
        Pushed::Overflow { end, limit: _ } => Ended::Over(end),
        Pushed::Outside { at: _ } => Ended::Outside,
    }
}

// Writes the same frames into both, and returns whether it ended alike, and the number of blocks.
fn write_both(
    alloc: Global,
    dice: &mut u64,
    queue: &mut FrameQueue,
    former: &mut Former,
    source: &mut Counting,
) -> Mem<(bool, u32)>
    requires { queue.old.frame ≡ 1 }
    ensures { queue.new.frame ≡ 1 }
{
    let (seek, offset) = match throw(dice, 128) {
        0 => (throw(dice, 4) as u8, LAST),
        1..=31 => (throw(dice, 4) as u8, throw(dice, 80) as i64 - 40),
        _ => (0, 0),
    };
    let count = throw(dice, 41) as u32;
    let byte = throw(dice, 256) as u8;
    let ahead = former.read;
    queue.reserve(1, 1)?;
    let made = counted(alloc, count, byte)?;
    let pushed = queue.push(seek, offset, made, count, ahead, 200, source);
    let there = former.push(seek, offset, count as i64, byte, 200)?;
    Ok((ending_of(pushed) == there, if count > 0 { 1 } else { 0 }))
}

// Whether `bytes` are those of the frames from index `from` on.
fn are_there(former: &Former, from: i64, bytes: &[u8]) -> bool {
    let mut places = bytes.iter().enumerate();
    places.all(|(place, byte)| former.frame(from.wrapping_add(place as i64)) == Some(*byte))
}

fn are_silent(former: &Former, from: i64, count: u32) -> bool {
    (0..count).all(|place| former.frame(from.wrapping_add(place as i64)).is_none())
}

// Whether a peek at place `k` agrees with the list of writes, and the number of frames that it shows.
fn agrees(queue: &FrameQueue, former: &Former, k: u32) -> (bool, u32)
    requires { queue.now.frame ≡ 1 }
{
    let mut out = [0u8; 16];
    let from = former.read.wrapping_add(k as i64);
    match queue.peek(k, &mut out) {
        Span::Nothing => (from >= former.edge(), 0),
        Span::Silence(count) => (are_silent(former, from, count), count),
        Span::Frames(count) => {
            let some = (count as usize).min(out.len());
            (are_there(former, from, &out[..some]), count)
        }
    }
}

// Whether both agree in their indices and frames.
fn agree(queue: &FrameQueue, former: &Former) -> bool
    requires { queue.now.frame ≡ 1 }
{
    let mut alike = queue.read_index() == former.read
        && queue.write_index() == former.write
        && queue.end_index() == former.edge();
    let mut k = 0;
    for _ in 0..400 {
        let (same, count) = agrees(queue, former, k);
        alike = alike && same;
        if count == 0 {
            return alike;
        }
        k = k.saturating_add(count);
    }
    alike
}

// Makes `writes` writes into both, and turns of up to 30 frames between them. Returns whether all agreed, and the number of blocks written.
fn written(
    alloc: Global,
    queue: &mut FrameQueue,
    source: &mut Counting,
    writes: u32,
) -> Mem<(bool, u32)>
    requires { queue.old.frame ≡ 1 }
{
    let mut dice = 88_172_645_463_325_252;
    let mut former = Former::new(alloc);
    let mut alike = true;
    let mut brought = 0u32;
    for _ in 0..writes {
        let (same, more) = write_both(alloc, &mut dice, queue, &mut former, source)?;
        brought = brought.saturating_add(more);
        alike = alike && same && agree(queue, &former);
        let frames = throw(&mut dice, 30);
        queue.settle(frames, source);
        former.settle(frames as i64);
        alike = alike && agree(queue, &former);
    }
    queue.flush(source);
    Ok((alike, brought))
}

#[test]
fn a_queue_is_the_list_of_its_writes(rt: HostRuntime) -> Mem<()> {
    let mut source = Counting::new(rt.alloc());
    let mut queue = FrameQueue::new(rt.alloc(), 1);
    let (alike, brought) = written(rt.alloc(), &mut queue, &mut source, 2_000)?;
    assert!(rt; alike && brought == source.back);
    Ok(())
}
