// A frame that lies in two blocks.
ghost use Rattle.std.specs.Prelude.{◌≡◌, ◌+◌, ◌≤◌, length, IfOk, OnOk};

use crate::tests::blocks::Counting;
use px_block::{Blocks, Fresh};
use px_queue::{FrameQueue, Pushed, Span};
use px_types::{Mem, NoMemory};
use std::alloc::Global;

// Frames of three bytes, the last but one of which begins with the last byte of the first block.
const FRAMES: u32 = 21_847;

// Appends bytes, as far as the last block takes them.
fn put(alloc: Global, made: &mut Blocks, bytes: &[u8]) -> Mem<()>
    ensures { OnOk result (length made.new ≤ length made.old + length bytes.now) }
{
    match made.put(&mut Fresh::new(alloc), bytes) {
        Ok(_) => Ok(()),
        Err(_) => Err(NoMemory),
    }
}

// Zeros up to the last byte of the first block, which is `a`, and `bcdef` in the second.
fn in_two(alloc: Global) -> Mem<Blocks>
    ensures { IfOk result (λ made. length made ≤ 65_541) }
{
    let zeros = vec![in alloc; 0; 65_535]?;
    let mut made = Blocks::new(alloc);
    put(alloc, &mut made, zeros.as_slice())?;
    put(alloc, &mut made, b"a")?;
    put(alloc, &mut made, b"bcdef")?;
    Ok(made)
}

// Frames are lent where they lie whole in one block: the last ones in the first block, none across both, and the one in the second.
fn are_lent(queue: &FrameQueue) -> bool {
    let first = queue.lend(FRAMES - 3, 3) == b"\0\0\0".as_slice();
    let both = queue.lend(FRAMES - 2, 2).is_empty();
    first && both && queue.lend(FRAMES - 1, 2) == b"def".as_slice()
}

// Both frames at the end are read, the first of them out of both blocks; the first block is released with that frame.
fn are_read(queue: &mut FrameQueue, source: &mut Counting) -> bool
    requires { queue.old.frame ≡ 3 }
{
    let mut out = [0; 6];
    let read = queue.peek(FRAMES - 2, &mut out) == Span::Frames(2) && out == *b"abcdef";
    let some = queue.settle((FRAMES - 2) as u64, source) > 0 && source.back == 0;
    let past = queue.settle(1, source) == 1 && source.back == 1;
    read && some && past
}

// Writes these frames, and returns whether they are held.
fn are_held(alloc: Global, queue: &mut FrameQueue, source: &mut Counting) -> Mem<bool>
    requires { queue.old.frame ≡ 3 }
    ensures { queue.new.frame ≡ 3 }
{
    queue.reserve(1, 2)?;
    let made = in_two(alloc)?;
    Ok(
        made.len() == 65_541
            && queue.push(1, 0, made, FRAMES, 0, i64::MAX, source) == Pushed::Stored,
    )
}

#[test]
fn a_frame_in_two_blocks_is_read_whole(rt: HostRuntime) {
    let mut source = Counting::new(rt.alloc());
    let mut queue = FrameQueue::new(rt.alloc(), 3);
    let held = are_held(rt.alloc(), &mut queue, &mut source);
    let lent = are_lent(&queue);
    assert!(rt; matches!(held, Ok(true)) && lent && are_read(&mut queue, &mut source));
}
